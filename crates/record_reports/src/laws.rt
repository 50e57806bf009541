ghost use Rattle.std.specs.Prelude.{◌≡◌, ◌≤ℤ◌, AllPairs, Bool, List, count_by};
ghost use Rattle.record_analysis.specs.declared.analysis.Judged.{Judged as JudgedOne};
ghost use Rattle.record_reports.specs.Full.{lost_at_most, worst_first};

/// The decisions from the worst on are the same decisions, each as often, and none lost more at most than one before it. So no decision that
/// is left out lost more than one that is shown.
pub fn none_left_out_lost_more()
    ensures in_order { (list : List JudgedOne)
        → AllPairs (λ one behind. lost_at_most behind ≤ℤ lost_at_most one) (worst_first list) }
    ensures same { (list : List JudgedOne) (is_such : JudgedOne → Bool)
        → count_by is_such (worst_first list) ≡ count_by is_such list }
{}
