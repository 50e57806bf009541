ghost use Rattle.std.specs.Prelude.{◌≡◌, ◌<◌, ◌↔◌, ◌⊎◌, ℕ, Result, Err, IsOk};
ghost use Rattle.position_rank.specs.Placement.{Placement};
ghost use Rattle.directed_fixed.specs.declared.bounds.End.{End};
ghost use Rattle.turn_rule.specs.States.{IsState};
ghost use Rattle.turn_rule.specs.Truth.{AreConsistent};
ghost use Rattle.interval_words.specs.WordLists.{WordList, words_in_list};
ghost use Rattle.base_verify.specs.declared.finding.Finding.{Finding};
ghost use Rattle.base_verify.specs.declared.finding.VerifyStop.{VerifyStop};
ghost use Rattle.base_verify.specs.declared.finding.VerifyStop.TheVariants.{NoMemory};
ghost use Rattle.base_verify.specs.Findings.{IsFinding, IsFirstFinding, TellsConsistency, told_at, WordComesBefore};

/// Words with a finding aren't consistent.
pub fn findings_tell_inconsistency()
    ensures { (words : WordList) (finding : Finding) → IsFinding words finding
        → ¬ AreConsistent words.game (words_in_list words) }
{}

/// Words have at most one first finding.
pub fn first_findings_are_one()
    ensures { (words : WordList) (one other : Finding) → IsFirstFinding words one
        → IsFirstFinding words other → one ≡ other }
{}

/// One word stands before another exactly where its position has the smaller live rank, or it is of
/// the same position and a smaller kind, or it is the lower word of the same state and the other
/// the upper one.
pub fn words_are_ordered()
    ensures { (words : WordList) (side other : End) (p q : Placement) (k j : ℕ)
        → IsState words.game p k → IsState words.game q j
        → (told_at words side p k < told_at words other q j) ↔ WordComesBefore side p k other q j }
{}

/// Whatever is answered of the same words is the same, but for a lack of memory; of consistent words
/// it is a yes.
pub fn answers_agree()
    ensures same { (words : WordList) (one other : Result (Unit {0}) VerifyStop)
        → TellsConsistency words one → TellsConsistency words other
        → (one ≡ other) ⊎ (one ≡ Err NoMemory) ⊎ (other ≡ Err NoMemory) }
    ensures yes { (words : WordList) (answer : Result (Unit {0}) VerifyStop)
        → AreConsistent words.game (words_in_list words) → TellsConsistency words answer
        → IsOk answer ⊎ (answer ≡ Err NoMemory) }
{}
