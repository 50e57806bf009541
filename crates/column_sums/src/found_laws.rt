ghost use Rattle.std.specs.Prelude.{◌≡◌, ◌≤◌, ℕ, ℤ, pos, ◌≤ℤ◌, Bool, Option, List, length};
ghost use Rattle.position_rank.specs.Placement.{Placement};
ghost use Rattle.roll_table.specs.Rolls.{Dice, IsRoll, all_rolls};
ghost use Rattle.move_rules.specs.Ends.{legal_ends};
ghost use Rattle.move_rules.specs.Listing.{Among};
ghost use Rattle.directed_fixed.specs.declared.bounds.End.{End};
ghost use Rattle.cube_actions.specs.Stakes.{Terms, kind_at, IsValid};
ghost use Rattle.turn_rule.specs.Looks.{Source, Notes, AreStakesOf};
ghost use Rattle.turn_rule.specs.States.{IsStateOf};
ghost use Rattle.turn_rule.specs.Found.{IsFoundOf, of_play, of_sum};
ghost use Rattle.turn_rule.specs.Layouts.{AreLayouts};
ghost use Rattle.column_sums.specs.AfterHits.{AreDistinct, AreClosedByHits, IsLayer};
ghost use Rattle.column_sums.specs.Cascade.{best_sum};
ghost use Rattle.column_sums.specs.FoundCells.{AreFoundCells};
ghost use Rattle.column_sums.specs.Tables.{IsRow, IsNeededRow};

/// What was found of the ends of all rolls, each as it was looked up, makes the sum over the rolls found.
pub fn found_ends_give_the_sum()
    ensures { (end : End) (source : Source) (stakes : Terms) (noted : Notes) (p : Placement) (k : ℕ)
        (value : Placement → ℤ)
        → pos 0 ≤ℤ source.bound
        → ((roll : Dice) (q : Placement) → IsRoll roll → Among q (legal_ends p roll)
        → IsFoundOf end (of_play (kind_at stakes k) q) source noted (value q))
        → IsFoundOf end (of_sum stakes p k) source noted (best_sum all_rolls value p) }
{}

/// What was looked up cell by cell, where it is needed, makes the sums of a column found, at one end in a kind. A sum is the same for all values
/// that have this row: so each end of a legal play is in a cell that is needed.
pub fn found_cells_give_the_sum()
    ensures { (end : End) (source : Source) (stakes : Terms) (noted : Notes) (k : ℕ)
        (layouts others : List (List ℕ)) (needed : List Bool) (row : List (Option ℤ))
        → IsValid stakes
        → AreStakesOf source stakes
        → AreLayouts source.checkers layouts → length layouts ≤ 3276 → length others ≤ 8
        → AreDistinct others → AreClosedByHits others → IsRow row
        → AreFoundCells end source noted (kind_at stakes k) layouts others needed row
        → (p : Placement) → IsStateOf source.checkers source.kinds p k → IsLayer others p.other
        → (sum : ℤ)
        → ((value : Placement → ℤ) → IsNeededRow value layouts others needed row
        → sum ≡ best_sum all_rolls value p)
        → IsFoundOf end (of_sum stakes p k) source noted sum }
{}
