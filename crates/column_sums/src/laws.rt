ghost use Rattle.std.specs.Prelude.{◌≡◌, ◌≤◌, ◌<◌, ℕ, ℤ, Bool, [], Option, Some, None, List, length, sum};
ghost use Rattle.position_rank.specs.Placement.{Placement};
ghost use Rattle.roll_table.specs.Rolls.{Dice, IsRoll, all_rolls};
ghost use Rattle.move_rules.specs.Ends.{after_move, places, legal_ends};
ghost use Rattle.move_rules.specs.Listing.{full};
ghost use Rattle.turn_rule.specs.Turn.{greatest, sum_over};
ghost use Rattle.turn_rule.specs.Layouts.{AreLayouts};
ghost use Rattle.column_sums.specs.AfterHits.{AreDistinct};
ghost use Rattle.column_sums.specs.Cascade.{over_places, best_over, best_of_roll, best_sum, greatest_if_any, line_ends};
ghost use Rattle.column_sums.specs.Columns.{Step, step_from, landed_if, steps_from, over_steps, AreStruck};
ghost use Rattle.column_sums.specs.Tables.{IsRow, IsNeededRow};
ghost use Rattle.column_sums.specs.Values.{cell_value};

/// What is found die by die is the greatest value of the ends of the lines that use these dice, or missing where there is none.
pub fn lines_are_searched()
    ensures { (value : Placement → ℤ) (dice : List ℕ) (p : Placement)
        → greatest_if_any value (line_ends (full dice [] p)) ≡ best_over value dice p }
{}

/// Whether a value is missing doesn't depend on the values.
pub fn missing_values_are_missing()
    ensures { (f g : Placement → ℤ) (dice : List ℕ) (p : Placement)
        → best_over f dice p ≡ None → best_over g dice p ≡ None }
{}

/// The greatest value of the ends of a roll's legal plays is found die by die.
pub fn best_rolls_are_greatest()
    ensures { (value : Placement → ℤ) (p : Placement) (roll : Dice) → IsRoll roll
        → greatest value (legal_ends p roll) ≡ best_of_roll value p roll }
{}

/// So is the sum over all rolls.
pub fn best_sums_are_sums()
    ensures { (value : Placement → ℤ) (p : Placement)
        → sum_over all_rolls value p ≡ best_sum all_rolls value p }
{}

/// A move is a step of the mover's checkers alone, where the other side has at most one checker on the point that it comes to.
pub fn moves_are_steps()
    ensures one { (p : Placement) (die from : ℕ)
        → after_move p die from ≡ landed_if p.other (step_from p.mover die from) }
    ensures all { (later : Placement → Option ℤ) (p : Placement) (die : ℕ)
        → over_places later p die places
        ≡ over_steps later p.other (steps_from p.mover die places) }
{}

/// A move leaves the other side's checkers as they are, or one of them that stood alone goes to the bar.
pub fn moves_strike_one()
    ensures { (p : Placement) (die from : ℕ) (q : Placement) → 1 ≤ die → 1 ≤ from → from ≤ 25
        → after_move p die from ≡ Some q → AreStruck p.other q.other }
{}

/// A step leaves the mover as many checkers, and by one die there are no more steps than checkers.
pub fn steps_stay()
    ensures step { (mover : List ℕ) (die from : ℕ) (step : Step)
        → length mover ≡ 26 → 1 ≤ from → from ≤ 25
        → step_from mover die from ≡ Some step → (length step.mover ≡ 26) × (sum step.mover
        ≡ sum mover) }
    ensures few { (mover : List ℕ) (die : ℕ) → length mover ≡ 26
        → length (steps_from mover die places) ≤ sum mover }
{}

/// A row is that of a function of placements, where the layers are distinct.
pub fn rows_have_values()
    ensures { (checkers : ℕ) (layouts others : List (List ℕ)) (needed : List Bool)
        (row : List (Option ℤ)) → AreLayouts checkers layouts → length layouts ≤ 3276 → length others ≤ 8
        → AreDistinct others → IsRow row
        → IsNeededRow (cell_value others row) layouts others needed row }
{}
