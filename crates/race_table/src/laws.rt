ghost use Rattle.std.specs.Prelude.{◌≡◌, ◌↔◌, ◌+◌, ◌<◌, IsTrue, None};
ghost use Rattle.position_rank.specs.Placement.{Placement, IsPosition, IsLive, swap};
ghost use Rattle.roll_table.specs.Rolls.{Dice, IsRoll, all_rolls};
ghost use Rattle.move_rules.specs.Sequences.{IsLegalEnd};
ghost use Rattle.move_rules.specs.Payoff.{points};
ghost use Rattle.race_table.specs.Races.{IsRace, is_race, pips};
ghost use Rattle.race_table.specs.RacePairs.{IsTrueOfRace, race_pair};
ghost use Rattle.race_table.specs.TurnsLeft.{left_after, most_over, turns_left};

/// A live position is a race exactly where the highest places of both sides add up to less than 25.
pub fn highest_places_tell_races()
    ensures { (p : Placement) → IsPosition p → IsLive p → IsTrue (is_race p) ↔ IsRace p }
{}

/// A legal play of a race that doesn't end the game leaves the other side a race.
pub fn races_stay_races()
    ensures { (p : Placement) (roll : Dice) (end : Placement) → IsRace p → IsRoll roll
        → IsLegalEnd p roll end → points end ≡ None → IsRace (swap end) }
{}

/// Each roll of a race moves a checker at least one pip, and none back.
pub fn each_roll_moves_in_a_race()
    ensures { (p : Placement) (roll : Dice) (end : Placement) → IsRace p → IsRoll roll
        → IsLegalEnd p roll end → pips end < pips p }
{}

/// A race may take one turn more than the greatest number that is left after it: over all rolls and
/// legal plays, none where the game has ended, else those of the other side's race.
pub fn turns_left_are_one_more_than_may_follow()
    ensures { (p : Placement) → IsRace p
        → turns_left p ≡ 1 + most_over all_rolls (left_after turns_left) p }
{}

/// The pair of a race encloses what it is worth exactly in every game of at least as many turns as
/// are left, however its unfinished end is scored. It is at least as tight as after any number of
/// rounds, and at most as many units wide as turns are left.
pub fn pairs_of_races_are_true()
    ensures { (p : Placement) → IsRace p → IsTrueOfRace p (race_pair p) }
{}
