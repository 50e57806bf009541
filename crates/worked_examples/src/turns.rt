ghost use Rattle.std.specs.Prelude.{◌≡◌, ℕ, pos, neg_ℤ, [], ◌∷◌};
ghost use Rattle.position_rank.specs.Placement.{Placement};
ghost use Rattle.position_rank.specs.Examples.{placed, off, bar};
ghost use Rattle.directed_fixed.specs.Rounding.{floor_36, ceil_36};
ghost use Rattle.cube_actions.specs.Money.{cubeless};
ghost use Rattle.cube_actions.specs.Stakes.{IsValid, exactly};
ghost use Rattle.turn_rule.specs.Turn.{bound_words, rounds};
ghost use Rattle.turn_rule.specs.States.{pair_of};
ghost use Rattle.worked_examples.specs.Turns.{between, gains, losses, doubling_game};

/// A 36th of a sum, rounded down and up. There are 2 ^ 32 units to a point.
pub fn rounded_examples()
    ensures whole { floor_36 (pos 72) ≡ pos 2 }
    ensures whole_up { ceil_36 (pos 72) ≡ pos 2 }
    ensures above { floor_36 (pos 73) ≡ pos 2 }
    ensures above_up { ceil_36 (pos 73) ≡ pos 3 }
    ensures least { floor_36 (neg_ℤ (pos 1)) ≡ neg_ℤ (pos 1) }
    ensures least_up { ceil_36 (neg_ℤ (pos 1)) ≡ pos 0 }
    ensures one_win_of_36 { floor_36 (neg_ℤ (pos 438086664192)) ≡ neg_ℤ (pos 12169074006) }
    ensures one_win_of_36_up { ceil_36 (neg_ℤ (pos 438086664192)) ≡ neg_ℤ (pos 12169074005) }
{}

/// Games without a cube. Before the first round a game may be lost or won for three points. From 1
/// each roll bears off the last checker, and wins a gammon, or a backgammon if the other side's
/// checker is on the bar. From 24 only double sixes do, and win a backgammon. From 6 there are 27
/// rolls of 36 that win a gammon; after the other 9 the other side wins one, as the second round
/// finds. From 5 there are 31, and with a checker of each side off, each win is a single one: 26
/// points of 36.
pub fn worked_turns()
    ensures before_the_first_round { (p : Placement) (k : ℕ)
        → pair_of (bound_words cubeless) p k ≡ between 12884901888 12884901888 }
    ensures sure_gammon { pair_of (rounds cubeless 1) (placed (1 ∷ []) (1 ∷ [])) 0 ≡ exactly 2 }
    ensures sure_backgammon { pair_of (rounds cubeless 1) (placed (1 ∷ []) (bar ∷ [])) 0
        ≡ exactly 3 }
    ensures only_double_sixes { pair_of (rounds cubeless 1) (placed (24 ∷ []) (24 ∷ [])) 0
        ≡ between 12169074006 12884901888 }
    ensures one_roll_ahead { pair_of (rounds cubeless 1) (placed (6 ∷ []) (1 ∷ [])) 0
        ≡ gains 3221225472 9663676416 }
    ensures both_rolls_ahead { pair_of (rounds cubeless 2) (placed (6 ∷ []) (1 ∷ [])) 0
        ≡ exactly 1 }
    ensures rounded_outwards { pair_of (rounds cubeless 2) (placed (5 ∷ off ∷ []) (1 ∷ off ∷ [])) 0
        ≡ gains 3101920824 3101920825 }
{}

/// A game in which the mover may always double, where the other side bears off its last checker at
/// its next roll. From 5, with 31 winning rolls of 36, a double is passed. From 7 there are 23: it
/// is taken, and doubles 10 points of 36. From 8 there are 17: there is none, and 2 points of 36
/// are lost.
pub fn doubled_examples()
    ensures valid { IsValid doubling_game }
    ensures passed { pair_of (rounds doubling_game 2) (placed (5 ∷ []) (1 ∷ [])) 0 ≡ exactly 1 }
    ensures taken { pair_of (rounds doubling_game 2) (placed (7 ∷ []) (1 ∷ [])) 0
        ≡ gains 2386092942 2386092943 }
    ensures not_doubled { pair_of (rounds doubling_game 2) (placed (8 ∷ []) (1 ∷ [])) 0
        ≡ losses 238609295 238609294 }
{}
