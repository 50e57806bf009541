ghost use Rattle.std.specs.Prelude.{◌≡◌, ◌^◌, ◌*ℤ◌, ℕ, pos, neg_ℤ, [], ◌∷◌};
ghost use Rattle.position_rank.specs.Placement.{Placement};
ghost use Rattle.position_rank.specs.Examples.{placed, off};
ghost use Rattle.directed_fixed.specs.declared.bounds.End.TheVariants.{Lower, Upper};
ghost use Rattle.cube_actions.specs.Money.{beaver, cubeless, double_of, take};
ghost use Rattle.cube_actions.specs.Stakes.{Terms, exactly};
ghost use Rattle.turn_rule.specs.Games.{game_of};
ghost use Rattle.turn_rule.specs.Turn.{turn};
ghost use Rattle.turn_rule.specs.Exact.{exact};
ghost use Rattle.turn_rule.specs.Truth.{AreNoLooserStakes, Encloses, EnclosesAt, InTheEnd, IsBoundAt, IsBoundOf, IsScoring};
ghost use Rattle.worked_examples.specs.Turns.{gains, jacoby, jacoby_beavers, losses, doubling_game, vague_game, win_points, scored, cut_off_at, points_won, games_won, jacoby_won, rolled_first, doubled_first};

/// Scorings of the game without a cube and of the doubling game: an unfinished end may be worth
/// three points and no more, and a gammon counts two points in the one and one in the other.
pub fn scoring_examples()
    ensures cubeless { IsScoring (game_of 1 cubeless) (cut_off_at (pos 3)) }
    ensures doubling { IsScoring (game_of 1 doubling_game)
        (scored (win_points 1 1 1) (neg_ℤ (pos 3))) }
    ensures unfinished_beyond { ¬ IsScoring (game_of 1 cubeless) (cut_off_at (pos 4)) }
    ensures gammon_for_one { ¬ IsScoring (game_of 1 cubeless) (scored (win_points 1 1 3) (pos 0)) }
{}

/// Games without a cube that are cut off, after one turn over 36, and after two over 36 * 36 =
/// 1296. From 6 there are 27 rolls of 36 that win a gammon: 54 points, where an unfinished end is
/// worth nothing. A second turn lets the other side win one after the other 9 rolls: 18 * 36 = 648
/// gammons are left, which are 1296 points. From 5 there are 31 rolls, and each win is a single
/// one: 26 * 36 = 936. From 24 only double sixes win, 3 points. Where an unfinished end is then
/// worth a point to the other side, whose turn it is, the other 35 rolls lose 35 points; where it
/// costs that side two, they win 70.
pub fn exact_examples()
    ensures cut_off_at_once { (p : Placement) (k : ℕ)
        → exact cubeless (cut_off_at (pos 2)) 0 p k ≡ pos 2 }
    ensures one_roll_ahead { exact cubeless points_won 1 (placed (6 ∷ []) (1 ∷ [])) 0 ≡ pos 54 }
    ensures both_rolls_ahead { exact cubeless points_won 2 (placed (6 ∷ []) (1 ∷ [])) 0 ≡ pos 1296 }
    ensures single_wins { exact cubeless points_won 2 (placed (5 ∷ off ∷ []) (1 ∷ off ∷ [])) 0
        ≡ pos 936 }
    ensures unfinished_is_lost { exact cubeless (cut_off_at (pos 1)) 1
        (placed (24 ∷ []) (24 ∷ [])) 0 ≡ neg_ℤ (pos 32) }
    ensures unfinished_is_won { exact cubeless (cut_off_at (neg_ℤ (pos 2))) 1
        (placed (24 ∷ []) (24 ∷ [])) 0 ≡ pos 73 }
{}

/// Two turns of the doubling game, where the other side bears off its last checker at its roll:
/// values over 36 * 36 = 1296. From 5, with 31 winning rolls of 36, a double is passed, which is
/// worth the whole point. From 7 there are 23: it is taken, and doubles 10 * 36 = 360. From 8 there
/// are 17: there is none, and 2 * 36 = 72 are lost.
pub fn exact_doubled_examples()
    ensures passed { exact doubling_game games_won 2 (placed (5 ∷ []) (1 ∷ [])) 0 ≡ pos 1296 }
    ensures taken { exact doubling_game games_won 2 (placed (7 ∷ []) (1 ∷ [])) 0 ≡ pos 720 }
    ensures not_doubled { exact doubling_game games_won 2 (placed (8 ∷ []) (1 ∷ [])) 0
        ≡ neg_ℤ (pos 72) }
{}

/// Two turns with a real cube, values over 1296. The Jacoby rule, from `6 / 1` with the cube
/// centred: 27 rolls win a point and 9 lose one, 18 * 36 = 648. Doubled and taken, each win is a
/// gammon that counts four, and 18 * 4 * 36 = 2592: so the double is passed, for 1296. With
/// beavers, from `8 / 1`, 17 rolls win and 19 lose: -2 * 36 = -72. A take would lose 288 and a
/// beaver 576, so there is no double.
pub fn exact_cube_examples()
    ensures rolling { rolled_first jacoby jacoby_won (placed (6 ∷ []) (1 ∷ [])) 0 ≡ pos 648 }
    ensures pass { pos (36 ^ 2) *ℤ jacoby_won.pass 0 ≡ pos 1296 }
    ensures take { pos 2 *ℤ rolled_first jacoby jacoby_won (placed (6 ∷ []) (1 ∷ [])) 2
        ≡ pos 2592 }
    ensures double { doubled_first jacoby jacoby_won (placed (6 ∷ []) (1 ∷ [])) 0
        (double_of (take ∷ [])) ≡ pos 1296 }
    ensures value { exact jacoby jacoby_won 2 (placed (6 ∷ []) (1 ∷ [])) 0 ≡ pos 1296 }
    ensures behind_rolling { rolled_first jacoby_beavers jacoby_won (placed (8 ∷ []) (1 ∷ [])) 0
        ≡ neg_ℤ (pos 72) }
    ensures behind_take { pos 2 *ℤ rolled_first jacoby_beavers jacoby_won
        (placed (8 ∷ []) (1 ∷ [])) 2 ≡ neg_ℤ (pos 288) }
    ensures behind_beaver { pos 4 *ℤ rolled_first jacoby_beavers jacoby_won
        (placed (8 ∷ []) (1 ∷ [])) 2 ≡ neg_ℤ (pos 576) }
    ensures behind_double { doubled_first jacoby_beavers jacoby_won (placed (8 ∷ []) (1 ∷ [])) 0
        (double_of (take ∷ beaver ∷ [])) ≡ neg_ℤ (pos 576) }
    ensures behind_value { exact jacoby_beavers jacoby_won 2 (placed (8 ∷ []) (1 ∷ [])) 0
        ≡ neg_ℤ (pos 72) }
{}

/// 936 points of 1296 are 3101920824.88.. units, which lie between these two numbers, but not above
/// the greater one nor below the less. A 36th of a point is 119304647.11.. units.
pub fn bound_of_examples()
    ensures between { Encloses (gains 3101920824 3101920825) (pos 936) 1296 }
    ensures not_above { ¬ IsBoundOf Lower (pos 3101920825) (pos 936) 1296 }
    ensures not_below { ¬ IsBoundOf Upper (pos 3101920824) (pos 936) 1296 }
    ensures whole { Encloses (exactly 1) (pos 1296) 1296 }
    ensures lost { Encloses (losses 119304648 119304647) (neg_ℤ (pos 1)) 36 }
    ensures lost_less { ¬ IsBoundOf Lower (neg_ℤ (pos 119304647)) (neg_ℤ (pos 1)) 36 }
{}

/// From 1 each roll wins a gammon, in every game of a turn or more: so in the end two points enclose
/// it. A unit more isn't a lower bound, nor a unit less an upper one.
pub fn sound_examples()
    ensures two_points { InTheEnd (game_of 1 cubeless) (λ scoring turns.
        EnclosesAt cubeless scoring turns (exactly 2) (placed (1 ∷ []) (1 ∷ [])) 0) }
    ensures a_unit_more { ¬ InTheEnd (game_of 1 cubeless) (λ scoring turns.
        IsBoundAt Lower cubeless scoring turns (pos 8589934593) (placed (1 ∷ []) (1 ∷ [])) 0) }
    ensures a_unit_less { ¬ InTheEnd (game_of 1 cubeless) (λ scoring turns.
        IsBoundAt Upper cubeless scoring turns (pos 8589934591) (placed (1 ∷ []) (1 ∷ [])) 0) }
{}

/// All stakes are as tight as they are themselves. A game in which a gammon wins two points is
/// tighter than one in which it wins one to three, and not the other way round. Games with other
/// rights to double can't be compared.
pub fn tighter_examples()
    ensures same { (stakes : Terms) → AreNoLooserStakes stakes stakes }
    ensures known_gammon { AreNoLooserStakes cubeless vague_game }
    ensures vague_gammon { ¬ AreNoLooserStakes vague_game cubeless }
    ensures other_doubles { ¬ AreNoLooserStakes cubeless doubling_game }
{}
