ghost use Rattle.std.specs.Prelude.{◌≡◌, pos, neg_ℤ};
ghost use Rattle.cube_actions.specs.declared.phase.Phase.TheVariants.{Normal, Crawford, Post};
ghost use Rattle.cube_actions.specs.declared.side.Side.TheVariants.{Near, Far};
ghost use Rattle.worked_examples.specs.Matches.{needing, two_and_three};
ghost use Rattle.cube_actions.specs.Scores.{last_game};
ghost use Rattle.cube_actions.specs.Stakes.{exactly, nothing};
ghost use Rattle.worked_examples.specs.Turns.{between, gains, losses};
ghost use Rattle.match_scores.specs.Openings.{start_over};
ghost use Rattle.match_scores.specs.Payoffs.{IsMeanStart, exact_win};
ghost use Rattle.worked_examples.specs.Starts.{to_roller, to_near, to_near_second, unknown_starts, near_wins, drawn, match_over, before_crawford, told};

/// Starts of the last game, of one checker a side. A game that the near side is sure to win is worth the match to it,
/// whichever side opens. What whoever rolls next has, as much for both sides, makes no start. Where only the far side's
/// roll tells, 15 openings of 30 count: two units are one, and one unit is a half of one, which is rounded outwards.
pub fn start_examples()
    ensures sure { start_over 1 (to_near (pos 4294967296)) last_game ≡ exactly 1 }
    ensures lost { start_over 1 (to_near (neg_ℤ (pos 4294967296))) last_game
        ≡ losses 4294967296 4294967296 }
    ensures even { start_over 1 (to_roller (pos 1234)) last_game ≡ nothing }
    ensures unknown { start_over 1 unknown_starts last_game ≡ between 4294967296 4294967296 }
    ensures half { start_over 1 (to_near_second (pos 2)) last_game ≡ gains 1 1 }
    ensures rounded { start_over 1 (to_near_second (pos 1)) last_game ≡ gains 0 1 }
{}

/// Exact starts of games of one checker a side. The last game, cut off before its first turn and won by the near side, is
/// worth the match to it. With one turn after the opening, double sixes alone bear the checker off: where near opens, far
/// wins so in one way of 36 and near has 34 of 36 left; where far opens, near has all 36. That is a mean of 35 of 36. At 2-3
/// before the Crawford game far's gammon leads to 1-2, of which it has a half here. After near's 1-2, 1-3 and 1-4, which
/// leave near in far's home, and 2-3 and 5-6, where the double sixes hit, it is a backgammon, which wins the match. Far doesn't
/// double, since near would pass, and is sure to win at 2-2 here. So near has 34 and a half of 36 after 10 openings, 34 after
/// 5, and all 36 after 15.
pub fn exact_start_examples()
    ensures won { IsMeanStart 1 (match_over 0 1 near_wins (λ score. pos 1)) last_game }
    ensures one_turn { IsMeanStart 1 (match_over 1 36 near_wins (λ score. pos 35)) last_game }
    ensures drawn { IsMeanStart 1 (match_over 0 1 drawn (λ score. pos 0)) last_game }
    ensures payoffs { IsMeanStart 1 (match_over 1 2160 near_wins before_crawford) two_and_three }
{}

/// What wins are worth at 2-3 before the Crawford game, where each start is told by the needs of near and far and by 1, 2
/// or 3 for before, in and after the Crawford game. If near wins a point, the next game is 1-3 Crawford, and near stays
/// near. If far wins one, it is 2-2, where near stays near; if far wins two, it is 1-2 Crawford, with far near. Two points
/// of near and three of far win the match. After the Crawford game there is no other.
pub fn exact_win_examples()
    ensures near_one { exact_win 5 told two_and_three Near 1 ≡ pos 132 }
    ensures near_two { exact_win 5 told two_and_three Near 2 ≡ pos 5 }
    ensures far_one { exact_win 5 told two_and_three Far 1 ≡ neg_ℤ (pos 221) }
    ensures far_two { exact_win 5 told two_and_three Far 2 ≡ pos 122 }
    ensures far_four { exact_win 5 told two_and_three Far 4 ≡ pos 5 }
    ensures after_crawford { exact_win 5 told (needing 1 3 Crawford) Far 1 ≡ neg_ℤ (pos 123) }
    ensures later { exact_win 5 told (needing 1 3 Post) Far 2 ≡ neg_ℤ (pos 113) }
    ensures equal { exact_win 5 told (needing 2 2 Normal) Far 1 ≡ pos 122 }
{}
