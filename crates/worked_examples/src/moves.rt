ghost use Rattle.std.specs.Prelude.{◌≡◌, [], ◌∷◌, Some, None, codes};
ghost use Rattle.position_rank.specs.Placement.{Placement, swap};
ghost use Rattle.move_rules.specs.Moves.{IsMove};
ghost use Rattle.move_rules.specs.Ends.{legal_lines, legal_ends};
ghost use Rattle.position_rank.specs.Examples.{placed, off, bar};
ghost use Rattle.worked_examples.specs.Moves.{roll, by};
ghost use Rattle.move_rules.specs.declared.payoff.Won.TheVariants.{Single, Gammon, Backgammon};
ghost use Rattle.move_rules.specs.Payoff.{points};
ghost use Rattle.play_text.specs.Notation.{play_text};

/// Rolls whose legal sequences can be found by hand.
pub fn worked_plays()
    ensures both_dice_are_used { legal_ends (placed (2 ∷ []) (24 ∷ [])) (roll 2 1)
        ≡ placed (off ∷ []) (bar ∷ []) ∷ [] }
    ensures only_in_this_order { legal_lines (placed (2 ∷ []) (24 ∷ [])) (roll 2 1)
        ≡ (by 1 2 ∷ by 2 1 ∷ [], placed (off ∷ []) (bar ∷ [])) ∷ [] }
    ensures either_but_not_both { legal_ends (placed (20 ∷ off ∷ []) (13 ∷ 13 ∷ [])) (roll 5 3)
        ≡ placed (15 ∷ off ∷ []) (13 ∷ 13 ∷ []) ∷ [] }
    ensures lower_where_the_higher_cannot { legal_ends
        (placed (bar ∷ bar ∷ []) (6 ∷ 6 ∷ [])) (roll 6 5)
        ≡ placed (bar ∷ 20 ∷ []) (6 ∷ 6 ∷ []) ∷ [] }
    ensures shut_out { legal_ends (placed (bar ∷ 6 ∷ []) (1 ∷ 1 ∷ [])) (roll 1 1)
        ≡ placed (bar ∷ 6 ∷ []) (1 ∷ 1 ∷ []) ∷ [] }
    ensures last_checker_by_the_higher { legal_lines (placed (1 ∷ []) (1 ∷ [])) (roll 3 2)
        ≡ (by 3 1 ∷ [], placed (off ∷ []) (1 ∷ [])) ∷ [] }
    ensures bar_enters_first { legal_lines (placed (bar ∷ []) (4 ∷ [])) (roll 4 1)
        ≡ (by 4 25 ∷ by 1 21 ∷ [], placed (20 ∷ []) (bar ∷ []))
        ∷ (by 1 25 ∷ by 4 24 ∷ [], placed (20 ∷ []) (4 ∷ []))
        ∷ [] }
    ensures four_moves { legal_ends (placed (24 ∷ []) (24 ∷ [])) (roll 6 6)
        ≡ placed (off ∷ []) (24 ∷ []) ∷ [] }
    ensures as_many_as_can_be { legal_ends (placed (24 ∷ []) (13 ∷ 13 ∷ [])) (roll 6 6)
        ≡ placed (18 ∷ []) (13 ∷ 13 ∷ []) ∷ [] }
{}

/// Moves of one checker.
pub fn worked_moves()
    ensures hits { IsMove (placed (6 ∷ []) (22 ∷ [])) 3 6 (placed (3 ∷ []) (bar ∷ [])) }
    ensures from_the_bar { IsMove (placed (bar ∷ []) (6 ∷ [])) 5 25 (placed (20 ∷ []) (6 ∷ [])) }
    ensures closed { (q : Placement) → IsMove (placed (6 ∷ []) (22 ∷ 22 ∷ [])) 3 6 q → ⊥ }
    ensures bar_first { (q : Placement) → IsMove (placed (bar ∷ 6 ∷ []) (1 ∷ 1 ∷ [])) 3 6 q → ⊥ }
    ensures off_by_the_exact_number { IsMove (placed (4 ∷ 2 ∷ []) (1 ∷ 1 ∷ [])) 2 2
        (placed (4 ∷ off ∷ []) (1 ∷ 1 ∷ [])) }
    ensures off_from_the_highest { IsMove (placed (2 ∷ 1 ∷ []) (1 ∷ 1 ∷ [])) 3 2
        (placed (1 ∷ off ∷ []) (1 ∷ 1 ∷ [])) }
    ensures not_with_one_behind { (q : Placement)
        → IsMove (placed (4 ∷ 2 ∷ []) (1 ∷ 1 ∷ [])) 3 2 q → ⊥ }
    ensures not_with_one_outside { (q : Placement)
        → IsMove (placed (7 ∷ 2 ∷ []) (1 ∷ 1 ∷ [])) 2 2 q → ⊥ }
    ensures sides_exchanged { swap (placed (6 ∷ off ∷ []) (bar ∷ 3 ∷ []))
        ≡ placed (bar ∷ 3 ∷ []) (6 ∷ off ∷ []) }
{}

/// Positions after a play, and how each is won.
pub fn worked_payoffs()
    ensures on_the_bar { points (placed (off ∷ []) (bar ∷ [])) ≡ Some Backgammon }
    ensures far_end_of_the_winners_home { points (placed (off ∷ []) (24 ∷ [])) ≡ Some Backgammon }
    ensures near_end_of_the_winners_home { points (placed (off ∷ []) (19 ∷ [])) ≡ Some Backgammon }
    ensures just_outside_it { points (placed (off ∷ []) (18 ∷ [])) ≡ Some Gammon }
    ensures about_to_bear_off { points (placed (off ∷ []) (1 ∷ [])) ≡ Some Gammon }
    ensures one_of_two_in_the_winners_home { points (placed (off ∷ off ∷ []) (19 ∷ 3 ∷ []))
        ≡ Some Backgammon }
    ensures none_of_three_in_it { points (placed (off ∷ off ∷ off ∷ []) (18 ∷ 12 ∷ 1 ∷ []))
        ≡ Some Gammon }
    ensures one_borne_off { points (placed (off ∷ off ∷ []) (1 ∷ off ∷ [])) ≡ Some Single }
    ensures one_borne_off_and_one_on_the_bar { points
        (placed (off ∷ off ∷ off ∷ []) (bar ∷ bar ∷ off ∷ [])) ≡ Some Single }
    ensures one_checker_left { points (placed (1 ∷ []) (bar ∷ [])) ≡ None }
    ensures one_of_three_left { points (placed (24 ∷ off ∷ off ∷ []) (bar ∷ bar ∷ bar ∷ []))
        ≡ None }
    ensures both_on_the_bar { points (placed (bar ∷ []) (bar ∷ [])) ≡ None }
{}

/// Plays and their texts.
pub fn worked_texts()
    ensures no_moves { play_text (placed (6 ∷ []) (1 ∷ [])) [] ≡ codes "-" }
    ensures hits_on_entering { play_text (placed (bar ∷ []) (4 ∷ [])) (by 4 25 ∷ by 1 21 ∷ [])
        ≡ codes "bar/21* 21/20" }
    ensures hits_with_the_second { play_text (placed (24 ∷ []) (4 ∷ [])) (by 1 24 ∷ by 2 23 ∷ [])
        ≡ codes "24/23 23/21*" }
    ensures bears_off_from_below { play_text
        (placed (2 ∷ 1 ∷ []) (1 ∷ 1 ∷ [])) (by 6 2 ∷ by 1 1 ∷ [])
        ≡ codes "2/off 1/off" }
{}
