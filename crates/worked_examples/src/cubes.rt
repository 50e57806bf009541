ghost use Rattle.std.specs.Prelude.{◌≡◌, pos, ◌∷◌, [], ◌-◌, ℕ, length};
ghost use Rattle.cube_actions.specs.declared.phase.Phase.TheVariants.{Normal, Crawford, Post};
ghost use Rattle.cube_actions.specs.declared.name.MoneyRule.{MoneyRule};
ghost use Rattle.cube_actions.specs.declared.name.StakesName.TheVariants.{Match, Unlimited};
ghost use Rattle.cube_actions.specs.Scores.{AreNeeds, IsPhaseOf, MatchScore};
ghost use Rattle.worked_examples.specs.Turns.{gains};
ghost use Rattle.cube_actions.specs.Money.{cubeless};
ghost use Rattle.cube_actions.specs.Stakes.{IsValid, bound_of, kind_at};
ghost use Rattle.directed_fixed.specs.Bounds.{Bounds};
ghost use Rattle.cube_actions.specs.Ladder.{ladder};
ghost use Rattle.cube_actions.specs.MatchKinds.{match_kinds};
ghost use Rattle.worked_examples.specs.Matches.{needing, one_and_two, one_and_two_kinds, two_and_three, two_and_three_kinds};
ghost use Rattle.cube_actions.specs.Matches.{terms_of};

/// A game without a cube has sound stakes. A win is a point, two or three, of 2 ^ 32 units each.
pub fn cubeless_example()
    ensures valid { IsValid cubeless }
    ensures bound { cubeless.bound ≡ pos 12884901888 }
    ensures stays_alone { (kind_at cubeless 0).next ≡ 0 }
    ensures wins { (kind_at cubeless 0).win
        ≡ gains 4294967296 4294967296 ∷ gains 8589934592 8589934592
        ∷ gains 12884901888 12884901888 ∷ [] }
{}

/// For money a value is at most three points, in a match at most the match, which counts as one.
pub fn bound_examples()
    ensures no_match { (rule : MoneyRule) → bound_of (Unlimited rule) ≡ pos 12884901888 }
    ensures any_match { (score : MatchScore) → bound_of (Match score) ≡ pos 4294967296 }
{}

/// Scores of a match, and numbers that are none.
pub fn score_examples()
    ensures both_need_one { AreNeeds 1 1 }
    ensures most { AreNeeds 5 5 }
    ensures falling { ¬ AreNeeds 2 1 }
    ensures nothing_needed { ¬ AreNeeds 0 1 }
    ensures six_needed { ¬ AreNeeds 1 6 }
    ensures before_crawford { IsPhaseOf 2 2 Normal }
    ensures crawford { IsPhaseOf 1 2 Crawford }
    ensures after_crawford { IsPhaseOf 1 3 Post }
    ensures last_game { IsPhaseOf 1 1 Post }
    ensures crawford_comes_next { ¬ IsPhaseOf 1 2 Normal }
    ensures no_crawford_at_one_each { ¬ IsPhaseOf 1 1 Crawford }
    ensures nobody_needs_one { ¬ IsPhaseOf 2 2 Post }
{}

/// The ladder of a match of three points, and how many scores there are.
pub fn ladder_examples()
    ensures three { ladder 3
        ≡ needing 1 1 Post ∷ needing 1 2 Post ∷ needing 1 2 Crawford ∷ needing 1 3 Crawford
        ∷ needing 2 2 Normal ∷ needing 2 3 Normal ∷ needing 3 3 Normal ∷ [] }
    ensures one { length (ladder 1) ≡ 1 }
    ensures two { length (ladder 2) ≡ 3 }
    ensures four { length (ladder 4) ≡ 12 }
    ensures five { length (ladder 5) ≡ 18 }
{}

/// How many kinds a game of a match has: two where the cube can only be centred, and more where it can be turned.
pub fn kind_count_examples()
    ensures last_game { length (match_kinds (needing 1 1 Post)) ≡ 2 }
    ensures crawford { (far : ℕ) → length (match_kinds (needing 1 far Crawford)) ≡ 2 }
    ensures after_crawford { length (match_kinds (needing 1 2 Post)) ≡ 4 }
    ensures two_each { length (match_kinds (needing 2 2 Normal)) ≡ 6 }
    ensures five_each { length (match_kinds (needing 5 5 Normal)) ≡ 14 }
{}

/// Two games of a match, reckoned by hand: 1-2 after the Crawford game, and 2-3 before it.
pub fn match_examples()
    ensures one_and_two { (one_each : Bounds)
        → (terms_of one_and_two (record { match_length = 3; pairs = one_each ∷ [] })).kinds
        ≡ one_and_two_kinds one_each }
    ensures two_and_three { (post_1 post_2 crawford_2 crawford_3 two_each : Bounds)
        → (terms_of two_and_three (record {
          match_length = 3;
          pairs = post_1 ∷ post_2 ∷ crawford_2 ∷ crawford_3 ∷ two_each ∷ [];
        })).kinds
        ≡ two_and_three_kinds crawford_2 crawford_3 two_each }
{}
