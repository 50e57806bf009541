ghost use Rattle.std.specs.Prelude.{◌≡◌, true, false, Some, None};
ghost use Rattle.game_record.specs.declared.player.Player.TheVariants.{A, B};
ghost use Rattle.game_record.specs.declared.line.LineKind.TheVariants.{OfGame, OfRoll, OfDouble, OfTake, OfPass, OfStop, OfClose};
ghost use Rattle.game_record.specs.declared.stage.Next.TheVariants.{FirstGame, FirstRoll, Turn, Answer, Roll, End, NextGame, Close, Nothing};
ghost use Rattle.game_record.specs.Turns.{allowed};
ghost use Rattle.cube_actions.specs.declared.name.KindName.TheVariants.{Mine, Theirs, InMatch};
ghost use Rattle.cube_actions.specs.declared.phase.Phase.TheVariants.{Normal, Crawford, Post};
ghost use Rattle.cube_actions.specs.declared.side.Side.TheVariants.{Near, Far};
ghost use Rattle.move_rules.specs.declared.payoff.Won.TheVariants.{Gammon};
ghost use Rattle.cube_actions.specs.declared.action.Answer.TheVariants.{Take, Pass, Beaver};
ghost use Rattle.cube_actions.specs.declared.name.MoneyRule.TheVariants.{Jacoby, Money};
ghost use Rattle.game_record.specs.declared.record.RecordStakes.TheVariants.{Match, Unlimited};
ghost use Rattle.game_record.specs.Cube.{centred, shows, turned};
ghost use Rattle.game_record.specs.Games.{after_answer, counted, has_right, may_double, opening};
ghost use Rattle.game_record.specs.Kinds.{kind_of_turn};
ghost use Rattle.game_record.specs.Standings.{standing_after_win, first_standing, at_score, side_of, standing_at};

/// What may come after what.
pub fn order_examples()
    ensures opening { allowed false FirstRoll (OfRoll B) ≡ Some (Turn A) }
    ensures other_turn { allowed false (Turn A) (OfRoll B) ≡ None }
    ensures double { allowed false (Turn A) (OfDouble A) ≡ Some (Answer B) }
    ensures double_first { allowed false FirstRoll (OfDouble A) ≡ None }
    ensures take { allowed false (Answer B) (OfTake B) ≡ Some (Roll A) }
    ensures own_take { allowed false (Answer B) (OfTake A) ≡ None }
    ensures pass { allowed false (Answer B) (OfPass B) ≡ Some End }
    ensures twice { allowed false (Roll A) (OfDouble A) ≡ None }
    ensures no_away { allowed true FirstGame (OfGame false) ≡ None }
    ensures away { allowed true NextGame (OfGame true) ≡ Some FirstRoll }
    ensures no_game { allowed false FirstGame OfClose ≡ None }
    ensures stop { allowed false (Roll A) OfStop ≡ Some Close }
    ensures behind { allowed false Nothing OfClose ≡ None }
{}

/// How the score of a match moves, and who is near.
pub fn standing_examples()
    ensures begins { first_standing (Match 2) ≡ standing_at 2 2 Normal }
    ensures one_point { first_standing (Match 1) ≡ standing_at 1 1 Post }
    ensures crawford { standing_after_win (standing_at 2 2 Normal) B 1 ≡ standing_at 2 1 Crawford }
    ensures not_yet { standing_after_win (standing_at 3 2 Normal) A 1 ≡ standing_at 2 2 Normal }
    ensures post { standing_after_win (standing_at 2 1 Crawford) A 1 ≡ standing_at 1 1 Post }
    ensures over { standing_after_win (standing_at 2 2 Normal) A 4 ≡ standing_at 0 2 Normal }
    ensures equal { side_of (standing_at 2 2 Normal) A ≡ Near }
    ensures behind { side_of (standing_at 2 1 Crawford) A ≡ Far }
    ensures score { at_score (standing_at 2 1 Crawford)
        ≡ record { near = 1; far = 2; phase = Crawford } }
{}

/// What a win counts, and where the cube is after a double.
pub fn cube_examples()
    ensures centred_gammon { counted (Unlimited Jacoby) centred Gammon ≡ 1 }
    ensures owned_gammon { counted (Unlimited Jacoby) (turned centred 1 A) Gammon ≡ 2 }
    ensures money_gammon { counted (Unlimited Money) centred Gammon ≡ 2 }
    ensures taken { (after_answer B Take (opening 1)).cube ≡ record { turns = 1; owner = Some B } }
    ensures beavered { shows ((after_answer B Beaver (opening 1)).cube) ≡ 4 }
    ensures passed { (after_answer B Pass (opening 1)).won
        ≡ Some (record { winner = A; points = 1 }) }
    ensures pass_leaves_the_cube { (after_answer B Pass (opening 1)).cube ≡ centred }
    ensures first_turn { may_double (Unlimited Money) (standing_at 0 0 Normal) A (opening 1)
        ≡ false }
    ensures crawford { has_right (Match 2) (standing_at 2 1 Crawford) A centred ≡ false }
    ensures enough { has_right (Match 2) (standing_at 2 2 Normal) A (turned centred 1 A) ≡ false }
    ensures theirs { has_right (Unlimited Jacoby) (standing_at 0 0 Normal) A (turned centred 1 B)
        ≡ false }
{}

/// Numbers of kinds, as each player sees them.
pub fn kind_examples()
    ensures mine { kind_of_turn (Unlimited Jacoby) (standing_at 0 0 Normal) A
        (turned centred 1 A) ≡ Mine }
    ensures theirs { kind_of_turn (Unlimited Jacoby) (standing_at 0 0 Normal) A
        (turned centred 1 B) ≡ Theirs }
    ensures near { kind_of_turn (Match 2) (standing_at 2 2 Normal) A (turned centred 1 B)
        ≡ InMatch Near 2 (Some Far) }
    ensures far { kind_of_turn (Match 2) (standing_at 2 2 Normal) B centred ≡ InMatch Far 1 None }
{}
