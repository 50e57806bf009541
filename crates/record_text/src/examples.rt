ghost use Rattle.std.specs.Prelude.{◌≡◌, codes, Some, None};
ghost use Rattle.game_record.specs.declared.player.Player.TheVariants.{A, B};
ghost use Rattle.game_record.specs.declared.fault.RecordFault.TheVariants.{Shape, Order};
ghost use Rattle.game_record.specs.Turns.{first_stage};
ghost use Rattle.record_text.specs.Forms.{form_of, TitleForm, StakesForm, MatchForm, AwayForm, RollForm, EndForm};
ghost use Rattle.record_text.specs.Faults.{IsLineFault};

/// The forms of lines.
pub fn shape_examples()
    ensures title { form_of (codes "hypergammon record 1") ≡ Some TitleForm }
    ensures no_title { form_of (codes "hypergammon record 2") ≡ None }
    ensures roll { form_of (codes "A 31 24/21 21/20")
        ≡ Some (RollForm A (codes "31") (codes "24/21 21/20")) }
    ensures any_digit { form_of (codes "B 9x -") ≡ Some (RollForm B (codes "9x") (codes "-")) }
    ensures doubled_space { form_of (codes "A 31 24/21  21/20") ≡ None }
    ensures space_behind { form_of (codes "A 31 24/21 ") ≡ None }
    ensures no_play { form_of (codes "A 31") ≡ None }
    ensures no_player { form_of (codes "C double") ≡ None }
    ensures no_length { form_of (codes "stakes match") ≡ Some (StakesForm (codes "match")) }
    ensures length { form_of (codes "stakes match 7") ≡ Some (MatchForm (codes "7")) }
    ensures away { form_of (codes "game 2 away 2 1")
        ≡ Some (AwayForm (codes "2") (codes "2") (codes "1")) }
    ensures half_away { form_of (codes "game 2 away 2") ≡ None }
    ensures end { form_of (codes "end B 2") ≡ Some (EndForm B (codes "2")) }
    ensures empty { form_of (codes "") ≡ None }
{}

/// The first thing that is wrong with a line.
pub fn wrong_examples()
    ensures shape { IsLineFault first_stage (codes "checkers") Shape }
    ensures order { IsLineFault first_stage (codes "checkers 7") Order }
{}
