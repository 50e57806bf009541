ghost use Rattle.std.specs.Prelude.{◌≡◌, ℕ, IsTrue, IsOk, Result};
ghost use Rattle.position_rank.specs.Placement.{Placement};
ghost use Rattle.directed_fixed.specs.declared.bounds.End.{End};
ghost use Rattle.directed_fixed.specs.Bounds.{Bounds};
ghost use Rattle.turn_rule.specs.Following.{AgreeOn};
ghost use Rattle.hyper_outside.specs.declared.outside.LookStop.{LookStop};
ghost use Rattle.cube_actions.specs.Stakes.{Terms};
ghost use Rattle.turn_rule.specs.Turn.{turn};
ghost use Rattle.turn_rule.specs.States.{pair_of};
ghost use Rattle.turn_rule.specs.Looks.{
  Notes,
  Source,
  Seen,
  FindsPair,
  IsRollPair,
  IsTurnPair,
  MayFollow,
  MayFollowTurn,
  of_roll,
  of_turn,
  roll_pair,
};

/// Where a source's floor and its notes are the same words on the states that may follow, the pair
/// of a turn is the turn over these words.
pub fn one_list_gives_the_turn()
    ensures { (source : Source) (noted : Notes) (stakes : Terms) (p : Placement) (k : ℕ)
        (pair : Bounds)
        → IsTrue noted.told
        → ((end : End) → AgreeOn (MayFollowTurn stakes p k) end source.floor noted.words)
        → IsTurnPair stakes p k source noted pair → pair ≡ pair_of (turn stakes noted.words) p k }
{}

/// Where a source's floor and its notes are the same words on the states that may follow, the pair
/// of rolling is what rolling is worth over these words.
pub fn one_list_gives_the_roll()
    ensures { (source : Source) (noted : Notes) (stakes : Terms) (p : Placement) (k factor : ℕ)
        (pair : Bounds)
        → IsTrue noted.told
        → ((end : End) → AgreeOn (MayFollow stakes p k) end source.floor noted.words)
        → IsRollPair stakes p k factor source noted pair
        → pair ≡ roll_pair stakes noted.words p k factor }
{}

/// Over a sure source a turn and a roll are answered.
pub fn sure_sources_answer()
    ensures turn { (old new : Seen) (stakes : Terms) (p : Placement) (k : ℕ)
        (result : Result Bounds LookStop)
        → IsTrue old.source.sure → FindsPair (of_turn stakes p k) old new result → IsOk result }
    ensures roll { (old new : Seen) (stakes : Terms) (p : Placement) (k factor : ℕ)
        (result : Result Bounds LookStop)
        → IsTrue old.source.sure → FindsPair (of_roll stakes p k factor) old new result
        → IsOk result }
{}
