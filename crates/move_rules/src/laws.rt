ghost use Rattle.std.specs.Prelude.{◌≡◌, ◌↔◌, ◌≤◌, ℕ, Contains, List, sum};
ghost use Rattle.position_rank.specs.Packed.{start_placement};
ghost use Rattle.position_rank.specs.Placement.{Placement, IsPosition, IsLive, InPlay, swap};
ghost use Rattle.roll_table.specs.Rolls.{Dice, IsRoll, opening_rolls};
ghost use Rattle.move_rules.specs.Ends.{legal_ends};
ghost use Rattle.move_rules.specs.Faults.{IsFault};
ghost use Rattle.move_rules.specs.Sequences.{IsLegal, IsLegalEnd};
ghost use Rattle.move_rules.specs.Written.{Leaves, IsWrittenFault};
ghost use Rattle.move_rules.specs.declared.play.Move.{Move};
ghost use Rattle.move_rules.specs.declared.written.Step.{Step};
ghost use Rattle.move_rules.specs.declared.applied.BadPlay.{BadPlay};

/// The list of the legal ends has every legal end and no other.
pub fn legal_ends_are_exact()
    ensures { (p : Placement) (roll : Dice) (q : Placement)
        → Contains (legal_ends p roll) q ↔ IsLegalEnd p roll q }
{}

/// What a legal sequence leaves of a live position is a position with as many checkers. Unless the mover has borne all of his off, it is live for the other side.
pub fn legal_ends_stay_live()
    ensures { (p : Placement) (roll : Dice) (q : Placement)
        → IsRoll roll → IsPosition p → IsLive p → IsLegalEnd p roll q
        → IsPosition q × (sum q.mover ≡ sum p.mover) × (InPlay q.mover → IsLive (swap q)) }
{}

/// No opening play ends a game: what it leaves of the start is live for the other side.
pub fn opening_plays_go_on()
    ensures { (checkers : ℕ) (roll : Dice) (q : Placement) → 1 ≤ checkers → checkers ≤ 3
        → Contains opening_rolls roll → IsLegalEnd (start_placement checkers) roll q
        → IsPosition q × IsLive (swap q) }
{}

/// A legal play has no fault.
pub fn legal_plays_have_no_fault()
    ensures { (p : Placement) (roll : Dice) (moves : List Move) (q : Placement) (fault : BadPlay)
        → IsLegal p roll moves q → IsFault p roll moves fault → ⊥ }
{}

/// A written play that is right has no fault.
pub fn written_legal_plays_have_no_fault()
    ensures { (p : Placement) (roll : Dice) (steps : List Step) (end : Placement) (fault : BadPlay)
        → Leaves p roll steps end → IsWrittenFault p roll steps fault → ⊥ }
{}
