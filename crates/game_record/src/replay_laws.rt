ghost use Rattle.std.specs.Prelude.{◌≡◌, ◌≤◌, List, length, All};
ghost use Rattle.game_record.specs.Lines.{IsRecord};
ghost use Rattle.game_record.specs.Replay.{IsBroken, IsReplay};
ghost use Rattle.game_record.specs.RightDecisions.{IsRightDecision};
ghost use Rattle.game_record.specs.declared.decision.Decision.{Decision};
ghost use Rattle.game_record.specs.declared.fault.BadRecord.{BadRecord};
ghost use Rattle.game_record.specs.declared.record.Record.{Record};

use move_rules::written_legal_plays_have_no_fault;

/// A record tells its decisions in one way.
pub fn records_tell_their_decisions()
    ensures { (rec : Record) (told others : List Decision)
        → IsReplay rec told → IsReplay rec others → told ≡ others }
{}

/// A record that breaks no rule has no line that breaks one.
pub fn replays_break_no_rule()
    ensures { (rec : Record) (told : List Decision) (bad : BadRecord)
        → IsReplay rec told → IsBroken rec bad → ⊥ }
{
    written_legal_plays_have_no_fault();
}

/// A record has at most 131,072 decisions.
pub fn records_have_few_decisions()
    ensures { (rec : Record) (told : List Decision)
        → IsRecord rec → IsReplay rec told → length told ≤ 131072 }
{}

/// Each decision of a record is one that could be made.
pub fn decisions_are_right()
    ensures { (rec : Record) (told : List Decision)
        → IsRecord rec → IsReplay rec told → All (IsRightDecision rec) told }
{}
