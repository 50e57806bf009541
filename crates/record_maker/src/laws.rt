ghost use Rattle.std.specs.Prelude.{◌≡◌, ℕ, List};
ghost use Rattle.game_record.specs.Replay.{IsReplay};
ghost use Rattle.game_record.specs.declared.decision.Decision.{Decision};
ghost use Rattle.game_record.specs.declared.record.Record.{Record};
ghost use Rattle.record_maker.specs.Making.{IsMade};

use play_text::{printed_plays_are_taken, texts_tell_plays};

/// A record that is made breaks no rule of the game.
pub fn made_records_break_no_rule()
    ensures { (number count : ℕ) (rec : Record) → IsMade number count rec
        → (told : List Decision) × IsReplay rec told }
{
    printed_plays_are_taken();
}

/// A number and a count of games give one record.
pub fn numbers_tell_records()
    ensures { (number count : ℕ) (rec other : Record) → IsMade number count rec
        → IsMade number count other → rec ≡ other }
{
    texts_tell_plays();
}
