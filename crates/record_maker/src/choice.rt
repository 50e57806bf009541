ghost use Rattle.std.specs.Prelude.{◌≡◌, ◌≤◌, length};
ghost use Rattle.play_text.specs.Notation.{CanFollow, IsPlayText, play_text};
ghost use Rattle.move_rules.specs.declared.play.Entry.{Entry};
ghost use Rattle.record_text.specs.Texts.{steps_text};
ghost use Rattle.record_maker.specs.Draws.{IsChosen};

use move_rules::{Play, PlayList, Written, plays};
use play_text::{print_play, printed_plays_are_read, read_play};
use position_rank::Position;
use roll_table::Roll;

/// A play that was chosen.
#[derive(Drop)]
pub(crate) struct Chosen {
    /// As it is written.
    pub(crate) written: Written,
    /// How many bytes that takes.
    pub(crate) bytes: u32,
    /// The position that it leaves, seen by the same player.
    pub(crate) end: Position,
}

/// The play that a word chooses: the one whose number, counted from 0, is the word modulo the number of plays.
pub(crate) fn choose(position: &Position, roll: Roll, chooser: u32) -> Chosen
    ensures chosen { (entry : Entry) × IsChosen position.now roll chooser entry
        × IsPlayText (play_text position.now entry.play.items) result.written.items
        × (entry.end ≡ result.end) }
    ensures bytes { result.bytes ≡ length (steps_text result.written.items) }
    ensures short { result.bytes ≤ 48 }
{
    let mut list = PlayList::new();
    plays(position, roll, &mut list);
    let entry = &list[chooser as usize % list.len()];
    let (written, bytes) = written_play(position, &entry.play);
    Chosen {
        written,
        bytes,
        end: entry.end,
    }
}

/// A play as it is written, and how many bytes that takes.
fn written_play(position: &Position, play: &Play) -> (Written, u32)
    requires { CanFollow position.now play.now.items }
    ensures written { IsPlayText (play_text position.now play.now.items) result.0.items }
    ensures bytes { result.1 ≡ length (steps_text result.0.items) }
    ensures short { result.1 ≤ 48 }
{
    // So the text of the play can be read: it has few enough moves.
    let moves = play.len();
    prove!(moves <= 4);
    printed_plays_are_read();
    let text = print_play(position, play);
    match read_play(text.as_str()) {
        Some(written) => (written, text.len() as u32),
        None => unreachable!(),
    }
}
