ghost use Rattle.refusal_notes.specs.Notes.{GoesOn};

use arrayvec::ArrayString;
use command_line::CommandName;
use cube_actions::KindName;
use cube_text::print_kind;
use equity_report::{GameName, Report, add_game};
use itoa::Buffer;
use position_rank::Position;
use position_text::print_position;

/// The most bytes of a sentence. None has more: of a word of the user's it has a front.
const LONGEST: usize = 1000;

/// The most bytes of a word that a sentence has.
const LONGEST_FRONT: usize = 60;

/// A part of a sentence that its form leaves open.
#[derive(Clone, Copy)]
pub(crate) enum Part<'a> {
    /// A word of the user's or a name, which is put in quotes; of a long one its front.
    Word(&'a str),
    Text(&'a str),
    Number(u64),
    Kind(KindName),
    Game(&'a GameName),
    Position(&'a Position),
    /// The arguments of a command, each behind a space.
    Arguments(&'static [&'static str]),
    /// The options of a command, of which it has one or more, those without a value last.
    Options(CommandName),
}

/// A sentence, or what there is of it.
pub(crate) type Text = ArrayString<LONGEST>;

/// Adds what fits.
fn add(text: &mut Text, more: &str)
    ensures { GoesOn text.old.bytes text.new.bytes }
{
    let _ = text.try_push_str(more);
}

/// At most so many bytes of a word, none but whole signs.
fn front_of(word: &str) -> &str {
    for fewer in 0..4 {
        if let Some(front) = word.get(..LONGEST_FRONT - fewer) {
            return front;
        }
    }
    word
}

fn add_word(text: &mut Text, word: &str)
    ensures { GoesOn text.old.bytes text.new.bytes }
{
    let front = front_of(word);
    add(text, "\"");
    add(text, front);
    if front.len() < word.len() {
        add(text, "..");
    }
    add(text, "\"");
}

fn add_arguments(text: &mut Text, arguments: &[&str])
    ensures { GoesOn text.old.bytes text.new.bytes }
{
    for argument in arguments {
        add(text, " ");
        add(text, argument);
    }
}

fn add_options(text: &mut Text, command: CommandName)
    ensures { GoesOn text.old.bytes text.new.bytes }
{
    let (options, flags) = (command.options(), command.flags());
    let mut left = options.len().saturating_add(flags.len());
    for option in options.iter().chain(flags.iter()) {
        add(text, "--");
        add(text, option);
        match left {
            0 | 1 => {}
            2 => add(text, " or "),
            _ => add(text, ", "),
        }
        left = left.saturating_sub(1);
    }
}

fn add_game_told(text: &mut Text, game: &GameName)
    ensures { GoesOn text.old.bytes text.new.bytes }
{
    let mut told = Report::new();
    add_game(&mut told, *game);
    add(text, told.as_str());
}

fn add_part(text: &mut Text, part: Part<'_>)
    ensures { GoesOn text.old.bytes text.new.bytes }
{
    match part {
        Part::Word(word) => add_word(text, word),
        Part::Text(more) => add(text, more),
        Part::Number(number) => add(text, Buffer::new().format(number)),
        Part::Kind(kind) => add(text, print_kind(kind).as_str()),
        Part::Game(game) => add_game_told(text, game),
        Part::Position(position) => add(text, print_position(position).as_str()),
        Part::Arguments(arguments) => add_arguments(text, arguments),
        Part::Options(command) => add_options(text, command),
    }
}

/// Adds a sentence: in its form each `@` stands for the next part.
pub(crate) fn say(text: &mut Text, form: &str, parts: &[Part<'_>])
    ensures { GoesOn text.old.bytes text.new.bytes }
{
    let mut left = parts.iter();
    let mut is_first = true;
    for piece in form.split('@') {
        if is_first {
            is_first = false;
        } else if let Some(part) = left.next() {
            add_part(text, *part);
        }
        add(text, piece);
    }
}
