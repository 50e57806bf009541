ghost use Rattle.std.specs.Prelude.{◌≡◌, ℕ, ◌∷◌, List, false, IfOk, position, map, string_bytes};
ghost use Rattle.std.specs.List.{list_any};
ghost use Rattle.word_forms.specs.Form.{is_misread};
ghost use Rattle.word_forms.specs.Clap.{bytes_of};
ghost use Rattle.command_line.specs.Reading.{Gives};
ghost use Rattle.command_line.specs.Right.{IsRightCommand};
ghost use Rattle.command_line.specs.Words.{is_faulty, place_at, form_reading, words_reading, reading};

use crate::command::{Command, CommandName};
use crate::commands::read_values;
use crate::stop::{WordsStop, bad, bad_form};
use crate::values::is_faulty;
use hyper_outside::WordsKind;
use std::alloc::Global;
use word_forms::read_form;

/// Reads the words after the program's name.
///
/// Of these refusals the first that holds is answered. `Command` comes at place 0 where no word is there or the first is no command's
/// name. `Word` comes at the place of the first faulty word; the word after the name has place 1. `Form` comes at place 0 where an
/// argument is missing or one is too many, or an option is another command's, repeated, without its value, or with one that it doesn't
/// take. `Value` comes at the lowest number of an argument or option out of its form. `Position` comes where the position's text
/// describes none, and then `Roll` where the roll's text shows none.
pub fn read_words(alloc: Global, words: &[String]) -> Result<Command, WordsStop>
    ensures reads { Gives (reading (bytes_of words.now)) result }
    ensures right { IfOk result IsRightCommand }
{
    let Some((name, words)) = words.split_first() else {
        return Err(bad(WordsKind::Command, 0));
    };
    match CommandName::asked(name.as_str(), words) {
        Some(command) => read_command(alloc, command, words),
        None => Err(bad(WordsKind::Command, 0)),
    }
}

/// Reads what stands behind a command's name.
fn read_command(alloc: Global, name: CommandName, words: &[String]) -> Result<Command, WordsStop>
    ensures { Gives (words_reading name (bytes_of words.now)) result }
{
    match first_faulty(words) {
        Some(at) => Err(bad(WordsKind::Word, place_at(at))),
        None => read_arguments(alloc, name, words),
    }
}

/// Reads words none of which is faulty.
fn read_arguments(alloc: Global, name: CommandName, words: &[String]) -> Result<Command, WordsStop>
    requires { list_any is_misread (bytes_of words.now) ≡ false }
    ensures { Gives (form_reading name (bytes_of words.now)) result }
{
    match read_form(alloc, name.arguments(), name.options(), name.flags(), words) {
        Ok(values) => read_values(alloc, name, &values),
        Err(stop) => Err(bad_form(stop)),
    }
}

/// The index of the first faulty word.
fn first_faulty(words: &[String]) -> Option<usize>
    ensures { result ≡ position (λ word. is_faulty (string_bytes word)) words.now }
{
    words.iter().position(|word| is_faulty(word.as_bytes()))
}

/// The place of the word at this index behind the name. The last number stands for all places above.
fn place_at(index: usize) -> u32
    ensures { result ≡ place_at index }
{
    if index < u32::MAX as usize {
        index as u32 + 1
    } else {
        u32::MAX
    }
}
