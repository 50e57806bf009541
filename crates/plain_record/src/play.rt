ghost use Rattle.std.specs.Prelude.{◌≡◌, ◌++◌, ◌<◌, OnOk, codes, true, false};
ghost use Rattle.std.specs.List.{flat_map};
ghost use Rattle.plain_record.specs.Plain.{line_read, more_checkers, parts, place_told, repeated, spaced, steps_on, without_mark, way_told, word_read};

use crate::cut::cut;
use hyper_outside::NoMemory;

/// A place without the mark of a hit.
fn unmarked(place: &[u8]) -> &[u8]
    ensures { result.now ≡ without_mark place.now }
{
    if place.ends_with(b"*") {
        &place[..place.len() - 1]
    } else {
        place
    }
}

/// The place that a checker goes to; only the first checker hits what stands there.
fn place_told(is_first: bool, place: &[u8]) -> &[u8]
    ensures { result.now ≡ place_told is_first place.now }
{
    if is_first { place } else { unmarked(place) }
}

/// The way that a word tells, and how many checkers more go that way.
fn way_told(word: &[u8]) -> (&[u8], usize)
    ensures way { result.0.now ≡ way_told word.now }
    ensures more { result.1 ≡ more_checkers word.now }
    ensures few { result.1 < 4 }
{
    if word.ends_with(b"(2)") {
        (&word[..word.len() - 3], 1)
    } else if word.ends_with(b"(3)") {
        (&word[..word.len() - 3], 2)
    } else if word.ends_with(b"(4)") {
        (&word[..word.len() - 3], 3)
    } else {
        (word, 0)
    }
}

fn add(text: &mut Vec<u8>, more: &[u8]) -> Result<(), NoMemory>
    ensures { OnOk result (text.new.items ≡ text.old.items ++ more.now) }
{
    text.extend_from_slice(more)?;
    Ok(())
}

fn add_step(text: &mut Vec<u8>, from: &[u8], to: &[u8]) -> Result<(), NoMemory>
    ensures { OnOk result
        (text.new.items ≡ text.old.items ++ spaced (from.now ++ codes "/" ++ to.now)) }
{
    add(text, b" ")?;
    add(text, from)?;
    add(text, b"/")?;
    add(text, to)
}

/// Adds the steps of a checker that goes from a place to others in turn.
fn add_steps(
    text: &mut Vec<u8>,
    is_first: bool,
    start: &[u8],
    places: &[u8],
) -> Result<(), NoMemory>
    ensures { OnOk result (text.new.items ≡ text.old.items
        ++ flat_map spaced (steps_on is_first start.now (parts 47 places.now))) }
{
    let mut from = start;
    let mut rest = Some(places);
    'places: while let Some(left) = rest {
        let (to, more) = cut(left, b'/');
        add_step(text, from, place_told(is_first, to))?;
        from = unmarked(to);
        rest = more;
    }
    Ok(())
}

/// Adds the same steps of so many checkers, of which none is the first.
fn repeat_steps(
    text: &mut Vec<u8>,
    count: usize,
    start: &[u8],
    places: &[u8],
) -> Result<(), NoMemory>
    ensures { OnOk result (text.new.items ≡ text.old.items
        ++ flat_map spaced (repeated count (steps_on false start.now (parts 47 places.now)))) }
{
    'checkers: for _i in 0..count {
        add_steps(text, false, start, places)?;
    }
    Ok(())
}

/// Adds what a word is read as, each step with a space before it.
fn add_word(text: &mut Vec<u8>, word: &[u8]) -> Result<(), NoMemory>
    ensures { OnOk result (text.new.items ≡ text.old.items ++ word_read word.now) }
{
    let (way, more) = way_told(word);
    let (from, places) = cut(way, b'/');
    match places {
        Some(places) => {
            add_steps(text, true, from, places)?;
            repeat_steps(text, more, from, places)
        }
        None => {
            add(text, b" ")?;
            add(text, word)
        }
    }
}

/// Adds what the words of a text are read as.
fn add_words(text: &mut Vec<u8>, words: &[u8]) -> Result<(), NoMemory>
    ensures { OnOk result
        (text.new.items ≡ text.old.items ++ flat_map word_read (parts 32 words.now)) }
{
    let mut rest = Some(words);
    'words: while let Some(left) = rest {
        let (word, more) = cut(left, b' ');
        add_word(text, word)?;
        rest = more;
    }
    Ok(())
}

/// Adds what a line is read as, with its end.
pub(crate) fn add_line(text: &mut Vec<u8>, line: &[u8]) -> Result<(), NoMemory>
    ensures { OnOk result (text.new.items ≡ text.old.items ++ (line_read line.now ++ codes "\n")) }
{
    let (first, words) = cut(line, b' ');
    add(text, first)?;
    if let Some(words) = words {
        add_words(text, words)?;
    }
    add(text, b"\n")
}
