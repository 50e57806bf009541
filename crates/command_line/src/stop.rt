ghost use Rattle.std.specs.Prelude.{◌≡◌};
ghost use Rattle.command_line.specs.Stops.{form_refusal};

use hyper_outside::{BadWords, NoMemory, WordsKind};
use position_text::BadPosition;
use roll_table::BadRoll;
use word_forms::FormStop;

/// Why words ask for nothing.
#[derive(Clone, Copy)]
pub enum WordsFault {
    /// They are no command's words.
    Words(BadWords),
    /// The position's text describes none.
    Position(BadPosition),
    /// The roll's text shows none.
    Roll(BadRoll),
}

/// Why words were not read.
#[derive(Clone, Copy)]
pub enum WordsStop {
    Bad(WordsFault),
    NoMemory,
}

impl From<NoMemory> for WordsStop {
    ghost use Rattle.command_line.specs.declared.stop.WordsStop.TheVariants.{NoMemory};

    ghost from_gives = { λ _ stop. stop ≡ NoMemory };

    fn from(_stop: NoMemory) -> Self {
        WordsStop::NoMemory
    }
}

impl From<WordsFault> for WordsStop {
    ghost use Rattle.command_line.specs.declared.stop.WordsStop.TheVariants.{Bad};

    ghost from_gives = { λ fault stop. stop ≡ Bad fault };

    fn from(fault: WordsFault) -> Self {
        WordsStop::Bad(fault)
    }
}

/// Words that are refused.
pub(crate) fn bad(kind: WordsKind, place: u32) -> WordsStop
    ensures { result ≡ WordsStop.Bad (WordsFault.Words (record { kind = kind; place = place })) }
{
    WordsStop::Bad(WordsFault::Words(BadWords { kind, place }))
}

/// The value of this number is out of its form.
pub(crate) fn bad_value(number: u32) -> WordsStop
    ensures { result ≡ WordsStop.Bad
        (WordsFault.Words (record { kind = WordsKind.Value; place = number })) }
{
    bad(WordsKind::Value, number)
}

/// The refusal of what isn't read as a form.
pub(crate) fn bad_form(stop: FormStop) -> WordsStop
    ensures { result ≡ form_refusal stop }
{
    match stop {
        FormStop::Form => bad(WordsKind::Form, 0),
        FormStop::NoMemory => WordsStop::NoMemory,
    }
}
