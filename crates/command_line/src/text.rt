ghost use Rattle.std.specs.Prelude.{◌≡◌, ℕ, List, IfOk};

use hyper_outside::NoMemory;
use std::alloc::Global;
use std::marker::Model;

/// A word of the user's.
#[derive(Drop)]
pub struct Text {
    text: String,
}

impl Model for Text {
    ghost use Rattle.std.specs.Prelude.{ℕ, List, string_bytes};

    ghost Value = { List ℕ };

    ghost view = { λ t. string_bytes t.text };
}

impl Text {
    /// A copy of the word.
    pub(crate) fn new(alloc: Global, word: &str) -> Result<Text, NoMemory>
        ensures { IfOk result (λ text. text ≡ word.now) }
    {
        Ok(Text {
            text: String::from_str(alloc, word)?,
        })
    }

    /// The word.
    pub fn as_str(&self) -> &str
        ensures { result.now ≡ self.now }
    {
        self.text.as_str()
    }
}
