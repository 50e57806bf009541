ghost use Rattle.std.specs.Prelude.{◌≡◌, ◌<◌, ◌^◌};
ghost use Rattle.word_pages.specs.Words.{word_size};
ghost use Rattle.word_pages.specs.Pages.{page_size};

/// A version of the file's text.
#[derive(Clone, Copy)]
pub enum Version {
    /// A word takes 8 bytes.
    One,
    /// A word takes 5 bytes.
    Two,
    /// A word takes 5 bytes, and a page's digest is of the head's digest and the page's number too.
    Three,
}

impl Version {
    /// How many bytes a word takes.
    pub fn word_size(self) -> usize
        ensures { result ≡ word_size self }
    {
        match self {
            Version::One => 8,
            Version::Two | Version::Three => 5,
        }
    }

    /// How many bytes a page of so many words has.
    pub fn page_size(self, words: usize) -> usize
        requires { words < 2 ^ 60 }
        ensures { result ≡ page_size self words }
    {
        self.word_size() * words + 32
    }
}
