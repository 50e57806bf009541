ghost use Rattle.std.specs.Prelude.{◌≡◌, ◌+◌, ◌<◌, ◌^◌};
ghost use Rattle.record_maker.specs.Sizes.{is_full};

/// How much text a record has.
#[derive(Clone, Copy)]
pub(crate) struct Size {
    pub(crate) lines: u32,
    /// With the one at the end of each line.
    pub(crate) bytes: u32,
}

impl Size {
    /// With one more line, of so many bytes with the one at its end.
    pub(crate) fn with_line(self, bytes: u32) -> Size
        requires lines { self.lines + 1 < 2 ^ 32 }
        requires bytes { self.bytes + bytes < 2 ^ 32 }
        ensures { result ≡ record { lines = self.lines + 1; bytes = self.bytes + bytes } }
    {
        Size {
            lines: self.lines + 1,
            bytes: self.bytes + bytes,
        }
    }

    /// There is too much text for another game or another turn.
    pub(crate) fn is_full(self) -> bool
        ensures { result ≡ is_full self }
    {
        self.lines >= 60_000 || self.bytes >= 1_000_000
    }
}
