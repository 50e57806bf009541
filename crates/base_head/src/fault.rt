ghost use Rattle.std.specs.Prelude.{◌≡◌, not, [], ◌∷◌};
ghost use Rattle.base_head.specs.Faults.{check, checked, first_wrong};

/// What can be wrong with a file of bounds.
#[derive(Clone, Copy)]
pub enum FileFault {
    /// It ends too early.
    Short,
    /// Bytes stand after its end.
    Long,
    /// It doesn't begin as such files do.
    Magic,
    /// No version that is read has this number.
    Version,
    /// A field of its header is wrong.
    Head,
    /// The digest of header and starts isn't theirs.
    HeadDigest,
    /// The digest of a page isn't the page's.
    PageDigest,
    /// A word is out of range.
    Word,
    /// A lower word is above its upper word.
    Crossed,
}

/// What is wrong first with a file, and at which byte, counted from 0.
#[derive(Clone, Copy)]
pub struct BadFile {
    pub fault: FileFault,
    pub at: u64,
}

/// Tells the fault where something isn't right.
pub(crate) fn check(is_right: bool, fault: FileFault, at: u64) -> Result<(), BadFile>
    ensures { result ≡ checked (first_wrong (check fault at (not is_right) ∷ [])) tt }
{
    if is_right {
        Ok(())
    } else {
        Err(BadFile { fault, at })
    }
}
