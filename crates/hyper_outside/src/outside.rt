use std::alloc::{AllocError, AllocFailed};

/// A call of the outside failed.
#[derive(Clone, Copy)]
pub struct Failed;

/// There was no memory.
#[derive(Clone, Copy)]
pub struct NoMemory;

impl From<AllocError> for NoMemory {
    fn from(_error: AllocError) -> Self {
        NoMemory
    }
}

impl<T: Drop> From<AllocFailed<T>> for NoMemory {
    fn from(_error: AllocFailed<T>) -> Self {
        NoMemory
    }
}

/// What is wrong with a page of a file of pairs.
#[derive(Clone, Copy)]
pub enum PageFault {
    /// The file ends before it.
    Short,
    /// Its digest isn't that of its bytes.
    PageDigest,
    /// A word is out of range.
    Word,
    /// A lower word is above its upper word.
    Crossed,
}

/// Why a word could not be looked up.
#[derive(Clone, Copy)]
pub enum LookStop {
    /// A call of the outside failed.
    ReadFault,
    /// The page of the word isn't right, at this place of the file.
    BadPage { fault: PageFault, at: u64 },
    /// There was no memory.
    NoMemory,
}

/// What is wrong with a program's words.
#[derive(Clone, Copy)]
pub enum WordsKind {
    /// They name no command.
    Command,
    /// A word can't stand in any command.
    Word,
    /// The words aren't the command's arguments and options.
    Form,
    /// A value is outside its form.
    Value,
}

/// Words of a program that were refused.
#[derive(Clone, Copy)]
pub struct BadWords {
    pub kind: WordsKind,
    /// The word's place at `Word`, the argument's number at `Value`, otherwise 0.
    pub place: u32,
}
