ghost use Rattle.std.specs.Prelude.{◌≡◌, ◌≤◌, ◌<◌, ℕ, List, IsTrue, Err};
ghost use Rattle.hyper_outside.specs.Causes.{Rose};
ghost use Rattle.outside_log.specs.Log.{standing};
ghost use Rattle.outside_log.specs.Readings.{ReadsOn, is_faithful, read_faults};
ghost use Rattle.outside_log.specs.Files.{bytes_from};
ghost use Rattle.database_file.specs.declared.pages.PagesStop.TheVariants.{ReadFault, BadPage, NoMemory};
ghost use Rattle.database_file.specs.Pages.{AnswersPages, ArePages, binding_on, most_batches, page_count, place_of, words_on};

use crate::batch::{Batch, add_words, look_and_add};
use directed_fixed::Fixed;
use hyper_outside::{Failed, Gate};
use outside_log::Files;
use std::alloc::{AllocError, AllocFailed, Global};
use std::thread::Threads;
use word_pages::{Binding, Flaw, Version, binding_of};
use worker_team::Team;

/// How many pages are read together: so many that the workers seldom wait for the slowest of them, which they do once for each batch.
pub(crate) const BATCH_PAGES: usize = 256;

/// Pages of words that follow one another in a file.
#[derive(Clone, Copy)]
pub struct Pages {
    pub version: Version,
    /// The digest of the file's head.
    pub digest: [u8; 32],
    /// The greatest value of a word on both sides of 0.
    pub bound: Fixed,
    /// The place of the first page.
    pub at: u64,
    /// How many words a page has, but the last one, which may have fewer.
    pub size: usize,
    /// How many words all pages have.
    pub count: usize,
}

/// Why pages of a file could not be read.
#[derive(Clone, Copy)]
pub enum PagesStop {
    /// A call of the files failed.
    ReadFault,
    /// A page isn't right.
    BadPage(Flaw),
    /// There was no memory.
    NoMemory,
}

impl From<Flaw> for PagesStop {
    ghost from_gives = { λ flaw stop. stop ≡ BadPage flaw };

    fn from(flaw: Flaw) -> Self {
        PagesStop::BadPage(flaw)
    }
}

impl From<Failed> for PagesStop {
    ghost from_gives = { λ _ stop. stop ≡ ReadFault };

    fn from(_failed: Failed) -> Self {
        PagesStop::ReadFault
    }
}

impl From<AllocError> for PagesStop {
    ghost from_gives = { λ _ stop. stop ≡ NoMemory };

    fn from(_error: AllocError) -> Self {
        PagesStop::NoMemory
    }
}

impl<T: Drop> From<AllocFailed<T>> for PagesStop {
    ghost from_gives = { λ _ stop. stop ≡ NoMemory };

    fn from(_error: AllocFailed<T>) -> Self {
        PagesStop::NoMemory
    }
}

impl Pages {
    /// How many pages there are.
    pub fn page_count(&self) -> usize
        requires { ArePages self.now }
        ensures { result ≡ page_count self.now }
    {
        (self.count + (self.size - 1)) / self.size
    }

    /// How many batches the pages make at most, up to 65,536.
    pub(crate) fn batch_count(&self) -> u32
        requires { ArePages self.now }
        ensures { result ≡ most_batches self.now }
    {
        (self.page_count() / BATCH_PAGES).min(65_535) as u32 + 1
    }

    /// How many words the page with this number has.
    pub fn words_on(&self, page: usize) -> usize
        requires pages { ArePages self.now }
        requires there { page < page_count self.now }
        ensures words { result ≡ words_on self.now page }
    {
        self.size.min(self.count - page * self.size)
    }

    /// What the page with this number is bound to.
    pub fn binding_on(&self, page: usize) -> Binding
        ensures { result.items ≡ binding_on self.now page }
    {
        binding_of(self.version, &self.digest, page)
    }

    /// At which place of the file the page with this number begins.
    pub fn place_of(&self, page: usize) -> u64
        requires pages { ArePages self.now }
        requires there { page < page_count self.now }
        ensures place { result ≡ place_of self.now page }
    {
        self.at + (page * self.version.page_size(self.size)) as u64
    }
}

/// Reads all pages in order, some of them together, which the workers check, and whose words they read, and answers the words of all. The words
/// of a batch are added while the next one is checked. The gate is told how many such parts there are at most, and passed before each. `BadPage`
/// tells the first flaw of the pages, and is the same for each number of workers. `ReadFault` comes only where a call that reads failed.
pub fn read_pages<R: Threads + Sync, F: Files, G: Gate>(
    team: &Team<R>,
    alloc: Global,
    files: &mut F,
    name: &str,
    pages: &Pages,
    gate: &G,
) -> Result<Vec<u64>, PagesStop>
    requires pages { ArePages pages.now }
    ensures read { (bytes : List ℕ) × AnswersPages pages.now bytes result }
    ensures told { IsTrue (is_faithful (F.log files.new))
        → AnswersPages pages.now
        (bytes_from pages.now.at (standing (F.log files.old) name.now)) result }
    ensures later { read_faults (F.log files.old) ≤ read_faults (F.log files.new) }
    ensures cause { result ≡ Err ReadFault
        → Rose (read_faults (F.log files.old)) (read_faults (F.log files.new)) }
    ensures reads { ReadsOn (F.log files.old) (F.log files.new) }
{
    let count = pages.page_count();
    gate.expect(1, pages.batch_count());
    let most = BATCH_PAGES.min(count);
    let mut buf = vec![in alloc; 0u8; most * pages.version.page_size(pages.size)]?;
    let mut words = Vec::with_capacity(alloc, pages.count)?;
    let mut room = Vec::new(alloc);
    let mut read = Vec::new(alloc);
    let mut before = Batch { first: 0, past: 0 };
    'batches: while before.past < count {
        let first = before.past;
        gate.pass(0, first as u64);
        let past = (first + most).min(count);
        let batch = Batch { first, past };
        let next = look_and_add(
            team, alloc, files, name, pages, batch, &mut buf, room, &read, words,
        )?;
        room = read;
        read = next.0;
        words = next.1;
        before = batch;
    }
    add_words(&read, words)
}
