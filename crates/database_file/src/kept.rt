ghost use Rattle.std.specs.Prelude.{◌≡◌, ◌≤◌, ◌≤ℤ◌, ◌<◌, ◌+◌, ◌*◌, ◌^◌, pos, IfOk, IsSome, IsTrue, Err, length, nat_eq, slice_index};
ghost use Rattle.std.specs.Map.{lookup};
ghost use Rattle.directed_fixed.specs.Bounds.{IsWithinUnits};
ghost use Rattle.hyper_outside.specs.Causes.{Rose};
ghost use Rattle.outside_log.specs.Log.{standing};
ghost use Rattle.outside_log.specs.Readings.{ReadsOn, is_faithful, read_faults};
ghost use Rattle.outside_log.specs.Files.{bytes_from};
ghost use Rattle.word_pages.specs.Flaws.{LieWithin, unpacked};
ghost use Rattle.interval_words.specs.Numbers.{word_of};
ghost use Rattle.database_file.specs.declared.pages.PagesStop.TheVariants.{ReadFault};
ghost use Rattle.database_file.specs.Pages.{ArePages, page_count, words_on};
ghost use Rattle.database_file.specs.Paged.{AnswersOnePage, AnswersWord, AreOfFile, ArePagesKept, IsPage};

use crate::batch::{Batch, fill_batch, read_in_batch};
use crate::pages::{Pages, PagesStop};
use directed_fixed::{End, Fixed};
use lru::LruCache;
use outside_log::Files;
use std::alloc::Global;

/// Where a word stands.
#[derive(Clone, Copy)]
pub(crate) struct Spot {
    /// The number of its page.
    pub page: usize,
    /// The number of its state on the page.
    pub state: usize,
    /// Which of the state's two words it is.
    pub end: End,
}

/// Reads the page with this number, over as many reads as it takes, and answers its words. `BadPage` tells its first flaw. `ReadFault`
/// comes only where a call that reads failed.
fn read_page<F: Files>(
    alloc: Global,
    files: &mut F,
    name: &str,
    pages: &Pages,
    page: usize,
) -> Result<Vec<u64>, PagesStop>
    requires pages { ArePages pages.now }
    requires there { page < page_count pages.now }
    ensures right { IfOk result (λ words. IsPage pages.now page words.items) }
    ensures told { IsTrue (is_faithful (F.log files.new))
        → AnswersOnePage pages.now
        (bytes_from pages.now.at (standing (F.log files.old) name.now)) page result }
    ensures later { read_faults (F.log files.old) ≤ read_faults (F.log files.new) }
    ensures cause { result ≡ Err ReadFault
        → Rose (read_faults (F.log files.old)) (read_faults (F.log files.new)) }
    ensures reads { ReadsOn (F.log files.old) (F.log files.new) }
{
    let batch = Batch {
        first: page,
        past: page + 1,
    };
    let mut buf = vec![in alloc; 0u8; pages.version.page_size(pages.words_on(page))]?;
    let count = fill_batch(files, name, pages, batch, &mut buf)?;
    read_in_batch(pages, batch, &buf[..count], 0, Vec::new(alloc))
}

/// The word of a state at an end, among the words of its page.
fn word_in(words: &[u64], state: usize, end: End, bound: Fixed) -> Fixed
    requires state { 2 * state + 1 < length words.now }
    requires within { LieWithin bound words.now }
    requires bound { bound ≤ℤ pos (2 ^ 36) }
    ensures word { result ≡ unpacked (slice_index words.now (word_of end state)) }
    ensures within { IsWithinUnits bound result }
{
    match end {
        End::Lower => Fixed::of_word(words[2 * state]),
        End::Upper => Fixed::of_word(words[2 * state + 1]),
    }
}

/// The word at a spot. Its page is read only where it isn't kept; then it is kept from now on, and the one that was used least lately is
/// given up where there are too many. `BadPage` tells the first flaw of the page, which isn't kept. `ReadFault` comes only where a call that
/// reads failed.
pub(crate) fn word_on<F: Files>(
    kept: &mut LruCache<usize, Vec<u64>>,
    alloc: Global,
    files: &mut F,
    name: &str,
    pages: &Pages,
    spot: Spot,
) -> Result<Fixed, PagesStop>
    requires pages { ArePages pages.now }
    requires there { spot.page < page_count pages.now }
    requires state { 2 * spot.state + 1 < words_on pages.now spot.page }
    requires right { ArePagesKept pages.now kept.old.entries }
    requires of_file { AreOfFile pages.now (is_faithful (F.log files.old))
        (standing (F.log files.old) name.now)
        kept.old.entries }
    ensures unread { IsSome (lookup (nat_eq spot.page) kept.old.entries) → files.new ≡ files.old }
    ensures within { IfOk result (IsWithinUnits pages.now.bound) }
    ensures told { IsTrue (is_faithful (F.log files.new))
        → AnswersWord pages.now
        (bytes_from pages.now.at (standing (F.log files.old) name.now)) spot result }
    ensures right { ArePagesKept pages.now kept.new.entries }
    ensures of_file { AreOfFile pages.now (is_faithful (F.log files.new))
        (standing (F.log files.new) name.now)
        kept.new.entries }
    ensures most { kept.new.cap ≡ kept.old.cap }
    ensures later { read_faults (F.log files.old) ≤ read_faults (F.log files.new) }
    ensures cause { result ≡ Err ReadFault
        → Rose (read_faults (F.log files.old)) (read_faults (F.log files.new)) }
    ensures reads { ReadsOn (F.log files.old) (F.log files.new) }
{
    if let Some(words) = kept.get(&spot.page) {
        return Ok(word_in(words, spot.state, spot.end, pages.bound));
    }
    let words = read_page(alloc, files, name, pages, spot.page)?;
    let word = word_in(&words, spot.state, spot.end, pages.bound);
    kept.put(spot.page, words)?;
    Ok(word)
}
