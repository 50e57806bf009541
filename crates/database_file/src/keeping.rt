ghost use Rattle.std.specs.Prelude.{◌≡◌, ◌⊎◌, ◌≤◌, ◌<◌, ◌+◌, ◌-◌, ◌*◌, ◌^◌, ℕ, Contains, Ok, Vec, length};
ghost use Rattle.std.specs.Global.{Global as GlobalOf};
ghost use Rattle.outside_log.specs.Log.{standing};
ghost use Rattle.outside_log.specs.Readings.{ReadsOn, is_faithful};
ghost use Rattle.database_file.specs.Pages.{ArePages, page_count, whole_page};
ghost use Rattle.database_file.specs.Paged.{AreOfFile, ArePagesKept, KeepsRead};

use crate::batch::{Batch, make_room, read_batch};
use crate::pages::{BATCH_PAGES, Pages, PagesStop};
use hyper_outside::Gate;
use lru::LruCache;
use outside_log::Files;
use std::alloc::Global;
use std::mem;
use std::thread::Threads;
use worker_team::Team;

/// Keeps a page's words by its number, where it could be read.
fn keep_one(
    kept: &mut LruCache<usize, Vec<u64>>,
    number: usize,
    words: Result<Vec<u64>, PagesStop>,
) -> Result<(), PagesStop>
    ensures kept { (page : ℕ × Vec ℕ GlobalOf) → Contains kept.new.entries page
        → Contains kept.old.entries page ⊎ ((page.0 ≡ number) × (words ≡ Ok page.1)) }
    ensures most { kept.new.cap ≡ kept.old.cap }
{
    if let Ok(words) = words {
        kept.put(number, words)?;
    }
    Ok(())
}

/// Keeps those of some pages from this one on that could be read.
fn keep_each(
    kept: &mut LruCache<usize, Vec<u64>>,
    first: usize,
    read: &mut [Result<Vec<u64>, PagesStop>],
) -> Result<(), PagesStop>
    requires { first + length read.old < 2 ^ 64 }
    ensures kept { KeepsRead first read.old kept.old.entries kept.new.entries }
    ensures most { kept.new.cap ≡ kept.old.cap }
    ensures len { length read.new ≡ length read.old }
{
    'pages: for number in 0..read.len() {
        let page = mem::replace(&mut read[number], Err(PagesStop::NoMemory));
        keep_one(kept, first + number, page)?;
    }
    Ok(())
}

/// Reads a batch of pages, which the workers check, and keeps those that are right.
fn keep_batch<R: Threads + Sync, F: Files>(
    kept: &mut LruCache<usize, Vec<u64>>,
    team: &Team<R>,
    alloc: Global,
    files: &mut F,
    name: &str,
    pages: &Pages,
    batch: Batch,
    buf: &mut [u8],
    read: &mut [Result<Vec<u64>, PagesStop>],
) -> Result<(), PagesStop>
    requires pages { ArePages pages.now }
    requires some { batch.first < batch.past }
    requires there { batch.past ≤ page_count pages.now }
    requires bytes { (batch.past - batch.first) * whole_page pages.now ≤ length buf.old }
    requires room { batch.past - batch.first ≤ length read.old }
    requires right { ArePagesKept pages.now kept.old.entries }
    requires of_file { AreOfFile pages.now (is_faithful (F.log files.old))
        (standing (F.log files.old) name.now) kept.old.entries }
    ensures right { ArePagesKept pages.now kept.new.entries }
    ensures of_file { AreOfFile pages.now (is_faithful (F.log files.new))
        (standing (F.log files.new) name.now) kept.new.entries }
    ensures most { kept.new.cap ≡ kept.old.cap }
    ensures buf { length buf.new ≡ length buf.old }
    ensures room { length read.new ≡ length read.old }
    ensures reads { ReadsOn (F.log files.old) (F.log files.new) }
{
    let read = &mut read[..batch.past - batch.first];
    read_batch(team, alloc, files, name, pages, batch, buf, read)?;
    keep_each(kept, batch.first, read)
}

/// Reads all pages in the order of the file, some of them together, which the workers check, and keeps those that are right. The gate is told
/// how many such parts there are at most, and passed before each. Where reading fails, or there is no memory, no more are kept.
pub(crate) fn keep_all<R: Threads + Sync, F: Files, G: Gate>(
    kept: &mut LruCache<usize, Vec<u64>>,
    team: &Team<R>,
    alloc: Global,
    files: &mut F,
    name: &str,
    pages: &Pages,
    gate: &G,
) -> Result<(), PagesStop>
    requires pages { ArePages pages.now }
    requires right { ArePagesKept pages.now kept.old.entries }
    requires of_file { AreOfFile pages.now (is_faithful (F.log files.old))
        (standing (F.log files.old) name.now) kept.old.entries }
    ensures right { ArePagesKept pages.now kept.new.entries }
    ensures of_file { AreOfFile pages.now (is_faithful (F.log files.new))
        (standing (F.log files.new) name.now) kept.new.entries }
    ensures most { kept.new.cap ≡ kept.old.cap }
    ensures reads { ReadsOn (F.log files.old) (F.log files.new) }
{
    let count = pages.page_count();
    gate.expect(1, pages.batch_count());
    let most = BATCH_PAGES.min(count);
    let mut buf = vec![in alloc; 0u8; most * pages.version.page_size(pages.size)]?;
    let mut read = make_room(Vec::new(alloc), most)?;
    let mut first = 0;
    'batches: while first < count {
        gate.pass(0, first as u64);
        let past = (first + most).min(count);
        let batch = Batch { first, past };
        keep_batch(
            kept, team, alloc, files, name, pages, batch, &mut buf, &mut read,
        )?;
        first = past;
    }
    Ok(())
}
