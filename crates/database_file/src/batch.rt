ghost use Rattle.std.specs.Prelude.{◌≡◌, ◌≤◌, ◌<◌, ◌+◌, ◌-◌, ◌*◌, ◌^◌, ℕ, List, IfErr, IfOk, Err, length, take};
ghost use Rattle.hyper_outside.specs.Causes.{HasCause, Rose};
ghost use Rattle.outside_log.specs.Log.{standing};
ghost use Rattle.outside_log.specs.Readings.{ReadsOn, is_faithful, read_faults};
ghost use Rattle.database_file.specs.declared.batch.Batch.{Batch as BatchOf};
ghost use Rattle.database_file.specs.declared.pages.Pages.{Pages as PagesOf};
ghost use Rattle.database_file.specs.declared.pages.PagesStop.TheVariants.{ReadFault, NoMemory};
ghost use Rattle.database_file.specs.Pages.{ArePages, page_count, place_of, whole_page};
ghost use Rattle.database_file.specs.Batches.{AddsUpTo, AnswersEach, AnswersOn, AreOnPage, CanBeLookedAt, HasBytes, HasComeTo, HasReadBatch, IsBatch, batch_size};

use crate::pages::{Pages, PagesStop};
use hyper_outside::Failed;
use outside_log::{Files, fill};
use std::alloc::Global;
use std::mem;
use std::thread::Threads;
use word_pages::read_page;
use worker_team::Team;

/// Some pages that follow one another, from the one with the number `first` to before `past`.
#[derive(Clone, Copy)]
pub(crate) struct Batch {
    pub first: usize,
    pub past: usize,
}

/// How many bytes a batch of pages has.
fn batch_size(pages: &Pages, batch: Batch) -> usize
    requires pages { ArePages pages.now }
    requires some { batch.first < batch.past }
    requires there { batch.past ≤ page_count pages.now }
    ensures { result ≡ batch_size pages.now batch }
{
    let last = batch.past - 1;
    let before = (last - batch.first) * pages.version.page_size(pages.size);
    before + pages.version.page_size(pages.words_on(last))
}

/// The words of the page with this number, whose bytes are in memory. They take the room of others,
/// which aren't needed any more.
fn read_one(pages: &Pages, page: usize, bytes: &[u8], room: Vec<u64>) -> Result<Vec<u64>, PagesStop>
    requires pages { ArePages pages.now }
    requires there { page < page_count pages.now }
    requires places { place_of pages.now page + length bytes.now < 2 ^ 64 }
    ensures words { (all : List ℕ) → AreOnPage pages.now page bytes.now all
        → AnswersOn pages.now page all result }
    ensures faultless { result ≡ Err ReadFault → ⊥ }
{
    let mut words = room;
    words.resize(pages.words_on(page), 0)?;
    let place = pages.place_of(page);
    let binding = pages.binding_on(page);
    read_page(
        pages.version,
        binding.as_slice(),
        pages.bound,
        place,
        bytes,
        &mut words,
    )?;
    Ok(words)
}

/// The words of a page of a batch whose bytes are in memory, as a worker reads them.
pub(crate) fn read_in_batch(
    pages: &Pages,
    batch: Batch,
    bytes: &[u8],
    number: usize,
    room: Vec<u64>,
) -> Result<Vec<u64>, PagesStop>
    requires pages { ArePages pages.now }
    requires some { batch.first < batch.past }
    requires there { batch.past ≤ page_count pages.now }
    requires number { number < batch.past - batch.first }
    requires few { length bytes.now ≤ batch_size pages.now batch }
    ensures words { (all : List ℕ) → IsBatch pages.now batch bytes.now all
        → AnswersOn pages.now (batch.first + number) all result }
    ensures faultless { result ≡ Err ReadFault → ⊥ }
{
    let whole = pages.version.page_size(pages.size);
    let from = (number * whole).min(bytes.len());
    read_one(pages, batch.first + number, &bytes[from..], room)
}

/// Room for what comes of each of so many pages, in the room of others, which isn't needed any more.
pub(crate) fn make_room(
    room: Vec<Result<Vec<u64>, PagesStop>>,
    count: usize,
) -> Result<Vec<Result<Vec<u64>, PagesStop>>, PagesStop>
    ensures room { IfOk result (λ room. length room.items ≡ count) }
    ensures memory { IfErr result (λ stop. stop ≡ NoMemory) }
{
    let mut room = room;
    room.resize_with(count, || Err(PagesStop::NoMemory))?;
    Ok(room)
}

/// Reads the words of each page of a batch whose bytes are in memory, in place of what was read of
/// the batch before, whose room they take: memory that workers ask for and give back again and again
/// holds them up. The pages are shared among the workers.
fn read_each<R: Threads + Sync>(
    team: &Team<R>,
    alloc: Global,
    pages: &Pages,
    batch: Batch,
    bytes: &[u8],
    read: &mut [Result<Vec<u64>, PagesStop>],
)
    requires pages { ArePages pages.now }
    requires some { batch.first < batch.past }
    requires there { batch.past ≤ page_count pages.now }
    requires few { length bytes.now ≤ batch_size pages.now batch }
    requires room { length read.old ≡ batch.past - batch.first }
    ensures { AnswersEach pages.now batch bytes.now read.new }
{
    team.for_each_mut(
        read,
        &|number, page| {
            let before = mem::replace(page, Err(PagesStop::NoMemory));
            let room = before.unwrap_or(Vec::new(alloc));
            *page = read_in_batch(pages, batch, bytes, number, room);
        },
    );
}

/// Adds the words of pages in order, up to the first that could not be read.
pub(crate) fn add_words(
    read: &[Result<Vec<u64>, PagesStop>],
    words: Vec<u64>,
) -> Result<Vec<u64>, PagesStop>
    ensures { (pages : PagesOf) (batch : BatchOf) (all : List ℕ)
        → HasComeTo pages batch all words.items read.now
        → AddsUpTo pages batch.past all ⊥ (λ words. words.items) result }
{
    let mut words = words;
    for page in read {
        match page {
            Ok(list) => words.extend_from_slice(list)?,
            Err(stop) => return Err(*stop),
        }
    }
    Ok(words)
}

/// Reads the bytes of a batch of pages into the front of a buffer, over as many reads as it takes, and tells how many there were.
pub(crate) fn fill_batch<F: Files>(
    files: &mut F,
    name: &str,
    pages: &Pages,
    batch: Batch,
    buf: &mut [u8],
) -> Result<usize, Failed>
    requires pages { ArePages pages.now }
    requires some { batch.first < batch.past }
    requires there { batch.past ≤ page_count pages.now }
    requires bytes { batch_size pages.now batch ≤ length buf.old }
    ensures bytes { IfOk result (λ count. HasBytes pages.now batch (is_faithful (F.log files.new))
        (standing (F.log files.old) name.now) (take count buf.new)) }
    ensures within { IfOk result (λ count. count ≤ length buf.new) }
    ensures buf { length buf.new ≡ length buf.old }
    ensures cause { HasCause (read_faults (F.log files.old))
        (read_faults (F.log files.new)) result }
    ensures reads { ReadsOn (F.log files.old) (F.log files.new) }
{
    let size = batch_size(pages, batch);
    fill(files, name, pages.place_of(batch.first), &mut buf[..size])
}

/// Reads a batch of pages through a buffer, and has them looked at by the workers, who leave their words in `read`.
pub(crate) fn read_batch<R: Threads + Sync, F: Files>(
    team: &Team<R>,
    alloc: Global,
    files: &mut F,
    name: &str,
    pages: &Pages,
    batch: Batch,
    buf: &mut [u8],
    read: &mut [Result<Vec<u64>, PagesStop>],
) -> Result<(), Failed>
    requires pages { ArePages pages.now }
    requires some { batch.first < batch.past }
    requires there { batch.past ≤ page_count pages.now }
    requires bytes { batch_size pages.now batch ≤ length buf.old }
    requires room { length read.old ≡ batch.past - batch.first }
    ensures read { IfOk result (λ _. HasReadBatch pages.now batch (is_faithful (F.log files.new))
        (standing (F.log files.old) name.now) read.new) }
    ensures buf { length buf.new ≡ length buf.old }
    ensures kept { length read.new ≡ length read.old }
    ensures cause { HasCause (read_faults (F.log files.old))
        (read_faults (F.log files.new)) result }
    ensures reads { ReadsOn (F.log files.old) (F.log files.new) }
{
    let count = fill_batch(files, name, pages, batch, buf)?;
    read_each(team, alloc, pages, batch, &buf[..count], read);
    Ok(())
}

/// Has the workers look at a batch whose bytes are in memory, and gives what comes of its pages.
fn look_at<R: Threads + Sync>(
    team: &Team<R>,
    alloc: Global,
    pages: &Pages,
    batch: Batch,
    bytes: &[u8],
    room: Vec<Result<Vec<u64>, PagesStop>>,
) -> Vec<Result<Vec<u64>, PagesStop>>
    requires { CanBeLookedAt pages.now batch bytes.now room.items }
    ensures { AnswersEach pages.now batch bytes.now result.items }
{
    let mut read = room;
    read_each(team, alloc, pages, batch, bytes, &mut read);
    read
}

/// Reads a batch of pages through a buffer, and adds the words of the batch before in order, of which `before` came, while the workers look
/// at the pages that were read. Gives what comes of these, and the words.
pub(crate) fn look_and_add<R: Threads + Sync, F: Files>(
    team: &Team<R>,
    alloc: Global,
    files: &mut F,
    name: &str,
    pages: &Pages,
    batch: Batch,
    buf: &mut [u8],
    room: Vec<Result<Vec<u64>, PagesStop>>,
    before: &[Result<Vec<u64>, PagesStop>],
    words: Vec<u64>,
) -> Result<(Vec<Result<Vec<u64>, PagesStop>>, Vec<u64>), PagesStop>
    requires pages { ArePages pages.now }
    requires some { batch.first < batch.past }
    requires there { batch.past ≤ page_count pages.now }
    requires bytes { batch_size pages.now batch ≤ length buf.old }
    ensures read { IfOk result (λ read. HasReadBatch pages.now batch
        (is_faithful (F.log files.new)) (standing (F.log files.old) name.now) read.0.items) }
    ensures added { (past : BatchOf) (all : List ℕ)
        → HasComeTo pages.now past all words.items before.now
        → AddsUpTo pages.now past.past all
        (Rose (read_faults (F.log files.old)) (read_faults (F.log files.new)))
        (λ read. read.1.items) result }
    ensures buf { length buf.new ≡ length buf.old }
    ensures later { read_faults (F.log files.old) ≤ read_faults (F.log files.new) }
    ensures reads { ReadsOn (F.log files.old) (F.log files.new) }
{
    let room = make_room(room, batch.past - batch.first)?;
    let count = fill_batch(files, name, pages, batch, buf)?;
    let bytes = &buf[..count];
    let look = move |team: &Team<R>|
        requires { CanBeLookedAt pages.now batch bytes.now room.items }
        ensures { AnswersEach pages.entry.now batch bytes.entry.now result.items }
    { look_at(team, alloc, pages, batch, bytes, room) };
    let (read, words) = team.join(look, || add_words(before, words));
    Ok((read, words?))
}
