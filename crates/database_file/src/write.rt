ghost use Rattle.std.specs.Prelude.{◌≡◌, ◌≤◌, ◌<◌, ◌+◌, ◌*◌, ◌^◌, All, IfOk, List, ℕ, length, take, drop};
ghost use Rattle.outside_log.specs.Log.{AddsAll};
ghost use Rattle.word_pages.specs.declared.version.Version.{Version as VersionData};
ghost use Rattle.word_pages.specs.Words.{Fits};
ghost use Rattle.word_pages.specs.Pages.{first_pages, page_size, page_text, pages_text};
ghost use Rattle.word_pages.specs.Sealed.{binding_of};
ghost use Rattle.base_head.specs.Heads.{HasText};
ghost use Rattle.base_head.specs.Fronts.{front_text, head_digest};
ghost use Rattle.database_file.specs.Texts.{AreWordsOf, file_text};
ghost use Rattle.database_file.specs.Writing.{ArePageTexts};

use arrayvec::ArrayVec;
use base_head::{Head, LONGEST_FRONT, PAGE_POSITIONS, put_front};
use hyper_outside::Failed;
use interval_words::Words;
use outside_log::Files;
use std::alloc::{AllocError, Global};
use std::thread::Threads;
use word_pages::{Version, binding_of, put_digest_under, put_words};
use worker_team::Team;

/// How many bytes the longest page has: 1,024 positions of a game with 14 kinds, in version 1.
pub const LONGEST_PAGE: usize = 229_408;

/// How many pages are made together before they are appended, so many that the workers seldom wait for the slowest of them.
const PAGES_MADE: usize = 32;

/// The bytes of a page that are put together before they are appended.
type PageBytes = ArrayVec<u8, LONGEST_PAGE>;

/// Makes the page with this number, behind a head with this digest, in place of what stands in `bytes`.
fn make_page(
    version: Version,
    digest: &[u8; 32],
    size: usize,
    words: &[u64],
    page: usize,
    bytes: &mut PageBytes,
)
    requires room { page_size version size ≤ LONGEST_PAGE }
    requires there { page * size < length words.now }
    requires fit { All (Fits version) words.now }
    ensures { bytes.new.items ≡ page_text version (binding_of version digest.now page)
        (take size (drop (page * size) words.now)) }
{
    let from = page * size;
    let to = words.len().min(from + size);
    let binding = binding_of(version, digest, page);
    bytes.clear();
    put_words(version, &words[from..to], bytes);
    put_digest_under(binding.as_slice(), bytes);
}

/// Makes pages that follow one another, the first of which has this number. They are shared among the workers.
fn make_pages<R: Threads + Sync>(
    team: &Team<R>,
    version: Version,
    digest: &[u8; 32],
    size: usize,
    words: &[u64],
    first: usize,
    texts: &mut [PageBytes],
)
    requires room { page_size version size ≤ LONGEST_PAGE }
    requires few { first + length texts.old < 2 ^ 64 }
    requires there { (n : ℕ) → n < length texts.old → (first + n) * size < length words.now }
    requires fit { All (Fits version) words.now }
    ensures kept { length texts.new ≡ length texts.old }
    ensures made { ArePageTexts version digest.now size words.now first texts.new }
{
    team.for_each_mut(
        texts,
        &|number, text| make_page(version, digest, size, words, first + number, text),
    );
}

/// Appends the texts of pages.
fn append_texts<F: Files>(files: &mut F, name: &str, texts: &[PageBytes]) -> Result<(), Failed>
    ensures { (version : VersionData) (digest : List ℕ) (size : ℕ) (words : List ℕ) (first : ℕ)
        → ArePageTexts version digest size words first texts.now
        → AddsAll name.now
        (first_pages version digest size first (length texts.now) (drop (first * size) words))
        (F.log files.old) (F.log files.new) result }
{
    'texts: for number in 0..texts.len() {
        files.append(name, texts[number].as_slice())?;
    }
    Ok(())
}

/// Appends header, starts, and the digest of both, which it answers.
fn append_front<F: Files>(
    files: &mut F,
    name: &str,
    head: &Head,
    version: Version,
) -> Result<[u8; 32], Failed>
    requires { HasText version head.now }
    ensures digest { IfOk result (λ digest. digest ≡ head_digest version head.now) }
    ensures adds { AddsAll name.now (front_text version head.now)
        (F.log files.old) (F.log files.new) result }
{
    // A head is of a match at most of five points, so it has few starts.
    let _starts = head.starts();
    let mut bytes: ArrayVec<u8, LONGEST_FRONT> = ArrayVec::new();
    let digest = put_front(head, version, &mut bytes);
    files.append(name, bytes.as_slice())?;
    Ok(digest)
}

/// Appends words in pages of so many words each, behind a head with this digest.
pub(crate) fn append_pages<F: Files>(
    files: &mut F,
    name: &str,
    version: Version,
    digest: &[u8; 32],
    size: usize,
    words: &[u64],
) -> Result<(), Failed>
    requires some { 0 < size }
    requires room { page_size version size ≤ LONGEST_PAGE }
    requires fit { All (Fits version) words.now }
    ensures { AddsAll name.now (pages_text version digest.now size words.now)
        (F.log files.old) (F.log files.new) result }
{
    let mut bytes = PageBytes::new();
    let pages = (words.len() + (size - 1)) / size;
    'pages: for page in 0..pages {
        make_page(version, digest, size, words, page, &mut bytes);
        files.append(name, bytes.as_slice())?;
    }
    Ok(())
}

/// Room for so many pages.
fn page_room(alloc: Global, count: usize) -> Result<Vec<PageBytes>, AllocError>
    ensures { IfOk result (λ room. length room.items ≡ count) }
{
    let mut room = Vec::with_capacity(alloc, count)?;
    for _ in 0..count {
        room.push(PageBytes::new())?;
    }
    Ok(room)
}

/// Appends pages as `append_pages` does, some of them together, which the workers make.
fn append_batches<R: Threads + Sync, F: Files>(
    team: &Team<R>,
    files: &mut F,
    name: &str,
    version: Version,
    digest: &[u8; 32],
    size: usize,
    words: &[u64],
    room: &mut [PageBytes],
) -> Result<(), Failed>
    requires some { 0 < size }
    requires room { page_size version size ≤ LONGEST_PAGE }
    requires fit { All (Fits version) words.now }
    requires places { 0 < length room.old }
    ensures { AddsAll name.now (pages_text version digest.now size words.now)
        (F.log files.old) (F.log files.new) result }
{
    let pages = (words.len() + (size - 1)) / size;
    let mut first = 0;
    'batches: while first < pages {
        let many = room.len().min(pages - first);
        let texts = &mut room[..many];
        make_pages(team, version, digest, size, words, first, texts);
        append_texts(files, name, texts)?;
        first += many;
    }
    Ok(())
}

/// Appends pages as `append_pages` does. The workers make them, where there is memory for some at a time.
fn append_pages_by<R: Threads + Sync, F: Files>(
    team: &Team<R>,
    alloc: Global,
    files: &mut F,
    name: &str,
    version: Version,
    digest: &[u8; 32],
    size: usize,
    words: &[u64],
) -> Result<(), Failed>
    requires some { 0 < size }
    requires room { page_size version size ≤ LONGEST_PAGE }
    requires fit { All (Fits version) words.now }
    ensures { AddsAll name.now (pages_text version digest.now size words.now)
        (F.log files.old) (F.log files.new) result }
{
    let many = PAGES_MADE.min(words.len() / size + 1);
    match page_room(alloc, many) {
        Ok(mut room) => append_batches(team, files, name, version, digest, size, words, &mut room),
        Err(_) => append_pages(files, name, version, digest, size, words),
    }
}

/// Adds the text of a file of bounds to the file that was begun for the name: the head with its digest in one `append`, then each page with its
/// digest in one. After `Failed` what was begun is gone.
pub fn append_base<F: Files>(
    files: &mut F,
    name: &str,
    head: &Head,
    words: &Words,
    version: Version,
) -> Result<(), Failed>
    requires takes { HasText version head.now }
    requires words { AreWordsOf head.now words.now }
    ensures { AddsAll name.now (file_text version head.now words.now.list)
        (F.log files.old) (F.log files.new) result }
{
    // Right words fit in each version.
    words.right();
    let digest = append_front(files, name, head, version)?;
    let size = 2 * head.kinds() * PAGE_POSITIONS;
    append_pages(files, name, version, &digest, size, words.list())
}

/// Adds the same by the same calls as `append_base`. The workers make the pages, some of them together.
pub fn append_base_by<R: Threads + Sync, F: Files>(
    team: &Team<R>,
    alloc: Global,
    files: &mut F,
    name: &str,
    head: &Head,
    words: &Words,
    version: Version,
) -> Result<(), Failed>
    requires takes { HasText version head.now }
    requires words { AreWordsOf head.now words.now }
    ensures { AddsAll name.now (file_text version head.now words.now.list)
        (F.log files.old) (F.log files.new) result }
{
    // Right words fit in each version.
    words.right();
    let digest = append_front(files, name, head, version)?;
    let size = 2 * head.kinds() * PAGE_POSITIONS;
    append_pages_by(
        team,
        alloc,
        files,
        name,
        version,
        &digest,
        size,
        words.list(),
    )
}
