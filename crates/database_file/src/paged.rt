ghost use Rattle.std.specs.Prelude.{◌≡◌, ◌≤◌, ◌<◌, ◌+◌, ◌*◌, [], IfOk, IsSome, IsTrue, Err, nat_eq};
ghost use Rattle.std.specs.Map.{lookup};
ghost use Rattle.directed_fixed.specs.Bounds.{IsWithinUnits};
ghost use Rattle.cube_actions.specs.Stakes.{bound_of};
ghost use Rattle.hyper_outside.specs.Causes.{Rose};
ghost use Rattle.outside_log.specs.Log.{standing};
ghost use Rattle.outside_log.specs.Readings.{ReadsOn, ReadsOn-prop as one, is_faithful, read_faults};
ghost use Rattle.hyper_outside.specs.declared.outside.LookStop.TheVariants.{ReadFault};
ghost use Rattle.turn_rule.specs.Looks.{AreSourceWords};
ghost use Rattle.turn_rule.specs.States.{IsStateOf};
ghost use Rattle.base_head.specs.Headers.{IsHeader};
ghost use Rattle.database_file.specs.Faults.{pages_behind};
ghost use Rattle.database_file.specs.Pages.{page_count, words_on};
ghost use Rattle.database_file.specs.Paged.{AnswersLook, IsPagedFile, IsSourceOfHead, KeepsPagesOf, page_of, paged_source_of, spot_of, words_of_pages};

use crate::front::Front;
use crate::keeping::keep_all;
use crate::kept::{Spot, word_on};
use crate::load::pages_behind;
use base_head::{Head, PAGE_POSITIONS};
use directed_fixed::{End, Fixed};
use hyper_outside::{Gate, LookStop, NoMemory};
use interval_words::LiveIndex;
use lru::LruCache;
use outside_log::{Files, Log};
use position_rank::Position;
use std::alloc::Global;
use std::marker::Model;
use std::num::NonZeroUsize;
use std::thread::Threads;
use turn_rule::Pairs;
use worker_team::Team;

/// A file of bounds that was opened: what stands before its pages, and the pages that were used last.
#[derive(Drop)]
pub struct PagedBase {
    alloc: Global,
    front: Front,
    index: LiveIndex,
    name: String,
    kept: LruCache<usize, Vec<u64>>,
}

impl Model for PagedBase {
    ghost use Rattle.std.specs.String.{string_bytes};
    ghost use Rattle.database_file.specs.Paged.{IsPagedFile};
    ghost use Rattle.database_file.specs.PagedFiles.{PagedFile};

    ghost Value = { PagedFile };

    ghost view = { λ a. record {
      header = a.front.header;
      head = a.front.head;
      digest = a.front.digest;
      name = string_bytes a.name;
      most = a.kept.cap;
      kept = a.kept.entries;
    } };

    ghost invariant = { λ a. IsPagedFile a.front.header a.front.head a.front.digest
        a.index a.kept.entries };
}

impl PagedBase {
    /// The base of what stands before the pages of a file, of which no page was read yet.
    pub(crate) fn new(
        alloc: Global,
        front: Front,
        name: &str,
        pages: usize,
    ) -> Result<PagedBase, NoMemory>
        requires some { 1 ≤ pages }
        requires fitting { IsPagedFile front.header front.head front.digest
            front.header.checkers [] }
        ensures { IfOk result (λ base. base ≡ record {
          header = front.header;
          head = front.head;
          digest = front.digest;
          name = name.now;
          most = pages;
          kept = [];
        }) }
    {
        let index = LiveIndex::new(alloc, front.head.checkers())?;
        let name = String::from_str(alloc, name)?;
        let kept = LruCache::new(alloc, NonZeroUsize::new(pages).unwrap())?;
        Ok(PagedBase {
            alloc,
            front,
            index,
            name,
            kept,
        })
    }

    /// What the words are of.
    pub fn head(&self) -> &Head
        ensures head { result.now ≡ self.now.head }
        ensures valid { IsHeader self.now.header }
        ensures checkers { self.now.head.checkers ≡ self.now.header.checkers }
        ensures name { self.now.head.name ≡ self.now.header.name }
    {
        &self.front.head
    }

    /// Looks the words up, one end at a time, in the file that was opened. Where each call was answered what stood there, that is to be the
    /// file of the pages that are kept. The reader isn't sure, and its floor and its notes are the words of the file's right pages, and the
    /// bound on both sides of 0 on the others. Each page is checked as it is read. When the reader is given up, calls that read were made, and
    /// no others.
    pub fn reader<'a, F: Files>(&'a mut self, files: &'a mut F) -> PagedReader<'a, F>
        requires { KeepsPagesOf self.old (F.log files.old) }
        ensures base { result.base.now ≡ self.old }
        ensures same_base { result.base.ghost_name ≡ self.entry.ghost_name }
        ensures files { result.files.now ≡ files.old }
        ensures same_files { result.files.ghost_name ≡ files.entry.ghost_name }
        ensures game { IsSourceOfHead
            (paged_source_of self.old (standing (F.log files.old))) self.old.head }
        ensures from { result.from.events ≡ F.log files.old }
    {
        // A look at the front shows that it goes with the head.
        let _front = &self.front;
        let from = Log::of(files);
        PagedReader {
            base: self,
            files,
            from,
        }
    }

    /// Reads the pages in the order of the file, some of them together, which the workers check, and keeps those that are right: what is looked up
    /// on these then needs no call. Nothing else changes by it. The gate is told how many such parts there are at most, and passed before each.
    /// Where reading fails, or there is no memory, no more are kept.
    pub fn keep_pages<R: Threads + Sync, F: Files, G: Gate>(
        &mut self,
        team: &Team<R>,
        files: &mut F,
        gate: &G,
    )
        requires of_file { KeepsPagesOf self.old (F.log files.old) }
        ensures of_file { KeepsPagesOf self.new (F.log files.new) }
        ensures kept { self.new ≡ record self.old { kept = self.new.kept } }
        ensures reads { ReadsOn (F.log files.old) (F.log files.new) }
    {
        let pages = pages_behind(&self.front.header, self.front.digest);
        let name = self.name.as_str();
        let _ = keep_all(&mut self.kept, team, self.alloc, files, name, &pages, gate);
    }

    /// Where the word of a state at an end stands.
    fn spot(&self, position: &Position, kind: usize, end: End) -> Spot
        requires { IsStateOf self.now.header.checkers self.now.header.kinds
            position.now kind }
        ensures spot { result ≡ spot_of self.now.header.kinds position.now kind end }
        ensures there { result.page
            < page_count (pages_behind self.now.header self.now.digest) }
        ensures state { 2 * result.state + 1
            < words_on (pages_behind self.now.header self.now.digest) result.page }
    {
        let rank = self.index.rank(position) as usize;
        let kinds = usize::from(self.front.header.kinds);
        Spot {
            page: rank / PAGE_POSITIONS,
            state: rank % PAGE_POSITIONS * kinds + kind,
            end,
        }
    }

    /// Looks up the word of a state at an end. Where each call was answered what stood there, an answer is the word of the file, whose page has
    /// no flaw; `BadPage` tells the first flaw of that page. `ReadFault` comes only where a call that reads failed, and no call is made
    /// where the page is kept.
    pub fn look<F: Files>(
        &mut self,
        files: &mut F,
        position: &Position,
        kind: usize,
        end: End,
    ) -> Result<Fixed, LookStop>
        requires state { IsStateOf self.old.header.checkers self.old.header.kinds
            position.now kind }
        requires of_file { KeepsPagesOf self.old (F.log files.old) }
        ensures unread { IsSome (lookup (nat_eq (page_of position.now)) self.old.kept)
            → files.new ≡ files.old }
        ensures within { IfOk result (IsWithinUnits (bound_of self.old.header.name)) }
        ensures told { IsTrue (is_faithful (F.log files.new))
            → AnswersLook self.old.header (standing (F.log files.old) self.old.name)
            end position.now kind result }
        ensures of_file { KeepsPagesOf self.new (F.log files.new) }
        ensures kept { self.new ≡ record self.old { kept = self.new.kept } }
        ensures valid { IsHeader self.old.header }
        ensures later { read_faults (F.log files.old) ≤ read_faults (F.log files.new) }
        ensures cause { result ≡ Err ReadFault
            → Rose (read_faults (F.log files.old)) (read_faults (F.log files.new)) }
        ensures reads { ReadsOn (F.log files.old) (F.log files.new) }
    {
        let spot = self.spot(position, kind, end);
        let pages = pages_behind(&self.front.header, self.front.digest);
        let word = word_on(
            &mut self.kept,
            self.alloc,
            files,
            self.name.as_str(),
            &pages,
            spot,
        )?;
        Ok(word)
    }
}

/// Words that are looked up in a file page by page.
#[derive(Drop)]
pub struct PagedReader<'a, F: Files> {
    base: &'a mut PagedBase,
    files: &'a mut F,
    /// The log as it was before the first look-up.
    from: Log,
    ghost reads: { ReadsOn from.events (F.log files.now) } by { one from.events (F.log files.now) },
    ghost of_file: { KeepsPagesOf base.now (F.log files.now) },
    ghost within: { AreSourceWords (paged_source_of base.now (standing from.events))
        (words_of_pages base.now (standing from.events)) },
}

impl<F: Files> PagedReader<'_, F> {
    /// What the words are of.
    pub fn head(&self) -> &Head
        ensures { result.now ≡ self.now.base.now.head }
    {
        self.base.head()
    }
}

impl<'a, F: Files> Pairs for PagedReader<'a, F> {
    ghost use Rattle.database_file.specs.Paged.{PagedStays, notes_of, paged_source_of};

    ghost Stays = { PagedStays };

    ghost stays = { λ r. record {
      header = r.base.now.header;
      head = r.base.now.head;
      digest = r.base.now.digest;
      name = r.base.now.name;
      most = r.base.now.most;
      from = r.from.events;
      base = r.base.ghost_name;
      lent = r.files.ghost_name;
    } };

    ghost seen = { λ r. record {
      source = paged_source_of r.base.now (standing r.from.events);
      notes = notes_of r.base.now (is_faithful (F.log r.files.now)) (standing r.from.events);
      faults = read_faults (F.log r.files.now);
    } };

    fn lower_of(&mut self, position: &Position, kind: usize) -> Result<Fixed, LookStop> {
        self.base.look(self.files, position, kind, End::Lower)
    }

    fn upper_of(&mut self, position: &Position, kind: usize) -> Result<Fixed, LookStop> {
        self.base.look(self.files, position, kind, End::Upper)
    }

    ghost floor_within = { λ r _. r.within };

    ghost notes_within = { λ r _. r.within };
}
