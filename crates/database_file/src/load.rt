ghost use Rattle.std.specs.Prelude.{◌≡◌, ◌≤◌, ◌*◌, Option, IfOk, IsTrue, Err, length};
ghost use Rattle.std.specs.Option.{option_map};
ghost use Rattle.cube_actions.specs.Stakes.{bound_of};
ghost use Rattle.hyper_outside.specs.Causes.{Rose};
ghost use Rattle.outside_log.specs.Log.{standing};
ghost use Rattle.outside_log.specs.Readings.{ReadsOn, is_faithful, read_faults};
ghost use Rattle.word_pages.specs.Flaws.{LieWithin};
ghost use Rattle.interval_words.specs.Core.{words_in};
ghost use Rattle.base_head.specs.Headers.{IsHeader};
ghost use Rattle.database_file.specs.declared.stop.LoadStop.TheVariants.{ReadFault, NoMemory};
ghost use Rattle.database_file.specs.Texts.{AreWordsOf, game_in};
ghost use Rattle.database_file.specs.Faults.{Read, pages_behind, whole};
ghost use Rattle.database_file.specs.Bases.{AnswersFrom, base_with};

use crate::front::{Front, read_front};
use crate::pages::{Pages, read_pages};
use crate::stop::LoadStop;
use base_head::{Head, Header, PAGE_POSITIONS};
use cube_actions::StakesName;
use directed_fixed::Fixed;
use hyper_outside::{Gate, NoMemory};
use interval_words::{LiveIndex, Words};
use outside_log::Files;
use std::alloc::Global;
use std::marker::Model;
use std::thread::Threads;
use word_pages::Version;
use worker_team::Team;

/// What a file of bounds holds: its head, and the words of the head's game after its rounds.
#[derive(Drop)]
pub struct Base {
    head: Head,
    words: Words,
}

impl Model for Base {
    ghost use Rattle.database_file.specs.Texts.{AreWordsOf};
    ghost use Rattle.database_file.specs.FileBases.{FileBase};

    ghost Value = { FileBase };

    ghost view = { λ a. record { head = a.head; words = a.words } };

    ghost invariant = { λ a. AreWordsOf a.head a.words };
}

impl Base {
    /// What the words are of.
    pub fn head(&self) -> &Head
        ensures head { result.now ≡ self.now.head }
        ensures fitting { AreWordsOf self.now.head self.now.words }
    {
        &self.head
    }

    /// The words.
    pub fn words(&self) -> &Words
        ensures words { result.now ≡ self.now.words }
        ensures fitting { AreWordsOf self.now.head self.now.words }
    {
        &self.words
    }
}

/// How far a word's value may be from 0.
fn bound_of(name: StakesName) -> Fixed
    ensures { result ≡ bound_of name }
{
    match name {
        StakesName::Unlimited(_) => Fixed::whole(3),
        StakesName::Match(_) => Fixed::whole(1),
    }
}

/// The pages of a file with this header, whose head has this digest.
pub(crate) fn pages_behind(header: &Header, digest: [u8; 32]) -> Pages
    requires { IsHeader header.now }
    ensures { result ≡ pages_behind header.now digest }
{
    let kinds = usize::from(header.kinds);
    Pages {
        version: header.version,
        digest,
        bound: bound_of(header.name),
        at: header.front_length(),
        size: 2 * kinds * PAGE_POSITIONS,
        count: 2 * kinds * header.positions as usize,
    }
}

/// The base of a head with the words of a list.
fn base_of(alloc: Global, head: Head, list: Vec<u64>) -> Result<Base, NoMemory>
    requires long { length list.items ≡ words_in (game_in head) }
    requires within { LieWithin (bound_of head.name) list.items }
    ensures { IfOk result (λ base. base ≡ base_with head list.items) }
{
    let index = LiveIndex::new(alloc, head.checkers())?;
    let words = Words::of_right_list(index, &head.stakes(), head.rounds(), list);
    Ok(Base { head, words })
}

/// Loads a file of bounds of the version `oldest` or a later one: it asks for the size, and then reads header,
/// starts and pages in order, some pages together, which the workers check. What it answers is the same for
/// each number of workers and every gate. `Missing` comes exactly where there is no file of this name, and `BadFile` exactly
/// where the bytes that were read aren't a file of bounds of such a version: it tells the first fault in the
/// order of the format, and its place. `ReadFault` comes only where a call that reads failed. No file changes.
pub fn load_base<R: Threads + Sync, F: Files, G: Gate>(
    team: &Team<R>,
    alloc: Global,
    files: &mut F,
    name: &str,
    oldest: Version,
    gate: &G,
) -> Result<Base, LoadStop>
    ensures read { (file : Option Read) × AnswersFrom oldest file result }
    ensures told { IsTrue (is_faithful (F.log files.new))
        → AnswersFrom oldest (option_map whole (standing (F.log files.old) name.now)) result }
    ensures later { read_faults (F.log files.old) ≤ read_faults (F.log files.new) }
    ensures cause { result ≡ Err ReadFault
        → Rose (read_faults (F.log files.old)) (read_faults (F.log files.new)) }
    ensures reads { ReadsOn (F.log files.old) (F.log files.new) }
{
    let Front {
        header,
        head,
        digest,
    } = read_front(files, name, oldest)?;
    let pages = pages_behind(&header, digest);
    let list = read_pages(team, alloc, files, name, &pages, gate)?;
    let base = base_of(alloc, head, list)?;
    Ok(base)
}
