ghost use Rattle.std.specs.Prelude.{◌≡◌, ◌≤◌, IsTrue, IfErr, IfOk, Err, length};
ghost use Rattle.hyper_outside.specs.Causes.{Rose};
ghost use Rattle.outside_log.specs.Log.{standing};
ghost use Rattle.outside_log.specs.Readings.{ReadsOn, is_faithful, read_faults};
ghost use Rattle.database_file.specs.Paged.{KeepsPagesOf};
ghost use Rattle.equity_report.specs.declared.refusal.Refusal.TheVariants.{Read};
ghost use Rattle.run_endings.specs.Endings.{IsOfLoading};
ghost use Rattle.run_endings.specs.Loads.{AnswersLoading, OfFile, TellsStop, game_told, look_refusal};
ghost use Rattle.run_endings.specs.Pages.{AnswersOpening};

use base_head::{BadFile, Head};
use database_file::{Base, LoadStop, PagedBase, load_base, open_paged};
use equity_report::{FileName, GameName, Refusal};
use hyper_outside::{Gate, LookStop};
use outside_log::Files;
use std::alloc::Global;
use std::thread::Threads;
use word_pages::{Flaw, Version};
use worker_team::Team;

/// How many pages of a file are kept at most.
const PAGES_KEPT: usize = 64;

/// The refusal that tells why the file of this name was not loaded.
fn stop_refusal(stop: LoadStop, name: &str) -> Refusal
    requires { length name.now ≤ 272 }
    ensures tells { TellsStop name.now stop result }
    ensures kind { IsOfLoading result }
{
    match stop {
        LoadStop::Missing => Refusal::Missing(FileName::from(name).unwrap()),
        LoadStop::BadFile(bad) => Refusal::File(bad),
        LoadStop::ReadFault => Refusal::Read,
        LoadStop::NoMemory => Refusal::Memory,
    }
}

/// Opens a file of bounds whose pages are to be looked up, or says what refuses it. Of those it keeps the 64 that were used last.
pub fn open_file<F: Files>(alloc: Global, name: &str, files: &mut F) -> Result<PagedBase, Refusal>
    requires { length name.now ≤ 272 }
    ensures told { IsTrue (is_faithful (F.log files.new))
        → AnswersOpening name.now (standing (F.log files.old) name.now) result }
    ensures kinds { IfErr result IsOfLoading }
    ensures name { IfOk result (λ base. base.name ≡ name.now) }
    ensures of_file { IfOk result (λ base. KeepsPagesOf base (F.log files.new)) }
    ensures later { read_faults (F.log files.old) ≤ read_faults (F.log files.new) }
    ensures cause { result ≡ Err Read
        → Rose (read_faults (F.log files.old)) (read_faults (F.log files.new)) }
    ensures reads { ReadsOn (F.log files.old) (F.log files.new) }
{
    open_keeping(alloc, name, files, PAGES_KEPT)
}

/// The same, of which so many pages are kept at most.
pub fn open_keeping<F: Files>(
    alloc: Global,
    name: &str,
    files: &mut F,
    pages: usize,
) -> Result<PagedBase, Refusal>
    requires name { length name.now ≤ 272 }
    requires pages { 1 ≤ pages }
    ensures told { IsTrue (is_faithful (F.log files.new))
        → AnswersOpening name.now (standing (F.log files.old) name.now) result }
    ensures kinds { IfErr result IsOfLoading }
    ensures name { IfOk result (λ base. base.name ≡ name.now) }
    ensures of_file { IfOk result (λ base. KeepsPagesOf base (F.log files.new)) }
    ensures later { read_faults (F.log files.old) ≤ read_faults (F.log files.new) }
    ensures cause { result ≡ Err Read
        → Rose (read_faults (F.log files.old)) (read_faults (F.log files.new)) }
    ensures reads { ReadsOn (F.log files.old) (F.log files.new) }
{
    match open_paged(alloc, files, name, Version::Three, pages) {
        Ok(base) => Ok(base),
        Err(stop) => Err(stop_refusal(stop, name)),
    }
}

/// Loads a file of bounds of the versions from `oldest` on, which the workers check, or says what refuses it.
pub fn load_file<R: Threads + Sync, F: Files, G: Gate>(
    team: &Team<R>,
    alloc: Global,
    name: &str,
    files: &mut F,
    oldest: Version,
    gate: &G,
) -> Result<Base, Refusal>
    requires { length name.now ≤ 272 }
    ensures told { OfFile (is_faithful (F.log files.new)) (standing (F.log files.old) name.now)
        (AnswersLoading oldest name.now result) }
    ensures kinds { IfErr result IsOfLoading }
    ensures later { read_faults (F.log files.old) ≤ read_faults (F.log files.new) }
    ensures cause { result ≡ Err Read
        → Rose (read_faults (F.log files.old)) (read_faults (F.log files.new)) }
    ensures reads { ReadsOn (F.log files.old) (F.log files.new) }
{
    match load_base(team, alloc, files, name, oldest, gate) {
        Ok(base) => Ok(base),
        Err(stop) => Err(stop_refusal(stop, name)),
    }
}

/// The game of a head, as it is told.
pub fn game_told(head: &Head) -> GameName
    ensures { result ≡ game_told head.now }
{
    GameName {
        checkers: head.checkers(),
        stakes: head.name(),
        match_length: head.starts().match_length(),
    }
}

/// The refusal of a look-up that stopped.
pub fn look_refusal(stop: LookStop) -> Refusal
    ensures tells { result ≡ look_refusal stop }
    ensures kind { IsOfLoading result }
{
    match stop {
        LookStop::ReadFault => Refusal::Read,
        LookStop::BadPage { fault, at } => Refusal::File(BadFile::from(Flaw { fault, at })),
        LookStop::NoMemory => Refusal::Memory,
    }
}
