ghost use Rattle.std.specs.Prelude.{◌≡◌, ◌≤◌, ◌++◌, IsTrue, IsFalse, not, min, Some, length, IfOk, OnOk, OnErr, IsErr, is_ok};
ghost use Rattle.std.specs.Option.{option_copied, option_map};
ghost use Rattle.outside_log.specs.Files.{Reads, SameFiles};
ghost use Rattle.outside_log.specs.Log.{Started, Appended, Finished, GivenUp, LeavesPlaces, disk_of, event_of, standing};
ghost use Rattle.outside_log.specs.Readings.{is_faithful, read_event, sized_event};
ghost use Rattle.memory_files.specs.Calls.{called, with_failing};
ghost use Rattle.memory_files.specs.Disks.{has_begun};
ghost use Rattle.memory_files.specs.MemFiles.{no_files, is_listed, after_call, told_more, after_failure, with_log, file_events, length_from, at_most};

use crate::calls::{Calls, front};
use crate::mem_disk::MemDisk;
use hyper_outside::{Failed, NoMemory};
use outside_log::{Files, Log, Told, copy_front, rest_from};
use std::alloc::Global;
use std::marker::Model;
use std::mem;

/// Files in memory that fail on demand. A call that writes fails also where there is no memory. What stands under a name, and what was
/// begun, is what the log tells, and each call that reads is answered what stands there.
#[derive(Drop)]
pub struct MemFiles {
    disk: MemDisk,
    log: Log,
    calls: Calls,
    /// How many bytes a read gives at most.
    most: Option<usize>,
    alloc: Global,
}

impl Model for MemFiles {
    ghost use Rattle.memory_files.specs.MemFiles.{DemandingFiles};

    ghost Value = { DemandingFiles };

    ghost view = { λ f. record {
      log = f.log.events;
      most = f.most;
      calls = f.calls;
    } };

    ghost use Rattle.memory_files.specs.Telling.{IsTelling};

    ghost invariant = { IsTelling };
}

impl MemFiles {
    /// No files.
    pub fn new(alloc: Global) -> MemFiles
        ensures { result ≡ no_files }
    {
        MemFiles {
            disk: MemDisk::new(alloc),
            log: Log::new(),
            calls: Calls::new(alloc),
            most: None,
            alloc,
        }
    }

    /// Lists a call that is to fail, counted from 1. Calls are those of `Files` but `give_up`.
    pub fn fail_call(&mut self, call: u64) -> Result<(), NoMemory>
        ensures ok { OnOk result
            (self.new ≡ record self.old { calls = with_failing self.old.calls call 0 }) }
        ensures err { OnErr result (self.new ≡ self.old) }
    {
        self.calls.fail(call, 0)
    }

    /// From now on a read gives at most so many bytes. At first there is no such limit.
    pub fn short_reads(&mut self, most: usize)
        requires { 1 ≤ most }
        ensures { self.new ≡ record self.old { most = Some most } }
    {
        self.most = Some(most);
    }

    /// The bytes under a name.
    pub fn held(&self, name: &str) -> Option<&[u8]>
        ensures { option_copied result ≡ standing self.now.log name.now }
    {
        self.disk.held(name)
    }

    /// Fails. What was begun is gone.
    fn fail(&mut self, name: &str) -> Result<(), Failed>
        ensures after { self.new ≡ after_failure self.old name.now }
        ensures failed { IsErr result }
    {
        self.disk.give_up();
        self.log = self.log.then(&Told::Failed(name));
        Err(Failed)
    }

    /// How many bytes stand under a name, unless the call is listed.
    fn find_size(&mut self, name: &str) -> Result<Option<u64>, Failed>
        ensures size { IfOk result
            (λ size. size ≡ option_map length (standing self.old.log name.now)) }
        ensures answer { is_ok result ≡ not (is_listed self.old) }
        ensures after { self.new ≡ record self.old { calls = called self.old.calls } }
    {
        if self.calls.count().is_some() {
            return Err(Failed);
        }
        match self.disk.held(name) {
            Some(bytes) => Ok(Some(bytes.len() as u64)),
            None => Ok(None),
        }
    }

    /// Copies what a read gives of a name from the place `at` on, unless the call is listed.
    fn copy_from(&mut self, name: &str, at: u64, buf: &mut [u8]) -> Result<usize, Failed>
        ensures reads { IfOk result (Reads (standing self.old.log name.now) at buf.old buf.new) }
        ensures most { IfOk result (λ count. count ≡ at_most self.old.most
            (min (length buf.old) (length_from at self.old.log name.now))) }
        ensures failed { OnErr result (buf.new ≡ buf.old) }
        ensures answer { is_ok result ≡ not (is_listed self.old) }
        ensures after { self.new ≡ record self.old { calls = called self.old.calls } }
    {
        if self.calls.count().is_some() {
            return Err(Failed);
        }
        let bytes = rest_from(self.disk.held(name), at);
        Ok(copy_front(front(bytes, self.most), buf))
    }

    /// Starts, appends and finishes.
    fn write(&mut self, name: &str, bytes: &[u8]) -> Result<(), Failed>
        ensures ok { OnOk result
            (self.new.log ≡ self.old.log ++ file_events name.now bytes.now) }
        ensures err { OnErr result (LeavesPlaces self.old.log self.new.log) }
        ensures same { self.new
            ≡ record self.old { log = self.new.log; calls = self.new.calls } }
    {
        self.start(name)?;
        self.append(name, bytes)?;
        self.finish(name)
    }

    /// Puts a file: a start, an append and a finish, which aren't counted as calls, so none of them is one that is listed. After `NoMemory`
    /// the files are as before.
    pub fn with_file(&mut self, name: &str, bytes: &[u8]) -> Result<(), NoMemory>
        ensures ok { OnOk result
            (self.new ≡ with_log self.old (self.old.log ++ file_events name.now bytes.now)) }
        ensures err { OnErr result (LeavesPlaces self.old.log self.new.log) }
        ensures same { self.new ≡ with_log self.old self.new.log }
        ensures files { OnErr result
            (SameFiles (standing self.old.log) (standing self.new.log)) }
    {
        let calls = mem::replace(&mut self.calls, Calls::new(self.alloc));
        let answer = self.write(name, bytes);
        self.calls = calls;
        match answer {
            Ok(()) => Ok(()),
            Err(_) => Err(NoMemory),
        }
    }
}

impl Files for MemFiles {
    ghost log = { λ f. f.log };

    /// `Failed` exactly where the call is listed.
    fn size(&mut self, name: &str) -> Result<Option<u64>, Failed>
        ensures size { IfOk result
            (λ size. size ≡ option_map length (standing self.old.log name.now)) }
        ensures answer { is_ok result ≡ not (is_listed self.old) }
        ensures after { self.new ≡ after_call self.old (sized_event name.now result) }
        ensures faithful { IsTrue (is_faithful self.new.log) }
    {
        let answer = self.find_size(name);
        self.log = self.log.then_size(name, &answer);
        answer
    }

    /// `Failed` exactly where the call is listed. Otherwise it reads as many bytes as there are, fit, and are no more than the limit.
    fn read_at(&mut self, name: &str, at: u64, buf: &mut [u8]) -> Result<usize, Failed>
        ensures within { IfOk result (λ count. count ≤ length buf.old) }
        ensures reads { IfOk result (Reads (standing self.old.log name.now) at buf.old buf.new) }
        ensures most { IfOk result (λ count. count ≡ at_most self.old.most
            (min (length buf.old) (length_from at self.old.log name.now))) }
        ensures failed { OnErr result (buf.new ≡ buf.old) }
        ensures answer { is_ok result ≡ not (is_listed self.old) }
        ensures after { self.new
            ≡ after_call self.old (read_event name.now at (length buf.old) buf.new result) }
        ensures faithful { IsTrue (is_faithful self.new.log) }
    {
        let answer = self.copy_from(name, at, buf);
        self.log = self.log.then_read(name, at, buf, &answer);
        answer
    }

    /// `Failed` exactly where the call is listed or there is no memory. Then what was begun before is gone too.
    fn start(&mut self, name: &str) -> Result<(), Failed>
        ensures listed { OnOk result (IsFalse (is_listed self.old)) }
        ensures after { self.new
            ≡ after_call self.old (event_of (Started name.now) name.now result) }
    {
        if self.calls.count().is_some() {
            return self.fail(name);
        }
        let answer = self.disk.start(name);
        self.log = self.log.then_answer(&Told::Started(name), name, &answer);
        answer
    }

    /// `Failed` exactly where the call is listed, none was begun for the name, or there is no memory. Then what was begun is gone.
    fn append(&mut self, name: &str, bytes: &[u8]) -> Result<(), Failed>
        ensures listed { OnOk result (IsFalse (is_listed self.old)) }
        ensures begun { OnOk result (IsTrue (has_begun (disk_of self.old.log) name.now)) }
        ensures after { self.new
            ≡ after_call self.old (event_of (Appended name.now bytes.now) name.now result) }
    {
        if self.calls.count().is_some() {
            return self.fail(name);
        }
        let answer = self.disk.append(name, bytes);
        self.log = self
            .log
            .then_answer(&Told::Appended(name, bytes), name, &answer);
        answer
    }

    /// `Failed` exactly where the call is listed, none was begun for the name, or there is no memory. Then what was begun is gone, and all
    /// files are as before.
    fn finish(&mut self, name: &str) -> Result<(), Failed>
        ensures listed { OnOk result (IsFalse (is_listed self.old)) }
        ensures begun { OnOk result (IsTrue (has_begun (disk_of self.old.log) name.now)) }
        ensures after { self.new
            ≡ after_call self.old (event_of (Finished name.now) name.now result) }
    {
        if self.calls.count().is_some() {
            return self.fail(name);
        }
        let answer = self.disk.finish(name);
        self.log = self.log.then_answer(&Told::Finished(name), name, &answer);
        answer
    }

    /// Gives up what was begun, for any name. This counts as no call.
    fn give_up(&mut self, name: &str)
        ensures after { self.new ≡ told_more self.old (GivenUp name.now) }
    {
        self.disk.give_up();
        self.log = self.log.then(&Told::GivenUp(name));
    }
}
