ghost use Rattle.std.specs.Prelude.{◌≡◌, ℕ, ◌≤◌, ◌↔◌, List, [], ◌∷◌, ◌++◌, IsTrue, None, IfOk, OnOk, OnErr, length, string_bytes};
ghost use Rattle.outside_log.specs.Log.{Found, Started, Appended, Finished, GivenUp, event_of};
ghost use Rattle.outside_log.specs.Told.{event_of_told};
ghost use Rattle.system_files.specs.Parts.{IsFor};
ghost use Rattle.system_files.specs.Written.{Takes};

use crate::faults::or_failed;
use crate::opened::{Opened, open_path};
use crate::writing::write_out;
use hyper_outside::Failed;
use outside_log::{Files, Log, Told};
use std::alloc::Global;
use std::fs::{self, OpenFile};
use std::io::{self, ErrorKind, Write};
use std::rt::Files as System;

/// How many files may be written aside at a time for one path, those that ended programs left among them.
const MOST_PARTS: u32 = 1000;

/// A new file that stands aside, in the folder of the path whose place it is to take.
#[derive(Drop)]
struct Part<F> {
    path: String,
    aside: String,
    file: F,
}

/// The path of the part of this number: the path, `.part` and the number.
fn aside_of(alloc: Global, path: &str, number: u32) -> io::Result<String> {
    Ok(format!(in alloc; "{path}.part{number}")?)
}

/// Whether a file may take the path's place: there is none, or a file.
fn is_free<R: System>(system: &R, path: &str) -> io::Result<bool> {
    match fs::metadata(system, path) {
        Ok(data) => Ok(data.is_file()),
        Err(error) if error.kind() == ErrorKind::NotFound => Ok(true),
        Err(error) => Err(error),
    }
}

/// A new file aside of a path, with its own path: the first of the parts that isn't there.
fn new_aside<R: System>(system: &R, alloc: Global, path: &str) -> io::Result<(String, R::File)> {
    for number in 1..=MOST_PARTS {
        let aside = aside_of(alloc, path, number)?;
        match fs::File::create_new(system, aside.as_str()) {
            Ok(file) => return Ok((aside, file)),
            Err(error) if error.kind() == ErrorKind::AlreadyExists => {}
            Err(error) => return Err(error),
        }
    }
    Err(io::Error::from(ErrorKind::AlreadyExists))
}

/// Begins a file that is to take the place of this path.
fn begin_part<R: System>(system: &R, alloc: Global, path: &str) -> io::Result<Part<R::File>>
    ensures { IfOk result (λ part. string_bytes part.path ≡ path.now) }
{
    if !is_free(system, path)? {
        return Err(io::Error::from(ErrorKind::InvalidInput));
    }
    let taken = String::from_str(alloc, path)?;
    let (aside, file) = new_aside(system, alloc, path)?;
    Ok(Part {
        path: taken,
        aside,
        file,
    })
}

impl<F: OpenFile + Write + Drop> Part<F> {
    /// Whether this path's place is to be taken.
    fn is_of(&self, path: &str) -> bool
        ensures { IsTrue result ↔ string_bytes self.now.path ≡ path.now }
    {
        self.path.as_str() == path
    }

    /// Adds bytes at the end.
    fn add(&mut self, bytes: &[u8]) -> Result<(), Failed>
        ensures taken { Takes (F.contents self.old.file)
            (F.contents self.new.file) bytes.now result }
        ensures path { self.new.path ≡ self.old.path }
    {
        if write_out(&mut self.file, bytes) < bytes.len() {
            return Err(Failed);
        }
        Ok(())
    }

    /// Brings the bytes to the disk, and has the file take its place. After an error the place is as it was.
    fn take_place<R: System>(&self, system: &R) -> io::Result<()> {
        self.file.sync_all()?;
        fs::rename(system, self.aside.as_str(), self.path.as_str())
    }
}

/// The files of a system by their paths, with a log of all calls and what they were answered: what was written, and what each read gave.
/// What stood there at first may be any files, and a clause that speaks of files speaks of those that agree with all answers. That the
/// system did what the log tells, and gave the answers in it, is taken on trust.
///
/// A file is opened by `size`, and all that `read_at` gives of it until another is opened or written is read from this opening. What is no
/// file, as a pipe, is read at once to its end, and is an error where that is over some MB. What is written stands aside, in a file of its
/// own in the same folder, until `finish` has it take the place of the path's.
#[derive(Drop)]
pub struct RealFiles<R: System> {
    system: R,
    alloc: Global,
    opened: Option<Opened<R::File>>,
    part: Option<Part<R::File>>,
    log: Log,
}

impl<R: System> RealFiles<R> {
    /// The files of this system. Any files may have stood there.
    pub fn new(system: R, alloc: Global) -> Self
        ghost found: { List (List ℕ × List ℕ) }
        ensures system { result.system ≡ system }
        ensures log { result.log.events ≡ Found found ∷ [] }
    {
        RealFiles {
            system,
            alloc,
            opened: None,
            part: None,
            log: Log::new(),
        }
    }

    /// Whether a path is open.
    fn has_open(&self, path: &str) -> bool {
        match &self.opened {
            Some(opened) => opened.is_of(path),
            None => false,
        }
    }

    /// Whether a path is open and can't be opened again.
    fn has_given(&self, path: &str) -> bool {
        match &self.opened {
            Some(opened) => opened.is_of(path) && opened.is_given(),
            None => false,
        }
    }

    /// Opens what stands under a path anew, and answers how many bytes it has, `None` where nothing is found there.
    fn open(&mut self, path: &str) -> io::Result<Option<u64>>
        ensures { self.new ≡ record self.old { opened = self.new.opened } }
    {
        if !self.has_given(path) {
            self.opened = open_path(&self.system, self.alloc, path)?;
        }
        match &self.opened {
            Some(opened) => Ok(Some(opened.size()?)),
            None => Ok(None),
        }
    }

    /// Reads once from a place of what stands under a path, which is opened where it isn't. Nothing is read where nothing is found there.
    fn read(&mut self, path: &str, at: u64, buf: &mut [u8]) -> io::Result<usize>
        ensures count { IfOk result (λ count. count ≤ length buf.old) }
        ensures same { self.new ≡ record self.old { opened = self.new.opened } }
    {
        if !self.has_open(path) {
            self.opened = open_path(&self.system, self.alloc, path)?;
        }
        match &mut self.opened {
            Some(opened) => opened.read_at(at, buf),
            None => Ok(0),
        }
    }

    /// Removes what was begun.
    fn remove_part(&mut self)
        ensures { self.new ≡ record self.old { part = None } }
    {
        if let Some(part) = self.part.take() {
            let _ = fs::remove_file(&self.system, part.aside.as_str());
        }
    }

    /// Begins a file that is to take the path's place.
    fn begin(&mut self, path: &str) -> Result<(), Failed>
        ensures begun { OnOk result (IsFor self.new.part path.now) }
        ensures same { self.new
            ≡ record self.old { opened = self.new.opened; part = self.new.part } }
    {
        self.opened = None;
        self.remove_part();
        let Ok(part) = begin_part(&self.system, self.alloc, path) else {
            return Err(Failed);
        };
        self.part = Some(part);
        Ok(())
    }

    /// Adds bytes at the end of what was begun for the path.
    fn add(&mut self, path: &str, bytes: &[u8]) -> Result<(), Failed>
        ensures begun { OnOk result (IsFor self.old.part path.now) }
        ensures stays { OnOk result (IsFor self.new.part path.now) }
        ensures same { self.new ≡ record self.old { part = self.new.part } }
    {
        match &mut self.part {
            Some(part) if part.is_of(path) => part.add(bytes),
            _ => Err(Failed),
        }
    }

    /// Has what was begun for the path take its place.
    fn place(&mut self, path: &str) -> Result<(), Failed>
        ensures begun { OnOk result (IsFor self.old.part path.now) }
        ensures gone { OnOk result (self.new.part ≡ None) }
        ensures same { self.new ≡ record self.old { part = self.new.part } }
    {
        match &self.part {
            Some(part) if part.is_of(path) => {
                if part.take_place(&self.system).is_err() {
                    return Err(Failed);
                }
            }
            _ => return Err(Failed),
        }
        self.part = None;
        Ok(())
    }

    /// Tells the answer of a call that writes. After a failure what was begun is removed.
    fn tell(
        &mut self,
        told: &Told<'_>,
        name: &str,
        answer: Result<(), Failed>,
    ) -> Result<(), Failed>
        ensures answer { result ≡ answer }
        ensures log { self.new.log.events ≡ self.old.log.events
            ++ event_of (event_of_told told.now) name.now answer ∷ [] }
        ensures gone { OnErr result (self.new.part ≡ None) }
        ensures stays { OnOk result (self.new.part ≡ self.old.part) }
    {
        if answer.is_err() {
            self.remove_part();
        }
        self.log = self.log.then_answer(told, name, &answer);
        answer
    }
}

impl<R: System> Files for RealFiles<R> {
    ghost log = { λ s. s.log.events };

    /// `None` where nothing is found under the path, also where a folder of it is missing.
    fn size(&mut self, name: &str) -> Result<Option<u64>, Failed> {
        let answer = or_failed(self.open(name));
        self.log = self.log.then_size(name, &answer);
        answer
    }

    fn read_at(&mut self, name: &str, at: u64, buf: &mut [u8]) -> Result<usize, Failed> {
        let answer = or_failed(self.read(name, at, buf));
        self.log = self.log.then_read(name, at, buf, &answer);
        answer
    }

    /// `Failed` also where something stands under the path that is no file.
    fn start(&mut self, name: &str) -> Result<(), Failed>
        ensures log { self.new.log.events
            ≡ self.old.log.events ++ event_of (Started name.now) name.now result ∷ [] }
        ensures begun { OnOk result (IsFor self.new.part name.now) }
        ensures gone { OnErr result (self.new.part ≡ None) }
    {
        let answer = self.begin(name);
        self.tell(&Told::Started(name), name, answer)
    }

    fn append(&mut self, name: &str, bytes: &[u8]) -> Result<(), Failed>
        ensures log { self.new.log.events
            ≡ self.old.log.events ++ event_of (Appended name.now bytes.now) name.now result ∷ [] }
        ensures begun { OnOk result (IsFor self.old.part name.now) }
        ensures gone { OnErr result (self.new.part ≡ None) }
    {
        let answer = self.add(name, bytes);
        self.tell(&Told::Appended(name, bytes), name, answer)
    }

    fn finish(&mut self, name: &str) -> Result<(), Failed>
        ensures log { self.new.log.events
            ≡ self.old.log.events ++ event_of (Finished name.now) name.now result ∷ [] }
        ensures begun { OnOk result (IsFor self.old.part name.now) }
        ensures gone { self.new.part ≡ None }
    {
        let answer = self.place(name);
        self.tell(&Told::Finished(name), name, answer)
    }

    fn give_up(&mut self, name: &str)
        ensures log { self.new.log.events ≡ self.old.log.events ++ GivenUp name.now ∷ [] }
        ensures gone { self.new.part ≡ None }
    {
        self.remove_part();
        self.log = self.log.then(&Told::GivenUp(name));
    }
}
