//! Files in memory, and the one that was begun, as a log of calls that write tells them.
ghost use Rattle.std.specs.Prelude.{◌≡◌, [], Some, None, IfOk, IfSome, OnOk, IsTrue};
ghost use Rattle.std.specs.Option.{option_copied};
ghost use Rattle.outside_log.specs.Log.{Started, Appended, Finished, after, empty_disk, event_of};
ghost use Rattle.memory_files.specs.Disks.{disk_in, has_begun, held_by};

use hyper_outside::{Failed, NoMemory};
use std::alloc::Global;

/// A name with its bytes.
#[derive(Drop)]
struct File {
    name: Vec<u8>,
    bytes: Vec<u8>,
}

/// A file of no bytes.
fn new_file(alloc: Global, name: &str) -> Result<File, NoMemory>
    ensures { IfOk result (λ file. (file.name.items ≡ name.now) × (file.bytes.items ≡ [])) }
{
    Ok(File {
        name: name.as_bytes().to_vec(alloc)?,
        bytes: Vec::new(alloc),
    })
}

/// The bytes of the newest file of a name.
fn newest<'a>(files: &'a [File], name: &[u8]) -> Option<&'a [u8]>
    ensures { option_copied result ≡ held_by files.now name.now }
{
    for file in files {
        if file.name.as_slice() == name {
            return Some(file.bytes.as_slice());
        }
    }
    None
}

/// Takes what was begun, and answers it where that is for this name.
fn take_begun(begun: &mut Option<File>, name: &str) -> Option<File>
    ensures gone { begun.new ≡ None }
    ensures found { IfSome result
        (λ file. (begun.old ≡ Some file) × (file.name.items ≡ name.now)) }
{
    match begun.take() {
        Some(file) if file.name.as_slice() == name.as_bytes() => Some(file),
        _ => None,
    }
}

/// Files with the one that was begun last and didn't end. A call takes the memory that it needs.
#[derive(Drop)]
pub struct MemDisk {
    /// The newest first.
    files: Vec<File>,
    begun: Option<File>,
    alloc: Global,
}

impl MemDisk {
    /// No files.
    pub fn new(alloc: Global) -> MemDisk
        ensures { disk_in result ≡ empty_disk }
    {
        MemDisk {
            files: Vec::new(alloc),
            begun: None,
            alloc,
        }
    }

    /// The bytes under a name.
    pub fn held(&self, name: &str) -> Option<&[u8]>
        ensures { option_copied result ≡ held_by self.now.files.items name.now }
    {
        newest(self.files.as_slice(), name.as_bytes())
    }

    /// Gives up what was begun.
    pub fn give_up(&mut self)
        ensures { self.new ≡ record self.old { begun = None } }
    {
        self.begun = None;
    }

    /// Begins a file that is to take the name's place, with no bytes. What was begun before is given up. `Failed` comes where there is no
    /// memory.
    pub fn start(&mut self, name: &str) -> Result<(), Failed>
        ensures { disk_in self.new
            ≡ after (disk_in self.old) (event_of (Started name.now) name.now result) }
    {
        match new_file(self.alloc, name) {
            Ok(file) => {
                self.begun = Some(file);
                Ok(())
            }
            Err(_) => {
                self.give_up();
                Err(Failed)
            }
        }
    }

    /// Adds the bytes at the end of what was begun. `Failed` comes where none was begun for the name, or there is no memory; then what was
    /// begun is gone.
    pub fn append(&mut self, name: &str, bytes: &[u8]) -> Result<(), Failed>
        ensures after { disk_in self.new
            ≡ after (disk_in self.old) (event_of (Appended name.now bytes.now) name.now result) }
        ensures begun { OnOk result (IsTrue (has_begun (disk_in self.old) name.now)) }
    {
        let Some(mut file) = take_begun(&mut self.begun, name) else {
            return Err(Failed);
        };
        if file.bytes.extend_from_slice(bytes).is_err() {
            return Err(Failed);
        }
        self.begun = Some(file);
        Ok(())
    }

    /// Has what was begun take its name's place. `Failed` comes where none was begun for the name, or there is no memory; then what was
    /// begun is gone, and all files are as before.
    pub fn finish(&mut self, name: &str) -> Result<(), Failed>
        ensures after { disk_in self.new
            ≡ after (disk_in self.old) (event_of (Finished name.now) name.now result) }
        ensures begun { OnOk result (IsTrue (has_begun (disk_in self.old) name.now)) }
    {
        let Some(file) = take_begun(&mut self.begun, name) else {
            return Err(Failed);
        };
        match self.files.insert(0, file) {
            Ok(()) => Ok(()),
            Err(_) => Err(Failed),
        }
    }
}
