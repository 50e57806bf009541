//! Files of a system that are read, each from one opening on.
ghost use Rattle.std.specs.Prelude.{◌≡◌, ◌≤◌, ◌↔◌, IsTrue, IfOk, IfSome, length, take, string_bytes};
ghost use Rattle.std.specs.Io.KnownBytes.{ReadConsumes};
ghost use Rattle.system_files.specs.Opened.{GivesFrom, HasSize, is_source_given};
ghost use Rattle.outside_log.specs.Reading.{ReadFrom};

use outside_log::{copy_front, rest_from};
use std::alloc::Global;
use std::fs::{self, OpenFile};
use std::io::{self, ErrorKind, Read, Seek, SeekFrom};
use std::rt::Files as System;

/// What is read.
#[derive(Drop)]
enum Source<F> {
    File(F),
    /// All that something gave that is no file, as a pipe, and is there once.
    Given(Vec<u8>),
}

/// What stands under a path, from one opening on.
#[derive(Drop)]
pub(crate) struct Opened<F> {
    path: String,
    source: Source<F>,
}

/// How often an interrupted read is made again.
const TRIES: u32 = 1000;

/// Reads once, and again where it was interrupted.
fn read_once<R: Read>(reader: &mut R, buf: &mut [u8]) -> io::Result<usize>
    ensures within { IfOk result (λ count. count ≤ length buf.old) }
    ensures bytes { ReadConsumes (R.remaining reader.old)
        (R.remaining reader.new) result buf.new }
{
    for _ in 0..TRIES {
        match reader.read(buf) {
            Err(error) if error.kind() == ErrorKind::Interrupted => {}
            answer => return answer,
        }
    }
    Err(io::Error::from(ErrorKind::Interrupted))
}

/// Reads once from a place on.
fn read_from<R: Read + Seek>(reader: &mut R, at: u64, buf: &mut [u8]) -> io::Result<usize>
    ensures within { IfOk result (λ count. count ≤ length buf.old) }
    ensures from { IfOk result (λ count. ReadFrom R.stream_position R.stream_bytes
        R.remaining at reader.old reader.new (take count buf.new)) }
{
    reader.seek(SeekFrom::Start(at))?;
    read_once(reader, buf)
}

/// How many bytes are taken at most of what is no file.
const MOST_BYTES: usize = 4_194_304;

/// How many bytes of it one read takes at most.
const READ_BYTES: usize = 4096;

/// All that can be read, which is an error where that is too much.
fn read_to_end<R: Read>(alloc: Global, reader: &mut R) -> io::Result<Vec<u8>> {
    let mut bytes = Vec::new(alloc);
    let mut buf = [0; READ_BYTES];
    for _ in 0..=MOST_BYTES {
        let count = read_once(reader, &mut buf)?;
        if count == 0 {
            return Ok(bytes);
        }
        if bytes.len().saturating_add(count) > MOST_BYTES {
            break;
        }
        bytes.extend_from_slice(&buf[..count])?;
    }
    Err(io::Error::from(ErrorKind::FileTooLarge))
}

/// What an opened file gives.
fn source_of<F: Read + OpenFile + Drop>(alloc: Global, mut file: F) -> io::Result<Source<F>> {
    if file.metadata()?.is_file() {
        return Ok(Source::File(file));
    }
    Ok(Source::Given(read_to_end(alloc, &mut file)?))
}

/// Opens what stands under a path, `None` where nothing is found there.
pub(crate) fn open_path<R: System>(
    system: &R,
    alloc: Global,
    path: &str,
) -> io::Result<Option<Opened<R::File>>>
    ensures { IfOk result (λ found. IfSome found (λ opened. string_bytes opened.path ≡ path.now)) }
{
    match fs::open(system, path) {
        Ok(file) => Ok(Some(Opened {
            path: String::from_str(alloc, path)?,
            source: source_of(alloc, file)?,
        })),
        Err(error) if error.kind() == ErrorKind::NotFound => Ok(None),
        Err(error) => Err(error),
    }
}

impl<F: Read + Seek + OpenFile> Opened<F> {
    /// Whether it stands under this path.
    pub(crate) fn is_of(&self, path: &str) -> bool
        ensures { IsTrue result ↔ string_bytes self.now.path ≡ path.now }
    {
        self.path.as_str() == path
    }

    /// Whether it can't be opened again.
    pub(crate) fn is_given(&self) -> bool
        ensures { result ≡ is_source_given self.now.source }
    {
        matches!(self.source, Source::Given(_))
    }

    /// How many bytes it has.
    pub(crate) fn size(&self) -> io::Result<u64>
        ensures { IfOk result (HasSize self.now.source) }
    {
        match &self.source {
            Source::File(file) => Ok(file.metadata()?.len()),
            Source::Given(bytes) => Ok(bytes.len() as u64),
        }
    }

    /// Reads once from a place on.
    pub(crate) fn read_at(&mut self, at: u64, buf: &mut [u8]) -> io::Result<usize>
        ensures count { IfOk result (λ count. count ≤ length buf.old) }
        ensures given { IfOk result (GivesFrom self.old.source at buf.old buf.new) }
        ensures path { self.new.path ≡ self.old.path }
    {
        match &mut self.source {
            Source::File(file) => read_from(file, at, buf),
            Source::Given(bytes) => Ok(copy_front(rest_from(Some(bytes.as_slice()), at), buf)),
        }
    }
}
