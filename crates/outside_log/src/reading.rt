ghost use Rattle.std.specs.Prelude.{◌≡◌, ◌≤◌, ◌<◌, ◌+◌, ◌^◌, [], IfOk, IsTrue, Ok, vec_len, length};
ghost use Rattle.std.specs.Option.{option_map};
ghost use Rattle.hyper_outside.specs.Causes.{HasCause};
ghost use Rattle.outside_log.specs.Files.{Fills, bytes_from};
ghost use Rattle.outside_log.specs.Log.{standing};
ghost use Rattle.outside_log.specs.Readings.{ReadsOn, is_faithful, read_faults};
ghost use Rattle.outside_log.specs.Reading.{AddsRead, IsWhole, HasReadCause, begins_otherwise};
ghost use Rattle.outside_log.specs.declared.reading.WholeStop.TheVariants.{ReadFault, NoMemory};

use crate::outside::Files;
use hyper_outside::Failed;
use std::alloc::{AllocError, Global};

/// How many bytes a file has, `None` where it isn't there.
pub fn size_of<F: Files>(files: &mut F, name: &str) -> Result<Option<u64>, Failed>
    ensures size { IsTrue (is_faithful (F.log files.new)) → IfOk result
        (λ size. size ≡ option_map length (standing (F.log files.old) name.now)) }
    ensures reads { ReadsOn (F.log files.old) (F.log files.new) }
    ensures cause { HasCause (read_faults (F.log files.old))
        (read_faults (F.log files.new)) result }
{
    files.size(name)
}

/// Reads on, behind what is in the buffer already.
fn read_more<F: Files>(
    files: &mut F,
    name: &str,
    at: u64,
    done: usize,
    buf: &mut [u8],
) -> Result<usize, Failed>
    requires end { at + done < 2 ^ 64 }
    requires room { done < length buf.old }
    ensures within { IfOk result (λ count. done + count ≤ length buf.old) }
    ensures read { IsTrue (is_faithful (F.log files.new)) → IfOk result
        (AddsRead
        (bytes_from (at + done) (standing (F.log files.old) name.now)) done buf.old buf.new) }
    ensures len { length buf.new ≡ length buf.old }
    ensures reads { ReadsOn (F.log files.old) (F.log files.new) }
    ensures cause { HasCause (read_faults (F.log files.old))
        (read_faults (F.log files.new)) result }
{
    files.read_at(name, at + done as u64, &mut buf[done..])
}

/// Fills the buffer with the bytes of a file from the place `at` on, over as many reads as it takes, and answers how many bytes
/// there were: fewer than the buffer's length only where a read answered none. Every read has room for a byte or more, so an empty
/// buffer makes no read. After `Failed` the buffer may have changed.
pub fn fill<F: Files>(files: &mut F, name: &str, at: u64, buf: &mut [u8]) -> Result<usize, Failed>
    requires { at + length buf.old < 2 ^ 64 }
    ensures within { IfOk result (λ count. count ≤ length buf.old) }
    ensures fills { IsTrue (is_faithful (F.log files.new))
        → IfOk result (Fills (standing (F.log files.old) name.now) at buf.old buf.new) }
    ensures empty { buf.old ≡ [] → (result ≡ Ok 0) × (files.new ≡ files.old) }
    ensures len { length buf.new ≡ length buf.old }
    ensures reads { ReadsOn (F.log files.old) (F.log files.new) }
    ensures cause { HasCause (read_faults (F.log files.old))
        (read_faults (F.log files.new)) result }
{
    let mut done = 0;
    'reads: while done < buf.len() {
        let count = read_more(files, name, at, done, buf)?;
        if count == 0 {
            return Ok(done);
        }
        done += count;
    }
    Ok(done)
}

/// The most bytes by whose look a file is told from others.
const LONGEST_START: usize = 32;

/// Whether a file is there, has a byte or more, and begins otherwise than with these bytes, of which there are at most 32. One that
/// is shorter than they are begins otherwise too, unless it is empty. `Failed` comes where a call failed.
pub fn begins_otherwise<F: Files>(files: &mut F, name: &str, start: &[u8]) -> Result<bool, Failed>
    requires { length start.now ≤ 32 }
    ensures otherwise { IsTrue (is_faithful (F.log files.new)) → IfOk result
        (λ otherwise. otherwise ≡ begins_otherwise start.now
        (standing (F.log files.old) name.now)) }
    ensures reads { ReadsOn (F.log files.old) (F.log files.new) }
    ensures cause { HasCause (read_faults (F.log files.old))
        (read_faults (F.log files.new)) result }
{
    let mut front = [0; LONGEST_START];
    let count = fill(files, name, 0, &mut front[..start.len()])?;
    Ok(count > 0 && &front[..count] != start)
}

/// Why a whole file could not be read.
#[derive(Clone, Copy)]
pub enum WholeStop {
    /// There is no file of the name.
    Missing,
    /// The file has more bytes than asked for.
    TooLong,
    /// A call of the outside failed.
    ReadFault,
    /// There was no memory.
    NoMemory,
}

impl From<Failed> for WholeStop {
    ghost from_gives = { λ _ stop. stop ≡ ReadFault };

    fn from(_failed: Failed) -> Self {
        WholeStop::ReadFault
    }
}

impl From<AllocError> for WholeStop {
    ghost from_gives = { λ _ stop. stop ≡ NoMemory };

    fn from(_error: AllocError) -> Self {
        WholeStop::NoMemory
    }
}

/// Reads a file of at most `most` bytes. It reads as many bytes as `size` answers, or fewer where a read answers none before. `Missing`
/// comes where `size` answers that there is no file, `TooLong` where it answers more than `most`, `ReadFault` where a call failed.
pub fn read_whole<F: Files>(
    alloc: Global,
    files: &mut F,
    name: &str,
    most: u64,
) -> Result<Vec<u8>, WholeStop>
    ensures within { IfOk result (λ bytes. vec_len bytes ≤ most) }
    ensures whole { IsTrue (is_faithful (F.log files.new))
        → IsWhole (standing (F.log files.old) name.now) most result }
    ensures reads { ReadsOn (F.log files.old) (F.log files.new) }
    ensures cause { HasReadCause (read_faults (F.log files.old))
        (read_faults (F.log files.new)) result }
{
    let Some(size) = size_of(files, name)? else {
        return Err(WholeStop::Missing);
    };
    if size > most {
        return Err(WholeStop::TooLong);
    }
    let mut bytes = vec![in alloc; 0; size as usize]?;
    let count = fill(files, name, 0, bytes.as_mut_slice())?;
    bytes.truncate(count);
    Ok(bytes)
}
