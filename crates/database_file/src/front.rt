ghost use Rattle.std.specs.Prelude.{◌≡◌, ◌≤◌, Option, IfOk, IsTrue, Err};
ghost use Rattle.std.specs.Option.{option_map};
ghost use Rattle.std.specs.Result.{result_err};
ghost use Rattle.base_head.specs.Headers.{IsHeader};
ghost use Rattle.hyper_outside.specs.Causes.{Rose};
ghost use Rattle.outside_log.specs.Log.{standing};
ghost use Rattle.outside_log.specs.Readings.{ReadsOn, is_faithful, read_faults};
ghost use Rattle.database_file.specs.declared.stop.LoadStop.TheVariants.{ReadFault};
ghost use Rattle.database_file.specs.Faults.{AnswersFront, IsFrontFrom, Read, ends_before, front_fault_from, short_fault, whole};

use crate::stop::LoadStop;
use base_head::{BadFile, FileFault, Head, Header, LONGEST_FRONT, read_header};
use outside_log::{Files, fill, size_of};
use word_pages::Version;

/// How many bytes the header has.
const HEADER: usize = 64;

/// What stands in a file before the pages.
#[derive(Drop)]
pub(crate) struct Front {
    pub header: Header,
    pub head: Head,
    /// The digest of header and starts.
    pub digest: [u8; 32],
}

/// Tells that a file is too short for a header, or that fewer bytes of it were there.
fn check_begins(size: u64, bytes: &[u8]) -> Result<(), BadFile>
    ensures { result_err result ≡ short_fault (record { size = size; bytes = bytes.now }) }
{
    if size < HEADER as u64 {
        return Err(BadFile {
            fault: FileFault::Short,
            at: size,
        });
    }
    check_long(HEADER, bytes)
}

/// Tells that bytes end before this place.
fn check_long(place: usize, bytes: &[u8]) -> Result<(), BadFile>
    ensures { result_err result ≡ ends_before place bytes.now }
{
    if bytes.len() < place {
        return Err(BadFile {
            fault: FileFault::Short,
            at: bytes.len() as u64,
        });
    }
    Ok(())
}

/// What stands before the pages of a file that is said to have `size` bytes, where these are its first ones:
/// all, or at least as many as can stand there. What is wrong first up to there is told: also that the version
/// comes before `oldest`.
fn front_of(oldest: Version, size: u64, bytes: &[u8]) -> Result<Front, BadFile>
    ensures fault { result_err result
        ≡ front_fault_from oldest (record { size = size; bytes = bytes.now }) }
    ensures front { IfOk result (λ front. IsFrontFrom oldest
        (record { size = size; bytes = bytes.now }) front) }
    ensures valid { IfOk result (λ front. IsHeader front.header) }
{
    check_begins(size, bytes)?;
    let header = read_header(oldest, size, bytes)?;
    check_long(header.front_length() as usize, bytes)?;
    let head = header.read_starts(bytes)?;
    let digest = header.digest_in(bytes);
    Ok(Front {
        header,
        head,
        digest,
    })
}

/// Reads what stands before the pages in a file of the version `oldest` or a later one: it asks for the size,
/// and reads the first bytes, as many as can stand there. What is wrong first up to there is told, in the
/// order of the format.
pub(crate) fn read_front<F: Files>(
    files: &mut F,
    name: &str,
    oldest: Version,
) -> Result<Front, LoadStop>
    ensures read { (file : Option Read) × AnswersFront oldest file result }
    ensures told { IsTrue (is_faithful (F.log files.new))
        → AnswersFront oldest (option_map whole (standing (F.log files.old) name.now)) result }
    ensures later { read_faults (F.log files.old) ≤ read_faults (F.log files.new) }
    ensures cause { result ≡ Err ReadFault
        → Rose (read_faults (F.log files.old)) (read_faults (F.log files.new)) }
    ensures reads { ReadsOn (F.log files.old) (F.log files.new) }
    ensures valid { IfOk result (λ front. IsHeader front.header) }
{
    let Some(size) = size_of(files, name)? else {
        return Err(LoadStop::Missing);
    };
    let mut buf = [0; LONGEST_FRONT];
    let room = size.min(LONGEST_FRONT as u64) as usize;
    let count = fill(files, name, 0, &mut buf[..room])?;
    let front = front_of(oldest, size, &buf[..count])?;
    Ok(front)
}
