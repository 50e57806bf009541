ghost use Rattle.std.specs.Prelude.{◌≡◌, ◌≤◌, IfOk, OnOk, length};
ghost use Rattle.base_head.specs.Faults.{checked, first_wrong};
ghost use Rattle.base_head.specs.Headers.{IsHeader};
ghost use Rattle.base_head.specs.HeaderFaults.{header_read, length_checks, opening_checks};

use crate::fault::{BadFile, FileFault};
use crate::fields::Fields;
use crate::header::{BASE_START, Header};
use word_pages::Version;

/// The header of a file of this size, which begins with these bytes: at least the first 64 where it has so
/// many. What is wrong first is told, up to the size: a version before `oldest` or a later one than is
/// known, another wrong field by its place, and that the file is too short or too long for what they say.
pub fn read_header(oldest: Version, size: u64, bytes: &[u8]) -> Result<Header, BadFile>
    requires { 64 ≤ size → 64 ≤ length bytes.now }
    ensures read { result ≡ header_read oldest size bytes.now }
    ensures valid { IfOk result IsHeader }
{
    check_opening(size, bytes)?;
    let header = Fields::read(bytes).header(oldest)?;
    check_length(size, header.file_length())?;
    Ok(header)
}

fn check_opening(size: u64, bytes: &[u8]) -> Result<(), BadFile>
    requires { 64 ≤ size → 64 ≤ length bytes.now }
    ensures read { result ≡ checked (first_wrong (opening_checks size bytes.now)) tt }
    ensures long { OnOk result (64 ≤ size) }
{
    if size < 64 {
        return Err(BadFile {
            fault: FileFault::Short,
            at: size,
        });
    }
    if !bytes.starts_with(&BASE_START) {
        return Err(BadFile {
            fault: FileFault::Magic,
            at: 0,
        });
    }
    Ok(())
}

fn check_length(size: u64, whole: u64) -> Result<(), BadFile>
    ensures { result ≡ checked (first_wrong (length_checks size whole)) tt }
{
    if size < whole {
        return Err(BadFile {
            fault: FileFault::Short,
            at: size,
        });
    }
    if size > whole {
        return Err(BadFile {
            fault: FileFault::Long,
            at: whole,
        });
    }
    Ok(())
}
