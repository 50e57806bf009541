ghost use Rattle.std.specs.Prelude.{◌≡◌, length, min, take, drop};
ghost use Rattle.std.specs.Option.{option_copied};
ghost use Rattle.outside_log.specs.Files.{bytes_from};

/// What can be read of a file from a place on.
pub fn rest_from(file: Option<&[u8]>, at: u64) -> &[u8]
    ensures { result.now ≡ bytes_from at (option_copied file.entry) }
{
    match file {
        Some(bytes) if at < bytes.len() as u64 => &bytes[at as usize..],
        _ => &[],
    }
}

/// Copies as many bytes as fit to the front of a buffer, and answers how many.
pub fn copy_front(bytes: &[u8], buf: &mut [u8]) -> usize
    ensures count { result ≡ min (length buf.old) (length bytes.now) }
    ensures front { take result buf.new ≡ take result bytes.now }
    ensures rest { drop result buf.new ≡ drop result buf.old }
{
    let count = bytes.len().min(buf.len());
    buf[..count].copy_from_slice(&bytes[..count]);
    count
}
