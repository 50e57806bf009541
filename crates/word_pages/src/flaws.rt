ghost use Rattle.std.specs.Prelude.{◌≡◌, ◌≤◌, ◌<◌, ◌+◌, ◌*◌, ◌^◌, ℕ, ℤ, pos, ◌≤ℤ◌, length};
ghost use Rattle.std.specs.Result.{result_err};
ghost use Rattle.word_pages.specs.Words.{word_size, words_in_bytes};
ghost use Rattle.word_pages.specs.Flaws.{pair_flaw, pairs_flaw};

use crate::version::Version;
use crate::words::read_words;
use directed_fixed::{Fixed, from_word};
use hyper_outside::PageFault;

/// What is wrong, and at which place of the file.
#[derive(Clone, Copy)]
pub struct Flaw {
    pub fault: PageFault,
    /// The place of the byte, counted from the file's first.
    pub at: u64,
}

/// The first flaw of pairs of words, the first of which stands at the place `at` of a file.
pub fn check_pairs(version: Version, bound: Fixed, at: u64, words: &[u64]) -> Result<(), Flaw>
    requires from { pos 0 ≤ℤ bound }
    requires to { bound ≤ℤ pos (2 ^ 36) }
    requires places { at + word_size version * length words.now < 2 ^ 64 }
    ensures { result_err result ≡ pairs_flaw version bound at words.now }
{
    let size = version.word_size() as u64;
    'pairs: for i in 0..words.len() / 2 {
        check_pair(
            version,
            bound,
            at + 2 * size * i as u64,
            words[2 * i],
            words[2 * i + 1],
        )?;
    }
    Ok(())
}

/// The first flaw of a pair that stands at the place `at`.
fn check_pair(version: Version, bound: Fixed, at: u64, lower: u64, upper: u64) -> Result<(), Flaw>
    requires from { pos 0 ≤ℤ bound }
    requires to { bound ≤ℤ pos (2 ^ 36) }
    requires places { at + word_size version < 2 ^ 64 }
    ensures { result_err result ≡ pair_flaw version bound at lower upper }
{
    if from_word(lower, bound).is_none() {
        return Err(Flaw {
            fault: PageFault::Word,
            at,
        });
    }
    if from_word(upper, bound).is_none() {
        let at = at + version.word_size() as u64;
        return Err(Flaw {
            fault: PageFault::Word,
            at,
        });
    }
    if upper < lower {
        return Err(Flaw {
            fault: PageFault::Crossed,
            at,
        });
    }
    Ok(())
}

/// Reads pairs of words from the front of bytes that stand at the place `at` of a file, and answers their first flaw. The words are
/// read also where there is one.
pub fn read_pairs(
    version: Version,
    bound: Fixed,
    at: u64,
    bytes: &[u8],
    words: &mut [u64],
) -> Result<(), Flaw>
    requires from { pos 0 ≤ℤ bound }
    requires to { bound ≤ℤ pos (2 ^ 36) }
    requires long { word_size version * length words.old ≤ length bytes.now }
    requires places { at + length bytes.now < 2 ^ 64 }
    ensures words { words.new ≡ words_in_bytes version (length words.old) bytes.now }
    ensures flaw { result_err result
        ≡ pairs_flaw version bound at (words_in_bytes version (length words.old) bytes.now) }
{
    read_words(version, bytes, words);
    check_pairs(version, bound, at, words)
}
