ghost use Rattle.std.specs.Prelude.{◌≡◌, ◌≤◌, ◌<◌, ◌+◌, ◌*◌, ◌^◌, ℕ, ℤ, pos, ◌≤ℤ◌, OnOk, length};
ghost use Rattle.std.specs.Result.{result_err};
ghost use Rattle.word_pages.specs.Words.{words_in_bytes};
ghost use Rattle.word_pages.specs.Pages.{page_size, page_flaw};

use crate::digest::is_sealed_under;
use crate::flaws::{Flaw, read_pairs};
use crate::version::Version;
use directed_fixed::Fixed;
use hyper_outside::PageFault;

/// Reads the pairs of a page that is bound to `binding` and stands at the place `at` of a file, where
/// `bytes` are those from there on, and answers the page's first flaw. Those behind the page don't matter.
/// There are as many words as in `words`.
pub fn read_page(
    version: Version,
    binding: &[u8],
    bound: Fixed,
    at: u64,
    bytes: &[u8],
    words: &mut [u64],
) -> Result<(), Flaw>
    requires from { pos 0 ≤ℤ bound }
    requires to { bound ≤ℤ pos (2 ^ 36) }
    requires places { at + length bytes.now < 2 ^ 64 }
    ensures flaw { result_err result
        ≡ page_flaw version binding.now bound (length words.old) at bytes.now }
    ensures words { OnOk result (words.new ≡ words_in_bytes version (length words.old) bytes.now) }
{
    let size = version.page_size(words.len());
    if bytes.len() < size {
        let at = at + bytes.len() as u64;
        return Err(Flaw {
            fault: PageFault::Short,
            at,
        });
    }
    if !is_sealed_under(binding, &bytes[..size]) {
        let at = at + (version.word_size() * words.len()) as u64;
        return Err(Flaw {
            fault: PageFault::PageDigest,
            at,
        });
    }
    read_pairs(version, bound, at, bytes, words)
}
