ghost use Rattle.std.specs.Prelude.{◌≡◌, ◌≤◌, ◌+◌, ◌-◌, ◌++◌, ◌↔◌, IsTrue, length, take};
ghost use Rattle.sha2.specs.Sha256.{sha256};
ghost use Rattle.word_pages.specs.Sealed.{binding_of, is_sealed, is_sealed_under, sealed, sealed_under};

use crate::version::Version;
use arrayvec::ArrayVec;
use sha2::{Digest, Sha256};

/// How many bytes a digest has.
const DIGEST_SIZE: usize = 32;

/// What a page is bound to: a head's digest and the page's number, or nothing.
pub type Binding = ArrayVec<u8, 40>;

/// What the page with this number, counted from 0, is bound to in a file whose head has this digest.
/// In versions 1 and 2 that is nothing.
pub fn binding_of(version: Version, digest: &[u8; 32], number: usize) -> Binding
    ensures { result.items ≡ binding_of version digest.now number }
{
    let mut binding = Binding::new();
    match version {
        Version::One | Version::Two => {}
        Version::Three => {
            // There is room for the digest.
            let _digest = binding.try_extend_from_slice(digest);
            // There is room for the number behind it.
            let _number = binding.try_extend_from_slice(&(number as u64).to_be_bytes());
        }
    }
    binding
}

/// The digest of what bytes are bound to and of them.
fn digest_under(binding: &[u8], bytes: &[u8]) -> [u8; 32]
    ensures { result ≡ sha256 (binding.now ++ bytes.now) }
{
    let mut hasher = Sha256::new();
    hasher.update(binding);
    hasher.update(bytes);
    hasher.finalize()
}

/// Adds the digest of the bytes, of 32 bytes, and answers it.
pub fn put_digest<const N: usize>(out: &mut ArrayVec<u8, N>) -> [u8; 32]
    requires room { length out.old.items + 32 ≤ N }
    ensures added { out.new.items ≡ sealed out.old.items }
    ensures digest { result ≡ sha256 out.old.items }
{
    let digest = Sha256::digest(out.as_slice());
    // There is room for it.
    let _added = out.try_extend_from_slice(&digest);
    digest
}

/// Adds the digest, of 32 bytes, of what the bytes are bound to and of them.
pub fn put_digest_under<const N: usize>(binding: &[u8], out: &mut ArrayVec<u8, N>)
    requires { length out.old.items + 32 ≤ N }
    ensures { out.new.items ≡ sealed_under binding.now out.old.items }
{
    let digest = digest_under(binding, out.as_slice());
    // There is room for it.
    let _added = out.try_extend_from_slice(&digest);
}

/// Whether the last 32 bytes are the digest of what those before them are bound to and of these. Fewer
/// than 32 bytes never are.
pub fn is_sealed_under(binding: &[u8], bytes: &[u8]) -> bool
    ensures value { result ≡ is_sealed_under binding.now bytes.now }
    ensures exactly { IsTrue result
        ↔ (bytes.now ≡ sealed_under binding.now (take (length bytes.now - 32) bytes.now)) }
{
    if bytes.len() < DIGEST_SIZE {
        return false;
    }
    let (front, digest) = bytes.split_at(bytes.len() - DIGEST_SIZE);
    digest == digest_under(binding, front).as_slice()
}

/// Whether the last 32 bytes are the digest of those before them. Fewer than 32 bytes never are.
pub fn is_sealed(bytes: &[u8]) -> bool
    ensures value { result ≡ is_sealed bytes.now }
    ensures exactly { IsTrue result
        ↔ (bytes.now ≡ sealed (take (length bytes.now - 32) bytes.now)) }
{
    is_sealed_under(&[], bytes)
}
