ghost use Rattle.std.specs.Prelude.{◌≡◌, ◌≤◌, ◌<◌, ◌+◌, ◌*◌, ◌^◌, ◌++◌, All, length, flat_map};
ghost use Rattle.byteorder.specs.Endian.{big_bytes};
ghost use Rattle.word_pages.specs.Words.{word_size, Fits, words_bytes, words_in_bytes, numbers_of};

use crate::version::Version;
use arrayvec::ArrayVec;
use byteorder::{BigEndian, ByteOrder};

/// Adds the bytes of words, one after the other.
pub fn put_words<const N: usize>(version: Version, words: &[u64], out: &mut ArrayVec<u8, N>)
    requires room { length out.old.items + word_size version * length words.now ≤ N }
    requires fit { All (Fits version) words.now }
    ensures { out.new.items ≡ out.old.items ++ words_bytes version words.now }
{
    match version {
        Version::One => put_cells::<8, N>(words, out),
        Version::Two | Version::Three => put_cells::<5, N>(words, out),
    }
}

/// Adds words of `SIZE` bytes each.
fn put_cells<const SIZE: usize, const N: usize>(words: &[u64], out: &mut ArrayVec<u8, N>)
    requires some { 1 ≤ SIZE }
    requires most { SIZE ≤ 8 }
    requires room { length out.old.items + SIZE * length words.now ≤ N }
    requires fit { All (λ word. word < 256 ^ SIZE) words.now }
    ensures { out.new.items ≡ out.old.items ++ flat_map (big_bytes SIZE) words.now }
{
    'words: for word in words {
        let mut cell = [0u8; SIZE];
        BigEndian::write_uint(&mut cell, *word, SIZE);
        // There is room for it.
        let _added = out.try_extend_from_slice(&cell);
    }
}

/// Reads words from the front of bytes.
pub fn read_words(version: Version, bytes: &[u8], words: &mut [u64])
    requires { word_size version * length words.old ≤ length bytes.now }
    ensures { words.new ≡ words_in_bytes version (length words.old) bytes.now }
{
    match version {
        Version::One => read_cells::<8>(bytes, words),
        Version::Two | Version::Three => read_cells::<5>(bytes, words),
    }
}

/// Reads words of `SIZE` bytes each.
fn read_cells<const SIZE: usize>(bytes: &[u8], words: &mut [u64])
    requires some { 1 ≤ SIZE }
    requires most { SIZE ≤ 8 }
    requires long { SIZE * length words.old ≤ length bytes.now }
    ensures { words.new ≡ numbers_of SIZE (length words.old) bytes.now }
{
    'words: for i in 0..words.len() {
        words[i] = BigEndian::read_uint(&bytes[SIZE * i..], SIZE);
    }
}
