ghost use Rattle.std.specs.Prelude.{◌≡◌, ◌≤◌, ◌<◌, ◌+◌, ◌*◌, ◌^◌, ◌++◌, [], length};
ghost use Rattle.std.specs.Option.{option_map};
ghost use Rattle.cube_actions.specs.Ladder.{ladder};
ghost use Rattle.cube_actions.specs.Stakes.{point_units};
ghost use Rattle.word_pages.specs.Flaws.{LieWithin, pairs_flaw};
ghost use Rattle.word_pages.specs.Words.{words_in_bytes, words_bytes};
ghost use Rattle.base_head.specs.Faults.{checked};
ghost use Rattle.base_head.specs.Fronts.{bad_of, digest_in, fault_of, front_text, head_digest, pairs_of_words, starts_length, starts_read, words_of_pairs};
ghost use Rattle.base_head.specs.Heads.{AreStartsOf, HasText};
ghost use Rattle.base_head.specs.Headers.{IsHeader, front_length, header_of, pair_size};

use crate::fault::{BadFile, FileFault, check};
use crate::head::Head;
use crate::header::Header;
use arrayvec::ArrayVec;
use cube_actions::{StakesName, Starts};
use directed_fixed::{Fixed, Pair, to_word};
use hyper_outside::PageFault;
use word_pages::{Flaw, Version, is_sealed, put_digest, put_words, read_pairs};

/// Adds the front of a file to an empty list: header, starts, and the digest of both, which it answers.
pub fn put_front<const N: usize>(
    head: &Head,
    version: Version,
    out: &mut ArrayVec<u8, N>,
) -> [u8; 32]
    requires empty { out.old.items ≡ [] }
    requires room { front_length (header_of version head.now) ≤ N }
    requires text { HasText version head.now }
    ensures text { out.new.items ≡ front_text version head.now }
    ensures digest { result ≡ head_digest version head.now }
{
    Header::of(head, version).put(out);
    put_starts(head.starts(), version, out);
    put_digest(out)
}

/// Adds the words of the starts, of each pair the lower one and then the upper one.
fn put_starts<const N: usize>(starts: &Starts, version: Version, out: &mut ArrayVec<u8, N>)
    requires { length out.old.items + pair_size version * length starts.now.pairs ≤ N }
    ensures { out.new.items
        ≡ out.old.items ++ words_bytes version (words_of_pairs starts.now.pairs) }
{
    'starts: for number in 0..starts.len() {
        let pair = starts.pair(number);
        let words = [to_word(pair.lower()), to_word(pair.upper())];
        put_words(version, &words, out);
    }
}

impl From<Flaw> for BadFile {
    ghost from_gives = { λ flaw bad. bad ≡ bad_of flaw };

    fn from(flaw: Flaw) -> BadFile {
        BadFile {
            fault: fault_of(flaw.fault),
            at: flaw.at,
        }
    }
}

fn fault_of(fault: PageFault) -> FileFault
    ensures { result ≡ fault_of fault }
{
    match fault {
        PageFault::Short => FileFault::Short,
        PageFault::PageDigest => FileFault::PageDigest,
        PageFault::Word => FileFault::Word,
        PageFault::Crossed => FileFault::Crossed,
    }
}

impl Header {
    /// The head of a file with this header, which begins with these bytes: at least those before the first page. What is wrong first
    /// is told: that the digest isn't theirs, or else the first word that is out of range or above its upper word.
    pub fn read_starts(self, bytes: &[u8]) -> Result<Head, BadFile>
        requires valid { IsHeader self }
        requires long { front_length self ≤ length bytes.now }
        ensures { result ≡ starts_read self bytes.now }
    {
        let place = self.digest_place() as usize;
        check(
            is_sealed(&bytes[..place + 32]),
            FileFault::HeadDigest,
            self.digest_place(),
        )?;
        let starts = self.starts_of(&bytes[64..])?;
        Ok(self.head(starts))
    }

    /// The digest of the head of a file with this header, which begins with these bytes: at least those before
    /// the first page.
    pub fn digest_in(&self, bytes: &[u8]) -> [u8; 32]
        requires valid { IsHeader self.now }
        requires long { front_length self.now ≤ length bytes.now }
        ensures { result ≡ digest_in self.now bytes.now }
    {
        let place = self.digest_place() as usize;
        let mut digest = [0; 32];
        digest.copy_from_slice(&bytes[place..place + 32]);
        digest
    }

    /// The starts, whose words are the first of these bytes, or their first flaw.
    fn starts_of(&self, bytes: &[u8]) -> Result<Starts, BadFile>
        requires valid { IsHeader self.now }
        requires long { pair_size self.now.version * self.now.starts ≤ length bytes.now }
        requires places { 64 + length bytes.now < 2 ^ 64 }
        ensures { result ≡ checked
            (option_map bad_of (pairs_flaw self.now.version (point_units 1) 64
            (words_in_bytes self.now.version (2 * self.now.starts) bytes.now)))
            (record {
              match_length = starts_length self.now.name self.now.match_length;
              pairs = pairs_of_words
                  (words_in_bytes self.now.version (2 * self.now.starts) bytes.now);
            }) }
    {
        let mut cells = [0; 34];
        let words = &mut cells[..2 * usize::from(self.starts)];
        read_pairs(self.version, Fixed::whole(1), 64, bytes, words)?;
        Ok(starts_of_words(starts_length(self.name, self.match_length), words))
    }

    /// The head that the header says with these starts.
    fn head(self, starts: Starts) -> Head
        requires valid { IsHeader self }
        requires starts { AreStartsOf self.name starts }
        ensures { result ≡ record {
          checkers = self.checkers;
          name = self.name;
          rounds = self.rounds;
          starts = starts;
        } }
    {
        Head::with(self.checkers, self.name, self.rounds, starts)
    }
}

/// The length of the starts: that of the match, and 1 without one.
fn starts_length(name: StakesName, match_length: u8) -> u8
    ensures { result ≡ starts_length name match_length }
{
    match name {
        StakesName::Unlimited(_) => 1,
        StakesName::Match(_) => match_length,
    }
}

/// The starts of a match of this length, by the words of their pairs.
fn starts_of_words(match_length: u8, words: &[u64]) -> Starts
    requires from { 1 ≤ match_length }
    requires to { match_length ≤ 5 }
    requires room { length words.now ≤ 2 * length (ladder match_length) }
    requires right { LieWithin (point_units 1) words.now }
    ensures { result ≡ record {
      match_length = match_length;
      pairs = pairs_of_words words.now;
    } }
{
    let mut starts = Starts::new(match_length);
    'starts: for number in 0..words.len() / 2 {
        let lower = Fixed::of_word(words[2 * number]);
        let upper = Fixed::of_word(words[2 * number + 1]);
        starts.add(Pair::new(lower, upper));
    }
    starts
}
