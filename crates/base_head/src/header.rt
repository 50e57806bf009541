ghost use Rattle.std.specs.Prelude.{◌≡◌, ◌≤◌, ◌+◌, ◌*◌, ◌++◌, [], ◌∷◌, flat_map, length};
ghost use Rattle.base_head.specs.Headers.{IsHeader, digest_place, far_field, field, file_length, front_length, near_field, pair_size, phase_field, phase_number, rule_number, stakes_number, version_number};

use crate::head::Head;
use arrayvec::ArrayVec;
use cube_actions::{MoneyRule, Phase, StakesName};
use word_pages::Version;

/// What the first 64 bytes of a file say.
#[derive(Clone, Copy)]
pub struct Header {
    pub version: Version,
    /// The checkers of a side, 1 to 3.
    pub checkers: u8,
    pub name: StakesName,
    /// How many points the match is played to, 1 to 5; 0 where there is none.
    pub match_length: u8,
    /// How many kinds of state there are, 1 to 14.
    pub kinds: u8,
    /// How many rounds the words have had, 1 to 4,096.
    pub rounds: u32,
    /// How many pairs of starts follow, 0 to 17.
    pub starts: u8,
    /// How many live positions there are.
    pub positions: u64,
}

/// The bytes with which every file of bounds begins.
pub const BASE_START: [u8; 8] = *b"HYPGAMMN";

/// How many positions a page has.
pub const PAGE_POSITIONS: usize = 1024;

/// How many bytes the longest front has: a header, 17 pairs of version 1, and a digest.
pub const LONGEST_FRONT: usize = 368;

impl Header {
    ghost use Rattle.base_head.specs.Heads.{HasText};
    ghost use Rattle.base_head.specs.Headers.{header_of, spelled};

    /// What the header of a head says in a version. It counts the live positions.
    pub fn of(head: &Head, version: Version) -> Header
        requires { HasText version head.now }
        ensures header { result ≡ header_of version head.now }
        ensures valid { IsHeader result }
    {
        let starts = head.starts();
        let match_length = match head.name() {
            StakesName::Unlimited(_) => 0,
            StakesName::Match(_) => starts.match_length(),
        };
        Header {
            version,
            checkers: head.checkers(),
            name: head.name(),
            match_length,
            kinds: head.kinds() as u8,
            rounds: head.rounds(),
            starts: starts.len() as u8,
            positions: head.positions(),
        }
    }

    /// Adds the 64 bytes that say it.
    pub(crate) fn put<const N: usize>(&self, out: &mut ArrayVec<u8, N>)
        requires valid { IsHeader self.now }
        requires room { length out.old.items + 64 ≤ N }
        ensures { out.new.items ≡ out.old.items ++ spelled self.now }
    {
        let [near, far, phase] = match_fields(self.name);
        put_bytes(&BASE_START, out);
        put_fields(
            &[
                version_number(self.version),
                u32::from(self.checkers),
                stakes_number(self.name),
                near,
                far,
                phase,
                u32::from(self.match_length),
                u32::from(self.kinds),
                self.rounds,
                u32::from(self.starts),
            ],
            out,
        );
        put_bytes(&self.positions.to_be_bytes(), out);
        put_bytes(&[0; 8], out);
    }

    /// Where the digest of header and starts begins.
    pub fn digest_place(&self) -> u64
        requires { IsHeader self.now }
        ensures { result ≡ digest_place self.now }
    {
        64 + pair_size(self.version) * u64::from(self.starts)
    }

    /// How many bytes come before the first page.
    pub fn front_length(&self) -> u64
        requires { IsHeader self.now }
        ensures { result ≡ front_length self.now }
    {
        self.digest_place() + 32
    }

    /// How many bytes the whole file has.
    pub fn file_length(&self) -> u64
        requires { IsHeader self.now }
        ensures { result ≡ file_length self.now }
    {
        let page = PAGE_POSITIONS as u64;
        let pages = (self.positions + page - 1) / page;
        self.front_length()
            + pair_size(self.version) * u64::from(self.kinds) * self.positions
            + 32 * pages
    }
}

/// How many bytes a pair has.
fn pair_size(version: Version) -> u64
    ensures size { result ≡ pair_size version }
    ensures few { result ≤ 16 }
{
    2 * version.word_size() as u64
}

pub(crate) fn version_number(version: Version) -> u32
    ensures { result ≡ version_number version }
{
    match version {
        Version::One => 1,
        Version::Two => 2,
        Version::Three => 3,
    }
}

fn stakes_number(name: StakesName) -> u32
    ensures { result ≡ stakes_number name }
{
    match name {
        StakesName::Unlimited(rule) => rule_number(rule),
        StakesName::Match(_) => 3,
    }
}

fn rule_number(rule: MoneyRule) -> u32
    ensures { result ≡ rule_number rule }
{
    match rule {
        MoneyRule::Cubeless => 0,
        MoneyRule::Money => 1,
        MoneyRule::Jacoby => 2,
        MoneyRule::MoneyBeavers => 4,
        MoneyRule::JacobyBeavers => 5,
    }
}

/// Near, far and phase of a match, and 0 thrice without one.
fn match_fields(name: StakesName) -> [u32; 3]
    ensures { result ≡ near_field name ∷ far_field name ∷ phase_field name ∷ [] }
{
    match name {
        StakesName::Unlimited(_) => [0; 3],
        StakesName::Match(score) => [
            u32::from(score.near),
            u32::from(score.far),
            phase_number(score.phase),
        ],
    }
}

fn phase_number(phase: Phase) -> u32
    ensures { result ≡ phase_number phase }
{
    match phase {
        Phase::Normal => 0,
        Phase::Crawford => 1,
        Phase::Post => 2,
    }
}

/// Adds fields of four bytes, the highest first.
fn put_fields<const N: usize>(fields: &[u32], out: &mut ArrayVec<u8, N>)
    requires { length out.old.items + 4 * length fields.now ≤ N }
    ensures { out.new.items ≡ out.old.items ++ flat_map field fields.now }
{
    'fields: for number in fields {
        put_bytes(&number.to_be_bytes(), out);
    }
}

fn put_bytes<const N: usize>(bytes: &[u8], out: &mut ArrayVec<u8, N>)
    requires { length out.old.items + length bytes.now ≤ N }
    ensures { out.new.items ≡ out.old.items ++ bytes.now }
{
    // There is room for them.
    let _added = out.try_extend_from_slice(bytes);
}
