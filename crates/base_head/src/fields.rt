ghost use Rattle.std.specs.Prelude.{◌≡◌, ◌≤◌, ◌<◌, ◌+◌, false, IfOk, IfSome, is_some, [], ◌∷◌, length};
ghost use Rattle.cube_actions.specs.declared.name.StakesName.TheVariants.{Match};
ghost use Rattle.cube_actions.specs.Scores.{AreNeeds};
ghost use Rattle.cube_actions.specs.Names.{names_of};
ghost use Rattle.position_rank.specs.LiveRanks.{live_positions};
ghost use Rattle.base_head.specs.Faults.{checked, first_wrong};
ghost use Rattle.base_head.specs.Headers.{HasScore, IsHeader, IsLengthOf, starts_told};
ghost use Rattle.base_head.specs.HeaderFaults.{checkers_check, count_checks, field_checks, fields_of, header_in, is_length_of, is_phase_in, last_stakes, match_checks, name_in, number_at, other_checks, rule_numbered, score_in, stakes_checks, version_in, version_check};

use crate::fault::{BadFile, FileFault, check};
use crate::head::ladder_place;
use crate::header::{Header, version_number};
use byteorder::{BigEndian, ByteOrder};
use cube_actions::{MoneyRule, Phase, Score, Stakes, StakesName, Starts, ladder};
use directed_fixed::{Fixed, Pair};
use position_rank::live_count;
use word_pages::Version;

/// The numbers of a header, by their places.
#[derive(Drop)]
pub(crate) struct Fields {
    pub version: u32,
    pub checkers: u32,
    pub stakes: u32,
    pub near: u32,
    pub far: u32,
    pub phase: u32,
    pub match_length: u32,
    pub kinds: u32,
    pub rounds: u32,
    pub starts: u32,
    pub positions: u64,
    pub rest: u64,
}

impl Fields {
    pub(crate) fn read(bytes: &[u8]) -> Fields
        requires { 64 ≤ length bytes.now }
        ensures { result ≡ fields_of bytes.now }
    {
        Fields {
            version: u32_at(bytes, 8),
            checkers: u32_at(bytes, 12),
            stakes: u32_at(bytes, 16),
            near: u32_at(bytes, 20),
            far: u32_at(bytes, 24),
            phase: u32_at(bytes, 28),
            match_length: u32_at(bytes, 32),
            kinds: u32_at(bytes, 36),
            rounds: u32_at(bytes, 40),
            starts: u32_at(bytes, 44),
            positions: u64_at(bytes, 48),
            rest: u64_at(bytes, 56),
        }
    }

    /// The header that the numbers say, where its version is `oldest` or a later one.
    pub(crate) fn header(&self, oldest: Version) -> Result<Header, BadFile>
        ensures read { result
            ≡ checked (first_wrong (field_checks oldest self.now)) (header_in self.now) }
        ensures valid { IfOk result IsHeader }
    {
        let version = self.version(oldest)?;
        let checkers = self.checkers()?;
        let name = self.name(version)?;
        self.check_counts(&name)?;
        Ok(self.with(version, checkers, name))
    }

    /// The header, where nothing is wrong with the numbers.
    fn with(&self, version: Version, checkers: u8, name: StakesName) -> Header
        requires match_length { self.now.match_length ≤ 5 }
        requires kinds { self.now.kinds ≤ 14 }
        requires starts { self.now.starts ≤ 17 }
        ensures { result ≡ record {
          version = version;
          checkers = checkers;
          name = name;
          match_length = self.now.match_length;
          kinds = self.now.kinds;
          rounds = self.now.rounds;
          starts = self.now.starts;
          positions = self.now.positions;
        } }
    {
        Header {
            version,
            checkers,
            name,
            match_length: self.match_length as u8,
            kinds: self.kinds as u8,
            rounds: self.rounds,
            starts: self.starts as u8,
            positions: self.positions,
        }
    }

    /// The version, where it is `oldest` or a later one.
    fn version(&self, oldest: Version) -> Result<Version, BadFile>
        ensures { result
            ≡ checked (first_wrong (version_check oldest self.now ∷ [])) (version_in self.now) }
    {
        let is_read = version_number(oldest) <= self.version && self.version <= 3;
        check(is_read, FileFault::Version, 8)?;
        Ok(match self.version {
            1 => Version::One,
            2 => Version::Two,
            _ => Version::Three,
        })
    }

    fn checkers(&self) -> Result<u8, BadFile>
        ensures read { result
            ≡ checked (first_wrong (checkers_check self.now ∷ [])) self.now.checkers }
    {
        if self.checkers < 1 || self.checkers > 3 {
            return Err(BadFile {
                fault: FileFault::Head,
                at: 12,
            });
        }
        Ok(self.checkers as u8)
    }

    /// The stakes, and whether their score and length go with them.
    fn name(&self, version: Version) -> Result<StakesName, BadFile>
        requires { version ≡ version_in self.now }
        ensures read { result ≡ checked (first_wrong (stakes_checks self.now)) (name_in self.now) }
        ensures fitting { IfOk result (λ name. IsLengthOf name self.now.match_length) }
    {
        check(self.stakes <= last_stakes(version), FileFault::Head, 16)?;
        if self.stakes == 3 {
            let score = self.score()?;
            return Ok(StakesName::Match(score));
        }
        self.check_no_match()?;
        Ok(StakesName::Unlimited(rule_numbered(self.stakes)))
    }

    fn score(&self) -> Result<Score, BadFile>
        ensures read { result ≡ checked (first_wrong (match_checks self.now)) (score_in self.now) }
        ensures listed { IfOk result (λ score. HasScore self.now.match_length score) }
    {
        check(1 <= self.near && self.near <= 5, FileFault::Head, 20)?;
        check(self.near <= self.far && self.far <= 5, FileFault::Head, 24)?;
        let Some(score) = self.score_in_range() else {
            return Err(BadFile {
                fault: FileFault::Head,
                at: 28,
            });
        };
        check(self.is_in_ladder(score), FileFault::Head, 32)?;
        Ok(score)
    }

    /// `None` exactly where the phase is none of the score's.
    fn score_in_range(&self) -> Option<Score>
        requires { AreNeeds self.now.near self.now.far }
        ensures some { is_some result ≡ is_phase_in self.now }
        ensures value { IfSome result (λ score. score ≡ score_in self.now) }
    {
        let phase = match self.phase {
            0 => Phase::Normal,
            1 => Phase::Crawford,
            2 => Phase::Post,
            _ => return None,
        };
        Score::new(self.near as u8, self.far as u8, phase).ok()
    }

    fn is_in_ladder(&self, score: Score) -> bool
        ensures { result ≡ is_length_of self.now.match_length score }
    {
        if self.match_length < 1 || self.match_length > 5 {
            return false;
        }
        let length = self.match_length as u8;
        ladder_place(length, score) < ladder(length).len()
    }

    /// What only a match has is 0.
    fn check_no_match(&self) -> Result<(), BadFile>
        ensures { result ≡ checked (first_wrong (other_checks self.now)) tt }
    {
        check(self.near == 0, FileFault::Head, 20)?;
        check(self.far == 0, FileFault::Head, 24)?;
        check(self.phase == 0, FileFault::Head, 28)?;
        check(self.match_length == 0, FileFault::Head, 32)
    }

    /// The counts go with the stakes and the checkers, and the rest is 0.
    fn check_counts(&self, name: &StakesName) -> Result<(), BadFile>
        requires some { 1 ≤ self.now.checkers }
        requires few { self.now.checkers ≤ 3 }
        requires name { name.now ≡ name_in self.now }
        requires fitting { IsLengthOf name.now self.now.match_length }
        ensures { result ≡ checked (first_wrong (count_checks self.now)) tt }
    {
        let length = self.match_length as u8;
        check(self.kinds == kind_count(*name, length), FileFault::Head, 36)?;
        check(1 <= self.rounds && self.rounds <= 4096, FileFault::Head, 40)?;
        check(
            self.starts == starts_before(*name, length),
            FileFault::Head,
            44,
        )?;
        check(
            self.positions == live_count(self.checkers as u8),
            FileFault::Head,
            48,
        )?;
        check(self.rest == 0, FileFault::Head, 56)
    }
}

/// The last number of stakes. Version 1 has none with beavers.
fn last_stakes(version: Version) -> u32
    ensures { result ≡ last_stakes version }
{
    match version {
        Version::One => 3,
        Version::Two | Version::Three => 5,
    }
}

/// The rule that a number stands for, where it is at most 5 and not 3.
fn rule_numbered(number: u32) -> MoneyRule
    ensures { result ≡ rule_numbered number }
{
    match number {
        0 => MoneyRule::Cubeless,
        1 => MoneyRule::Money,
        2 => MoneyRule::Jacoby,
        4 => MoneyRule::MoneyBeavers,
        _ => MoneyRule::JacobyBeavers,
    }
}

fn u32_at(bytes: &[u8], at: usize) -> u32
    requires { at + 4 ≤ length bytes.now }
    ensures { result ≡ number_at at 4 bytes.now }
{
    BigEndian::read_u32(&bytes[at..])
}

fn u64_at(bytes: &[u8], at: usize) -> u64
    requires { at + 8 ≤ length bytes.now }
    ensures { result ≡ number_at at 8 bytes.now }
{
    BigEndian::read_u64(&bytes[at..])
}

/// How many kinds of state there are for these stakes, 1 to 14, in a match of this length.
fn kind_count(name: StakesName, match_length: u8) -> u32
    requires { IsLengthOf name match_length }
    ensures count { result ≡ length (names_of name) }
    ensures few { result ≤ 14 }
{
    match name {
        StakesName::Unlimited(rule) => match rule {
            MoneyRule::Cubeless => 1,
            _ => 3,
        },
        StakesName::Match(score) => match_kind_count(score, match_length),
    }
}

// The kinds are the same whatever the starts are worth.
fn match_kind_count(score: Score, match_length: u8) -> u32
    requires { HasScore match_length score }
    ensures count { result ≡ length (names_of (Match score)) }
    ensures few { result ≤ 14 }
{
    let mut starts = Starts::new(match_length);
    for _ in 0..ladder_place(match_length, score) {
        starts.add(Pair::exactly(Fixed::whole(0)));
    }
    Stakes::of_score(score, &starts).kinds() as u32
}

/// How many scores come before that of a match of this length, 0 to 17.
fn starts_before(name: StakesName, match_length: u8) -> u32
    requires { IsLengthOf name match_length }
    ensures count { result ≡ starts_told match_length name }
    ensures few { result ≤ 17 }
{
    match name {
        StakesName::Unlimited(_) => 0,
        StakesName::Match(score) => ladder_place(match_length, score) as u32,
    }
}
