ghost use Rattle.std.specs.Prelude.{◌≡◌, ◌≤◌, ◌+◌, ◌++◌, length};
ghost use Rattle.progress_line.specs.Lines.{numbered_text, done, percent_of, progress_text, round_of, seconds_left, in_all};

use arrayvec::ArrayString;
use itoa::Buffer;

/// How far a solve has come.
#[derive(Clone, Copy)]
pub(crate) struct Progress {
    pub rounds: u32,
    /// How many blocks a round has.
    pub blocks: u32,
    /// How many blocks were passed, in all rounds.
    pub passed: u64,
    /// How many seconds went by.
    pub seconds: u64,
}

impl Progress {
    fn whole(&self) -> u64
        ensures in_all { result ≡ in_all self.now }
        ensures some { 1 ≤ result }
    {
        (u64::from(self.blocks) * u64::from(self.rounds)).max(1)
    }

    fn done(&self) -> u64
        ensures done { result ≡ done self.now }
        ensures within { result ≤ in_all self.now }
    {
        self.passed.min(self.whole())
    }

    fn round(&self) -> u64
        ensures { result ≡ round_of self.now }
    {
        let round = self.done() / u64::from(self.blocks).max(1) + 1;
        round.min(u64::from(self.rounds))
    }

    fn seconds_left(&self) -> u128
        ensures { result ≡ seconds_left self.now }
    {
        let left = u128::from(self.whole() - self.done());
        u128::from(self.seconds) * left / u128::from(self.done().max(1))
    }

    /// The share of all blocks that were passed.
    fn percent(&self) -> u128
        ensures { result ≡ percent_of self.now }
    {
        100 * u128::from(self.done()) / u128::from(self.whole())
    }
}

/// The most bytes of a line.
const LONGEST: usize = 256;

type Line = ArrayString<LONGEST>;

/// Adds words and a number behind them.
fn add(line: &mut Line, words: &str, number: u128)
    requires words { length words.now ≤ 9 }
    requires room { length line.old.bytes ≤ 200 }
    ensures bytes { line.new.bytes ≡ line.old.bytes ++ numbered_text words.now number }
    ensures length { length line.new.bytes ≤ length line.old.bytes + 48 }
{
    line.push_str(words);
    line.push_str(Buffer::new().format(number));
}

/// The round, the share of all that is done in percent, and the seconds gone, and left where a tenth is done.
pub(crate) fn progress_line(progress: &Progress) -> Line
    ensures { result.bytes ≡ progress_text progress.now }
{
    let mut line = Line::new();
    add(&mut line, "round ", u128::from(progress.round()));
    add(&mut line, " of ", u128::from(progress.rounds));
    add(&mut line, ", ", progress.percent());
    add(&mut line, " %, ", u128::from(progress.seconds));
    line.push_str(" s gone");
    if progress.percent() >= 10 {
        add(&mut line, ", ", progress.seconds_left());
        line.push_str(" s left");
    }
    line
}
