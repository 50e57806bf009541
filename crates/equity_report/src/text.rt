ghost use Rattle.std.specs.Prelude.{◌≡◌, ◌≤◌, ◌++◌, ◌+◌, codes, decimal, length};
ghost use Rattle.equity_report.specs.Games.{stakes_text, game_text};
ghost use Rattle.equity_report.specs.Reports.{counted_text, points_text, units_text};

use arrayvec::ArrayString;
use cube_actions::StakesName;
use cube_text::{print_rule, print_score};
use directed_fixed::Pair;
use itoa::Buffer;
use point_text::{print_down, print_units, print_up};

/// A report, or a part of it, of at most 3,072 bytes.
pub type Report = ArrayString<3072>;

/// A game told by its name.
#[derive(Clone, Copy, PartialEq, Eq)]
pub struct GameName {
    /// How many checkers a side has, 1 to 3.
    pub checkers: u8,
    /// What it is played for.
    pub stakes: StakesName,
    /// To how many points the match is played, 1 to 5; of no meaning where it is no match.
    pub match_length: u8,
}

/// Adds a number in decimal digits.
pub fn add_number(report: &mut Report, number: u64)
    requires { length report.old.bytes ≤ 3000 }
    ensures bytes { report.new.bytes ≡ report.old.bytes ++ decimal number }
    ensures length { length report.new.bytes ≤ length report.old.bytes + 20 }
{
    report.push_str(Buffer::new().format(number));
}

/// Adds a word of so many bytes at most, and a number.
#[tactic(auto, unfolding(crate::specs::Reports::counted_text))]
pub fn add_counted(report: &mut Report, thing: &str, number: u64)
    requires thing { length thing.now ≤ 16 }
    requires room { length report.old.bytes ≤ 2900 }
    ensures bytes { report.new.bytes ≡ report.old.bytes ++ counted_text thing.now number }
    ensures length { length report.new.bytes ≤ length report.old.bytes + 37 }
{
    report.push_str(thing);
    report.push_str(" ");
    add_number(report, number);
}

/// Adds both ends of a pair in points, rounded to the safe side.
pub fn add_points(report: &mut Report, pair: Pair)
    requires { length report.old.bytes ≤ 2900 }
    ensures bytes { report.new.bytes ≡ report.old.bytes ++ points_text pair }
    ensures length { length report.new.bytes ≤ length report.old.bytes + 65 }
{
    report.push_str(print_down(pair.lower()).as_str());
    report.push_str(" ");
    report.push_str(print_up(pair.upper()).as_str());
}

/// Adds both ends of a pair in units.
pub fn add_units(report: &mut Report, pair: Pair)
    requires { length report.old.bytes ≤ 2900 }
    ensures bytes { report.new.bytes ≡ report.old.bytes ++ units_text pair }
    ensures length { length report.new.bytes ≤ length report.old.bytes + 65 }
{
    report.push_str(print_units(pair.lower()).as_str());
    report.push_str(" ");
    report.push_str(print_units(pair.upper()).as_str());
}

/// Adds what is played for.
pub fn add_stakes(report: &mut Report, stakes: StakesName, match_length: u8)
    requires { length report.old.bytes ≤ 2900 }
    ensures bytes { report.new.bytes ≡ report.old.bytes ++ stakes_text match_length stakes }
    ensures length { length report.new.bytes ≤ length report.old.bytes + 51 }
{
    match stakes {
        StakesName::Unlimited(rule) => report.push_str(print_rule(rule)),
        StakesName::Match(score) => {
            add_counted(report, "match", u64::from(match_length));
            report.push_str(" ");
            report.push_str(print_score(score).as_str());
        }
    }
}

/// Adds a game: its checkers and what it is played for.
pub fn add_game(report: &mut Report, game: GameName)
    requires { length report.old.bytes ≤ 2800 }
    ensures bytes { report.new.bytes ≡ report.old.bytes ++ game_text game }
    ensures length { length report.new.bytes ≤ length report.old.bytes + 100 }
{
    add_counted(report, "checkers", u64::from(game.checkers));
    report.push_str(" stakes ");
    add_stakes(report, game.stakes, game.match_length);
}
