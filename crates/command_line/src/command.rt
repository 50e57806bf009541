ghost use Rattle.std.specs.Prelude.{◌≡◌};
ghost use Rattle.word_forms.specs.Clap.{bytes_of, names};
ghost use Rattle.command_line.specs.Commands.{command_named, command_form};
ghost use Rattle.command_line.specs.Words.{command_asked, for_list, for_match, has_option};

use crate::text::Text;
use crate::values::is_option_named;
use cube_actions::{KindName, MoneyRule};
use directed_fixed::Fixed;
use position_rank::Position;
use roll_table::Roll;

/// A position whose pair is found by some rounds in a game without a cube.
#[derive(Drop)]
pub struct Bound {
    /// 1 to 3 a side.
    pub checkers: u8,
    /// 1 to 4096.
    pub rounds: u32,
    pub position: Position,
    /// Whether the position's board is drawn.
    pub board: bool,
}

/// A race whose turns and pair are found in a game without a cube.
#[derive(Drop)]
pub struct Race {
    /// 1 to 3 a side.
    pub checkers: u8,
    pub position: Position,
    /// Whether the position's board is drawn.
    pub board: bool,
}

/// A game that is solved by some rounds, or until no pair is wider than is asked for, and written to a file.
#[derive(Drop)]
pub struct Solve {
    /// The file's name, 1 to 255 bytes.
    pub file: Text,
    /// 1 to 3 a side.
    pub checkers: u8,
    pub rule: MoneyRule,
    /// The most rounds, 1 to 4096; all are made where no width is given.
    pub rounds: u32,
    /// 1 to 64.
    pub workers: u32,
    /// The width at which no more rounds are made, above 0 and at most 64 points.
    pub width: Option<Fixed>,
}

/// A position whose pairs are looked up in a file.
#[derive(Drop)]
pub struct Show {
    /// The file's name, 1 to 255 bytes.
    pub file: Text,
    pub position: Position,
    /// Whether the position's board is drawn.
    pub board: bool,
    /// Whether the position's ID is told.
    pub id: bool,
}

/// Positions, listed in a file, whose pairs are looked up in another.
#[derive(Drop)]
pub struct ShowList {
    /// The name of the file of bounds, 1 to 255 bytes.
    pub file: Text,
    /// The name of the list's file, 1 to 255 bytes.
    pub list: Text,
    /// 1 to 64, who check the file's pages where the list is long.
    pub workers: u32,
}

/// A file whose words are checked by some workers, and which is written anew under another name, in the latest
/// version.
#[derive(Drop)]
pub struct Migrate {
    /// The name of the file to be read, 1 to 255 bytes.
    pub old: Text,
    /// The name of the file to be written, 1 to 255 bytes, another one.
    pub new: Text,
    /// 1 to 64.
    pub workers: u32,
}

/// A position in which advice is sought from a file.
#[derive(Drop)]
pub struct Advise {
    /// The file's name, 1 to 255 bytes.
    pub file: Text,
    /// As the side sees it that is to move or to double.
    pub position: Position,
    /// The kind of state; where none is given, the first of the file's game.
    pub kind: Option<KindName>,
    /// Where none is given, the advice is on the cube.
    pub roll: Option<Roll>,
    /// Whether the side asks that was doubled: its answer is told first, and there is no roll.
    pub take: bool,
    /// Whether the position's board is drawn.
    pub board: bool,
}

/// Positions with their rolls, listed in a file, whose best plays are sought in another.
#[derive(Drop)]
pub struct AdviseList {
    /// The name of the file of bounds, 1 to 255 bytes.
    pub file: Text,
    /// The name of the list's file, 1 to 255 bytes.
    pub list: Text,
    /// The kind of state; where none is given, the first of the file's game.
    pub kind: Option<KindName>,
    /// 1 to 64, who check the file's pages where the list is long.
    pub workers: u32,
}

/// A file whose words are checked by some workers.
#[derive(Drop)]
pub struct Verify {
    /// The file's name, 1 to 255 bytes.
    pub file: Text,
    /// 1 to 64.
    pub workers: u32,
}

/// A match whose scores are solved one by one, each written to a file of its own.
#[derive(Drop)]
pub struct Ladder {
    /// What the names of the files begin with, 1 to 240 bytes.
    pub prefix: Text,
    /// 1 to 3 a side.
    pub checkers: u8,
    /// How many points the match is played to, 1 to 5.
    pub match_length: u8,
    /// 1 to 4096.
    pub rounds: u32,
    /// 1 to 64.
    pub workers: u32,
}

/// Which decisions of a recorded game a report shows.
#[derive(Clone, Copy)]
pub enum Shown {
    /// All, each with no more than what it lost.
    Losses,
    /// All, each with its position.
    Full,
    /// So many of those that lost most, 1 to 100, each with its position.
    Worst(u32),
}

/// A recorded game whose decisions are judged by a file.
#[derive(Drop)]
pub struct Analyse {
    /// The name of the file of bounds, 1 to 255 bytes.
    pub base: Text,
    /// The record's name, 1 to 255 bytes.
    pub rec: Text,
    pub shown: Shown,
    /// Whether each position that is shown is drawn as a board.
    pub board: bool,
}

/// A recorded game whose decisions are judged by what is solved for it.
#[derive(Drop)]
pub struct Study {
    /// The record's name, 1 to 255 bytes.
    pub rec: Text,
    /// 1 to 4096.
    pub rounds: u32,
    /// 1 to 64.
    pub workers: u32,
    pub shown: Shown,
    /// Whether each position that is shown is drawn as a board.
    pub board: bool,
}

/// A record that is made by a number, judged and written to a file.
#[derive(Drop)]
pub struct Make {
    pub number: u64,
    /// 1 to 1000.
    pub games: u32,
    /// The file's name, 1 to 255 bytes.
    pub file: Text,
}

/// A match whose take points and gammon prices are told, by the file of its first game.
#[derive(Drop)]
pub struct Plan {
    /// What the names of the match's files begin with, 1 to 240 bytes.
    pub prefix: Text,
    /// How many points the match is played to, 1 to 5.
    pub match_length: u8,
}

/// A file whose states are searched by some workers.
#[derive(Drop)]
pub struct Scan {
    /// The file's name, 1 to 255 bytes.
    pub file: Text,
    /// In any form.
    pub condition: Text,
    /// 1 to 64.
    pub workers: u32,
}

/// A state in which a file's advice is followed against the best reply.
#[derive(Drop)]
pub struct Reply {
    /// The file's name, 1 to 255 bytes.
    pub file: Text,
    pub position: Position,
    /// The kind of state; where none is given, the first of the file's game.
    pub kind: Option<KindName>,
    /// 1 to 4096.
    pub rounds: u32,
}

/// A position that is drawn.
#[derive(Drop)]
pub struct Board {
    pub position: Position,
    /// Whether the position's ID is told.
    pub id: bool,
}

/// What a user asks for.
#[derive(Drop)]
pub enum Command {
    Bound(Bound),
    Race(Race),
    Solve(Solve),
    Show(Show),
    ShowList(ShowList),
    Migrate(Migrate),
    Advise(Advise),
    AdviseList(AdviseList),
    Verify(Verify),
    Ladder(Ladder),
    Analyse(Analyse),
    Study(Study),
    Make(Make),
    Plan(Plan),
    Scan(Scan),
    Reply(Reply),
    Board(Board),
}

/// The commands.
#[derive(Clone, Copy)]
pub enum CommandName {
    Bound,
    Race,
    Solve,
    Show,
    /// `show` with the option `positions`.
    ShowList,
    /// `show` with the option `away`.
    ShowMatch,
    Migrate,
    Advise,
    /// `advise` with the option `rolls`.
    AdviseList,
    /// `advise` with the option `away`.
    AdviseMatch,
    Verify,
    Ladder,
    Analyse,
    Study,
    Make,
    Plan,
    Scan,
    Reply,
    Board,
}

/// Whether one of the words is this option, alone or with its value behind an `=`.
fn has_option(words: &[String], option: &str) -> bool
    ensures { result ≡ has_option option.now (bytes_of words.now) }
{
    words
        .iter()
        .any(|word| is_option_named(word.as_str(), option))
}

static BOUND: [&str; 3] = ["CHECKERS", "ROUNDS", "POSITION"];

static RACE: [&str; 2] = ["CHECKERS", "POSITION"];

static SOLVE: [&str; 1] = ["FILE"];

static SOLVE_OPTIONS: [&str; 5] = ["checkers", "stakes", "rounds", "workers", "width"];

static SHOW: [&str; 2] = ["FILE", "POSITION"];

static SHOW_LIST: [&str; 1] = ["FILE"];

static SHOW_LIST_OPTIONS: [&str; 2] = ["positions", "workers"];

static MATCH: [&str; 2] = ["PREFIX", "POSITION"];

static SHOW_MATCH_OPTIONS: [&str; 1] = ["away"];

static SHOW_MATCH_FLAGS: [&str; 4] = ["crawford", "post", "board", "id"];

static MIGRATE: [&str; 2] = ["OLD", "NEW"];

static MIGRATE_OPTIONS: [&str; 1] = ["workers"];

static ADVISE: [&str; 2] = ["FILE", "POSITION"];

static ADVISE_OPTIONS: [&str; 2] = ["kind", "roll"];

static ADVISE_LIST: [&str; 1] = ["FILE"];

static ADVISE_LIST_OPTIONS: [&str; 3] = ["rolls", "kind", "workers"];

static ADVISE_MATCH_OPTIONS: [&str; 4] = ["away", "cube", "value", "roll"];

static ADVISE_MATCH_FLAGS: [&str; 4] = ["crawford", "post", "board", "take"];

static VERIFY: [&str; 1] = ["FILE"];

static VERIFY_OPTIONS: [&str; 1] = ["workers"];

static LADDER: [&str; 1] = ["PREFIX"];

static LADDER_OPTIONS: [&str; 4] = ["checkers", "length", "rounds", "workers"];

static ANALYSE: [&str; 2] = ["BASE", "RECORD"];

static ANALYSE_OPTIONS: [&str; 1] = ["worst"];

static STUDY: [&str; 1] = ["RECORD"];

static STUDY_OPTIONS: [&str; 3] = ["rounds", "workers", "worst"];

static MAKE: [&str; 3] = ["NUMBER", "GAMES", "FILE"];

static PLAN: [&str; 1] = ["PREFIX"];

static PLAN_OPTIONS: [&str; 1] = ["length"];

static SCAN: [&str; 2] = ["FILE", "CONDITION"];

static SCAN_OPTIONS: [&str; 1] = ["workers"];

static REPLY: [&str; 2] = ["FILE", "POSITION"];

static REPLY_OPTIONS: [&str; 2] = ["kind", "rounds"];

static BOARD: [&str; 1] = ["POSITION"];

static NO_OPTIONS: [&str; 0] = [];

static DRAWN: [&str; 1] = ["board"];

static SHOW_FLAGS: [&str; 2] = ["board", "id"];

static ADVISE_FLAGS: [&str; 2] = ["board", "take"];

static BOARD_FLAGS: [&str; 1] = ["id"];

static SHOWN_FLAGS: [&str; 2] = ["full", "board"];

static NO_FLAGS: [&str; 0] = [];

impl CommandName {
    /// The command of a name. `None` exactly where no command has that name.
    pub fn read(word: &str) -> Option<CommandName>
        ensures { result ≡ command_named word.now }
    {
        match word {
            "bound" => Some(CommandName::Bound),
            "race" => Some(CommandName::Race),
            "solve" => Some(CommandName::Solve),
            "show" => Some(CommandName::Show),
            "migrate" => Some(CommandName::Migrate),
            "advise" => Some(CommandName::Advise),
            "verify" => Some(CommandName::Verify),
            "ladder" => Some(CommandName::Ladder),
            "analyse" => Some(CommandName::Analyse),
            "study" => Some(CommandName::Study),
            "make" => Some(CommandName::Make),
            "plan" => Some(CommandName::Plan),
            "scan" => Some(CommandName::Scan),
            "reply" => Some(CommandName::Reply),
            "board" => Some(CommandName::Board),
            _ => None,
        }
    }

    /// The command that a name and the words behind it ask for. `None` exactly where no command has that name.
    pub fn asked(name: &str, words: &[String]) -> Option<CommandName>
        ensures { result ≡ command_asked name.now (bytes_of words.now) }
    {
        let command = CommandName::read(name)?;
        Some(command.for_list(words).for_match(words))
    }

    /// The command of a list where one of the words has the option of that list, or this one.
    fn for_list(self, words: &[String]) -> CommandName
        ensures { result ≡ for_list self (bytes_of words.now) }
    {
        match self {
            CommandName::Show if has_option(words, "--positions") => CommandName::ShowList,
            CommandName::Advise if has_option(words, "--rolls") => CommandName::AdviseList,
            command => command,
        }
    }

    /// The command at a score of a match where one of the words has the option of a score, or this one.
    fn for_match(self, words: &[String]) -> CommandName
        ensures { result ≡ for_match self (bytes_of words.now) }
    {
        match self {
            CommandName::Show if has_option(words, "--away") => CommandName::ShowMatch,
            CommandName::Advise if has_option(words, "--away") => CommandName::AdviseMatch,
            command => command,
        }
    }

    /// The names of its arguments, in their order.
    pub fn arguments(self) -> &'static [&'static str]
        ensures { names result.now ≡ (command_form self).arguments }
    {
        match self {
            CommandName::Bound => BOUND.as_slice(),
            CommandName::Race => RACE.as_slice(),
            CommandName::Solve => SOLVE.as_slice(),
            CommandName::Show => SHOW.as_slice(),
            CommandName::ShowList => SHOW_LIST.as_slice(),
            CommandName::ShowMatch | CommandName::AdviseMatch => MATCH.as_slice(),
            CommandName::Migrate => MIGRATE.as_slice(),
            CommandName::Advise => ADVISE.as_slice(),
            CommandName::AdviseList => ADVISE_LIST.as_slice(),
            CommandName::Verify => VERIFY.as_slice(),
            CommandName::Ladder => LADDER.as_slice(),
            CommandName::Analyse => ANALYSE.as_slice(),
            CommandName::Study => STUDY.as_slice(),
            CommandName::Make => MAKE.as_slice(),
            CommandName::Plan => PLAN.as_slice(),
            CommandName::Scan => SCAN.as_slice(),
            CommandName::Reply => REPLY.as_slice(),
            CommandName::Board => BOARD.as_slice(),
        }
    }

    /// The names of its options, each with a value.
    pub fn options(self) -> &'static [&'static str]
        ensures { names result.now ≡ (command_form self).options }
    {
        match self {
            CommandName::Solve => SOLVE_OPTIONS.as_slice(),
            CommandName::ShowList => SHOW_LIST_OPTIONS.as_slice(),
            CommandName::ShowMatch => SHOW_MATCH_OPTIONS.as_slice(),
            CommandName::AdviseMatch => ADVISE_MATCH_OPTIONS.as_slice(),
            CommandName::Migrate => MIGRATE_OPTIONS.as_slice(),
            CommandName::Advise => ADVISE_OPTIONS.as_slice(),
            CommandName::AdviseList => ADVISE_LIST_OPTIONS.as_slice(),
            CommandName::Verify => VERIFY_OPTIONS.as_slice(),
            CommandName::Ladder => LADDER_OPTIONS.as_slice(),
            CommandName::Analyse => ANALYSE_OPTIONS.as_slice(),
            CommandName::Study => STUDY_OPTIONS.as_slice(),
            CommandName::Plan => PLAN_OPTIONS.as_slice(),
            CommandName::Scan => SCAN_OPTIONS.as_slice(),
            CommandName::Reply => REPLY_OPTIONS.as_slice(),
            CommandName::Bound
            | CommandName::Race
            | CommandName::Show
            | CommandName::Make
            | CommandName::Board => NO_OPTIONS.as_slice(),
        }
    }

    /// The names of its options without a value.
    pub fn flags(self) -> &'static [&'static str]
        ensures { names result.now ≡ (command_form self).flags }
    {
        match self {
            CommandName::Bound | CommandName::Race => DRAWN.as_slice(),
            CommandName::Show => SHOW_FLAGS.as_slice(),
            CommandName::Advise => ADVISE_FLAGS.as_slice(),
            CommandName::ShowMatch => SHOW_MATCH_FLAGS.as_slice(),
            CommandName::AdviseMatch => ADVISE_MATCH_FLAGS.as_slice(),
            CommandName::Analyse | CommandName::Study => SHOWN_FLAGS.as_slice(),
            CommandName::Board => BOARD_FLAGS.as_slice(),
            CommandName::Solve
            | CommandName::ShowList
            | CommandName::Migrate
            | CommandName::AdviseList
            | CommandName::Verify
            | CommandName::Ladder
            | CommandName::Make
            | CommandName::Plan
            | CommandName::Scan
            | CommandName::Reply => NO_FLAGS.as_slice(),
        }
    }
}
