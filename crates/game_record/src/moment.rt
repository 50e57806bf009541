ghost use Rattle.std.specs.Prelude.{◌≡◌, ◌≢◌, ◌+◌, ◌≤◌, ◌<◌, ◌^◌, ◌++◌, ◌∷◌, [], OnOk, IfOk, IfErr, Contains};
ghost use Rattle.cube_actions.specs.Ladder.{IsOfMatch};
ghost use Rattle.cube_actions.specs.Names.{names_of};
ghost use Rattle.cube_actions.specs.Scores.{MatchScore};
ghost use Rattle.cube_actions.specs.Starts.{Covers};
ghost use Rattle.game_record.specs.Games.{is_over, opening};
ghost use Rattle.game_record.specs.Kinds.{game_needs, game_score, game_stakes, kind_number, kind_of_turn};
ghost use Rattle.game_record.specs.Lines.{ending_line};
ghost use Rattle.game_record.specs.Ready.{CanTell, HasStanding, IfMatch, IsSetFor};
ghost use Rattle.game_record.specs.Replay.{decided, first_moment, goes_on, may_double_now, standing_after, IsWrongLine, Reports};
ghost use Rattle.game_record.specs.Standings.{IsInRange};
ghost use Rattle.game_record.specs.declared.line.Line.TheVariants.{Game as GameLine};

use crate::decision::{Decision, Decisions};
use crate::fault::{BadRecord, RecordFault};
use crate::player::Player;
use crate::progress::{Progress, Win};
use crate::record::{Ending, Record, RecordStakes};
use crate::standing::Standing;
use cube_actions::{
    KindName, MoneyRule, Score, Stakes, Starts, ladder, ladders_are_exact, names_tell_kinds,
};
use directed_fixed::{Fixed, Pair};
use hyper_outside::NoMemory;
use turn_rule::Choice;

/// A moment of a replay, before one of the record's lines.
#[derive(Clone, Copy)]
pub struct Moment {
    pub checkers: u8,
    pub stakes: RecordStakes,
    /// In a match, as the game began.
    pub standing: Standing,
    /// How many games have begun: the number of the last of them.
    pub game: u32,
    /// The number of the line.
    pub line: u32,
    pub progress: Progress,
}

impl Moment {
    /// Before the first game's line, which is the fourth.
    pub(crate) fn first(rec: &Record) -> Moment
        requires from { 1 ≤ rec.now.checkers }
        requires to { rec.now.checkers ≤ 3 }
        ensures { result ≡ first_moment rec.now }
    {
        Moment {
            checkers: rec.checkers,
            stakes: rec.stakes,
            standing: Standing::first(rec.stakes),
            game: 0,
            line: 4,
            progress: Progress::opening(rec.checkers),
        }
    }

    /// The fault of this line.
    pub(crate) fn fault(&self, fault: RecordFault) -> BadRecord
        ensures { result ≡ record { line = self.now.line; fault = fault } }
    {
        BadRecord {
            line: self.line,
            fault,
        }
    }

    /// Takes the line of a game, which has to say what both still need.
    pub(crate) fn begin(&self, needs: Option<(u8, u8)>) -> Result<Moment, BadRecord>
        requires { IsSetFor self.now (GameLine (self.now.game + 1) needs) }
        ensures ok { IfOk result (Reports self.now (GameLine (self.now.game + 1) needs) []) }
        ensures err { IfErr result (λ bad. (bad.line ≡ self.now.line)
            × IsWrongLine self.now (GameLine (self.now.game + 1) needs) bad.fault) }
    {
        if needs != self.game_needs() {
            return Err(self.fault(RecordFault::ScoreWrong));
        }
        Ok(Moment {
            checkers: self.checkers,
            stakes: self.stakes,
            standing: self.standing,
            game: self.game + 1,
            line: self.line + 1,
            progress: self.progress,
        })
    }

    /// Takes the line that ends a game, which has to say who has won it and what, or that it was left.
    pub(crate) fn end(&self, ending: Ending) -> Result<Moment, BadRecord>
        requires { IsSetFor self.now (ending_line ending) }
        ensures ok { IfOk result (Reports self.now (ending_line ending) []) }
        ensures err { IfErr result (λ bad. (bad.line ≡ self.now.line)
            × IsWrongLine self.now (ending_line ending) bad.fault) }
    {
        match ending {
            Ending::Ended { winner, points } => {
                if self.progress.won != Some(Win { winner, points }) {
                    return Err(self.fault(RecordFault::ScoreWrong));
                }
                Ok(Moment {
                    checkers: self.checkers,
                    stakes: self.stakes,
                    standing: self.standing_after(winner, points),
                    game: self.game,
                    line: self.line + 1,
                    progress: Progress::opening(self.checkers),
                })
            }
            Ending::Stopped => {
                if self.progress.is_over() {
                    return Err(self.fault(RecordFault::ScoreWrong));
                }
                Ok(self.goes_on(&self.progress))
            }
        }
    }

    /// The same game in the next line.
    pub(crate) fn goes_on(&self, progress: &Progress) -> Moment
        requires { self.now.line + 1 < 2 ^ 32 }
        ensures { result ≡ goes_on self.now progress.now }
    {
        Moment {
            checkers: self.checkers,
            stakes: self.stakes,
            standing: self.standing,
            game: self.game,
            line: self.line + 1,
            progress: *progress,
        }
    }

    fn standing_after(&self, winner: Player, points: u8) -> Standing
        requires points { points ≤ 3 }
        requires turns { IfMatch self.now.stakes (λ length. self.now.progress.cube.turns ≤ 3) }
        ensures { result ≡ standing_after self.now winner points self.now.stakes }
    {
        match self.stakes {
            RecordStakes::Unlimited(_) => self.standing,
            RecordStakes::Match(_) => self
                .standing
                .after_win(winner, points * self.progress.cube.shows()),
        }
    }

    fn game_needs(&self) -> Option<(u8, u8)>
        ensures { result ≡ game_needs self.now.stakes self.now.standing }
    {
        match self.stakes {
            RecordStakes::Unlimited(_) => None,
            RecordStakes::Match(_) => Some((self.standing.a, self.standing.b)),
        }
    }

    /// What the game is played for.
    pub(crate) fn game_stakes(&self) -> Stakes
        requires { HasStanding self.now.stakes self.now.standing }
        ensures { result.name ≡ game_stakes self.now.stakes self.now.standing }
    {
        match self.stakes {
            RecordStakes::Unlimited(rule) => Stakes::unlimited(rule),
            RecordStakes::Match(length) => {
                Stakes::of_score(self.standing.score(), &any_starts(length))
            }
        }
    }

    fn kind_of_turn(&self, player: Player) -> KindName
        requires { IfMatch self.now.stakes (λ length. self.now.progress.cube.turns ≤ 3) }
        ensures { result
            ≡ kind_of_turn self.now.stakes self.now.standing player self.now.progress.cube }
    {
        let cube = self.progress.cube;
        match self.stakes {
            RecordStakes::Unlimited(MoneyRule::Cubeless) => KindName::Alone,
            RecordStakes::Unlimited(_) => match cube.owner {
                None => KindName::Centred,
                Some(owner) if owner == player => KindName::Mine,
                Some(_) => KindName::Theirs,
            },
            RecordStakes::Match(_) => KindName::InMatch {
                mover: self.standing.side_of(player),
                cube: cube.shows(),
                owner: match cube.owner {
                    None => None,
                    Some(owner) => Some(self.standing.side_of(owner)),
                },
            },
        }
    }

    /// The number of the kind of state where it is this player's turn.
    fn kind_number(&self, stakes: &Stakes, player: Player) -> usize
        requires name { stakes.now.name ≡ game_stakes self.now.stakes self.now.standing }
        requires turns { IfMatch self.now.stakes (λ length. self.now.progress.cube.turns ≤ 3) }
        requires known { Contains (names_of stakes.now.name)
            (kind_of_turn self.now.stakes self.now.standing player self.now.progress.cube) }
        ensures { result ≡ kind_number (game_stakes self.now.stakes self.now.standing)
            (kind_of_turn self.now.stakes self.now.standing player self.now.progress.cube) }
    {
        // So no other number has this name.
        names_tell_kinds();
        match stakes.number_of(self.kind_of_turn(player)) {
            Some(number) => number,
            None => unreachable!(),
        }
    }

    /// In a match the score of the game.
    fn score(&self) -> Option<Score>
        requires { HasStanding self.now.stakes self.now.standing }
        ensures { result ≡ game_score self.now.stakes self.now.standing }
    {
        match self.stakes {
            RecordStakes::Unlimited(_) => None,
            RecordStakes::Match(_) => Some(self.standing.score()),
        }
    }

    /// Adds what a player chose, where it is this player's turn.
    pub(crate) fn decide(
        &self,
        stakes: &Stakes,
        on_turn: Player,
        player: Player,
        choice: Choice,
        decisions: &mut Decisions,
    ) -> Result<(), NoMemory>
        requires { CanTell self.now stakes.now.name }
        ensures { OnOk result (decisions.new
            ≡ decisions.old ++ decided self.now on_turn player choice ∷ []) }
    {
        decisions.push(Decision {
            game: self.game,
            line: self.line,
            player,
            score: self.score(),
            position: self.progress.position,
            kind: self.kind_number(stakes, on_turn),
            choice,
        })
    }

    /// Whether a player may double now, if it is his turn.
    pub(crate) fn may_double(&self, player: Player) -> bool
        requires { IsInRange self.now.standing }
        ensures { result ≡ may_double_now self.now player }
    {
        self.progress.may_double(self.stakes, self.standing, player)
    }
}

/// A pair for each score of a match: the kinds of a game don't depend on what they are.
fn any_starts(match_length: u8) -> Starts
    requires from { 1 ≤ match_length }
    requires to { match_length ≤ 5 }
    ensures { (score : MatchScore) → IsOfMatch match_length score → Covers result score }
{
    // So each score of the match has a place in the ladder.
    ladders_are_exact();
    let scores = ladder(match_length);
    let mut starts = Starts::new(match_length);
    for _score in scores.as_slice() {
        starts.add(Pair::exactly(Fixed::whole(0)));
    }
    starts
}
