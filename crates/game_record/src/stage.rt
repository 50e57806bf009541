ghost use Rattle.std.specs.Prelude.{◌≡◌, ◌≤◌, Bool};
ghost use Rattle.game_record.specs.Turns.{IsInGame, allowed, first_stage, on_game, on_turn, stage_after};

use crate::line::{Line, LineKind};
use crate::player::Player;

/// What may come next in a record.
#[derive(Clone, Copy, PartialEq, Eq)]
pub enum Next {
    Title,
    Checkers,
    Stakes,
    /// A game.
    FirstGame,
    /// A roll of either player.
    FirstRoll,
    /// A roll or a double of this player, or the game's end or a stop.
    Turn(Player),
    /// A take, a pass or a beaver of this player.
    Answer(Player),
    /// A roll of this player, or a stop.
    Roll(Player),
    /// The game's end.
    End,
    /// A game, or the record's close.
    NextGame,
    /// The record's close.
    Close,
    Nothing,
}

/// How far a record has come.
#[derive(Clone, Copy)]
pub struct Stage {
    pub next: Next,
    /// Its stakes are a match.
    pub in_match: bool,
    /// How many games have begun.
    pub games: u32,
}

/// What may come after a line of this kind within a game, where it may come itself.
fn after_within(next: Next, kind: LineKind) -> Option<Next>
    requires { IsInGame next }
    ensures { (in_match : Bool) → result ≡ allowed in_match next kind }
{
    match next {
        Next::FirstRoll => match kind {
            LineKind::OfRoll(player) => Some(Next::Turn(player.other())),
            _ => None,
        },
        Next::Turn(player) => match kind {
            LineKind::OfRoll(other) => on_turn(player, other, Next::Turn(other.other())),
            LineKind::OfDouble(other) => on_turn(player, other, Next::Answer(other.other())),
            LineKind::OfEnd => Some(Next::NextGame),
            LineKind::OfStop => Some(Next::Close),
            _ => None,
        },
        Next::Answer(player) => match kind {
            LineKind::OfTake(other) => on_turn(player, other, Next::Roll(other.other())),
            LineKind::OfPass(other) => on_turn(player, other, Next::End),
            _ => None,
        },
        Next::Roll(player) => match kind {
            LineKind::OfRoll(other) => on_turn(player, other, Next::Turn(other.other())),
            LineKind::OfStop => Some(Next::Close),
            _ => None,
        },
        Next::End => match kind {
            LineKind::OfEnd => Some(Next::NextGame),
            _ => None,
        },
        _ => None,
    }
}

/// `away` stands exactly where the stakes are a match.
fn on_game(in_match: bool, away: bool) -> Option<Next>
    ensures { result ≡ on_game in_match away }
{
    (in_match == away).then_some(Next::FirstRoll)
}

fn on_turn(player: Player, other: Player, next: Next) -> Option<Next>
    ensures { result ≡ on_turn player other next }
{
    (player == other).then_some(next)
}

impl Stage {
    /// Before the first line.
    pub fn first() -> Stage
        ensures { result ≡ first_stage }
    {
        Stage {
            next: Next::Title,
            in_match: false,
            games: 0,
        }
    }

    /// What may come after a line of this kind, where it may come itself.
    pub fn after(self, kind: LineKind) -> Option<Next>
        ensures { result ≡ allowed self.in_match self.next kind }
    {
        match self.next {
            Next::Title => match kind {
                LineKind::OfTitle => Some(Next::Checkers),
                _ => None,
            },
            Next::Checkers => match kind {
                LineKind::OfCheckers => Some(Next::Stakes),
                _ => None,
            },
            Next::Stakes => match kind {
                LineKind::OfStakes => Some(Next::FirstGame),
                _ => None,
            },
            Next::FirstGame => match kind {
                LineKind::OfGame(away) => on_game(self.in_match, away),
                _ => None,
            },
            Next::NextGame => match kind {
                LineKind::OfGame(away) => on_game(self.in_match, away),
                LineKind::OfClose => Some(Next::Nothing),
                _ => None,
            },
            Next::Close => match kind {
                LineKind::OfClose => Some(Next::Nothing),
                _ => None,
            },
            Next::Nothing => None,
            _ => after_within(self.next, kind),
        }
    }

    /// With a line, after which this may come.
    pub fn with(self, line: &Line, next: Next) -> Stage
        requires { self.games ≤ 1048576 }
        ensures { result ≡ stage_after self line.now next }
    {
        match line {
            Line::Stakes(stakes) => Stage {
                next,
                in_match: stakes.is_match(),
                games: self.games,
            },
            Line::Game { .. } => Stage {
                next,
                in_match: self.in_match,
                games: self.games + 1,
            },
            _ => Stage {
                next,
                in_match: self.in_match,
                games: self.games,
            },
        }
    }
}
