ghost use Rattle.std.specs.Prelude.{◌≡◌, ◌+◌, ◌≤◌, ◌<◌, ◌^◌, IsTrue};
ghost use Rattle.game_record.specs.Games.{after_answer, game_after_double, game_after_play, counted, records_beavers, has_jacoby_rule, has_right, is_over, may_double, opening, won_worth};
ghost use Rattle.game_record.specs.Standings.{IsInRange};
ghost use Rattle.game_record.specs.Turns.{other_player};

use crate::cube::Cube;
use crate::player::Player;
use crate::record::RecordStakes;
use crate::standing::Standing;
use cube_actions::{Answer, MoneyRule, Phase};
use move_rules::{Won, points};
use position_rank::Position;

/// Who has won a game, and how many points, of 1 to 3, in units of what the cube shows.
#[derive(Clone, Copy, PartialEq, Eq)]
pub struct Win {
    pub winner: Player,
    pub points: u8,
}

/// How far a game has come.
#[derive(Clone, Copy)]
pub struct Progress {
    /// Seen by the player whose turn it is.
    pub position: Position,
    pub cube: Cube,
    /// The first play was made.
    pub opened: bool,
    /// Somebody has doubled in this turn.
    pub doubled: bool,
    /// `None` while the game goes on.
    pub won: Option<Win>,
}

impl Progress {
    /// The board is set up for 1 to 3 checkers a side.
    pub fn opening(checkers: u8) -> Progress
        requires low { 1 ≤ checkers }
        requires high { checkers ≤ 3 }
        ensures { result ≡ opening checkers }
    {
        Progress {
            position: Position::start(checkers),
            cube: Cube::centred(),
            opened: false,
            doubled: false,
            won: None,
        }
    }

    pub fn is_over(&self) -> bool
        ensures { result ≡ is_over self.now }
    {
        self.won.is_some()
    }

    /// After a player's play that leaves this position, seen by him.
    pub fn after_play(&self, stakes: RecordStakes, player: Player, end: &Position) -> Progress
        ensures { result ≡ game_after_play stakes player end.now self.now }
    {
        let won = match points(end) {
            None => None,
            Some(won) => Some(Win {
                winner: player,
                points: counted(stakes, self.cube, won),
            }),
        };
        Progress {
            position: end.swap(),
            cube: self.cube,
            opened: true,
            doubled: false,
            won,
        }
    }

    /// After a double.
    pub fn after_double(&self) -> Progress
        ensures { result ≡ game_after_double self.now }
    {
        Progress {
            position: self.position,
            cube: self.cube,
            opened: self.opened,
            doubled: true,
            won: self.won,
        }
    }

    /// After a player who was doubled has answered.
    pub fn after_answer(&self, player: Player, answer: Answer) -> Progress
        requires { self.now.cube.turns + 2 < 2 ^ 32 }
        ensures { result ≡ after_answer player answer self.now }
    {
        let (cube, won) = match answer {
            Answer::Take => (self.cube.turned(1, player), self.won),
            Answer::Beaver => (self.cube.turned(2, player), self.won),
            Answer::Pass => (self.cube, Some(lost_by(player))),
        };
        Progress {
            position: self.position,
            cube,
            opened: self.opened,
            doubled: self.doubled,
            won,
        }
    }

    /// Whether a player may double now, if it is his turn.
    pub fn may_double(&self, stakes: RecordStakes, standing: Standing, player: Player) -> bool
        requires { IsInRange standing }
        ensures { result ≡ may_double stakes standing player self.now }
    {
        self.opened && !self.doubled && has_right(stakes, standing, player, self.cube)
    }
}

/// A pass loses one point.
fn lost_by(player: Player) -> Win
    ensures { result ≡ record { winner = other_player player; points = 1 } }
{
    Win {
        winner: player.other(),
        points: 1,
    }
}

/// How many points count: by the Jacoby rule one while the cube is centred.
fn counted(stakes: RecordStakes, cube: Cube, won: Won) -> u8
    ensures { result ≡ counted stakes cube won }
{
    if stakes.has_jacoby_rule() && cube.owner.is_none() {
        return 1;
    }
    match won {
        Won::Single => 1,
        Won::Gammon => 2,
        Won::Backgammon => 3,
    }
}

/// Whether a player may turn the cube.
fn has_right(stakes: RecordStakes, standing: Standing, player: Player, cube: Cube) -> bool
    requires { IsInRange standing }
    ensures { result ≡ has_right stakes standing player cube }
{
    match stakes {
        RecordStakes::Unlimited(MoneyRule::Cubeless) => false,
        RecordStakes::Unlimited(_) => cube.is_free_to(player),
        RecordStakes::Match(_) => {
            standing.phase != Phase::Crawford
                && cube.is_free_to(player)
                && cube.is_below(standing.needs(player))
        }
    }
}
