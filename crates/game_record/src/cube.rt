ghost use Rattle.std.specs.Prelude.{◌≡◌, ◌+◌, ◌≤◌, ◌<◌, ◌^◌, nat_lt};
ghost use Rattle.game_record.specs.Cube.{centred, is_free_to, shows, turned};

use crate::player::Player;

/// The doubling cube.
#[derive(Clone, Copy)]
pub struct Cube {
    /// How often it was turned: it shows 1, 2, 4 and so on.
    pub turns: u32,
    /// Whose it is. `None` where it is centred.
    pub owner: Option<Player>,
}

impl Cube {
    pub(crate) fn centred() -> Cube
        ensures { result ≡ centred }
    {
        Cube {
            turns: 0,
            owner: None,
        }
    }

    /// What it shows, where that is 1, 2, 4 or 8.
    pub(crate) fn shows(self) -> u8
        requires { self.turns ≤ 3 }
        ensures { result ≡ shows self }
    {
        match self.turns {
            0 => 1,
            1 => 2,
            2 => 4,
            _ => 8,
        }
    }

    /// It was turned so many times more, and went to a player.
    pub(crate) fn turned(self, times: u32, player: Player) -> Cube
        requires { self.turns + times < 2 ^ 32 }
        ensures { result ≡ turned self times player }
    {
        Cube {
            turns: self.turns + times,
            owner: Some(player),
        }
    }

    /// Whether it shows less than so many points, of 5 at most.
    pub(crate) fn is_below(self, points: u8) -> bool
        requires { points ≤ 5 }
        ensures { result ≡ nat_lt (shows self) points }
    {
        self.turns <= 3 && self.shows() < points
    }

    /// Whether it is centred or this player's.
    pub(crate) fn is_free_to(self, player: Player) -> bool
        ensures { result ≡ is_free_to player self.owner }
    {
        match self.owner {
            None => true,
            Some(owner) => owner == player,
        }
    }
}
