ghost use Rattle.std.specs.Prelude.{◌≡◌, ◌≤◌, length};
ghost use Rattle.game_record.specs.Turns.{other_player, player_text};

/// One of the two who play.
#[derive(Clone, Copy, PartialEq, Eq)]
pub enum Player {
    A,
    B,
}

impl Player {
    /// The one that he plays against.
    pub fn other(self) -> Player
        ensures { result ≡ other_player self }
    {
        match self {
            Player::A => Player::B,
            Player::B => Player::A,
        }
    }

    /// His letter, `A` or `B`.
    pub fn letter(self) -> &'static str
        ensures text { result.now ≡ player_text self }
        ensures short { length result.now ≤ 1 }
    {
        match self {
            Player::A => "A",
            Player::B => "B",
        }
    }
}
