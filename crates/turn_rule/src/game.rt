use cube_actions::Stakes;

/// What a game is played with: how many checkers a side has, and for what.
#[derive(Drop)]
pub struct Game {
    pub checkers: u8,
    pub stakes: Stakes,
}
