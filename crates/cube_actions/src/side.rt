ghost use Rattle.std.specs.Prelude.{◌≡◌};
ghost use Rattle.cube_actions.specs.Scores.{other_side};

/// A side of a match: near is the one that needs at most what the other needs.
#[derive(Clone, Copy, PartialEq, Eq)]
pub enum Side {
    Near,
    Far,
}

impl Side {
    /// The one that it plays against.
    pub fn other(self) -> Side
        ensures { result ≡ other_side self }
    {
        match self {
            Side::Near => Side::Far,
            Side::Far => Side::Near,
        }
    }
}
