/// Where a match stands with respect to the Crawford game, in which nobody may double.
#[derive(Clone, Copy, PartialEq, Eq)]
pub enum Phase {
    /// Before the Crawford game.
    Normal,
    /// The Crawford game.
    Crawford,
    /// After the Crawford game.
    Post,
}
