use cube_actions::{Answer, Offer};
use position_rank::Position;
use roll_table::Roll;

/// What a player chose.
#[derive(Clone, Copy)]
pub enum Choice {
    /// A play of a roll, told by the position that it leaves, seen by the same player.
    Played { roll: Roll, end: Position },
    Offered(Offer),
    Answered(Answer),
}
