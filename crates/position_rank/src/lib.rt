//! Where the checkers of a game stand.
#![tactic(auto)]

mod layout;
mod live;
mod points;
mod position;
mod rank;

pub use layout::{BadLayout, Layout};
pub use live::{
    live_count, live_rank, live_ranks_tell_positions, live_unrank, squares_hold_their_positions,
};
pub use points::{MoverPoints, OtherPoints, all_other_points};
pub use position::Position;
pub use rank::{layout_count, ranks_tell_layouts, square_ranks_tell_positions};
