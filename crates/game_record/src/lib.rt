//! Recorded games: what was rolled, played and doubled, and what was decided in them.
#![tactic(auto)]

mod acts;
mod cube;
mod decision;
mod examples;
mod fault;
mod line;
mod moment;
mod player;
mod progress;
mod record;
mod replay_laws;
mod replaying;
mod stage;
mod standing;

pub use cube::Cube;
pub use decision::{Decision, Decisions};
pub use examples::{cube_examples, kind_examples, order_examples, standing_examples};
pub use fault::{BadRecord, RecordFault, RecordStop};
pub use line::{Line, LineKind};
pub use moment::Moment;
pub use player::Player;
pub use progress::{Progress, Win};
pub use record::{Action, Actions, Ending, Game, Games, Record, RecordStakes, What};
pub use replay_laws::{
    decisions_are_right, records_have_few_decisions, records_tell_their_decisions,
    replays_break_no_rule,
};
pub use replaying::replay;
pub use stage::{Next, Stage};
pub use standing::Standing;
