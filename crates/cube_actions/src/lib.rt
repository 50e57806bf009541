//! What a game is played for: kinds of state, the cube and the stakes.
#![tactic(auto)]

mod action;
mod kind;
mod match_kind;
mod match_laws;
mod name;
mod name_laws;
mod names;
mod phase;
mod score;
mod score_order;
mod side;
mod stakes;
mod starts;

pub use action::{Answer, Offer};
pub use kind::{Double, Kind, Taken};
pub use match_laws::{cubes_come_of_the_score, ladders_are_exact, wins_lead_down_the_ladder};
pub use name::{KindName, MoneyRule, StakesName};
pub use name_laws::names_tell_kinds;
pub use names::every_name;
pub use phase::Phase;
pub use score::{BadScore, Score};
pub use score_order::ladder;
pub use side::Side;
pub use stakes::Stakes;
pub use starts::Starts;
