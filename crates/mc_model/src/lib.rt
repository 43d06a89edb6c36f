//! The definitions of the whole: the game and its connections, what each client is shown, and what
//! every event makes of all.
//!
//! Stands on the packets, frames, columns and the land, whose definitions its own are made of. It
//! has the types of these definitions, and the calls that need no more than a value of them; what
//! holds of every list of events is proved in `mc_laws`.
#![tactic(auto)]

mod cause;
mod eid;
mod fields;
mod mobs;
mod name;
mod notes;
mod pickups;
mod player;
mod seen;
mod settings;
mod spawn;
mod stage;
mod ticks;
mod wish;

pub use cause::{Cause, Refusal};
pub use eid::Eid;
pub use mobs::{MOB_STEP, MOBS_IN_ROW, MOBS_MAX, mob_spot};
pub use name::Name;
pub use notes::{Answered, Notes};
pub use pickups::{PICKUP_HEIGHT, PICKUP_SIDE, PICKUP_TICKS};
pub use player::Player;
pub use seen::{DESTROYED_MAX, SeenKind};
pub use settings::Settings;
pub use spawn::{level, spawn_height, spawn_spot};
pub use stage::Stage;
pub use ticks::{
    AGE_MAX, BEAT_TICKS, DAY_TICKS, MISSED_MAX, SHOWN_TICKS, beat_at, shown_age, time_of_day,
};
pub use wish::Wish;
