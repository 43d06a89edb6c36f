//! The land: terrain that nobody has to store, and what was changed of it.
//!
//! Stands on columns, fields and slots. Its one contract: a cell of the endless world has the state
//! that it was set to, or else the terrain's, and a column that is ready holds exactly those.
#![tactic(auto)]

mod fault;
mod growing;
mod land;
mod places;
mod ready;
mod sizes;
mod steps;
mod terrain;

pub use fault::LandFault;
pub use land::{CHEST, Land, is_chest};
pub use places::is_inside;
pub use ready::Touched;
pub use steps::Steps;
pub use terrain::{Terrain, height};
