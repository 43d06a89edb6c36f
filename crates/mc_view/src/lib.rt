//! Which columns a client sees, which of one view another lacks, and what it was told of entities.
//!
//! Stands on the columns of `mc_column`, the spots of `mc_fields` and the piles of `mc_slots`. Its
//! one contract: a view set is the columns that are at most so many columns off its middle, what
//! enters and what leaves a moving view are those of one set that the other lacks, in rising order,
//! and an entity's change is told by comparing the spot and the pile that a client was told with
//! those of now.
#![tactic(auto)]

mod area;
mod around;
mod columns;
mod forms;
mod looks;
mod spots;
mod square;
mod told_rest;
mod tracker;
mod view_set;

pub use area::Area;
pub use around::{column_of_spot, view_size};
pub use columns::Columns;
pub use forms::{Form, Moves};
pub use looks::Looks;
pub use spots::form;
pub use told_rest::ToldRest;
pub use tracker::Tracker;
pub use view_set::{MIDDLE_BORDER, ViewSet};
