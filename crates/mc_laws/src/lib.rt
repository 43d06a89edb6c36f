//! The laws of the definitions: what holds of every list of events, and of the parts of which the
//! definitions are made.
//!
//! Stands on the definitions of `mc_model`. Its one contract: the whole promise about a run
//! (`headline`). Beside it stand the laws that promise nothing to a client, but hold the
//! definitions together.
#![tactic(auto)]

mod laws;
mod parts;
mod pieces;
mod promise;
