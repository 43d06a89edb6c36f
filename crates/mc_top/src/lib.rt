//! The commands of the program, over the devices that they need. It stands on the server and the
//! loop of `mc_server`, on the arguments, scripts and lines of `mc_words`, whose public names it
//! exports again, and on the devices of `mc_wire`.
//!
//! Its one contract is `run`: for each status, what the command that the arguments name promises of
//! the lobby, the input and the output (`specs/Promises.antt`).
#![tactic(auto)]

mod bot;
mod captures;
mod command;
mod laws;
mod load;
mod record;
mod replay;
mod replay_lines;
mod serve;
mod world;

pub use command::run;
pub use laws::{
    bad_inputs_are_refused, good_inputs_are_served, long_line_of_a_script, ticks_of_a_script,
};
pub use mc_words::{BadInput, InputFault, Script, ScriptError, ScriptEvent};
