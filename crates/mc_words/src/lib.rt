//! What commands read and say that need no server: the arguments, scripts of events, and how a
//! command ends.
//!
//! Stands on the texts of `mc_text`, the devices of `mc_wire` and the settings of `mc_model`.
//! Its one contract: each text is read as the definitions of `specs` say, to its first fault.
#![tactic(auto)]

mod arguments;
mod bad_input;
mod ended;
mod finishing;
mod refusal;
mod script;
mod script_line;

pub use arguments::{BotOptions, Command, LoadOptions, ServeOptions, WorldOptions};
pub use bad_input::{BadInput, InputFault};
pub use ended::Ended;
pub use finishing::finish;
pub use refusal::Refusal;
pub use script::{Script, ScriptError};
pub use script_line::ScriptEvent;
