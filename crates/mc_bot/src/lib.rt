//! The headless client: it reads a script, plays it over a link, and writes what the client sees
//! then.
//!
//! Stands on the lines, words and numbers of `mc_text`, the cells of `mc_fields`, the frames of
//! `mc_frame`, the packets of `mc_hello`, `mc_up` and `mc_down`, the link and the sink of `mc_wire`
//! and what follows a server for a client, of `mc_replica`. Its contract: `play_with` answers how
//! the play of the script ends over what the link gave, and sends exactly what is sent in it.
//! `Script::read` has one more: a text is a script, or its first fault is told.
#![tactic(auto)]

mod act;
mod asking;
mod begun;
mod bot;
mod bot_fault;
mod clicking;
mod incoming;
mod line;
mod numbers;
mod playing;
mod script;
mod sending;
mod texts;

pub use act::{Act, Line};
pub use bot::{play, play_with};
pub use bot_fault::BotFault;
pub use script::{Script, ScriptFault, ScriptKind, ScriptRead};
