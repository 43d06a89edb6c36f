//! The outside as traits, a source that is read, a sink that is written, a lobby of connections and
//! a link to a server, and devices in memory that stand for it. It stands on the byte lists of
//! `mc_bytes`. Its one contract: where a device tells what it has, a call that succeeds moves
//! exactly the bytes that it says and a call that fails moves none; and a call that fails raises
//! the device's count of failures.
#![tactic(auto)]

mod answers;
mod failed;
mod got;
mod input_error;
mod link;
mod link_record;
mod link_trouble;
mod link_troubles;
mod lobby;
mod lobby_record;
mod log;
mod memory_link;
mod memory_lobby;
mod memory_sink;
mod memory_source;
mod part;
mod plan;
mod read_fate;
mod sink;
mod source;
mod steady_link;
mod steady_lobby;
mod steady_sink;
mod steady_source;
mod trouble;
mod troubles;
mod upcoming;

pub use answers::{Event, Pace, Wrote};
pub use failed::Failed;
pub use got::Got;
pub use input_error::InputError;
pub use link::Link;
pub use link_trouble::LinkTrouble;
pub use lobby::Lobby;
pub use log::LogEntry;
pub use memory_link::MemoryLink;
pub use memory_lobby::MemoryLobby;
pub use memory_sink::MemorySink;
pub use memory_source::MemorySource;
pub use sink::{Sink, write_all};
pub use source::{Source, read_up_to};
pub use steady_link::SteadyLink;
pub use steady_lobby::SteadyLobby;
pub use steady_sink::SteadySink;
pub use steady_source::SteadySource;
pub use trouble::Trouble;
