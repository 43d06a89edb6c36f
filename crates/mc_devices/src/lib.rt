//! The devices of the program: standard input as a source, standard output as a sink, sockets on
//! 127.0.0.1 as a lobby, and a stream to there as a link, each behind its trait of `mc_wire`. It
//! stands on `mc_wire` and on the sockets of the crate `mio`, and the program stands on it.
//!
//! Its one contract: a failure raises the device's count and never passes for an answer. What the
//! system gives and takes beyond that no contract can say, so each device has a test, in
//! `mc_device_tests`.
#![tactic(auto)]

mod input;
mod link;
mod output;
mod sockets;

pub use input::ReaderSource;
pub use link::TcpLink;
pub use output::WriterSink;
pub use sockets::SocketLobby;
