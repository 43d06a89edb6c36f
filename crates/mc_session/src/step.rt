use mc_bytes::{Octets, Text};
use mc_model::Cause;
use mc_up::PlayUp;

/// What is to be done about a frame.
#[derive(Drop)]
pub enum Step {
    /// Nothing.
    Nothing,
    /// These bytes go to the client.
    Reply(Octets),
    /// These bytes go to the client, and the connection is closed, for this cause.
    ReplyClose(Octets, Cause),
    /// The client asks to play.
    Enter {
        /// Under this name.
        name: Text,
        /// By this protocol.
        protocol: i32,
    },
    /// The client's player does something.
    Act(PlayUp),
    /// The connection is to be closed, for this cause: the frame is no packet.
    Close(Cause),
}
