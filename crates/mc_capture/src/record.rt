ghost use Rattle.std.specs.Prelude.{◌≡◌};
ghost use Rattle.mc_capture.specs.Grammar.{most_bytes};

use mc_bytes::Octets;

/// The eight bytes that a capture begins with: `MC47CAP` and its version.
pub const HEAD: [u8; 8] = [77, 67, 52, 55, 67, 65, 80, 1];

/// The most bytes that a record carries.
pub const BYTES_MAX: u32 = 65_536;

/// How many kinds of records there are; the kinds are the numbers below.
pub const KINDS: u8 = 7;

/// One record of a capture: what happened, on which connection.
///
/// The kinds are 0 where the connection joined, 1 of bytes that came from its client, 2 where that
/// left, 3 of a tick (on connection 0), 4 of bytes that its client took, 5 where a write to it broke,
/// and 6 where it was closed by the server. Kinds 1 and 4 alone carry bytes.
#[derive(Drop)]
pub struct Record {
    /// What happened.
    pub kind: u8,
    /// On which connection.
    pub connection: u32,
    /// The bytes that came, or that were taken.
    pub bytes: Octets,
}

/// The most bytes that a record of a kind carries.
pub(crate) fn most_bytes(kind: u8) -> u32
    ensures { result ≡ most_bytes kind }
{
    let carries = kind == 1 || kind == 4;
    if carries { BYTES_MAX } else { 0 }
}
