//! The move of an entity, as all clients are told it.

ghost use Rattle.std.specs.Prelude.{◌≡◌};
ghost use Rattle.mc_told.specs.EntityFrames.{is_move};

use bytes::Bytes;
use mc_fields::Spot;

/// Where an entity was and looked at the last settling, where it is and looks now, and the frames
/// that tell that to a client that was told the first.
#[derive(Drop)]
pub struct Moved {
    /// Where it was.
    pub from: Spot,
    /// Where it is.
    pub to: Spot,
    /// The frames.
    pub frames: Bytes,
}

impl Moved {
    /// Whether it is the move from one spot to another.
    pub fn is(&self, from: &Spot, to: &Spot) -> bool
        ensures { result ≡ is_move from.now to.now self.now }
    {
        self.from == *from && self.to == *to
    }
}
