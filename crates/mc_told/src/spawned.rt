//! An entity that is new to some client, as all clients are shown it.

ghost use Rattle.std.specs.Prelude.{◌≡◌};
ghost use Rattle.mc_told.specs.EntityFrames.{is_same_row};

use crate::row::Row;
use bytes::Bytes;

/// An entity, and the frames that show it to a client that does not know it.
#[derive(Drop)]
pub struct Spawned {
    /// The entity.
    pub row: Row,
    /// The frames.
    pub frames: Bytes,
}

impl Spawned {
    /// Whether it is an entity as it is to be shown.
    pub fn is(&self, row: &Row) -> bool
        ensures { result ≡ is_same_row self.now.row row.now }
    {
        self.row == *row
    }
}
