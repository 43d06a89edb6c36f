use mc_bytes::{Cursor, NoMemory, ReadError};
use mc_fields::{Field, VarInt, put3};
use std::alloc::Global;

/// A cell of a column that changes, of a packet of many.
#[derive(Clone, Copy, Debug, PartialEq, Eq)]
pub struct Record {
    /// Its place in the column's layer: 16 times its x, and its z.
    pub place: u8,
    /// Its y.
    pub y: u8,
    /// Its new state.
    pub state: i32,
}

impl Field for Record {
    ghost use Rattle.mc_packets.specs.Fields.{cell_change};

    ghost format = { cell_change };

    fn get(alloc: Global, cursor: &mut Cursor<'_>) -> Result<Record, ReadError> {
        let (place, y, VarInt(state)) = Field::get(alloc, cursor)?;
        Ok(Record { place, y, state })
    }

    fn put(&self, out: &mut Vec<u8>) -> Result<(), NoMemory> {
        put3(&self.place, &self.y, &VarInt(self.state), out)
    }
}

/// How fast a spawned object moves, in 1/8000 blocks a tick.
#[derive(Clone, Copy, Debug, PartialEq, Eq)]
pub struct Speed {
    /// To the east.
    pub x: i16,
    /// Up.
    pub y: i16,
    /// To the south.
    pub z: i16,
}
