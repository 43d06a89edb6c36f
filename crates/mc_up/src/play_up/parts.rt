//! The parts of packets that are there only where the part before them says so.
#![tactic(auto, using(mc_bytes::proofs::Kept::kept_whole, mc_bytes::proofs::Kept::kept_same, mc_bytes::proofs::Kept::kept_by, mc_bytes::proofs::Kept::kept_past))]

ghost use Rattle.std.specs.Prelude.{◌≡◌};
ghost use Rattle.mc_up.specs.PlayUp.{has_hit, hit, used, looked};

use mc_bytes::{Cursor, NoMemory, ReadError, write_u32};
use mc_fields::{Cell, Field, take_bool, take_varint, write_bool, write_varint};
use std::alloc::Global;
use std::marker::Model;

/// Where an entity was hit, from its own place: three patterns of Floats, in blocks.
#[derive(Clone, Copy, Debug, PartialEq, Eq)]
pub struct Hit {
    /// To the east.
    pub x: u32,
    /// Up.
    pub y: u32,
    /// To the south.
    pub z: u32,
}

impl Field for Hit {
    ghost format = { hit };

    fn get(_alloc: Global, cursor: &mut Cursor<'_>) -> Result<Hit, ReadError> {
        let x = cursor.u32()?;
        let y = cursor.u32()?;
        let z = cursor.u32()?;
        Ok(Hit { x, y, z })
    }

    fn put(&self, out: &mut Vec<u8>) -> Result<(), NoMemory> {
        write_u32(self.x, out)?;
        write_u32(self.y, out)?;
        write_u32(self.z, out)?;
        Ok(())
    }
}

/// Whether a use of this kind says where the entity was hit.
fn has_hit(kind: i32) -> bool
    ensures { result ≡ has_hit kind }
{
    kind == 2
}

/// How an entity is used, and where it was hit, which is there exactly for a use at a place.
/// Contracts see it as the pair of both.
#[derive(Clone, Copy)]
pub struct Used {
    pub kind: i32,
    pub place: Option<Hit>,
}

impl Model for Used {
    ghost use Rattle.std.specs.Prelude.{ℤ, Option};
    ghost use Rattle.mc_up.specs.declared.play_up.parts.Hit.{Hit};

    ghost Value = { ℤ × Option Hit };

    ghost view = { λ used. (used.kind, used.place) };

    ghost inverse = { λ used. record { kind = used.0; place = used.1 } };
}

impl Field for Used {
    ghost format = { used };

    #[tactic(auto, unfolding(mc_fields::specs::Varint::var_int_read))]
    fn get(alloc: Global, cursor: &mut Cursor<'_>) -> Result<Used, ReadError> {
        let kind = take_varint(cursor)?;
        if !has_hit(kind) {
            return Ok(Used { kind, place: None });
        }
        let place = Hit::get(alloc, cursor)?;
        Ok(Used {
            kind,
            place: Some(place),
        })
    }

    fn put(&self, out: &mut Vec<u8>) -> Result<(), NoMemory> {
        write_varint(self.kind, out)?;
        if let Some(place) = &self.place {
            place.put(out)?;
        }
        Ok(())
    }
}

/// Whether the player looks at a block, and that block, which is there exactly where it does.
/// Contracts see it as the pair of both.
#[derive(Clone, Copy)]
pub struct Looked {
    pub looks: bool,
    pub place: Option<Cell>,
}

impl Model for Looked {
    ghost use Rattle.std.specs.Prelude.{Bool, Option};
    ghost use Rattle.mc_fields.specs.declared.position.Cell.{Cell};

    ghost Value = { Bool × Option Cell };

    ghost view = { λ looked. (looked.looks, looked.place) };

    ghost inverse = { λ looked. record { looks = looked.0; place = looked.1 } };
}

impl Field for Looked {
    ghost format = { looked };

    fn get(alloc: Global, cursor: &mut Cursor<'_>) -> Result<Looked, ReadError> {
        let looks = take_bool(cursor)?;
        if !looks {
            return Ok(Looked { looks, place: None });
        }
        let place = Cell::get(alloc, cursor)?;
        Ok(Looked {
            looks,
            place: Some(place),
        })
    }

    fn put(&self, out: &mut Vec<u8>) -> Result<(), NoMemory> {
        write_bool(self.looks, out)?;
        if let Some(place) = &self.place {
            place.put(out)?;
        }
        Ok(())
    }
}
