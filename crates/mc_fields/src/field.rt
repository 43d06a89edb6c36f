//! Values that know how they are spelled, so that what is made of them needs no reader and no
//! writer of its own.
#![tactic(auto, using(mc_bytes::proofs::Kept::kept_whole, mc_bytes::proofs::Kept::kept_same, mc_bytes::proofs::Kept::kept_by, mc_bytes::proofs::Kept::kept_past))]

ghost use Rattle.std.specs.Prelude.{◌≡◌, List, ℕ, length, take, OnOk};
ghost use Rattle.mc_bytes.specs.Reading.{Gives};
ghost use Rattle.mc_bytes.specs.Format.{Format, Anything};
ghost use Rattle.mc_fields.specs.Integers.{byte, ubyte, short, ushort, int, long};
ghost use Rattle.mc_fields.specs.Integers.{float, double, uuid, boolean};
ghost use Rattle.mc_fields.specs.VarintFormat.{var_int};
ghost use Rattle.mc_fields.specs.TextFormat.{string};
ghost use Rattle.mc_fields.specs.Position.{position};
ghost use Rattle.mc_fields.specs.Counted.{sized};

use crate::listed::take_count;
use crate::{
    Cell, take_bool, take_i8, take_i16, take_i32, take_i64, take_position, take_text, take_varint,
    write_bool, write_i8, write_i16, write_i32, write_i64, write_position, write_text, write_u8,
    write_u16, write_u32, write_u64, write_u128, write_varint,
};
use mc_bytes::{Cursor, NoMemory, Octets, ReadError, Text, write_octets};
use std::alloc::Global;
use std::marker::Model;

/// How many code points a text has at most, where its field names no limit.
pub const STRING_MAX: usize = 32_767;

/// A value of one format, which says what it is read from and what is written of it.
pub trait Field: Drop {
    ghost format: { Format Anything Self };

    /// Takes a value off the front of the bytes, or says the first fault of its format.
    fn get(alloc: Global, cursor: &mut Cursor<'_>) -> Result<Self, ReadError>
        ensures { Gives (λ value. (value, cursor.new)) result (format.read cursor.old) };

    /// Appends the value's spelling. Without memory some first part of it may be there.
    fn put(&self, out: &mut Vec<u8>) -> Result<(), NoMemory>
        requires { format.fits self.now }
        ensures ok { OnOk result (out.new.items ≡ format.append self.now out.old.items) }
        ensures kept { take (length out.old.items) out.new.items ≡ out.old.items };
}

impl Field for u8 {
    ghost format = { ubyte };

    fn get(_alloc: Global, cursor: &mut Cursor<'_>) -> Result<u8, ReadError> {
        Ok(cursor.u8()?)
    }

    fn put(&self, out: &mut Vec<u8>) -> Result<(), NoMemory> {
        write_u8(*self, out)
    }
}

impl Field for u16 {
    ghost format = { ushort };

    fn get(_alloc: Global, cursor: &mut Cursor<'_>) -> Result<u16, ReadError> {
        Ok(cursor.u16()?)
    }

    fn put(&self, out: &mut Vec<u8>) -> Result<(), NoMemory> {
        write_u16(*self, out)
    }
}

impl Field for u32 {
    ghost format = { float };

    fn get(_alloc: Global, cursor: &mut Cursor<'_>) -> Result<u32, ReadError> {
        Ok(cursor.u32()?)
    }

    fn put(&self, out: &mut Vec<u8>) -> Result<(), NoMemory> {
        write_u32(*self, out)
    }
}

impl Field for u64 {
    ghost format = { double };

    fn get(_alloc: Global, cursor: &mut Cursor<'_>) -> Result<u64, ReadError> {
        Ok(cursor.u64()?)
    }

    fn put(&self, out: &mut Vec<u8>) -> Result<(), NoMemory> {
        write_u64(*self, out)
    }
}

impl Field for u128 {
    ghost format = { uuid };

    fn get(_alloc: Global, cursor: &mut Cursor<'_>) -> Result<u128, ReadError> {
        Ok(cursor.u128()?)
    }

    fn put(&self, out: &mut Vec<u8>) -> Result<(), NoMemory> {
        write_u128(*self, out)
    }
}

/// A number that is sent as a VarInt. Contracts see it as that number.
#[derive(Clone, Copy, Debug, PartialEq, Eq)]
pub struct VarInt(pub i32);

impl Model for VarInt {
    ghost use Rattle.std.specs.Prelude.{ℤ};

    ghost Value = { ℤ };

    ghost view = { λ number. number.0 };

    ghost inverse = { λ number. record { 0 = number } };
}

impl Field for VarInt {
    ghost format = { var_int };

    #[tactic(auto, unfolding(crate::specs::Varint::var_int_read))]
    fn get(_alloc: Global, cursor: &mut Cursor<'_>) -> Result<VarInt, ReadError> {
        Ok(VarInt(take_varint(cursor)?))
    }

    fn put(&self, out: &mut Vec<u8>) -> Result<(), NoMemory> {
        write_varint(self.0, out)?;
        Ok(())
    }
}

impl Field for bool {
    ghost format = { boolean };

    fn get(_alloc: Global, cursor: &mut Cursor<'_>) -> Result<bool, ReadError> {
        Ok(take_bool(cursor)?)
    }

    fn put(&self, out: &mut Vec<u8>) -> Result<(), NoMemory> {
        write_bool(*self, out)
    }
}

impl Field for i8 {
    ghost format = { byte };

    fn get(_alloc: Global, cursor: &mut Cursor<'_>) -> Result<i8, ReadError> {
        Ok(take_i8(cursor)?)
    }

    fn put(&self, out: &mut Vec<u8>) -> Result<(), NoMemory> {
        write_i8(*self, out)
    }
}

impl Field for i16 {
    ghost format = { short };

    fn get(_alloc: Global, cursor: &mut Cursor<'_>) -> Result<i16, ReadError> {
        Ok(take_i16(cursor)?)
    }

    fn put(&self, out: &mut Vec<u8>) -> Result<(), NoMemory> {
        write_i16(*self, out)
    }
}

impl Field for i32 {
    ghost format = { int };

    fn get(_alloc: Global, cursor: &mut Cursor<'_>) -> Result<i32, ReadError> {
        Ok(take_i32(cursor)?)
    }

    fn put(&self, out: &mut Vec<u8>) -> Result<(), NoMemory> {
        write_i32(*self, out)
    }
}

impl Field for i64 {
    ghost format = { long };

    fn get(_alloc: Global, cursor: &mut Cursor<'_>) -> Result<i64, ReadError> {
        Ok(take_i64(cursor)?)
    }

    fn put(&self, out: &mut Vec<u8>) -> Result<(), NoMemory> {
        write_i64(*self, out)
    }
}

impl Field for Cell {
    ghost format = { position };

    fn get(_alloc: Global, cursor: &mut Cursor<'_>) -> Result<Cell, ReadError> {
        Ok(take_position(cursor)?)
    }

    fn put(&self, out: &mut Vec<u8>) -> Result<(), NoMemory> {
        write_position(*self, out)
    }
}

/// A text without a limit of its own.
impl Field for Text {
    ghost format = { string };

    fn get(alloc: Global, cursor: &mut Cursor<'_>) -> Result<Text, ReadError> {
        take_text(alloc, cursor, STRING_MAX)
    }

    fn put(&self, out: &mut Vec<u8>) -> Result<(), NoMemory> {
        write_text(self, out)?;
        Ok(())
    }
}

/// Bytes behind the VarInt of their number, copied once.
impl Field for Octets {
    ghost format = { sized };

    fn get(alloc: Global, cursor: &mut Cursor<'_>) -> Result<Octets, ReadError> {
        let len = take_count(cursor)?;
        let bytes = cursor.take(len)?;
        Ok(Octets::from_slice(alloc, bytes)?)
    }

    fn put(&self, out: &mut Vec<u8>) -> Result<(), NoMemory> {
        let bytes = self.as_slice();
        VarInt(bytes.len() as i32).put(out)?;
        write_octets(bytes, out)
    }
}
