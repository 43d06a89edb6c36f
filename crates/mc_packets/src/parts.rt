//! Parts of packets that are there only sometimes, and the bytes that are left.
#![tactic(auto, using(mc_bytes::proofs::Kept::kept_whole, mc_bytes::proofs::Kept::kept_same, mc_bytes::proofs::Kept::kept_by))]

ghost use Rattle.std.specs.Prelude.{◌≡◌, ◌<◌, ◌^◌, take, length, IfSome, OnOk};
ghost use Rattle.mc_bytes.specs.Reading.{Yields, Gives};
ghost use Rattle.mc_bytes.specs.Format.{Anything};
ghost use Rattle.mc_bytes.specs.Optional.{when, when_append};
ghost use Rattle.mc_bytes.specs.Rest.{rest};
ghost use Rattle.mc_fields.specs.Integers.{int};
ghost use Rattle.mc_packets.specs.Fields.{chat_text, is_horse, speed};

use crate::Speed;
use mc_bytes::{Cursor, NoMemory, Octets, ReadError, Stop, Text};
use mc_fields::{STRING_MAX, take_i16, take_i32, take_text, write_i16, write_i32, write_text};
use std::alloc::Global;

/// The kind of window that names an entity.
const HORSE: &str = "EntityHorse";

/// A text where it is there.
pub fn take_text_if(
    there: bool,
    alloc: Global,
    cursor: &mut Cursor<'_>,
) -> Result<Option<Text>, ReadError>
    ensures { Gives (λ text. (text, cursor.new)) result
        ((when {Rest = Anything} there chat_text).read cursor.old) }
{
    if !there {
        return Ok(None);
    }
    Ok(Some(take_text(alloc, cursor, STRING_MAX)?))
}

/// A text where it is there.
pub fn write_text_if(text: &Option<Text>, out: &mut Vec<u8>) -> Result<(), NoMemory>
    requires { IfSome text.now (λ bytes. length bytes < 2 ^ 31) }
    ensures ok { OnOk result (out.new.items ≡ when_append (chat_text {Rest = Anything}).append
        text.now out.old.items) }
    ensures kept { take (length out.old.items) out.new.items ≡ out.old.items }
{
    if let Some(text) = text {
        write_text(text, out)?;
    }
    Ok(())
}

/// The speed of an object where it is there.
pub fn take_speed_if(there: bool, cursor: &mut Cursor<'_>) -> Result<Option<Speed>, Stop>
    ensures { Yields (λ value. (value, cursor.new)) result
        ((when {Rest = Anything} there speed).read cursor.old) }
{
    if !there {
        return Ok(None);
    }
    let x = take_i16(cursor)?;
    let y = take_i16(cursor)?;
    let z = take_i16(cursor)?;
    Ok(Some(Speed { x, y, z }))
}

/// The speed of an object where it is there.
pub fn write_speed_if(value: &Option<Speed>, out: &mut Vec<u8>) -> Result<(), NoMemory>
    ensures ok { OnOk result (out.new.items ≡ when_append (speed {Rest = Anything}).append value.now
        out.old.items) }
    ensures kept { take (length out.old.items) out.new.items ≡ out.old.items }
{
    if let Some(speed) = value {
        write_i16(speed.x, out)?;
        write_i16(speed.y, out)?;
        write_i16(speed.z, out)?;
    }
    Ok(())
}

/// Whether a window of this kind names an entity.
pub fn is_horse(kind: &str) -> bool
    ensures { result ≡ is_horse kind.now }
{
    kind == HORSE
}

/// The entity of a window where it is there.
pub fn take_horse_if(there: bool, cursor: &mut Cursor<'_>) -> Result<Option<i32>, Stop>
    ensures { Yields (λ value. (value, cursor.new)) result ((when {Rest = Anything} there int).read
        cursor.old) }
{
    if !there {
        return Ok(None);
    }
    Ok(Some(take_i32(cursor)?))
}

/// The entity of a window where it is there.
pub fn write_int_if(value: &Option<i32>, out: &mut Vec<u8>) -> Result<(), NoMemory>
    ensures ok { OnOk result (out.new.items ≡ when_append (int {Rest = Anything}).append value.now
        out.old.items) }
    ensures kept { take (length out.old.items) out.new.items ≡ out.old.items }
{
    if let Some(value) = value {
        write_i32(*value, out)?;
    }
    Ok(())
}

/// All bytes that are left, copied once.
pub fn take_rest(alloc: Global, cursor: &mut Cursor<'_>) -> Result<Octets, ReadError>
    ensures { Gives (λ bytes. (bytes, cursor.new)) result (rest.read cursor.old) }
{
    Ok(Octets::from_slice(alloc, cursor.take_rest())?)
}
