ghost use Rattle.std.specs.Prelude.{◌≡◌, ◌+◌, ◌-◌, ◌<◌, ◌≤◌, length, IfOk, OnOk, option_map};
ghost use Rattle.std.specs.Int.{w8, w16, w32, w64};
ghost use Rattle.mc_bytes.specs.Reading.{Yields, Gives};
ghost use Rattle.mc_bytes.specs.CombineBytes.{view_read};
ghost use Rattle.mc_bytes.specs.NumberBytes.{number_read};
ghost use Rattle.mc_bytes.specs.Times.{times_at};
ghost use Rattle.mc_nbt.specs.NbtReading.{signed_at, kind_at, count_at, name_at, bytes_at, ints_at};
ghost use Rattle.mc_nbt.specs.NbtReading.{leaf_at, list_at, named_at, member_at, members_at};
ghost use Rattle.mc_nbt.specs.NbtReading.{compound_at, value_at, root_at, nbt_at};
ghost use Rattle.mc_nbt.specs.Nbt.{named};
ghost use Rattle.mc_nbt.specs.TagView.{tree_of, member_of};
ghost use Rattle.mc_nbt.specs.Tree.{byte, short, int, long, float, double, byte_array, text};
ghost use Rattle.mc_nbt.specs.Tree.{int_array};

use crate::values::limits::{COMPOUND, DEPTH_MAX, END, ITEMS_MAX, KIND_MAX};
use crate::{Entries, Ints, Tag, Tags};
use mc_bytes::{Cursor, Kind, Octets, ReadError, Stop};
use std::alloc::Global;

#[tactic(auto, unfolding(crate::specs::NbtReading::kind_at, mc_bytes::specs::NumberBytes::number_read))]
fn read_kind(input: &mut Cursor<'_>) -> Result<u8, Stop>
    ensures gives { Yields (λ kind. (kind, input.new)) result (kind_at input.old) }
    ensures shorter { OnOk result (length input.new < length input.old) }
{
    let bad = input.stop(Kind::BadTag);
    let kind = input.u8()?;
    if kind > KIND_MAX {
        return Err(bad);
    }
    Ok(kind)
}

#[tactic(auto, unfolding(crate::specs::NbtReading::count_at, mc_bytes::specs::NumberBytes::number_read))]
fn read_count(input: &mut Cursor<'_>, kind: u8) -> Result<u32, Stop>
    ensures gives { Yields (λ count. (count, input.new)) result (count_at kind input.old) }
    ensures shorter { OnOk result (length input.new < length input.old) }
{
    let bad = input.stop(Kind::BadLength);
    let count = input.u32()?;
    let most = if kind > END { ITEMS_MAX } else { 0 };
    if count > most {
        return Err(bad);
    }
    Ok(count)
}

#[tactic(auto, unfolding(crate::specs::NbtReading::signed_at, mc_bytes::specs::NumberBytes::number_read))]
fn read_i32(input: &mut Cursor<'_>) -> Result<i32, Stop>
    ensures gives { Yields (λ number. (number, input.new)) result (signed_at w32 input.old) }
    ensures shorter { OnOk result (length input.new < length input.old) }
{
    Ok(input.u32()?.cast_signed())
}

/// A number of one byte.
#[tactic(auto, unfolding(crate::specs::NbtReading::signed_at, mc_bytes::specs::NumberBytes::number_read))]
fn read_byte(input: &mut Cursor<'_>) -> Result<Tag, ReadError>
    ensures gives { Gives (λ tag. (tree_of tag, input.new)) result
        (view_read (signed_at w8) byte input.old) }
    ensures shorter { OnOk result (length input.new ≤ length input.old) }
{
    Ok(Tag::Byte(input.u8()?.cast_signed()))
}

/// A number of two bytes.
#[tactic(auto, unfolding(crate::specs::NbtReading::signed_at, mc_bytes::specs::NumberBytes::number_read))]
fn read_short(input: &mut Cursor<'_>) -> Result<Tag, ReadError>
    ensures gives { Gives (λ tag. (tree_of tag, input.new)) result
        (view_read (signed_at w16) short input.old) }
    ensures shorter { OnOk result (length input.new ≤ length input.old) }
{
    Ok(Tag::Short(input.u16()?.cast_signed()))
}

/// A number of four bytes.
#[tactic(auto, unfolding(crate::specs::NbtReading::signed_at, mc_bytes::specs::NumberBytes::number_read))]
fn read_int(input: &mut Cursor<'_>) -> Result<Tag, ReadError>
    ensures gives { Gives (λ tag. (tree_of tag, input.new)) result
        (view_read (signed_at w32) int input.old) }
    ensures shorter { OnOk result (length input.new ≤ length input.old) }
{
    Ok(Tag::Int(input.u32()?.cast_signed()))
}

/// A number of eight bytes.
#[tactic(auto, unfolding(crate::specs::NbtReading::signed_at, mc_bytes::specs::NumberBytes::number_read))]
fn read_long(input: &mut Cursor<'_>) -> Result<Tag, ReadError>
    ensures gives { Gives (λ tag. (tree_of tag, input.new)) result
        (view_read (signed_at w64) long input.old) }
    ensures shorter { OnOk result (length input.new ≤ length input.old) }
{
    Ok(Tag::Long(input.u64()?.cast_signed()))
}

/// The pattern of a binary32 number.
#[tactic(auto, unfolding(mc_bytes::specs::NumberBytes::number_read))]
fn read_float(input: &mut Cursor<'_>) -> Result<Tag, ReadError>
    ensures gives { Gives (λ tag. (tree_of tag, input.new)) result
        (view_read (number_read w32) float input.old) }
    ensures shorter { OnOk result (length input.new ≤ length input.old) }
{
    Ok(Tag::Float(input.u32()?))
}

/// The pattern of a binary64 number.
#[tactic(auto, unfolding(mc_bytes::specs::NumberBytes::number_read))]
fn read_double(input: &mut Cursor<'_>) -> Result<Tag, ReadError>
    ensures gives { Gives (λ tag. (tree_of tag, input.new)) result
        (view_read (number_read w64) double input.old) }
    ensures shorter { OnOk result (length input.new ≤ length input.old) }
{
    Ok(Tag::Double(input.u64()?))
}

#[tactic(auto, unfolding(crate::specs::NbtReading::name_at, crate::specs::NbtReading::run_at, mc_bytes::specs::NumberBytes::number_read, mc_bytes::specs::NumberBytes::octets_read))]
fn read_name(alloc: Global, input: &mut Cursor<'_>) -> Result<Octets, ReadError>
    ensures gives { Gives (λ name. (name, input.new)) result (name_at input.old) }
    ensures shorter { OnOk result (length input.new < length input.old) }
{
    let short = input.stop(Kind::Short);
    let len = input.u16()?;
    let Ok(bytes) = input.take(len as usize) else {
        return Err(ReadError::Stop(short));
    };
    Ok(Octets::from_slice(alloc, bytes)?)
}

#[tactic(auto, unfolding(crate::specs::NbtReading::bytes_at, crate::specs::NbtReading::run_at, mc_bytes::specs::NumberBytes::octets_read))]
fn read_bytes(alloc: Global, input: &mut Cursor<'_>) -> Result<Octets, ReadError>
    ensures gives { Gives (λ bytes. (bytes, input.new)) result (bytes_at input.old) }
    ensures shorter { OnOk result (length input.new < length input.old) }
{
    let short = input.stop(Kind::Short);
    let len = read_count(input, 7)?;
    let Ok(bytes) = input.take(len as usize) else {
        return Err(ReadError::Stop(short));
    };
    Ok(Octets::from_slice(alloc, bytes)?)
}

/// Bytes behind their number.
fn read_byte_array(alloc: Global, input: &mut Cursor<'_>) -> Result<Tag, ReadError>
    ensures gives { Gives (λ tag. (tree_of tag, input.new)) result
        (view_read bytes_at byte_array input.old) }
    ensures shorter { OnOk result (length input.new ≤ length input.old) }
{
    Ok(Tag::ByteArray(read_bytes(alloc, input)?))
}

/// A text behind the number of its bytes.
fn read_str(alloc: Global, input: &mut Cursor<'_>) -> Result<Tag, ReadError>
    ensures gives { Gives (λ tag. (tree_of tag, input.new)) result
        (view_read name_at text input.old) }
    ensures shorter { OnOk result (length input.new ≤ length input.old) }
{
    Ok(Tag::Str(read_name(alloc, input)?))
}

#[tactic(auto, using(mc_bytes::proofs::Loops::times_next, mc_bytes::proofs::Loops::times_halt, mc_bytes::proofs::Loops::times_done, mc_bytes::proofs::Loops::times_first))]
fn read_ints(alloc: Global, input: &mut Cursor<'_>, count: u32) -> Result<Ints, ReadError>
    ensures gives { Gives (λ ints. (ints, input.new)) result (times_at (signed_at w32) count
        input.old) }
    ensures shorter { OnOk result (length input.new ≤ length input.old) }
{
    let mut ints = Ints::new(alloc);
    for _ in 0..count {
        ints.push(read_i32(input)?)?;
    }
    Ok(ints)
}

/// Numbers of four bytes behind how many they are.
#[tactic(auto, unfolding(crate::specs::NbtReading::ints_at))]
fn read_int_array(alloc: Global, input: &mut Cursor<'_>) -> Result<Tag, ReadError>
    ensures gives { Gives (λ tag. (tree_of tag, input.new)) result
        (view_read ints_at int_array input.old) }
    ensures shorter { OnOk result (length input.new ≤ length input.old) }
{
    let count = read_count(input, 11)?;
    Ok(Tag::IntArray(read_ints(alloc, input, count)?))
}

/// A value that holds no others. `BadTag` at another kind. Each arm is one call, since an arm with
/// exits of its own is dear to prove.
#[tactic(auto, unfolding(crate::specs::NbtReading::leaf_at))]
fn read_leaf(alloc: Global, input: &mut Cursor<'_>, kind: u8) -> Result<Tag, ReadError>
    ensures gives { Gives (λ tag. (tree_of tag, input.new)) result (leaf_at kind input.old) }
    ensures shorter { OnOk result (length input.new ≤ length input.old) }
{
    match kind {
        1 => read_byte(input),
        2 => read_short(input),
        3 => read_int(input),
        4 => read_long(input),
        5 => read_float(input),
        6 => read_double(input),
        7 => read_byte_array(alloc, input),
        8 => read_str(alloc, input),
        11 => read_int_array(alloc, input),
        _ => Err(ReadError::Stop(input.stop(Kind::BadTag))),
    }
}

/// A value of a kind, where `room` more lists and compounds may be open.
#[cycle(reading)]
#[tactic(auto, unfolding(crate::specs::NbtReading::value_at, crate::specs::NbtReading::payload_at, crate::specs::NbtReading::compound_at))]
fn read_value(
    alloc: Global,
    input: &mut Cursor<'_>,
    kind: u8,
    room: usize,
) -> Result<Tag, ReadError>
    ensures gives { Gives (λ tag. (tree_of tag, input.new)) result (value_at room kind input.old) }
    ensures shorter { OnOk result (length input.new ≤ length input.old) }
{
    if room == 0 {
        return match kind {
            9 => Err(ReadError::Stop(input.stop(Kind::Deep))),
            10 => Err(ReadError::Stop(input.stop(Kind::Deep))),
            _ => read_leaf(alloc, input, kind),
        };
    }
    match kind {
        9 => read_list(alloc, input, room - 1),
        10 => Ok(Tag::Compound(read_entries(alloc, input, room - 1)?)),
        _ => read_leaf(alloc, input, kind),
    }
}

#[cycle(reading)]
#[tactic(auto, unfolding(crate::specs::NbtReading::list_at))]
fn read_list(alloc: Global, input: &mut Cursor<'_>, room: usize) -> Result<Tag, ReadError>
    ensures gives { Gives (λ tag. (tree_of tag, input.new)) result
        (list_at (value_at room) input.old) }
    ensures shorter { OnOk result (length input.new ≤ length input.old) }
{
    let kind = read_kind(input)?;
    let count = read_count(input, kind)?;
    let tags = read_items(alloc, input, kind, room, count)?;
    Ok(Tag::List(kind, tags))
}

#[cycle(reading)]
#[tactic(auto, using(mc_bytes::proofs::Loops::times_next, mc_bytes::proofs::Loops::times_stop, mc_bytes::proofs::Loops::times_done, mc_bytes::proofs::Loops::times_first))]
fn read_items(
    alloc: Global,
    input: &mut Cursor<'_>,
    kind: u8,
    room: usize,
    count: u32,
) -> Result<Tags, ReadError>
    ensures gives { Gives (λ tags. (tags, input.new)) result (times_at (value_at room kind) count
        input.old) }
    ensures shorter { OnOk result (length input.new ≤ length input.old) }
{
    let mut tags = Tags::new(alloc);
    for _ in 0..count {
        tags.push(read_value(alloc, input, kind, room)?)?;
    }
    Ok(tags)
}

/// The entries of a compound and the byte of its end, where `room` more lists and compounds may be
/// open in them.
#[cycle(reading)]
#[tactic(auto, using(mc_bytes::proofs::Loops::until_next, mc_bytes::proofs::Loops::until_stop, mc_bytes::proofs::Loops::until_done, mc_bytes::proofs::Loops::until_begins), unfolding(crate::specs::NbtReading::members_at))]
pub fn read_entries(
    alloc: Global,
    input: &mut Cursor<'_>,
    room: usize,
) -> Result<Entries, ReadError>
    ensures gives { Gives (λ entries. (entries, input.new)) result (members_at (value_at room)
        input.old) }
    ensures shorter { OnOk result (length input.new ≤ length input.old) }
{
    let mut entries = Entries::new(alloc);
    while let Some(entry) = read_member(alloc, input, room)? {
        entries.push(entry)?;
    }
    Ok(entries)
}

/// The next entry, or None at the byte of the end.
#[cycle(reading)]
#[tactic(auto, unfolding(crate::specs::NbtReading::member_at))]
fn read_member(
    alloc: Global,
    input: &mut Cursor<'_>,
    room: usize,
) -> Result<Option<(Octets, Tag)>, ReadError>
    ensures gives { Gives (λ entry. (option_map member_of entry, input.new)) result
        (member_at (value_at room) input.old) }
    ensures shorter { OnOk result (length input.new < length input.old) }
{
    let kind = read_kind(input)?;
    if kind == END {
        return Ok(None);
    }
    let entry = read_named(alloc, input, kind, room)?;
    Ok(Some(entry))
}

#[cycle(reading)]
#[tactic(auto, unfolding(crate::specs::NbtReading::named_at))]
fn read_named(
    alloc: Global,
    input: &mut Cursor<'_>,
    kind: u8,
    room: usize,
) -> Result<(Octets, Tag), ReadError>
    ensures gives { Gives (λ entry. (member_of entry, input.new)) result
        (named_at (value_at room kind) input.old) }
    ensures shorter { OnOk result (length input.new ≤ length input.old) }
{
    let name = read_name(alloc, input)?;
    let tag = read_value(alloc, input, kind, room)?;
    Ok((name, tag))
}

/// The byte of a compound. `BadTag` at another one.
#[tactic(auto, unfolding(crate::specs::NbtReading::root_at, mc_bytes::specs::NumberBytes::number_read))]
fn read_root(input: &mut Cursor<'_>) -> Result<u8, Stop>
    ensures gives { Yields (λ kind. (kind, input.new)) result (root_at input.old) }
    ensures shorter { OnOk result (length input.new < length input.old) }
{
    let bad = input.stop(Kind::BadTag);
    let kind = input.u8()?;
    if kind != COMPOUND {
        return Err(bad);
    }
    Ok(kind)
}

/// The name and the entries of a named compound.
#[tactic(auto, unfolding(crate::specs::NbtReading::nbt_at))]
pub fn read_parts(alloc: Global, input: &mut Cursor<'_>) -> Result<(Octets, Entries), ReadError>
    ensures gives { Gives (λ parts. (named parts.0 parts.1, input.new)) result (nbt_at input.old) }
    ensures shorter { OnOk result (length input.new ≤ length input.old) }
{
    read_root(input)?;
    let name = read_name(alloc, input)?;
    let entries = read_entries(alloc, input, DEPTH_MAX - 1)?;
    Ok((name, entries))
}
