//! The metadata of entities, read and written.
#![tactic(auto, using(mc_bytes::proofs::Kept::kept_whole, mc_bytes::proofs::Kept::kept_same, mc_bytes::proofs::Kept::kept_by, mc_bytes::proofs::Kept::kept_past))]

ghost use Rattle.std.specs.Prelude.{◌≡◌, ◌<◌, ◌≤◌, ◌++◌, ℕ, List, Ok, IfOk, OnOk, OnErr, drop};
ghost use Rattle.std.specs.Prelude.{take, length};
ghost use Rattle.std.specs.Int.{w8};
ghost use Rattle.mc_bytes.specs.Reading.{Yields, Gives};
ghost use Rattle.mc_bytes.specs.Format.{Anything};
ghost use Rattle.mc_bytes.specs.Placed.{SpelledAt, PlacedGives, placed};
ghost use Rattle.mc_bytes.specs.Numbers.{number_spelling};
ghost use Rattle.mc_bytes.specs.Many.{AllFit, all_append, times};
ghost use Rattle.mc_bytes.specs.Until.{headed_fits, until_append};
ghost use Rattle.mc_fields.specs.Integers.{int, float};
ghost use Rattle.mc_packets.specs.declared.meta.MetaEntry.{MetaEntry};
ghost use Rattle.mc_packets.specs.Metadata.{type_of, value_of, head_of, entry_of_head, entry_read};
ghost use Rattle.mc_packets.specs.Metadata.{SpellsMeta, FitsMeta, meta_read, meta_spelling};
ghost use Rattle.mc_packets.specs.Metadata.{metadata};

use crate::{MetaEntry, MetaValue, Metas};
use mc_bytes::{Cursor, NoMemory, ReadError, ReadFault, Stop};
use mc_fields::{
    Field, STRING_MAX, take_i8, take_i16, take_i32, take_text, write_i32, write_u8, write_u32,
};
use mc_slots::take_slot;
use std::alloc::Global;

/// The byte that ends the entries.
const END: u8 = 127;

/// How many types one value of an entry's byte more is.
const INDICES: u8 = 32;

#[tactic(auto, unfolding(mc_bytes::specs::Times::times_at))]
fn take_ints(cursor: &mut Cursor<'_>) -> Result<[i32; 3], Stop>
    ensures { Yields (λ xs. (xs, cursor.new)) result ((times {Rest = Anything} 3 int).read
        cursor.old) }
{
    let x = take_i32(cursor)?;
    let y = take_i32(cursor)?;
    let z = take_i32(cursor)?;
    Ok([x, y, z])
}

#[tactic(auto, unfolding(mc_bytes::specs::Times::times_at))]
fn take_floats(cursor: &mut Cursor<'_>) -> Result<[u32; 3], Stop>
    ensures { Yields (λ xs. (xs, cursor.new)) result ((times {Rest = Anything} 3 float).read
        cursor.old) }
{
    let x = cursor.u32()?;
    let y = cursor.u32()?;
    let z = cursor.u32()?;
    Ok([x, y, z])
}

/// A value of a type from 0 to 7.
fn take_value(alloc: Global, cursor: &mut Cursor<'_>, kind: u8) -> Result<MetaValue, ReadError>
    ensures { Gives (λ value. (value, cursor.new)) result ((value_of kind).read cursor.old) }
{
    match kind {
        0 => Ok(MetaValue::Byte(take_i8(cursor)?)),
        1 => Ok(MetaValue::Short(take_i16(cursor)?)),
        2 => Ok(MetaValue::Int(take_i32(cursor)?)),
        3 => Ok(MetaValue::Float(cursor.u32()?)),
        4 => Ok(MetaValue::Text(take_text(alloc, cursor, STRING_MAX)?)),
        5 => Ok(MetaValue::Slot(take_slot(alloc, cursor)?)),
        6 => Ok(MetaValue::Ints(take_ints(cursor)?)),
        _ => Ok(MetaValue::Floats(take_floats(cursor)?)),
    }
}

/// The next entry, or None at the byte of the end.
#[tactic(auto, unfolding(mc_bytes::specs::Until::headed_read))]
fn entry_or_end(alloc: Global, cursor: &mut Cursor<'_>) -> Result<Option<MetaEntry>, ReadError>
    ensures { Gives (λ entry. (entry, cursor.new)) result (entry_read cursor.old) }
{
    let head = cursor.u8()?;
    if head == END {
        return Ok(None);
    }
    let value = take_value(alloc, cursor, head / INDICES)?;
    Ok(Some(MetaEntry {
        index: head % INDICES,
        value,
    }))
}

/// The next entry, or None at the byte of the end. It takes a byte at least.
fn take_entry(alloc: Global, cursor: &mut Cursor<'_>) -> Result<Option<MetaEntry>, ReadError>
    ensures gives { Gives (λ entry. (entry, cursor.new)) result (entry_read cursor.old) }
    ensures shorter { OnOk result (length cursor.new < length cursor.old) }
{
    let bytes = cursor.rest();
    let entry = entry_or_end(alloc, cursor)?;
    // Only the prover needs these lines: a byte at least was taken.
    let left = cursor.rest().len();
    prove!(left < bytes.len());
    Ok(entry)
}

/// Entries and the byte of their end.
#[tactic(auto, using(mc_bytes::proofs::Loops::until_next, mc_bytes::proofs::Loops::until_stop, mc_bytes::proofs::Loops::until_done, mc_bytes::proofs::Loops::until_begins))]
pub fn take_metas(alloc: Global, cursor: &mut Cursor<'_>) -> Result<Metas, ReadError>
    ensures { Gives (λ metas. (metas, cursor.new)) result (meta_read cursor.old) }
{
    let mut metas = Metas::new(alloc);
    while let Some(entry) = take_entry(alloc, cursor)? {
        metas.push(entry)?;
    }
    Ok(metas)
}

fn meta_from(alloc: Global, bytes: &[u8], at: usize) -> Result<(Metas, usize), ReadFault>
    requires { at ≤ length bytes.now }
    ensures { PlacedGives (λ read. read) result (placed bytes.now (meta_read (drop at bytes.now))) }
{
    let mut cursor = Cursor::at(bytes, at);
    match take_metas(alloc, &mut cursor) {
        Ok(metas) => Ok((metas, bytes.len().saturating_sub(cursor.rest().len()))),
        Err(ReadError::Stop(stop)) => Err(ReadFault::Field(stop.within(bytes.len()))),
        Err(ReadError::NoMemory) => Err(ReadFault::NoMemory),
    }
}

/// Reads metadata at an offset: its entries, in order, and the offset after the byte of its end.
///
/// The first fault in the order of the bytes, at the first byte of the innermost field that fails:
/// `Short` where an entry's byte or the end's is missing, or the fault of an entry's value.
pub fn read_meta(alloc: Global, bytes: &[u8], at: usize) -> Result<(Metas, usize), ReadFault>
    requires { at ≤ length bytes.now }
    // What is read is spelled there.
    ensures found { IfOk result (λ read. SpelledAt (SpellsMeta read.0) bytes.now at read.1) }
    // What is spelled there is read, unless memory runs out.
    ensures only { (entries : List MetaEntry) (end : ℕ) →
        SpelledAt (SpellsMeta entries) bytes.now at end →
        PlacedGives (λ read. read) result (Ok (entries, end)) }
    // From one place on one list is spelled at most, and it has one end.
    ensures one { (a b : List MetaEntry) (m n : ℕ) → SpelledAt (SpellsMeta a) bytes.now at m →
        SpelledAt (SpellsMeta b) bytes.now at n → (a ≡ b) × (m ≡ n) }
    // Which fault it is.
    ensures exact { PlacedGives (λ read. read) result
        (placed bytes.now (meta_read (drop at bytes.now))) }
{
    meta_from(alloc, bytes, at)
}

fn append_ints(numbers: &[i32], out: &mut Vec<u8>) -> Result<(), NoMemory>
    requires { AllFit (int {Rest = Anything}).fits numbers.now }
    ensures ok { OnOk result (out.new.items ≡ all_append (int {Rest = Anything}).append numbers.now
        out.old.items) }
    ensures kept { take (length out.old.items) out.new.items ≡ out.old.items }
{
    for number in numbers {
        write_i32(*number, out)?;
    }
    Ok(())
}

fn append_floats(patterns: &[u32], out: &mut Vec<u8>) -> Result<(), NoMemory>
    ensures ok { OnOk result (out.new.items ≡ all_append (float {Rest = Anything}).append
        patterns.now out.old.items) }
    ensures kept { take (length out.old.items) out.new.items ≡ out.old.items }
{
    for pattern in patterns {
        write_u32(*pattern, out)?;
    }
    Ok(())
}

/// The type of a value.
fn type_of(value: &MetaValue) -> u8
    ensures is { result ≡ type_of value.now }
    ensures few { result < 8 }
{
    match value {
        MetaValue::Byte(_) => 0,
        MetaValue::Short(_) => 1,
        MetaValue::Int(_) => 2,
        MetaValue::Float(_) => 3,
        MetaValue::Text(_) => 4,
        MetaValue::Slot(_) => 5,
        MetaValue::Ints(_) => 6,
        MetaValue::Floats(_) => 7,
    }
}

fn append_value(value: &MetaValue, out: &mut Vec<u8>) -> Result<(), NoMemory>
    requires { (value_of (type_of value.now)).fits value.now }
    ensures ok { OnOk result (out.new.items ≡ (value_of (type_of value.now)).append value.now
        out.old.items) }
    ensures kept { take (length out.old.items) out.new.items ≡ out.old.items }
{
    match value {
        MetaValue::Byte(number) => number.put(out),
        MetaValue::Short(number) => number.put(out),
        MetaValue::Int(number) => number.put(out),
        MetaValue::Float(pattern) => pattern.put(out),
        MetaValue::Text(text) => text.put(out),
        MetaValue::Slot(slot) => slot.put(out),
        MetaValue::Ints(numbers) => append_ints(numbers, out),
        MetaValue::Floats(patterns) => append_floats(patterns, out),
    }
}

fn append_entry(entry: &MetaEntry, out: &mut Vec<u8>) -> Result<(), NoMemory>
    requires { headed_fits 127 head_of (λ head. (entry_of_head head).fits) entry.now }
    ensures ok { OnOk result (out.new.items ≡ (entry_of_head (head_of entry.now)).append entry.now
        (out.old.items ++ number_spelling w8 (head_of entry.now))) }
    ensures begun { OnErr result (take (length out.old.items) out.new.items ≡ out.old.items) }
{
    write_u8(type_of(&entry.value) * INDICES + entry.index, out)?;
    append_value(&entry.value, out)?;
    Ok(())
}

fn append_entries(entries: &[MetaEntry], out: &mut Vec<u8>) -> Result<(), NoMemory>
    requires { FitsMeta entries.now }
    ensures ok { OnOk result (out.new.items ≡ (metadata {Rest = Anything}).append entries.now
        out.old.items) }
    ensures kept { take (length out.old.items) out.new.items ≡ out.old.items }
{
    for entry in entries {
        append_entry(entry, out)?;
    }
    write_u8(END, out)?;
    Ok(())
}

/// Entries and the byte of their end; without memory some first part of them.
pub fn put_metas(metas: &Metas, out: &mut Vec<u8>) -> Result<(), NoMemory>
    requires { FitsMeta metas.now }
    ensures ok { OnOk result (out.new.items ≡ (metadata {Rest = Anything}).append metas.now
        out.old.items) }
    ensures kept { take (length out.old.items) out.new.items ≡ out.old.items }
{
    append_entries(metas.as_slice(), out)
}

impl Field for Metas {
    ghost format = { metadata };

    fn get(alloc: Global, cursor: &mut Cursor<'_>) -> Result<Metas, ReadError> {
        take_metas(alloc, cursor)
    }

    fn put(&self, out: &mut Vec<u8>) -> Result<(), NoMemory> {
        put_metas(self, out)
    }
}

/// Appends metadata, with its VarInts the shortest. Without memory `out` is as before.
pub fn write_meta(value: &Metas, out: &mut Vec<u8>) -> Result<(), NoMemory>
    // It has a spelling.
    requires { (bytes : List ℕ) × SpellsMeta value.now bytes }
    ensures ok { OnOk result (out.new.items ≡ out.old.items ++ meta_spelling value.now) }
    ensures spelled { SpellsMeta value.now (meta_spelling value.now) }
    // What is written is read again, whatever follows.
    ensures again { (rest : List ℕ) → meta_read (meta_spelling value.now ++ rest) ≡
        Ok (value.now, rest) }
    ensures err { OnErr result (out.new.items ≡ out.old.items) }
{
    let start = out.len();
    let written = put_metas(value, out);
    if written.is_err() {
        out.truncate(start);
    }
    written
}
