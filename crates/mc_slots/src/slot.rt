ghost use Rattle.std.specs.Prelude.{◌≡◌, ◌≤◌, ◌++◌, ℕ, List, Ok, IfOk, OnOk, OnErr, take, drop};
ghost use Rattle.std.specs.Prelude.{length};
ghost use Rattle.mc_bytes.specs.Reading.{Gives};
ghost use Rattle.mc_bytes.specs.Placed.{SpelledAt, PlacedGives, placed};
ghost use Rattle.mc_bytes.specs.Format.{Anything};
ghost use Rattle.mc_slots.specs.Slot.{FitsTag, tag_read, tag_spelling, pick, HasId, IsTyped};
ghost use Rattle.mc_slots.specs.Slot.{slot_read, slot_spelling, SpellsSlot};
ghost use Rattle.mc_slots.specs.SlotParts.{parts};

use mc_bytes::{Cursor, NoMemory, ReadError, ReadFault, write_u8, write_u16};
use mc_nbt::{Nbt, write_nbt};
use std::alloc::Global;

/// The byte that stands where a stack has no tag.
const NO_TAG: u8 = 0;

/// The id that an empty slot is written with.
const NO_ID: i16 = -1;

/// So many of an item, as the wire says it: any id from 0, any count and damage, and what else
/// there is to it.
#[derive(Drop)]
pub struct Stack {
    /// What it is, 0 or more.
    pub id: i16,
    /// How many.
    pub count: i8,
    /// How worn, or of which kind.
    pub damage: i16,
    /// What else there is to it.
    pub tag: Option<Nbt>,
}

/// What a slot of a window holds, as the wire says it.
#[derive(Drop)]
pub enum Slot {
    /// Nothing.
    Empty,
    /// A stack.
    Full(Stack),
}

impl Slot {
    /// An equal slot.
    pub fn copy(&self) -> Result<Slot, NoMemory>
        ensures { IfOk result (λ slot. slot ≡ self.now) }
    {
        match self {
            Slot::Empty => Ok(Slot::Empty),
            Slot::Full(stack) => Ok(Slot::Full(stack.copy()?)),
        }
    }
}

impl Stack {
    /// An equal stack.
    pub fn copy(&self) -> Result<Stack, NoMemory>
        ensures { IfOk result (λ stack. stack ≡ self.now) }
    {
        Ok(Stack {
            id: self.id,
            count: self.count,
            damage: self.damage,
            tag: copy_tag(&self.tag)?,
        })
    }
}

/// An equal tag, where there is one.
fn copy_tag(tag: &Option<Nbt>) -> Result<Option<Nbt>, NoMemory>
    ensures { IfOk result (λ copy. copy ≡ tag.now) }
{
    match tag {
        None => Ok(None),
        Some(tag) => Ok(Some(tag.copy()?)),
    }
}

/// Takes the tag of a stack: none where the next byte is 00, and else the named compound that
/// begins there.
fn take_tag(alloc: Global, cursor: &mut Cursor<'_>) -> Result<Option<Nbt>, ReadError>
    ensures { Gives (λ tag. (tag, cursor.new)) result (tag_read cursor.old) }
{
    let mut after = Cursor::new(cursor.rest());
    if after.u8()? == NO_TAG {
        *cursor = after;
        return Ok(None);
    }
    Ok(Some(Nbt::read(alloc, cursor)?))
}

/// Takes a slot.
///
/// A negative id is the empty slot, and nothing else is taken. After another come its count, its
/// damage and its tag: the byte 00, or a named compound. `Short` at a number that is not all there,
/// `BadTag` at a byte that is neither 00 nor the first of a compound; the compound's faults are its
/// own.
#[tactic(auto, unfolding(crate::specs::Slot::slot_read))]
pub fn take_slot(alloc: Global, cursor: &mut Cursor<'_>) -> Result<Slot, ReadError>
    ensures gives { Gives (λ slot. (slot, cursor.new)) result (slot_read cursor.old) }
    // What is read can be written.
    ensures id { IfOk result (λ slot. HasId slot) }
{
    let id = cursor.u16()?.cast_signed();
    if id < 0 {
        return Ok(Slot::Empty);
    }
    let count = cursor.u8()?.cast_signed();
    let damage = cursor.u16()?.cast_signed();
    let tag = take_tag(alloc, cursor)?;
    Ok(Slot::Full(Stack {
        id,
        count,
        damage,
        tag,
    }))
}

/// What reading a slot from an offset gives.
fn slot_at(alloc: Global, bytes: &[u8], at: usize) -> Result<(Slot, usize), ReadFault>
    requires { at ≤ length bytes.now }
    ensures gives { PlacedGives (λ read. read) result
        (placed bytes.now (slot_read (drop at bytes.now))) }
    ensures id { IfOk result (λ read. HasId read.0) }
{
    let mut cursor = Cursor::at(bytes, at);
    match take_slot(alloc, &mut cursor) {
        Ok(slot) => Ok((slot, bytes.len().saturating_sub(cursor.rest().len()))),
        Err(ReadError::Stop(stop)) => Err(ReadFault::Field(stop.within(bytes.len()))),
        Err(ReadError::NoMemory) => Err(ReadFault::NoMemory),
    }
}

/// The slot that begins at an offset, and the offset after it, with the faults of `take_slot`.
pub fn read_slot(alloc: Global, bytes: &[u8], at: usize) -> Result<(Slot, usize), ReadFault>
    requires { at ≤ length bytes.now }
    // What is read is spelled there.
    ensures found { IfOk result (λ read. SpelledAt (SpellsSlot read.0) bytes.now at read.1) }
    // What is spelled there is read, unless memory runs out.
    ensures only { (slot : Slot) (end : ℕ) → SpelledAt (SpellsSlot slot) bytes.now at end →
        PlacedGives (λ read. read) result (Ok (slot, end)) }
    // From one place on one slot is spelled at most, and it has one end.
    ensures one { (a b : Slot) (m n : ℕ) → SpelledAt (SpellsSlot a) bytes.now at m →
        SpelledAt (SpellsSlot b) bytes.now at n → (a ≡ b) × (m ≡ n) }
    // Which fault it is, and where.
    ensures exact { PlacedGives (λ read. read) result
        (placed bytes.now (slot_read (drop at bytes.now))) }
    // What is read can be written.
    ensures id { IfOk result (λ read. HasId read.0) }
{
    slot_at(alloc, bytes, at)
}

/// Appends a tag.
fn write_tag(tag: &Option<Nbt>, out: &mut Vec<u8>) -> Result<(), NoMemory>
    ensures ok { OnOk result (out.new.items ≡ out.old.items ++ tag_spelling tag.now) }
    ensures fits { OnOk result (FitsTag tag.now) }
    ensures err { OnErr result (out.new.items ≡ out.old.items) }
{
    match tag {
        None => write_u8(NO_TAG, out)?,
        Some(tag) => write_nbt(tag, out)?,
    }
    Ok(())
}

/// Appends a slot's id and what follows it. Without memory some of that may be there.
#[tactic(auto, using(mc_bytes::proofs::Kept::kept_before))]
fn write_parts(slot: &Slot, out: &mut Vec<u8>) -> Result<(), NoMemory>
    ensures ok { OnOk result (out.new.items ≡ (parts {Rest = Anything}).append (pick slot.now)
        out.old.items) }
    ensures typed { OnOk result (IsTyped slot.now) }
    ensures err { OnErr result (take (length out.old.items) out.new.items ≡ out.old.items) }
{
    match slot {
        Slot::Empty => write_u16(NO_ID.cast_unsigned(), out)?,
        Slot::Full(stack) => {
            write_u16(stack.id.cast_unsigned(), out)?;
            write_u8(stack.count.cast_unsigned(), out)?;
            write_u16(stack.damage.cast_unsigned(), out)?;
            write_tag(&stack.tag, out)?;
        }
    }
    Ok(())
}

/// Appends the spelling of a slot; the empty one is FF FF. Without memory `out` is as before.
pub fn write_slot(slot: &Slot, out: &mut Vec<u8>) -> Result<(), NoMemory>
    requires { HasId slot.now }
    ensures ok { OnOk result (out.new.items ≡ out.old.items ++ slot_spelling slot.now) }
    ensures spelled { OnOk result (SpellsSlot slot.now (slot_spelling slot.now)) }
    // What is written is read again, whatever follows.
    ensures again { OnOk result ((rest : List ℕ) → slot_read (slot_spelling slot.now ++ rest) ≡
        Ok (slot.now, rest)) }
    ensures err { OnErr result (out.new.items ≡ out.old.items) }
{
    let start = out.len();
    if write_parts(slot, out).is_err() {
        out.truncate(start);
        return Err(NoMemory);
    }
    Ok(())
}
