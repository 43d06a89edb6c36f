ghost use Rattle.std.specs.Prelude.{◌≡◌, ◌<◌, IfOk, OnOk, OnErr, replicate, slice_index_or};
ghost use Rattle.std.specs.Prelude.{length, slice_set};
ghost use Rattle.mc_slots.specs.declared.slot.Slot.TheVariants as slots;

use mc_bytes::NoMemory;
use mc_slots::Slot;
use std::alloc::Global;
use std::marker::Model;

/// So many slots of a window. Contracts see them as that list.
#[derive(Drop)]
pub(crate) struct SlotRow {
    /// None where all of them are empty.
    slots: Option<Vec<Slot>>,
    len: usize,
    /// Lent where a slot is not kept.
    empty: Slot,
}

impl Model for SlotRow {
    ghost use Rattle.std.specs.Prelude.{List};
    ghost use Rattle.std.specs.Coded.{codes};
    ghost use Rattle.mc_nbt.specs.TreeCode.{coded_tree};
    ghost use Rattle.mc_slots.specs.declared.slot.Slot.{Slot};
    ghost use Rattle.mc_replica.specs.KeptSlots.{IsRow, rows_in, slots_in};

    ghost Value = { List Slot };

    ghost coded = { Prim.hlevel (codes, coded_tree) };

    ghost view = { λ row. slots_in row.len (rows_in row.slots) };

    ghost invariant = { λ row. IsRow row.len (rows_in row.slots) row.empty };
}

impl SlotRow {
    /// So many empty slots. It takes no memory.
    pub(crate) fn empty(len: usize) -> SlotRow
        ensures { result ≡ replicate len slots.Empty }
    {
        SlotRow {
            slots: None,
            len,
            empty: Slot::Empty,
        }
    }

    /// A copy of some slots.
    pub(crate) fn from_slice(alloc: Global, slots: &[Slot]) -> Result<SlotRow, NoMemory>
        ensures { IfOk result (λ row. row ≡ slots.now) }
    {
        Ok(SlotRow {
            slots: Some(copies_of(alloc, slots)?),
            len: slots.len(),
            empty: Slot::Empty,
        })
    }

    /// How many slots there are.
    pub(crate) fn len(&self) -> usize
        ensures { result ≡ length self.now }
    {
        self.len
    }

    /// The slot at a place; behind the last an empty one.
    pub(crate) fn get(&self, at: usize) -> &Slot
        ensures { result.now ≡ slice_index_or self.now at slots.Empty }
    {
        match &self.slots {
            Some(slots) => slot_at(slots, at, &self.empty),
            None => &self.empty,
        }
    }

    /// Puts a slot at a place, if there is that place. Without memory the row is as before.
    pub(crate) fn set(&mut self, alloc: Global, at: usize, slot: Slot) -> Result<(), NoMemory>
        ensures ok { OnOk result (self.new ≡ slice_set self.old at slot) }
        ensures err { OnErr result (self.new ≡ self.old) }
    {
        if at >= self.len {
            return Ok(());
        }
        match &mut self.slots {
            Some(slots) => slots[at] = slot,
            None => self.slots = Some(one_full(alloc, self.len, at, slot)?),
        }
        Ok(())
    }
}

/// The slot at a place; behind the last another one.
fn slot_at<'a>(slots: &'a [Slot], at: usize, other: &'a Slot) -> &'a Slot
    ensures { result.now ≡ slice_index_or slots.now at other.now }
{
    match slots.get(at) {
        Some(slot) => slot,
        None => other,
    }
}

/// So many empty slots.
fn empties(alloc: Global, len: usize) -> Result<Vec<Slot>, NoMemory>
    ensures { IfOk result (λ row. row.items ≡ replicate len slots.Empty) }
{
    let mut slots = Vec::with_capacity(alloc, len)?;
    for _ in 0..len {
        slots.push(Slot::Empty)?;
    }
    Ok(slots)
}

/// So many slots, all empty but one.
fn one_full(alloc: Global, len: usize, at: usize, slot: Slot) -> Result<Vec<Slot>, NoMemory>
    requires { at < len }
    ensures { IfOk result (λ row. row.items ≡ slice_set (replicate len slots.Empty) at slot) }
{
    let mut slots = empties(alloc, len)?;
    slots[at] = slot;
    Ok(slots)
}

/// Equal slots.
fn copies_of(alloc: Global, slots: &[Slot]) -> Result<Vec<Slot>, NoMemory>
    ensures { IfOk result (λ copies. copies.items ≡ slots.now) }
{
    let mut copies = Vec::with_capacity(alloc, slots.len())?;
    for slot in slots {
        copies.push(slot.copy()?)?;
    }
    Ok(copies)
}
