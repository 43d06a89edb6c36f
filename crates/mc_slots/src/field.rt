//! A slot as a field of packets.
#![tactic(auto, using(mc_bytes::proofs::Kept::kept_whole, mc_bytes::proofs::Kept::kept_same, mc_bytes::proofs::Kept::kept_by))]

ghost use Rattle.mc_slots.specs.SlotFormat.{slot};

use crate::{Slot, take_slot, write_slot};
use mc_bytes::{Cursor, NoMemory, ReadError};
use mc_fields::Field;
use std::alloc::Global;

impl Field for Slot {
    ghost format = { slot };

    fn get(alloc: Global, cursor: &mut Cursor<'_>) -> Result<Slot, ReadError> {
        let slot = take_slot(alloc, cursor)?;
        Ok(slot)
    }

    fn put(&self, out: &mut Vec<u8>) -> Result<(), NoMemory> {
        write_slot(self, out)?;
        Ok(())
    }
}
