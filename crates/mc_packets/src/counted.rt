//! The lists of packets that are neither of fields nor behind a VarInt. No memory is taken for what
//! was not read.
#![tactic(auto, using(mc_bytes::proofs::Loops::times_next, mc_bytes::proofs::Loops::times_stop, mc_bytes::proofs::Loops::times_halt, mc_bytes::proofs::Loops::times_done, mc_bytes::proofs::Loops::times_first, mc_bytes::proofs::Kept::kept_whole, mc_bytes::proofs::Kept::kept_same, mc_bytes::proofs::Kept::kept_by, mc_bytes::proofs::Kept::kept_past))]

ghost use Rattle.std.specs.Prelude.{◌≡◌, take, length, OnOk};
ghost use Rattle.mc_bytes.specs.Reading.{Gives};
ghost use Rattle.mc_bytes.specs.Format.{Anything};
ghost use Rattle.mc_bytes.specs.Times.{times_at};
ghost use Rattle.mc_bytes.specs.Many.{AllFit, all_append};
ghost use Rattle.mc_fields.specs.VarintFormat.{var_int};
ghost use Rattle.mc_fields.specs.Counted.{counted, listed, short_count};
ghost use Rattle.mc_slots.specs.SlotFormat.{slot};

use crate::{Slots, Varints};
use mc_bytes::{Cursor, NoMemory, ReadError};
use mc_fields::{
    Field, VarInt, put_items, take_count, take_items, take_short_count, write_i16, write_varint,
};
use std::alloc::Global;

fn varints_in(alloc: Global, cursor: &mut Cursor<'_>, count: usize) -> Result<Varints, ReadError>
    ensures { Gives (λ list. (list, cursor.new)) result
        (times_at (var_int {Rest = Anything}).read count cursor.old) }
{
    let mut list = Varints::new(alloc);
    for _ in 0..count {
        list.push(VarInt::get(alloc, cursor)?.0)?;
    }
    Ok(list)
}

fn append_varints(items: &[i32], out: &mut Vec<u8>) -> Result<(), NoMemory>
    requires { AllFit (var_int {Rest = Anything}).fits items.now }
    ensures ok { OnOk result (out.new.items ≡
        all_append (var_int {Rest = Anything}).append items.now out.old.items) }
    ensures kept { take (length out.old.items) out.new.items ≡ out.old.items }
{
    for item in items {
        write_varint(*item, out)?;
    }
    Ok(())
}

/// Numbers behind their number, each a VarInt.
impl Field for Varints {
    ghost format = { counted var_int };

    fn get(alloc: Global, cursor: &mut Cursor<'_>) -> Result<Varints, ReadError> {
        let count = take_count(cursor)?;
        let list = varints_in(alloc, cursor, count)?;
        Ok(list)
    }

    fn put(&self, out: &mut Vec<u8>) -> Result<(), NoMemory> {
        let items = self.as_slice();
        write_varint(items.len() as i32, out)?;
        append_varints(items, out)?;
        Ok(())
    }
}

/// Slots behind their number in two bytes.
impl Field for Slots {
    ghost format = { listed short_count slot };

    fn get(alloc: Global, cursor: &mut Cursor<'_>) -> Result<Slots, ReadError> {
        let count = take_short_count(cursor)?;
        let items = take_items(alloc, cursor, count)?;
        Ok(Slots::of(items))
    }

    fn put(&self, out: &mut Vec<u8>) -> Result<(), NoMemory> {
        let items = self.as_slice();
        write_i16(items.len() as i16, out)?;
        put_items(items, out)?;
        Ok(())
    }
}
