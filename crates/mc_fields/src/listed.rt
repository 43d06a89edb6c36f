//! Lists of fields. No memory is taken for what was not read.
#![tactic(auto, using(mc_bytes::proofs::Kept::kept_whole, mc_bytes::proofs::Kept::kept_same, mc_bytes::proofs::Kept::kept_by, mc_bytes::proofs::Kept::kept_past))]

ghost use Rattle.std.specs.Prelude.{◌≡◌, ◌++◌, ◌∷◌, [], length, take, OnOk, OnErr};
ghost use Rattle.mc_bytes.specs.Reading.{Yields, Gives};
ghost use Rattle.mc_bytes.specs.Times.{times_at};
ghost use Rattle.mc_bytes.specs.Many.{AllFit, all_append};
ghost use Rattle.mc_fields.specs.Counted.{count, counted, short_count};

use crate::{Field, VarInt, take_i16, take_varint};
use mc_bytes::{Cursor, Kind, NoMemory, ReadError, Stop};
use std::alloc::Global;
use std::marker::Model;

/// Fields of one kind behind the VarInt of their number. Contracts see it as their list.
#[derive(Drop)]
pub struct Listed<T> {
    items: Vec<T>,
}

impl<T> Model for Listed<T> {
    ghost use Rattle.std.specs.Prelude.{List};

    ghost Value = { List T };

    ghost view = { λ list. list.items.items };
}

impl<T: Drop> Listed<T> {
    /// The empty list, which takes no memory.
    pub fn new(alloc: Global) -> Listed<T>
        ensures { result ≡ [] }
    {
        Listed {
            items: Vec::new(alloc),
        }
    }

    /// One more item at the end. On `NoMemory` the list is as before.
    pub fn push(&mut self, item: T) -> Result<(), NoMemory>
        ensures ok { OnOk result (self.new ≡ self.old ++ item ∷ []) }
        ensures err { OnErr result (self.new ≡ self.old) }
    {
        self.items.push(item)?;
        Ok(())
    }

    /// The items.
    pub fn as_slice(&self) -> &[T]
        ensures { result.now ≡ self.now }
    {
        self.items.as_slice()
    }
}

/// How many follow, as a VarInt. `BadLength` where the number is negative.
pub fn take_count(cursor: &mut Cursor<'_>) -> Result<usize, Stop>
    ensures { Yields (λ n. (n, cursor.new)) result (count.read cursor.old) }
{
    let start = Cursor::new(cursor.rest());
    let number = take_varint(cursor)?;
    if number < 0 {
        return Err(start.stop(Kind::BadLength));
    }
    Ok(number as usize)
}

/// How many follow, in two bytes. `BadLength` where the number is negative.
pub fn take_short_count(cursor: &mut Cursor<'_>) -> Result<usize, Stop>
    ensures { Yields (λ n. (n, cursor.new)) result (short_count.read cursor.old) }
{
    let start = Cursor::new(cursor.rest());
    let number = take_i16(cursor)?;
    if number < 0 {
        return Err(start.stop(Kind::BadLength));
    }
    Ok(number as usize)
}

/// So many items, one after another.
#[tactic(auto, using(mc_bytes::proofs::Loops::times_next, mc_bytes::proofs::Loops::times_stop, mc_bytes::proofs::Loops::times_halt, mc_bytes::proofs::Loops::times_done, mc_bytes::proofs::Loops::times_first))]
pub fn take_items<T: Field>(
    alloc: Global,
    cursor: &mut Cursor<'_>,
    count: usize,
) -> Result<Listed<T>, ReadError>
    ensures { Gives (λ list. (list, cursor.new)) result (times_at T.format.read count cursor.old) }
{
    let mut list = Listed::new(alloc);
    for _ in 0..count {
        list.push(T::get(alloc, cursor)?)?;
    }
    Ok(list)
}

/// Appends items, one after another. Without memory some first part of them may be there.
pub fn put_items<T: Field>(items: &[T], out: &mut Vec<u8>) -> Result<(), NoMemory>
    requires { AllFit T.format.fits items.now }
    ensures ok { OnOk result (out.new.items ≡
        all_append T.format.append items.now out.old.items) }
    ensures kept { take (length out.old.items) out.new.items ≡ out.old.items }
{
    for item in items {
        item.put(out)?;
    }
    Ok(())
}

impl<T: Field> Field for Listed<T> {
    ghost format = { counted T.format };

    fn get(alloc: Global, cursor: &mut Cursor<'_>) -> Result<Listed<T>, ReadError> {
        let count = take_count(cursor)?;
        take_items(alloc, cursor, count)
    }

    fn put(&self, out: &mut Vec<u8>) -> Result<(), NoMemory> {
        let items = self.as_slice();
        VarInt(items.len() as i32).put(out)?;
        put_items(items, out)
    }
}
