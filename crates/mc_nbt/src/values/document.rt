ghost use Rattle.std.specs.Prelude.{◌≡◌, ◌++◌, ◌≤◌, ◌↔◌, ℕ, List, drop, length, IsTrue, IsSome};
ghost use Rattle.std.specs.Prelude.{IfOk, IfSome, OnOk, OnErr};
ghost use Rattle.mc_bytes.specs.Reading.{Gives};
ghost use Rattle.mc_bytes.specs.Placed.{SpelledAt, PlacedGives, placed};
ghost use Rattle.mc_nbt.specs.Nbt.{Named, named, IsNbt, nbt_spelling, SpellsNbt};
ghost use Rattle.mc_nbt.specs.NbtReading.{nbt_at};

use crate::Entries;
use crate::values::comparing::same_entries;
use crate::values::fitting::{entries_fit, name_fits};
use crate::values::limits::DEPTH_MAX;
use crate::values::reading::read_parts;
use crate::values::writing::write_parts;
use mc_bytes::{Cursor, NoMemory, Octets, ReadError, ReadFault};
use std::alloc::Global;
use std::marker::Model;

/// A compound with a name, which has a spelling.
#[derive(Drop)]
pub struct Nbt {
    name: Octets,
    entries: Entries,
}

impl Model for Nbt {
    ghost use Rattle.mc_nbt.specs.Nbt.{Named, named, IsNbt};
    ghost use Rattle.mc_nbt.specs.NbtFormat.{coded_named};

    ghost Value = { Named };

    ghost coded = { coded_named };

    ghost view = { λ nbt. named nbt.name nbt.entries };

    ghost invariant = { λ nbt. IsNbt (named nbt.name nbt.entries) };
}

impl Nbt {
    /// A named compound. None where a name or a text is longer than 65,535 bytes, a list or an
    /// array longer than 2,147,483,647, a list's own kind above 11, an item of another kind than
    /// its list's own, or where more than 512 lists and compounds stand in one another, the
    /// outermost one counted.
    pub fn new(name: Octets, entries: Entries) -> Option<Nbt>
        ensures some { IsSome result ↔ IsNbt (named name entries) }
        ensures value { IfSome result (λ nbt. nbt ≡ named name entries) }
    {
        if !name_fits(&name) {
            return None;
        }
        if !entries_fit(&entries, DEPTH_MAX - 1) {
            return None;
        }
        Some(Nbt { name, entries })
    }

    /// An equal named compound.
    pub fn copy(&self) -> Result<Nbt, NoMemory>
        ensures { IfOk result (λ nbt. nbt ≡ self.now) }
    {
        Ok(Nbt {
            name: self.name.copy()?,
            entries: self.entries.copy()?,
        })
    }

    /// The named compound at the front of the bytes that are left.
    pub fn read(alloc: Global, input: &mut Cursor<'_>) -> Result<Nbt, ReadError>
        ensures gives { Gives (λ nbt. (nbt, input.new)) result (nbt_at input.old) }
        ensures shorter { OnOk result (length input.new ≤ length input.old) }
    {
        let bytes = input.rest();
        let (name, entries) = read_parts(alloc, input)?;
        let read = Ok(Nbt { name, entries });
        // Only the prover needs these lines: while the bytes are in use, it knows them to be bytes.
        let left = input.rest().len();
        prove!(left <= bytes.len());
        read
    }
}

/// Whether two named compounds have equal names, and equal entries in the same order.
pub fn same(a: &Nbt, b: &Nbt) -> bool
    ensures { IsTrue result ↔ (a.now ≡ b.now) }
{
    if a.name.as_slice() != b.name.as_slice() {
        return false;
    }
    same_entries(&a.entries, &b.entries)
}

/// What reading the named compound at an offset gives.
fn nbt_from(alloc: Global, bytes: &[u8], at: usize) -> Result<(Nbt, usize), ReadFault>
    requires { at ≤ length bytes.now }
    ensures { PlacedGives (λ read. read) result (placed bytes.now (nbt_at (drop at bytes.now))) }
{
    let mut input = Cursor::at(bytes, at);
    match Nbt::read(alloc, &mut input) {
        Ok(nbt) => Ok((nbt, bytes.len() - input.rest().len())),
        Err(ReadError::Stop(stop)) => Err(ReadFault::Field(stop.within(bytes.len()))),
        Err(ReadError::NoMemory) => Err(ReadFault::NoMemory),
    }
}

/// The named compound that begins at an offset, and the offset after it.
///
/// The first fault in the order of the bytes, at the first byte of the innermost field that fails:
/// `Short` where the bytes end in it, `BadTag` at a tag byte that names no kind, or at a first byte
/// other than that of a compound, `BadLength` at a length that is negative, or not 0 in a list of
/// End, and `Deep` where a list or a compound stands in 512 others, at the first byte after its
/// kind and its name. Repeated names are kept, in order; names and texts are kept as they are.
pub fn read_nbt(alloc: Global, bytes: &[u8], at: usize) -> Result<(Nbt, usize), ReadFault>
    requires { at ≤ length bytes.now }
    // What is read is spelled there.
    ensures found { IfOk result (λ read. SpelledAt (SpellsNbt read.0) bytes.now at read.1) }
    // What is spelled there is read, unless memory runs out.
    ensures only { (value : Named) (end : ℕ) → SpelledAt (SpellsNbt value) bytes.now at end →
        PlacedGives (λ read. read) result (Ok (value, end)) }
    // From one place on one compound is spelled at most, and it has one end.
    ensures one { (a b : Named) (m n : ℕ) → SpelledAt (SpellsNbt a) bytes.now at m →
        SpelledAt (SpellsNbt b) bytes.now at n → (a ≡ b) × (m ≡ n) }
    // Which fault it is, and where.
    ensures exact { PlacedGives (λ read. read) result
        (placed bytes.now (nbt_at (drop at bytes.now))) }
{
    nbt_from(alloc, bytes, at)
}

/// The one spelling of a named compound, appended. On `NoMemory` the bytes are as before.
pub fn write_nbt(value: &Nbt, out: &mut Vec<u8>) -> Result<(), NoMemory>
    ensures appended { OnOk result (out.new.items ≡ out.old.items ++ nbt_spelling value.now) }
    ensures spelled { SpellsNbt value.now (nbt_spelling value.now) }
    // What is written is read again, whatever follows.
    ensures again { (rest : List ℕ) → nbt_at (nbt_spelling value.now ++ rest) ≡
        Ok (value.now, rest) }
    ensures unchanged { OnErr result (out.new.items ≡ out.old.items) }
{
    let before = out.len();
    if write_parts(&value.name, &value.entries, out).is_err() {
        out.truncate(before);
        return Err(NoMemory);
    }
    Ok(())
}
