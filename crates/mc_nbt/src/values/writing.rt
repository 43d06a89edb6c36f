ghost use Rattle.std.specs.Prelude.{◌≡◌, ◌++◌, ◌<◌, ◌^◌, take, length, OnOk, OnErr};
ghost use Rattle.std.specs.Int.{w8, w16, w32, w64};
ghost use Rattle.mc_bytes.specs.NumberBytes.{number_spelling};
ghost use Rattle.mc_nbt.specs.Tree.{Tree, list, compound, kind_of, trees_of, members_of};
ghost use Rattle.mc_nbt.specs.TagView.{tree_of};
ghost use Rattle.mc_nbt.specs.Nbt.{signed_spelling, run_spelling, ints_spelling, payload, Fits};
ghost use Rattle.mc_nbt.specs.Nbt.{named, nbt_spelling};

use crate::values::limits::{COMPOUND, END};
use crate::{Entries, Tag, Tags};
use mc_bytes::{NoMemory, Octets, write_u8, write_u16, write_u32, write_u64};

fn write_i32(number: i32, out: &mut Vec<u8>) -> Result<(), NoMemory>
    ensures ok { OnOk result (out.new.items ≡ out.old.items ++ signed_spelling w32 number) }
    ensures err { OnErr result (take (length out.old.items) out.new.items ≡ out.old.items) }
{
    write_u32(number.cast_unsigned(), out)?;
    Ok(())
}

/// A name or a text: its length in two bytes, and its bytes.
#[tactic(auto, using(mc_bytes::proofs::Kept::kept_before))]
pub fn write_name(name: &Octets, out: &mut Vec<u8>) -> Result<(), NoMemory>
    requires { length name.now < 2 ^ 16 }
    ensures ok { OnOk result (out.new.items ≡ out.old.items ++ run_spelling w16 name.now) }
    ensures err { OnErr result (take (length out.old.items) out.new.items ≡ out.old.items) }
{
    let bytes = name.as_slice();
    write_u16(bytes.len() as u16, out)?;
    out.extend_from_slice(bytes)?;
    Ok(())
}

/// Bytes: their number in four bytes, and they.
#[tactic(auto, using(mc_bytes::proofs::Kept::kept_before))]
fn write_bytes(octets: &Octets, out: &mut Vec<u8>) -> Result<(), NoMemory>
    requires { length octets.now < 2 ^ 31 }
    ensures ok { OnOk result (out.new.items ≡ out.old.items ++ run_spelling w32 octets.now) }
    ensures err { OnErr result (take (length out.old.items) out.new.items ≡ out.old.items) }
{
    let bytes = octets.as_slice();
    write_u32(bytes.len() as u32, out)?;
    out.extend_from_slice(bytes)?;
    Ok(())
}

#[tactic(auto, using(mc_bytes::proofs::Kept::kept_before))]
fn write_int_array(numbers: &[i32], out: &mut Vec<u8>) -> Result<(), NoMemory>
    requires { length numbers.now < 2 ^ 31 }
    ensures ok { OnOk result (out.new.items ≡ out.old.items ++
        (number_spelling w32 (length numbers.now) ++ ints_spelling numbers.now)) }
    ensures err { OnErr result (take (length out.old.items) out.new.items ≡ out.old.items) }
{
    write_u32(numbers.len() as u32, out)?;
    for number in numbers {
        write_i32(*number, out)?;
    }
    Ok(())
}

/// The tag byte of a value.
pub fn kind(tag: &Tag) -> u8
    ensures { result ≡ kind_of (tree_of tag.now) }
{
    match tag {
        Tag::Byte(_) => 1,
        Tag::Short(_) => 2,
        Tag::Int(_) => 3,
        Tag::Long(_) => 4,
        Tag::Float(_) => 5,
        Tag::Double(_) => 6,
        Tag::ByteArray(_) => 7,
        Tag::Str(_) => 8,
        Tag::List(_, _) => 9,
        Tag::Compound(_) => 10,
        Tag::IntArray(_) => 11,
    }
}

#[cycle(writing)]
#[tactic(auto, using(mc_bytes::proofs::Kept::kept_whole, mc_bytes::proofs::Kept::kept_same))]
fn write_value(tag: &Tag, out: &mut Vec<u8>) -> Result<(), NoMemory>
    requires { Fits (tree_of tag.now) }
    ensures ok { OnOk result (out.new.items ≡ out.old.items ++ payload (tree_of tag.now)) }
    ensures err { OnErr result (take (length out.old.items) out.new.items ≡ out.old.items) }
{
    match tag {
        Tag::Byte(number) => write_u8(number.cast_unsigned(), out),
        Tag::Short(number) => write_u16(number.cast_unsigned(), out),
        Tag::Int(number) => write_i32(*number, out),
        Tag::Long(number) => write_u64(number.cast_unsigned(), out),
        Tag::Float(pattern) => write_u32(*pattern, out),
        Tag::Double(pattern) => write_u64(*pattern, out),
        Tag::ByteArray(octets) => write_bytes(octets, out),
        Tag::Str(text) => write_name(text, out),
        Tag::List(kind, tags) => write_list(*kind, tags, out),
        Tag::Compound(entries) => write_entries(entries, out),
        Tag::IntArray(numbers) => write_int_array(numbers.as_slice(), out),
    }
}

#[cycle(writing)]
#[tactic(auto, using(mc_bytes::proofs::Kept::kept_before))]
fn write_list(kind: u8, tags: &Tags, out: &mut Vec<u8>) -> Result<(), NoMemory>
    requires { Fits (list kind (trees_of tags.now)) }
    ensures ok { OnOk result (out.new.items ≡ out.old.items ++
        payload (list kind (trees_of tags.now))) }
    ensures err { OnErr result (take (length out.old.items) out.new.items ≡ out.old.items) }
{
    write_u8(kind, out)?;
    let count = tags.items.as_slice().len();
    write_u32(count as u32, out)?;
    for tag in &tags.items {
        write_value(tag, out)?;
    }
    Ok(())
}

/// The entries of a compound, and the byte of its end.
#[cycle(writing)]
#[tactic(auto, using(mc_bytes::proofs::Kept::kept_before))]
pub fn write_entries(entries: &Entries, out: &mut Vec<u8>) -> Result<(), NoMemory>
    requires { Fits (compound (members_of entries.now)) }
    ensures ok { OnOk result (out.new.items ≡ out.old.items ++
        payload (compound (members_of entries.now))) }
    ensures err { OnErr result (take (length out.old.items) out.new.items ≡ out.old.items) }
{
    for (name, tag) in &entries.items {
        write_entry(name, tag, out)?;
    }
    write_u8(END, out)?;
    Ok(())
}

#[cycle(writing)]
#[tactic(auto, using(mc_bytes::proofs::Kept::kept_before))]
fn write_entry(name: &Octets, tag: &Tag, out: &mut Vec<u8>) -> Result<(), NoMemory>
    requires name { length name.now < 2 ^ 16 }
    requires value { Fits (tree_of tag.now) }
    ensures ok { OnOk result (out.new.items ≡ out.old.items ++
        (number_spelling w8 (kind_of (tree_of tag.now)) ++ (run_spelling w16 name.now ++
        payload (tree_of tag.now)))) }
    ensures err { OnErr result (take (length out.old.items) out.new.items ≡ out.old.items) }
{
    write_u8(kind(tag), out)?;
    write_name(name, out)?;
    write_value(tag, out)?;
    Ok(())
}

/// The byte of a compound, its name and its entries.
#[tactic(auto, using(mc_bytes::proofs::Kept::kept_before))]
pub fn write_parts(name: &Octets, entries: &Entries, out: &mut Vec<u8>) -> Result<(), NoMemory>
    requires name { length name.now < 2 ^ 16 }
    requires entries { Fits (compound (members_of entries.now)) }
    ensures ok { OnOk result (out.new.items ≡ out.old.items ++
        nbt_spelling (named name.now entries.now)) }
    ensures err { OnErr result (take (length out.old.items) out.new.items ≡ out.old.items) }
{
    write_u8(COMPOUND, out)?;
    write_name(name, out)?;
    write_entries(entries, out)?;
    Ok(())
}
