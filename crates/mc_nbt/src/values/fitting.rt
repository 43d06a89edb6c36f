ghost use Rattle.std.specs.Prelude.{◌≡◌, ◌↔◌, ◌≤◌, ◌<◌, ◌^◌, length, IsTrue};
ghost use Rattle.mc_nbt.specs.Tree.{kind_of, list, compound, depth, trees_of, trees_depth};
ghost use Rattle.mc_nbt.specs.Tree.{members_of, members_depth};
ghost use Rattle.mc_nbt.specs.TagView.{tree_of};
ghost use Rattle.mc_nbt.specs.Nbt.{Fits, TreesFit, MembersFit};

use crate::values::limits::{ITEMS_MAX, KIND_MAX, NAME_MAX};
use crate::values::writing::kind;
use crate::{Entries, Tag, Tags};
use mc_bytes::Octets;

#[cycle(fitting)]
fn fits(tag: &Tag, room: usize) -> bool
    ensures { IsTrue result ↔ (Fits (tree_of tag.now) × (depth (tree_of tag.now) ≤ room)) }
{
    match tag {
        Tag::Byte(number) => {
            let _number = *number; // for the prover: its range
            true
        }
        Tag::Short(number) => {
            let _number = *number; // for the prover: its range
            true
        }
        Tag::Int(number) => {
            let _number = *number; // for the prover: its range
            true
        }
        Tag::Long(number) => {
            let _number = *number; // for the prover: its range
            true
        }
        Tag::Float(pattern) => {
            let _pattern = *pattern; // for the prover: its range
            true
        }
        Tag::Double(pattern) => {
            let _pattern = *pattern; // for the prover: its range
            true
        }
        Tag::ByteArray(octets) => octets.as_slice().len() <= ITEMS_MAX as usize,
        Tag::Str(text) => text.as_slice().len() <= NAME_MAX,
        Tag::List(kind, tags) => list_fits(*kind, tags, room),
        Tag::Compound(entries) => compound_fits(entries, room),
        Tag::IntArray(numbers) => numbers.as_slice().len() <= ITEMS_MAX as usize,
    }
}

#[cycle(fitting)]
fn list_fits(kind: u8, tags: &Tags, room: usize) -> bool
    ensures { IsTrue result ↔ (Fits (list kind (trees_of tags.now)) ×
        (depth (list kind (trees_of tags.now)) ≤ room)) }
{
    if kind > KIND_MAX {
        return false;
    }
    if tags.items.as_slice().len() > ITEMS_MAX as usize {
        return false;
    }
    if room == 0 {
        return false;
    }
    items_fit(kind, tags, room - 1)
}

#[cycle(fitting)]
fn compound_fits(entries: &Entries, room: usize) -> bool
    ensures { IsTrue result ↔ (Fits (compound (members_of entries.now)) ×
        (depth (compound (members_of entries.now)) ≤ room)) }
{
    if room == 0 {
        return false;
    }
    entries_fit(entries, room - 1)
}

#[cycle(fitting)]
fn items_fit(own: u8, tags: &Tags, room: usize) -> bool
    ensures { IsTrue result ↔
        (TreesFit own (trees_of tags.now) × (trees_depth (trees_of tags.now) ≤ room)) }
{
    for tag in &tags.items {
        if !item_fits(own, tag, room) {
            return false;
        }
    }
    true
}

#[cycle(fitting)]
fn item_fits(own: u8, tag: &Tag, room: usize) -> bool
    ensures { IsTrue result ↔
        ((kind_of (tree_of tag.now) ≡ own) × (Fits (tree_of tag.now) ×
        (depth (tree_of tag.now) ≤ room))) }
{
    if kind(tag) != own {
        return false;
    }
    fits(tag, room)
}

/// Whether the entries have a spelling, where `room` lists and compounds may stand in one another
/// in them.
#[cycle(fitting)]
pub fn entries_fit(entries: &Entries, room: usize) -> bool
    ensures { IsTrue result ↔
        (MembersFit (members_of entries.now) × (members_depth (members_of entries.now) ≤ room)) }
{
    for (name, tag) in &entries.items {
        if !entry_fits(name, tag, room) {
            return false;
        }
    }
    true
}

#[cycle(fitting)]
fn entry_fits(name: &Octets, tag: &Tag, room: usize) -> bool
    ensures { IsTrue result ↔
        ((length name.now < 2 ^ 16) × (Fits (tree_of tag.now) × (depth (tree_of tag.now) ≤ room))) }
{
    if !name_fits(name) {
        return false;
    }
    fits(tag, room)
}

/// Whether a name or a text is short enough.
pub fn name_fits(name: &Octets) -> bool
    ensures { IsTrue result ↔ (length name.now < 2 ^ 16) }
{
    name.as_slice().len() <= NAME_MAX
}
