ghost use Rattle.std.specs.Prelude.{◌≡◌, ◌↔◌, IsTrue};
ghost use Rattle.mc_nbt.specs.TagView.{tree_of, member_of};
ghost use Rattle.mc_nbt.specs.Tree.{list, trees_of};

use crate::{Entries, Tag, Tags};
use mc_bytes::Octets;

#[cycle(comparing)]
fn same_tag(a: &Tag, b: &Tag) -> bool
    ensures { IsTrue result ↔ (tree_of a.now ≡ tree_of b.now) }
{
    match a {
        Tag::Byte(x) => match b {
            Tag::Byte(y) => *x == *y,
            _ => false,
        },
        Tag::Short(x) => match b {
            Tag::Short(y) => *x == *y,
            _ => false,
        },
        Tag::Int(x) => match b {
            Tag::Int(y) => *x == *y,
            _ => false,
        },
        Tag::Long(x) => match b {
            Tag::Long(y) => *x == *y,
            _ => false,
        },
        Tag::Float(x) => match b {
            Tag::Float(y) => *x == *y,
            _ => false,
        },
        Tag::Double(x) => match b {
            Tag::Double(y) => *x == *y,
            _ => false,
        },
        Tag::ByteArray(x) => match b {
            Tag::ByteArray(y) => x.as_slice() == y.as_slice(),
            _ => false,
        },
        Tag::Str(x) => match b {
            Tag::Str(y) => x.as_slice() == y.as_slice(),
            _ => false,
        },
        Tag::List(kind, x) => match b {
            Tag::List(other, y) => same_list(*kind, x, *other, y),
            _ => false,
        },
        Tag::Compound(x) => match b {
            Tag::Compound(y) => same_entries(x, y),
            _ => false,
        },
        Tag::IntArray(x) => match b {
            Tag::IntArray(y) => x.as_slice() == y.as_slice(),
            _ => false,
        },
    }
}

#[cycle(comparing)]
fn same_list(kind: u8, a: &Tags, other: u8, b: &Tags) -> bool
    ensures { IsTrue result ↔ (list kind (trees_of a.now) ≡ list other (trees_of b.now)) }
{
    if kind != other {
        return false;
    }
    same_tags(a, b)
}

#[cycle(comparing)]
fn same_tags(a: &Tags, b: &Tags) -> bool
    ensures { IsTrue result ↔ (a.now ≡ b.now) }
{
    if a.items.len() != b.items.len() {
        return false;
    }
    for i in 0..a.items.len() {
        if !same_tag(&a.items[i], &b.items[i]) {
            return false;
        }
    }
    true
}

/// Whether two compounds have equal names and values in the same order.
#[cycle(comparing)]
pub fn same_entries(a: &Entries, b: &Entries) -> bool
    ensures { IsTrue result ↔ (a.now ≡ b.now) }
{
    if a.items.len() != b.items.len() {
        return false;
    }
    for i in 0..a.items.len() {
        if !same_entry(&a.items[i], &b.items[i]) {
            return false;
        }
    }
    true
}

#[cycle(comparing)]
fn same_entry(a: &(Octets, Tag), b: &(Octets, Tag)) -> bool
    ensures { IsTrue result ↔ (member_of a.now ≡ member_of b.now) }
{
    if a.0.as_slice() != b.0.as_slice() {
        return false;
    }
    same_tag(&a.1, &b.1)
}
