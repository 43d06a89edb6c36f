//! Slots, piles and chests: `slot BYTES` reads one and writes a copy of it, `pile CALL ..` and
//! `chest STEP ..` work on piles. A pile is `ID x COUNT : DAMAGE`, or
//! `empty`.

ghost use Rattle.std.specs.Prelude.{IsTrue, IfSome};
ghost use Rattle.mc_slots.specs.Slot.{HasId};
ghost use Rattle.mc_slots.specs.Pile.{IsItem, IsPile, Joins};

use mc_bytes::NoMemory;
use mc_nbt::{Nbt, write_nbt};
use mc_rows::{Answer, Marked, Words};
use mc_slots::{Chest, Item, Pile, Slot, alike, fits, merge, read_slot, split, write_slot};
use std::fmt::Display;

/// Reads a slot, and writes a copy of it.
pub fn read(words: &mut Words<'_>, answer: &mut Answer) {
    let input = words.marked();
    match read_slot(words.alloc, &input.bytes, input.at) {
        Ok((slot, end)) => {
            put_slot(&slot, answer);
            answer.at(end);
            again(&input, end, &slot, answer);
            drop(slot);
        }
        Err(fault) => answer.read_fault(fault),
    }
}

/// Writes a copy of a slot behind the bytes that stood before it.
fn again(input: &Marked, end: usize, slot: &Slot, answer: &mut Answer)
    requires { HasId slot.now }
{
    let mut out = input.front();
    match slot.copy() {
        Ok(copy) => {
            answer.needs(write_slot(&copy, &mut out));
            drop(copy);
        }
        Err(NoMemory) => answer.lose(),
    }
    answer.again(input, end, &out);
}

/// Puts a slot: its pile, and the bytes of its tag where it has one.
pub fn put_slot(slot: &Slot, answer: &mut Answer) {
    match slot {
        Slot::Empty => answer.word("empty"),
        Slot::Full(stack) => {
            put_many(stack.id, stack.count, stack.damage, answer);
            if let Some(tag) = &stack.tag {
                put_tag(tag, answer);
            }
        }
    }
}

/// Puts the bytes of a tag.
fn put_tag(tag: &Nbt, answer: &mut Answer) {
    let mut out = Vec::new(answer.alloc());
    answer.needs(write_nbt(tag, &mut out));
    answer.bytes(&out);
}

/// Puts so many of an item.
fn put_many<N: Display + Drop>(id: i16, count: N, damage: i16, answer: &mut Answer) {
    answer.word(id);
    answer.word('x');
    answer.word(count);
    answer.word(':');
    answer.word(damage);
}

/// Puts a pile.
pub fn put_pile(pile: Pile, answer: &mut Answer) {
    match pile {
        Pile::Empty => answer.word("empty"),
        Pile::Full(item) => put_many(item.id, item.count, item.damage, answer),
    }
}

/// The next words as a pile: `empty`, or the five words of an item.
pub fn pile_in(words: &mut Words<'_>) -> Pile {
    if words.is_next("empty") {
        return Pile::Empty;
    }
    Pile::Full(item_in(words))
}

/// The next five words as an item.
fn item_in(words: &mut Words<'_>) -> Item {
    let id = words.number();
    words.skip("x");
    let count = words.number();
    words.skip(":");
    let damage = words.number();
    Item { id, damage, count }
}

/// Answers a call on piles.
pub fn pile(words: &mut Words<'_>, answer: &mut Answer) {
    match words.word() {
        "merge" => merge_piles(words, answer),
        "split" => split_pile(words, answer),
        "alike" => compare(words, answer),
        "fits" => fits_pile(words, answer),
        "slot" => show_pile(words, answer),
        _ => words.fail(),
    }
}

/// Says whether two items are of the same id and damage.
fn compare(words: &mut Words<'_>, answer: &mut Answer) {
    let one = item_in(words);
    answer.word(alike(one, item_in(words)));
}

/// Moves a pile onto an item of the same id and damage.
fn merge_piles(words: &mut Words<'_>, answer: &mut Answer) {
    let mut into = item_in(words);
    let mut from = pile_in(words);
    if joins(into, from) {
        merge(&mut into, &mut from);
        put_pile(Pile::Full(into), answer);
        put_pile(from, answer);
    } else {
        words.fail();
    }
}

/// Whether a pile may be moved onto an item.
fn joins(into: Item, from: Pile) -> bool
    ensures { IsTrue result → Joins into from }
{
    match from {
        Pile::Empty => true,
        Pile::Full(item) => alike(into, item),
    }
}

/// Takes some out of a pile.
fn split_pile(words: &mut Words<'_>, answer: &mut Answer) {
    let mut pile = pile_in(words);
    let taken = split(&mut pile, words.number());
    put_pile(taken, answer);
    put_pile(pile, answer);
}

/// Says whether a slot, given as its bytes, shows a pile.
fn fits_pile(words: &mut Words<'_>, answer: &mut Answer) {
    let bytes = words.bytes();
    match read_slot(words.alloc, &bytes, 0) {
        Ok((slot, _)) => {
            answer.word(fits(&slot, pile_in(words)));
            drop(slot);
        }
        Err(_) => words.fail(),
    }
}

/// A pile, where the world holds such ones.
pub fn worldly(pile: Pile) -> Option<Pile>
    ensures { IfSome result IsPile }
{
    match pile {
        Pile::Empty => Some(pile),
        Pile::Full(item) => { if is_worldly(item) { Some(pile) } else { None } }
    }
}

/// Whether the world holds such an item.
pub fn is_worldly(item: Item) -> bool
    ensures { IsTrue result → IsItem item }
{
    if item.id < 1 || 255 < item.id {
        return false;
    }
    if item.damage < 0 || 15 < item.damage {
        return false;
    }
    1 <= item.count && item.count <= 64
}

/// Writes the slot that shows a pile.
fn show_pile(words: &mut Words<'_>, answer: &mut Answer) {
    match worldly(pile_in(words)) {
        Some(pile) => {
            let mut out = Vec::new(words.alloc);
            let slot = pile.slot();
            answer.needs(write_slot(&slot, &mut out));
            drop(slot);
            answer.bytes(&out);
        }
        None => words.fail(),
    }
}

/// Puts piles into the places of a chest, and says what it holds then.
pub fn chest(words: &mut Words<'_>, answer: &mut Answer) {
    let mut chest = Chest::new();
    for _ in 0..64 {
        if words.is_more() {
            set_pile(&mut chest, words);
        }
    }
    put_chest(&chest, answer);
}

/// Puts the next pile into the next place.
pub fn set_pile(chest: &mut Chest, words: &mut Words<'_>) {
    let i = words.number::<usize>();
    if i < 27
        && let Some(pile) = worldly(pile_in(words))
    {
        chest.set(i, pile);
    } else {
        words.fail();
    }
}

/// Puts the places of a chest that hold anything, and what they hold.
pub fn put_chest(chest: &Chest, answer: &mut Answer) {
    answer.word('[');
    for i in 0..27 {
        let pile = chest.get(i);
        if pile != Pile::Empty {
            answer.word(i);
            put_pile(pile, answer);
        }
    }
    answer.put(']');
}
