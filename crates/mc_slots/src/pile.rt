ghost use Rattle.std.specs.Prelude.{◌≡◌, ◌+◌, ◌↔◌, IsTrue, min};
ghost use Rattle.mc_slots.specs.declared.pile.Pile.TheVariants.{Full};
ghost use Rattle.mc_slots.specs.Slot.{HasId};
ghost use Rattle.mc_slots.specs.Pile.{IsItem, IsPile, IsAlike, Joins, Sort, count_of, held, moved};
ghost use Rattle.mc_slots.specs.Pile.{part, pile_of, slot_of, with_more, without};

use crate::slot::{Slot, Stack};

/// How many of one item a pile holds at most.
pub const PILE_MAX: u8 = 64;

/// So many of an item, as the world holds it: id 1 to 255, damage 0 to 15, count 1 to 64, and never
/// a tag.
#[derive(Clone, Copy, Debug, PartialEq, Eq)]
pub struct Item {
    /// What it is.
    pub id: i16,
    /// Of which kind it is.
    pub damage: i16,
    /// How many there are.
    pub count: u8,
}

/// What lies in one place of a pack or a chest.
#[derive(Clone, Copy, Debug, PartialEq, Eq)]
pub enum Pile {
    /// Nothing.
    Empty,
    /// So many of an item.
    Full(Item),
}

impl Pile {
    /// The wire slot that shows the pile: its id, count and damage, and no tag.
    pub fn slot(self) -> Slot
        requires { IsPile self }
        ensures slot { result ≡ slot_of self }
        ensures id { HasId result }
    {
        match self {
            Pile::Empty => Slot::Empty,
            Pile::Full(item) => Slot::Full(Stack {
                id: item.id,
                count: item.count as i8,
                damage: item.damage,
                tag: None,
            }),
        }
    }
}

/// Whether two are of the same id and damage.
pub fn alike(a: Item, b: Item) -> bool
    ensures { IsTrue result ↔ IsAlike a b }
{
    a.id == b.id && a.damage == b.damage
}

/// So many of an item; an empty pile where they are none.
fn pile_of(item: Item, count: u8) -> Pile
    ensures { result ≡ pile_of item count }
{
    if count == 0 {
        return Pile::Empty;
    }
    Pile::Full(Item {
        id: item.id,
        damage: item.damage,
        count,
    })
}

/// Moves as many of a pile onto an item as bring it to 64 at most.
pub fn merge(into: &mut Item, from: &mut Pile)
    requires { Joins into.old from.old }
    ensures into { into.new ≡ with_more into.old (moved into.old from.old) }
    ensures from { from.new ≡ without from.old (moved into.old from.old) }
    // No item is lost or made.
    ensures sum { into.new.count + count_of from.new ≡ into.old.count + count_of from.old }
    ensures keeps { (sort : Sort) →
        held sort (Full into.new) + held sort from.new ≡ held sort (Full into.old) +
        held sort from.old }
    ensures item { IsItem into.old → IsItem into.new }
    ensures pile { IsPile from.old → IsPile from.new }
{
    let Pile::Full(item) = *from else {
        return;
    };
    let moved = item.count.min(PILE_MAX.saturating_sub(into.count));
    into.count += moved;
    *from = pile_of(item, item.count - moved);
}

/// Takes the smaller of `n` and the count out of a pile, and answers them.
pub fn split(pile: &mut Pile, n: u8) -> Pile
    ensures taken { result ≡ part pile.old (min n (count_of pile.old)) }
    ensures left { pile.new ≡ without pile.old (min n (count_of pile.old)) }
    // No item is lost or made.
    ensures sum { count_of result + count_of pile.new ≡ count_of pile.old }
    ensures keeps { (sort : Sort) → held sort result + held sort pile.new ≡ held sort pile.old }
    ensures piles { IsPile pile.old → IsPile result × IsPile pile.new }
{
    let Pile::Full(item) = *pile else {
        return Pile::Empty;
    };
    let taken = n.min(item.count);
    *pile = pile_of(item, item.count - taken);
    pile_of(item, taken)
}

/// Whether a wire slot shows a pile: the same id, count and damage and no tag, or both empty.
pub fn fits(slot: &Slot, pile: Pile) -> bool
    ensures { IsTrue result ↔ (slot.now ≡ slot_of pile) }
{
    match (slot, pile) {
        (Slot::Empty, Pile::Empty) => true,
        (Slot::Full(stack), Pile::Full(item)) => {
            stack.id == item.id
                && i16::from(stack.count) == i16::from(item.count)
                && stack.damage == item.damage
                && stack.tag.is_none()
        }
        _ => false,
    }
}
