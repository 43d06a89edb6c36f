ghost use Rattle.std.specs.Prelude.{◌≡◌, ◌<◌, true, is_some, length, slice_set};
ghost use Rattle.mc_slots.specs.Pile.{IsPile};
ghost use Rattle.mc_slots.specs.Chest.{pile_at};
ghost use Rattle.mc_windows.specs.declared.place.Place.TheVariants.{Chested};
ghost use Rattle.mc_windows.specs.Moves.{at, exchanged, is_here, is_possible, made, move, run};
ghost use Rattle.mc_windows.specs.Moves.{write};
ghost use Rattle.mc_windows.specs.Clicks.{places, sent, to_each};

use crate::floor::Floor;
use crate::moves::How;
use crate::order::Order;
use crate::pack::Pack;
use crate::place::Place;
use mc_slots::{Chest, PILE_MAX, Pile};

/// The piles that a click may move: those of the pack, those of the chest that it shows, and what
/// lies outside the window. It is a copy, which is put back only where the click is not refused.
#[derive(Clone, Copy)]
pub(crate) struct Desk {
    pub pack: Pack,
    pub chest: Option<Chest>,
    pub floor: Floor,
}

impl Desk {
    /// Whether a chest is shown.
    pub(crate) fn has_chest(&self) -> bool
        ensures { result ≡ is_some self.now.chest }
    {
        self.chest.is_some()
    }

    /// Whether the desk has a place.
    fn has(&self, place: Place) -> bool
        ensures { result ≡ is_here self.now place }
    {
        match place {
            Place::Cursor | Place::Floor => true,
            Place::Chested(i) => self.has_chested(i),
            Place::Packed(i) => self.pack.has(i),
        }
    }

    /// Whether there is a chest with such a place.
    fn has_chested(&self, i: usize) -> bool
        ensures { result ≡ is_here self.now (Chested i) }
    {
        match &self.chest {
            Some(chest) => i < chest.as_slice().len(),
            None => false,
        }
    }

    /// The pile at a place; none at a place that the desk has not.
    pub(crate) fn get(&self, place: Place) -> Pile
        ensures pile { result ≡ at self.now place }
        ensures range { IsPile result }
    {
        match place {
            Place::Cursor => self.pack.held(),
            Place::Floor => self.floor.pile(),
            Place::Chested(i) => self.chested(i),
            Place::Packed(i) => self.pack.pile(i),
        }
    }

    /// The pile at a place of the chest.
    fn chested(&self, i: usize) -> Pile
        ensures pile { result ≡ at self.now (Chested i) }
        ensures range { IsPile result }
    {
        match &self.chest {
            Some(chest) => pile_in(chest, i),
            None => Pile::Empty,
        }
    }

    /// Puts a pile at a place that the desk has.
    fn set(&mut self, place: Place, pile: Pile)
        requires here { is_here self.old place ≡ true }
        requires range { IsPile pile }
        ensures { self.new ≡ write self.old place pile }
    {
        match place {
            Place::Cursor => self.pack.hang(pile),
            Place::Floor => self.floor = Floor::with(pile),
            Place::Chested(i) => self.set_chested(i, pile),
            Place::Packed(i) => self.pack.put(i, pile),
        }
    }

    /// Puts a pile at a place of the chest.
    fn set_chested(&mut self, i: usize, pile: Pile)
        requires here { is_here self.old (Chested i) ≡ true }
        requires range { IsPile pile }
        ensures { self.new ≡ write self.old (Chested i) pile }
    {
        if let Some(chest) = &mut self.chest {
            put_in(chest, i, pile);
        }
    }

    /// Whether a move between two places is possible: the desk has both, and they are not one.
    fn is_possible(&self, from: Place, to: Place) -> bool
        ensures { result ≡ is_possible self.now from to }
    {
        self.has(from) && self.has(to) && !from.is(to)
    }

    /// Makes a move; nothing where it is not possible.
    #[tactic(auto, unfolding(crate::specs::Moves::made))]
    pub(crate) fn make(&mut self, how: How, from: Place, to: Place)
        ensures { self.new ≡ made (move how from to) self.old }
    {
        if self.is_possible(from, to) {
            self.exchange(how, from, to);
        }
    }

    /// Makes a move that is possible.
    fn exchange(&mut self, how: How, from: Place, to: Place)
        requires { is_possible self.old from to ≡ true }
        ensures { self.new ≡ exchanged (move how from to) self.old }
    {
        let (left, filled) = how.effect(self.get(from), self.get(to));
        self.set(from, left);
        self.set(to, filled);
    }

    /// Makes the same move to each place of an order.
    #[tactic(auto, unfolding(crate::specs::Moves::run, crate::specs::Clicks::to_each), using(crate::proofs::Steps::one_more))]
    fn make_each(&mut self, how: How, from: Place, order: Order)
        ensures { self.new ≡ run (to_each how from order (places order)) self.old }
    {
        for k in 0..order.places() {
            self.make(how, from, order.place(k));
        }
    }

    /// Sends a pile to stacks of the same item, and what is left to the first place with nothing.
    #[tactic(auto, using(crate::proofs::Steps::run_append))]
    pub(crate) fn send(&mut self, from: Place, order: Order)
        ensures { self.new ≡ run (sent from order) self.old }
    {
        self.make_each(How::Merge(PILE_MAX), from, order);
        self.make_each(How::Put(PILE_MAX), from, order);
    }
}

/// The pile at a place of a chest; none at a place that it has not.
fn pile_in(chest: &Chest, i: usize) -> Pile
    ensures pile { result ≡ pile_at chest.now i }
    ensures range { IsPile result }
{
    if i < chest.as_slice().len() {
        chest.get(i)
    } else {
        Pile::Empty
    }
}

/// Puts a pile at a place that a chest has.
fn put_in(chest: &mut Chest, i: usize, pile: Pile)
    requires place { i < length chest.old }
    requires range { IsPile pile }
    ensures { chest.new ≡ slice_set chest.old i pile }
{
    // That it has 27 is what this call says.
    let _size = chest.as_slice().len();
    chest.set(i, pile);
}
