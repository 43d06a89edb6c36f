ghost use Rattle.std.specs.Prelude.{◌≡◌, ◌+◌, ◌<◌, ◌≤◌, ◌%◌, pos, nat_lt, length, slice_set};
ghost use Rattle.mc_slots.specs.Pile.{IsPile, Sort, held};
ghost use Rattle.mc_slots.specs.declared.pile.Pile.TheVariants.{Full};
ghost use Rattle.mc_slots.specs.Chest.{pile_at};
ghost use Rattle.mc_windows.specs.Pack.{answered_pack, begun_pack, finished_pack, kit_pack};
ghost use Rattle.mc_windows.specs.Stock.{in_pack};
ghost use Rattle.mc_windows.specs.declared.pack.TheConstants.{LAST_WINDOW};

use mc_slots::{Item, Pile};
use std::marker::Model;

/// How many piles a pack has, without the cursor.
pub const PACK_PILES: usize = 36;

/// How many of them are its main part; those behind them are the hotbar.
pub const MAIN_PILES: usize = 27;

/// The highest number of a window; after it they begin at 1 again.
pub const LAST_WINDOW: u8 = 100;

/// What a player carries, and which window it is shown in.
///
/// Each pile is one that the world holds: id 1 to 255, damage 0 to 15, count 1 to 64.
#[derive(Clone, Copy)]
pub struct Pack {
    /// Pile i is slot `9 + i` of window 0 and slot `27 + i` of a chest window: the first 27 are the
    /// main part, the others the hotbar.
    pub slots: [Pile; PACK_PILES],
    /// What hangs on the cursor.
    pub cursor: Pile,
    /// The number of the shown chest window, or 0 where none is shown.
    pub window: u8,
    /// The number of the last chest window that was shown, or 0.
    pub last: u8,
    /// The number of the refused click that the client has yet to confirm.
    pub waiting: Option<i16>,
}

impl Model for Pack {
    ghost use Rattle.mc_windows.specs.Pack.{IsPack, PackValue};

    ghost Value = { PackValue };

    ghost view = { λ pack. record {
      slots = pack.slots;
      cursor = pack.cursor;
      window = pack.window;
      last = pack.last;
      waiting = pack.waiting;
    } };

    ghost invariant = { λ pack. IsPack pack.slots pack.cursor };

    ghost inverse = { λ pack. record {
      slots = pack.slots;
      cursor = pack.cursor;
      window = pack.window;
      last = pack.last;
      waiting = pack.waiting;
    } };
}

impl Pack {
    /// Whether the pack has a place.
    pub(crate) fn has(&self, i: usize) -> bool
        ensures { result ≡ nat_lt i (length self.now.slots) }
    {
        // A pack has 36 piles, says its invariant.
        let _slots = &self.slots;
        i < PACK_PILES
    }

    /// The pile at a place from 0 to 35; none elsewhere.
    pub fn pile(&self, i: usize) -> Pile
        ensures pile { result ≡ pile_at self.now.slots i }
        ensures range { IsPile result }
    {
        if i < PACK_PILES {
            self.slots[i]
        } else {
            Pile::Empty
        }
    }

    /// What hangs on the cursor.
    pub(crate) fn held(&self) -> Pile
        ensures pile { result ≡ self.now.cursor }
        ensures range { IsPile result }
    {
        self.cursor
    }

    /// Puts a pile at a place from 0 to 35, in the place of the one that was there.
    pub fn put(&mut self, i: usize, pile: Pile)
        requires place { i < length self.old.slots }
        requires range { IsPile pile }
        ensures { self.new ≡ record self.old { slots = slice_set self.old.slots i pile } }
    {
        let slots = &mut self.slots;
        slots[i] = pile;
    }

    /// Hangs a pile on the cursor, in the place of the one that was there.
    pub(crate) fn hang(&mut self, pile: Pile)
        requires { IsPile pile }
        ensures { self.new ≡ record self.old { cursor = pile } }
    {
        self.cursor = pile;
    }
}

/// So many of an item of damage 0.
fn some_of(id: i16, count: u8) -> Pile
    ensures { result ≡ Full (record { id = id; damage = pos 0; count = count }) }
{
    Pile::Full(Item {
        id,
        damage: 0,
        count,
    })
}

/// The pack of who joins for the first time: in the hotbar 64 stone, 64 dirt, 64 planks and 4
/// chests.
pub fn kit() -> Pack
    ensures { result ≡ kit_pack }
{
    let mut slots = [Pile::Empty; PACK_PILES];
    slots[MAIN_PILES] = some_of(1, 64);
    slots[MAIN_PILES + 1] = some_of(3, 64);
    slots[MAIN_PILES + 2] = some_of(5, 64);
    slots[MAIN_PILES + 3] = some_of(54, 4);
    Pack {
        slots,
        cursor: Pile::Empty,
        window: 0,
        last: 0,
        waiting: None,
    }
}

/// Ends the wait where this is the window that waits and the number that it waits for.
pub fn answer(pack: &mut Pack, window: u8, number: i16)
    ensures { pack.new ≡ answered_pack window number pack.old }
{
    if window == pack.window && pack.waiting == Some(number) {
        pack.waiting = None;
    }
}

/// Shows the next chest window, answers its number, and ends the wait. The numbers go from 1 to 100
/// and begin again.
pub fn begin(pack: &mut Pack) -> u8
    ensures pack { pack.new ≡ begun_pack pack.old }
    ensures number { result ≡ pack.old.last % LAST_WINDOW + 1 }
    ensures range { (1 ≤ result) × (result ≤ LAST_WINDOW) }
{
    let number = pack.last % LAST_WINDOW + 1;
    pack.window = number;
    pack.last = number;
    pack.waiting = None;
    number
}

/// Shows no chest window any more, ends the wait, takes what hung on the cursor, and answers it.
pub fn finish(pack: &mut Pack) -> Pile
    ensures pack { pack.new ≡ finished_pack pack.old }
    ensures cursor { result ≡ pack.old.cursor }
    ensures range { IsPile result }
    // No item is lost or made.
    ensures keeps { (sort : Sort) →
        in_pack sort pack.new + held sort result ≡ in_pack sort pack.old }
{
    let cursor = pack.cursor;
    pack.window = 0;
    pack.waiting = None;
    pack.cursor = Pile::Empty;
    cursor
}
