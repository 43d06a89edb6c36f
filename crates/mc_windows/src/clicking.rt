ghost use Rattle.std.specs.Prelude.{◌≡◌, ◌+◌, ◌/◌, Some, None};
ghost use Rattle.mc_slots.specs.Pile.{IsPile, Sort, count_of, held};
ghost use Rattle.mc_windows.specs.declared.clicking.Clicked.TheVariants.{Refused};
ghost use Rattle.mc_windows.specs.declared.row.Row.TheVariants.{Left, Right};
ghost use Rattle.mc_windows.specs.Moves.{run};
ghost use Rattle.mc_windows.specs.Stock.{in_chest, in_pack};
ghost use Rattle.mc_windows.specs.Clicks.{admitted, answer_of, chest_after, desk_of, dropped};
ghost use Rattle.mc_windows.specs.Clicks.{fallen, is_no_item, is_other, order_from, outcome};
ghost use Rattle.mc_windows.specs.Clicks.{pack_after, plan, refused_pack, shows, worked};
ghost use Rattle.mc_windows.specs.Lent.{left_in, lent};

use crate::desk::Desk;
use crate::floor::Floor;
use crate::moves::How;
use crate::order::Order;
use crate::pack::{MAIN_PILES, Pack};
use crate::piles::{are_alike, count, is_empty};
use crate::place::Place;
use crate::request::{Click, Why};
use crate::row::{Row, row_of, target_of};
use mc_slots::{Chest, PILE_MAX, Pile, Slot, fits};

/// What became of a click.
#[derive(Clone, Copy, Debug, PartialEq, Eq)]
pub enum Clicked {
    /// It was done; this is to be dropped.
    Done(Pile),
    /// It was refused.
    Refused(Why),
}

/// Does a click in the window that shows the pack, and the chest where one is shown.
///
/// It is refused for the first of the tests that fails, in the order of `Why`: then nothing changes
/// but the wait, which moves to this click's number, and in another window not even that. `room`
/// says whether there is room for what it drops.
pub fn click(pack: &mut Pack, chest: Option<&mut Chest>, click: &Click, room: bool) -> Clicked
    ensures pack { pack.new ≡ pack_after pack.old click.now.number
        (outcome pack.old (lent chest.entry) click.now room) }
    ensures chest { left_in chest.exit ≡ chest_after (lent chest.entry)
        (outcome pack.old (lent chest.entry) click.now room) }
    ensures answer { result ≡ answer_of (outcome pack.old (lent chest.entry) click.now room) }
    // No item is lost or made.
    ensures keeps { (sort : Sort) →
        in_pack sort pack.new + (in_chest sort (left_in chest.exit) + held sort (dropped result))
        ≡ in_pack sort pack.old + in_chest sort (lent chest.entry) }
    // A refusal changes nothing but the wait.
    ensures refused { (why : Why) → result ≡ Refused why →
        (pack.new ≡ refused_pack pack.old click.now.number why)
        × (left_in chest.exit ≡ lent chest.entry) }
    ensures range { IsPile (dropped result) }
{
    match chest {
        None => click_alone(pack, click, room),
        Some(chest) => click_beside(pack, chest, click, room),
    }
}

/// Does a click in the player's own window.
fn click_alone(pack: &mut Pack, click: &Click, room: bool) -> Clicked
    ensures pack { pack.new ≡ pack_after pack.old click.now.number
        (outcome pack.old None click.now room) }
    ensures answer { result ≡ answer_of (outcome pack.old None click.now room) }
    ensures range { IsPile (dropped result) }
{
    match work(
        &Desk {
            pack: *pack,
            chest: None,
            floor: Floor::with(Pile::Empty),
        },
        click,
        room,
    ) {
        Ok(end) => {
            *pack = end.pack;
            Clicked::Done(end.floor.pile())
        }
        Err(why) => {
            refuse(pack, click.number, why);
            Clicked::Refused(why)
        }
    }
}

/// Does a click in the window of a chest.
fn click_beside(pack: &mut Pack, chest: &mut Chest, click: &Click, room: bool) -> Clicked
    ensures pack { pack.new ≡ pack_after pack.old click.now.number
        (outcome pack.old (Some chest.old) click.now room) }
    ensures chest { Some chest.new ≡ chest_after (Some chest.old)
        (outcome pack.old (Some chest.old) click.now room) }
    ensures answer { result ≡ answer_of (outcome pack.old (Some chest.old) click.now room) }
    ensures range { IsPile (dropped result) }
{
    match work(
        &Desk {
            pack: *pack,
            chest: Some(*chest),
            floor: Floor::with(Pile::Empty),
        },
        click,
        room,
    ) {
        Ok(end) => {
            *pack = end.pack;
            *chest = end.chest.unwrap_or(*chest);
            Clicked::Done(end.floor.pile())
        }
        Err(why) => {
            refuse(pack, click.number, why);
            Clicked::Refused(why)
        }
    }
}

/// Makes the window wait for this click's number, unless it was in another window.
fn refuse(pack: &mut Pack, number: i16, why: Why)
    ensures { pack.new ≡ refused_pack pack.old number why }
{
    match why {
        Why::WrongWindow => {}
        _ => pack.waiting = Some(number),
    }
}

/// Works a click out on a desk: the desk after it, or why it is refused.
fn work(desk: &Desk, click: &Click, room: bool) -> Result<Desk, Why>
    ensures { result ≡ worked desk.now room (admitted desk.now click.now) }
{
    let row = admit(desk, click)?;
    let mut end = *desk;
    end.follow(row);
    if !room && !is_empty(end.floor.pile()) {
        return Err(Why::NoRoomToDrop);
    }
    Ok(end)
}

/// Finds the row of a click, or the first of the first five tests that fails.
#[tactic(auto, unfolding(crate::specs::Clicks::admitted))]
fn admit(desk: &Desk, click: &Click) -> Result<Row, Why>
    ensures { result ≡ admitted desk.now click.now }
{
    if click.window != desk.pack.window {
        return Err(Why::WrongWindow);
    }
    if desk.pack.waiting.is_some() {
        return Err(Why::Waiting);
    }
    let Some(target) = target_of(desk.has_chest(), click.slot) else {
        return Err(Why::NoSlot);
    };
    let Some(row) = row_of(target, click.mode, click.button) else {
        return Err(Why::NoMode);
    };
    if is_other(desk, row, &click.item) {
        return Err(Why::OtherItem);
    }
    Ok(row)
}

/// Whether the client saw another item in the slot, where the row asks.
fn is_other(desk: &Desk, row: Row, item: &Slot) -> bool
    ensures { result ≡ is_other desk.now row item.now }
{
    match row {
        Row::Left(place) | Row::Right(place) => !shows(item, desk.get(place)),
        Row::Shift(place) => !shows(item, desk.get(place)) && !is_no_item(item),
        _ => false,
    }
}

/// Whether a wire slot shows a pile.
fn shows(slot: &Slot, pile: Pile) -> bool
    ensures { result ≡ shows slot.now pile }
{
    fits(slot, pile)
}

/// Whether a wire slot is the empty one.
fn is_no_item(slot: &Slot) -> bool
    ensures { result ≡ is_no_item slot.now }
{
    matches!(slot, Slot::Empty)
}

impl Desk {
    /// Makes the moves of a row.
    #[tactic(auto, unfolding(crate::specs::Moves::run))]
    fn follow(&mut self, row: Row)
        ensures { self.new ≡ run (plan self.old row) self.old }
    {
        match row {
            Row::Left(place) => self.press(place),
            Row::Right(place) => self.press_right(place),
            Row::Shift(place) => self.send(place, order_from(self.has_chest(), place)),
            Row::Number(key, place) => {
                self.make(
                    How::Swap,
                    place,
                    Place::Packed(MAIN_PILES + usize::from(key)),
                );
            }
            Row::DropOne(place) => self.let_fall(place, 1),
            Row::DropAll(place) => self.let_fall(place, PILE_MAX),
            Row::ThrowAll => self.make(How::Put(PILE_MAX), Place::Cursor, Place::Floor),
            Row::ThrowOne => self.make(How::Put(1), Place::Cursor, Place::Floor),
            Row::Nothing => {}
        }
    }

    /// Makes the move of the left button.
    #[tactic(auto, unfolding(crate::specs::Moves::run))]
    fn press(&mut self, place: Place)
        ensures { self.new ≡ run (plan self.old (Left place)) self.old }
    {
        let how = if are_alike(self.get(Place::Cursor), self.get(place)) {
            How::Merge(PILE_MAX)
        } else {
            How::Swap
        };
        self.make(how, Place::Cursor, place);
    }

    /// Drops so many at most of a place, where nothing hangs on the cursor.
    #[tactic(auto, unfolding(crate::specs::Moves::run))]
    fn let_fall(&mut self, place: Place, n: u8)
        ensures { self.new ≡ run (fallen self.old place n) self.old }
    {
        if is_empty(self.get(Place::Cursor)) {
            self.make(How::Put(n), place, Place::Floor);
        }
    }

    /// Makes the move of the right button.
    #[tactic(auto, unfolding(crate::specs::Moves::run))]
    fn press_right(&mut self, place: Place)
        ensures { self.new ≡ run (plan self.old (Right place)) self.old }
    {
        match (self.get(Place::Cursor), self.get(place)) {
            (Pile::Empty, pile) => self.make(How::Put(larger_half(pile)), place, Place::Cursor),
            (_, Pile::Empty) => self.make(How::Put(1), Place::Cursor, place),
            (held, pile) if are_alike(held, pile) => self.make(How::Merge(1), Place::Cursor, place),
            _ => self.make(How::Swap, Place::Cursor, place),
        }
    }
}

/// The larger half of a pile's count.
fn larger_half(pile: Pile) -> u8
    ensures { result ≡ (count_of pile + 1) / 2 }
{
    count(pile).div_ceil(2)
}

/// The order in which a pile of a place goes elsewhere by itself.
fn order_from(has_chest: bool, place: Place) -> Order
    ensures { result ≡ order_from has_chest place }
{
    match (has_chest, place) {
        (true, Place::Chested(_)) => Order::ToPlayer,
        (true, _) => Order::ToChest,
        (false, Place::Packed(i)) if i < MAIN_PILES => Order::ToHotbar,
        (false, _) => Order::ToMain,
    }
}
