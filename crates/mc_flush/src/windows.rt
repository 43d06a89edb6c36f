//! The window of a chest, and what a client is told of it and of its pack.

ghost use Rattle.std.specs.Prelude.{◌≡◌, ◌++◌, ◌∷◌, ℕ, [], None, Some, IfOk, OnOk, codes, map};
ghost use Rattle.std.specs.Prelude.{option_map, replicate};
ghost use Rattle.std.specs.Int.{cast_signed, w8};
ghost use Rattle.std.specs.Option.{option_copied};
ghost use Rattle.mc_slots.specs.Pile.{IsPile, slot_of};
ghost use Rattle.mc_slots.specs.Chest.{chest_size, pile_at};
ghost use Rattle.mc_slots.specs.declared.slot.Slot.TheVariants as slots;
ghost use Rattle.mc_packets.specs.declared.down.Down.TheVariants as down;
ghost use Rattle.mc_model.specs.Delta.{closing_packets, opening_packets, slot_packets};
ghost use Rattle.mc_model.specs.Notes.{window_items};
ghost use Rattle.mc_model.specs.Texts.{chat_json};
ghost use Rattle.mc_sending.specs.Sending.{play_bytes};
ghost use Rattle.mc_flush.specs.Seeing.{seen_window, window_kept, window_packets};

mod fields;

use crate::Mark;
use crate::slots::put_slots;
use mc_bytes::{NoMemory, Text};
use mc_packets::{Down, Slots};
use mc_sending::put_made;
use mc_slots::{CHEST_PILES, Chest, Pile, Slot};
use mc_windows::Pack;
use std::alloc::Global;

/// How many slots window 0 has before those of the pack.
const SLOTS_BEFORE: usize = 9;

/// The window of a chest as a client was shown it.
#[derive(Clone, Copy)]
pub struct Window {
    /// Its number.
    pub number: u8,
    /// What lay in the chest.
    pub chest: Chest,
}

/// The window that a player is shown, which carries a pack and may look into a chest.
pub fn window_of(pack: &Pack, chest: Option<&Chest>) -> Option<Window>
    ensures { result ≡ window_kept pack.now (option_copied chest.entry) }
{
    let chest = *chest?;
    Some(Window {
        number: pack.window,
        chest,
    })
}

// ---- all slots of a window

/// The slots before those of the pack, which are empty.
fn slots_before(alloc: Global) -> Result<Slots, NoMemory>
    ensures { IfOk result (λ items. items ≡ replicate 9 slots.Empty) }
{
    let mut items = Slots::new(alloc);
    for _ in 0..SLOTS_BEFORE {
        items.push(Slot::Empty)?;
    }
    Ok(items)
}

/// Puts the slots of piles at the end.
fn push_piles(piles: &[Pile], items: &mut Slots) -> Result<(), NoMemory>
    requires { (i : ℕ) → IsPile (pile_at piles.now i) }
    ensures { OnOk result (items.new ≡ items.old ++ map slot_of piles.now) }
{
    for pile in piles {
        items.push(pile.slot())?;
    }
    Ok(())
}

/// Appends the frame of all slots of window 0.
fn put_own_items(pack: &Pack, out: &mut Vec<u8>) -> Result<(), NoMemory>
    ensures { OnOk result (out.new.items ≡ out.old.items ++ play_bytes
        (window_items pack.now None ∷ [])) }
{
    let mut items = slots_before(*out.allocator())?;
    push_piles(&pack.slots, &mut items)?;
    put_made(Down::WindowItems(0, items), out)
}

/// Appends the frame of all slots of a chest's window of a number.
fn put_chest_items(
    number: u8,
    pack: &Pack,
    chest: &Chest,
    out: &mut Vec<u8>,
) -> Result<(), NoMemory>
    ensures { OnOk result (out.new.items ≡ out.old.items ++ play_bytes
        (down.WindowItems number (map slot_of chest.now ++ map slot_of pack.now.slots) ∷ [])) }
{
    let mut items = Slots::new(*out.allocator());
    push_piles(chest.as_slice(), &mut items)?;
    push_piles(&pack.slots, &mut items)?;
    put_made(Down::WindowItems(number, items), out)
}

/// Appends the frame of all slots of the window that a client is shown.
pub fn put_items(pack: &Pack, chest: Option<&Chest>, out: &mut Vec<u8>) -> Result<(), NoMemory>
    ensures { OnOk result (out.new.items ≡ out.old.items ++ play_bytes
        (window_items pack.now (option_copied chest.entry) ∷ [])) }
{
    match chest {
        None => put_own_items(pack, out),
        Some(chest) => put_chest_items(pack.window, pack, chest, out),
    }
}

// ---- windows that open and close

/// The packet that opens a chest's window of a number.
fn opening(alloc: Global, number: u8) -> Result<Down, NoMemory>
    ensures { IfOk result (λ packet. packet ≡ down.OpenWindow number
        (codes "minecraft:chest") (chat_json (codes "Chest")) chest_size None) }
{
    let kind = Text::from_str(alloc, "minecraft:chest")?;
    let title = Text::from_str(alloc, "{\"text\":\"Chest\"}")?;
    Ok(Down::OpenWindow {
        window: number,
        kind,
        title,
        slots: CHEST_PILES as u8,
        horse: None,
    })
}

/// Appends the frames by which a chest's window of a number opens, with all of its slots.
fn put_opening(number: u8, pack: &Pack, chest: &Chest, out: &mut Vec<u8>) -> Result<(), NoMemory>
    ensures { OnOk result (out.new.items ≡ out.old.items ++ play_bytes
        (opening_packets (record {
          number = number;
          slots = map slot_of chest.now;
        }) (map slot_of pack.now.slots))) }
{
    put_made(opening(*out.allocator(), number)?, out)?;
    put_chest_items(number, pack, chest, out)
}

/// Appends the frame by which the window of a number closes.
fn put_close(number: u8, out: &mut Vec<u8>) -> Result<(), NoMemory>
    ensures { OnOk result (out.new.items
        ≡ out.old.items ++ play_bytes (down.CloseWindow number ∷ [])) }
{
    put_made(Down::CloseWindow(number), out)
}

/// Appends the frame by which the window that was shown closes, if one was.
fn put_closing(old: Option<&Window>, out: &mut Vec<u8>) -> Result<(), NoMemory>
    ensures { OnOk result (out.new.items ≡ out.old.items ++ play_bytes
        (closing_packets (option_map seen_window (option_copied old.entry)))) }
{
    match old {
        None => Ok(()),
        Some(old) => put_close(old.number, out),
    }
}

// ---- what differs

/// Appends the frames of the slots of a chest's window that differ from those that were shown.
fn put_changes(
    mark: &Mark,
    old: &Chest,
    pack: &Pack,
    chest: &Chest,
    out: &mut Vec<u8>,
) -> Result<(), NoMemory>
    ensures { OnOk result (out.new.items ≡ out.old.items ++ play_bytes (slot_packets
        (cast_signed w8 pack.now.window) 0 (map slot_of old.now ++ map slot_of mark.now.slots)
        (map slot_of chest.now ++ map slot_of pack.now.slots))) }
{
    let window = pack.window.cast_signed();
    put_slots(window, 0, old.as_slice(), chest.as_slice(), out)?;
    put_slots(window, CHEST_PILES, mark.slots(), &pack.slots, out)
}

/// Appends what differs where a client is to be shown the window of a chest.
fn put_shown(mark: &Mark, pack: &Pack, chest: &Chest, out: &mut Vec<u8>) -> Result<(), NoMemory>
    ensures { OnOk result (out.new.items ≡ out.old.items ++ play_bytes
        (window_packets mark.now pack.now (Some chest.now))) }
{
    match mark.window() {
        Some(old) if old.number == pack.window => put_changes(mark, &old.chest, pack, chest, out),
        _ => put_opening(pack.window, pack, chest, out),
    }
}

/// Appends what differs where a client is to be shown its own window.
fn put_own(mark: &Mark, pack: &Pack, out: &mut Vec<u8>) -> Result<(), NoMemory>
    ensures { OnOk result (out.new.items ≡ out.old.items ++ play_bytes
        (window_packets mark.now pack.now None)) }
{
    put_closing(mark.window(), out)?;
    put_slots(0, SLOTS_BEFORE, mark.slots(), &pack.slots, out)
}

/// Appends what differs of the window that a client is shown, and of its pack: a window opens, or
/// one closes, and each slot that differs is told in the window that is shown.
pub fn put_window(
    mark: &Mark,
    pack: &Pack,
    chest: Option<&Chest>,
    out: &mut Vec<u8>,
) -> Result<(), NoMemory>
    ensures { OnOk result (out.new.items ≡ out.old.items ++ play_bytes
        (window_packets mark.now pack.now (option_copied chest.entry))) }
{
    match chest {
        None => put_own(mark, pack, out),
        Some(chest) => put_shown(mark, pack, chest, out),
    }
}
