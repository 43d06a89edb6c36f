//! The slots of a window that differ from those that were shown, and the cursor.

ghost use Rattle.std.specs.Prelude.{◌≡◌, ◌<◌, ◌≤◌, ◌+◌, ◌++◌, ◌∷◌, ℕ, [], OnOk, length, map};
ghost use lib.IntN.{pos};
ghost use Rattle.mc_packets.specs.declared.down.Down.TheVariants as down;
ghost use Rattle.mc_slots.specs.Pile.{IsPile, slot_of};
ghost use Rattle.mc_slots.specs.Chest.{pile_at};
ghost use Rattle.mc_model.specs.Delta.{cursor_packet, slot_packets};
ghost use Rattle.mc_sending.specs.Sending.{play_bytes};
ghost use Rattle.mc_flush.specs.Seeing.{held_packets};

use mc_bytes::NoMemory;
use mc_packets::Down;
use mc_sending::put_made;
use mc_slots::Pile;

/// Appends the frame of a slot of a window, if its pile differs from the one that was shown.
fn put_slot(
    window: i8,
    at: usize,
    old: &Pile,
    new: &Pile,
    out: &mut Vec<u8>,
) -> Result<(), NoMemory>
    requires place { at < 100 }
    requires range { IsPile new.now }
    ensures { OnOk result (out.new.items ≡ out.old.items ++ play_bytes
        (slot_packets window at (slot_of old.now ∷ []) (slot_of new.now ∷ []))) }
{
    if *old == *new {
        return Ok(());
    }
    put_changed(window, at, new, out)
}

/// Appends the frame of a slot of a window.
#[inline(never)]
fn put_changed(window: i8, at: usize, new: &Pile, out: &mut Vec<u8>) -> Result<(), NoMemory>
    requires place { at < 100 }
    requires range { IsPile new.now }
    ensures { OnOk result (out.new.items ≡ out.old.items ++ play_bytes
        (down.SetSlot window (pos at) (slot_of new.now) ∷ [])) }
{
    put_made(Down::SetSlot(window, at as i16, new.slot()), out)
}

/// Appends the frames of the slots of a window, from a number on, whose piles differ from those
/// that were shown.
pub fn put_slots(
    window: i8,
    first: usize,
    old: &[Pile],
    new: &[Pile],
    out: &mut Vec<u8>,
) -> Result<(), NoMemory>
    requires range { (i : ℕ) → IsPile (pile_at new.now i) }
    requires same { length old.now ≡ length new.now }
    requires few { first + length new.now ≤ 100 }
    ensures { OnOk result (out.new.items ≡ out.old.items ++ play_bytes
        (slot_packets window first (map slot_of old.now) (map slot_of new.now))) }
{
    for i in 0..new.len() {
        put_slot(window, first + i, &old[i], &new[i], out)?;
    }
    Ok(())
}

/// Appends the frame of what hangs on the cursor.
pub fn put_cursor(pile: &Pile, out: &mut Vec<u8>) -> Result<(), NoMemory>
    requires { IsPile pile.now }
    ensures { OnOk result (out.new.items
        ≡ out.old.items ++ play_bytes (cursor_packet (slot_of pile.now) ∷ [])) }
{
    put_made(Down::SetSlot(-1, -1, pile.slot()), out)
}

/// Appends the frame of what hangs on the cursor, if that differs from what was shown.
pub fn put_held(old: &Pile, new: &Pile, out: &mut Vec<u8>) -> Result<(), NoMemory>
    requires { IsPile new.now }
    ensures { OnOk result (out.new.items
        ≡ out.old.items ++ play_bytes (held_packets old.now new.now)) }
{
    if *old == *new {
        return Ok(());
    }
    put_cursor(new, out)
}
