ghost use Rattle.std.specs.Prelude.{◌≡◌, ◌++◌, ◌∷◌, [], OnOk, map};
ghost use Rattle.std.specs.Option.{option_copied};
ghost use Rattle.mc_model.specs.Notes.{confirm_packet, notes_of};
ghost use Rattle.mc_model.specs.Opening.{placing};
ghost use Rattle.mc_sending.specs.Sending.{IsClear, play_bytes};

use crate::slots::put_cursor;
use crate::windows::put_items;
use mc_bytes::NoMemory;
use mc_fields::{Spot, degrees, pattern};
use mc_model::{Answered, Notes};
use mc_packets::Down;
use mc_sending::put_made;
use mc_slots::Chest;
use mc_windows::Pack;

/// A player's own place and look, none of them relative.
pub fn placing_packet(place: &Spot) -> Down
    ensures value { result ≡ placing place.now }
    ensures clear { IsClear result }
{
    Down::PositionLook {
        x: pattern(place.x),
        y: pattern(place.y),
        z: pattern(place.z),
        yaw: degrees(place.yaw),
        pitch: degrees(place.pitch),
        flags: 0,
    }
}

/// Appends the frame of the answer to a click.
fn put_confirm(answered: &Answered, out: &mut Vec<u8>) -> Result<(), NoMemory>
    ensures { OnOk result (out.new.items
        ≡ out.old.items ++ play_bytes (confirm_packet answered.now ∷ [])) }
{
    let window = answered.window.cast_signed();
    put_made(
        Down::Confirm(window, answered.number, answered.accepted),
        out,
    )
}

/// Appends the frames of the answers to clicks, one after another.
pub fn put_confirms(confirms: &[Answered], out: &mut Vec<u8>) -> Result<(), NoMemory>
    ensures { OnOk result (out.new.items
        ≡ out.old.items ++ play_bytes (map confirm_packet confirms.now)) }
{
    for answered in confirms {
        put_confirm(answered, out)?;
    }
    Ok(())
}

/// Appends what else was noted for a client: its player's place, and the window that it is shown.
pub fn put_notes(
    notes: &Notes,
    place: &Spot,
    pack: &Pack,
    chest: Option<&Chest>,
    out: &mut Vec<u8>,
) -> Result<(), NoMemory>
    ensures { OnOk result (out.new.items ≡ out.old.items ++ play_bytes
        (notes_of notes.now place.now pack.now (option_copied chest.entry))) }
{
    if notes.placing {
        put_made(placing_packet(place), out)?;
    }
    if notes.resend {
        put_items(pack, chest, out)?;
        put_cursor(&pack.cursor, out)?;
    }
    Ok(())
}
