//! Frames as pieces of what is sent.

ghost use Rattle.std.specs.Prelude.{◌≡◌, ◌≤◌, ◌++◌, OnOk};
ghost use Rattle.std.specs.Option.{option_copied};
ghost use Rattle.mc_frame.specs.Kept.{joined};
ghost use Rattle.mc_model.specs.Notes.{notes_of};
ghost use Rattle.mc_sending.specs.Sending.{play_bytes};
ghost use Rattle.mc_flush.specs.Seeing.{age_packets, carried_packets};

use crate::Mark;
use crate::notes::put_notes;
use crate::slots::put_held;
use crate::windows::put_window;
use bytes::Bytes;
use mc_bytes::NoMemory;
use mc_fields::Spot;
use mc_loads::push_piece;
use mc_model::Notes;
use mc_slots::Chest;
use mc_windows::Pack;
use std::alloc::Global;

/// Appends the frames of the beat and of the age, each unless it was told last, as one piece.
pub fn push_age(alloc: Global, mark: &Mark, age: u64, out: &mut Vec<Bytes>) -> Result<(), NoMemory>
    requires { age ≤ 1000000000 }
    ensures { OnOk result (joined out.new.items
        ≡ joined out.old.items ++ play_bytes (age_packets mark.now age)) }
{
    let mut bytes = Vec::new(alloc);
    mark.clock().put_age(age, &mut bytes)?;
    push_piece(Bytes::from_vec(bytes)?, out)
}

/// Appends what was noted for a client, as one piece.
pub fn push_notes(
    alloc: Global,
    notes: &Notes,
    place: &Spot,
    pack: &Pack,
    chest: Option<&Chest>,
    out: &mut Vec<Bytes>,
) -> Result<(), NoMemory>
    ensures { OnOk result (joined out.new.items ≡ joined out.old.items ++ play_bytes
        (notes_of notes.now place.now pack.now (option_copied chest.entry))) }
{
    let mut bytes = Vec::new(alloc);
    put_notes(notes, place, pack, chest, &mut bytes)?;
    push_piece(Bytes::from_vec(bytes)?, out)
}

/// Appends what differs of the window that a client is shown, of its pack and of the cursor, as one
/// piece.
pub fn push_slots(
    alloc: Global,
    mark: &Mark,
    pack: &Pack,
    chest: Option<&Chest>,
    out: &mut Vec<Bytes>,
) -> Result<(), NoMemory>
    ensures { OnOk result (joined out.new.items ≡ joined out.old.items ++ play_bytes
        (carried_packets mark.now pack.now (option_copied chest.entry))) }
{
    let mut bytes = Vec::new(alloc);
    put_window(mark, pack, chest, &mut bytes)?;
    put_held(&mark.cursor(), &pack.cursor, &mut bytes)?;
    push_piece(Bytes::from_vec(bytes)?, out)
}
