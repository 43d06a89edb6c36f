ghost use Rattle.std.specs.Prelude.{◌≡◌};
ghost use Rattle.mc_windows.specs.declared.row.Target.TheVariants.{Outside, On};
ghost use Rattle.mc_windows.specs.Clicks.{place_of, row_of, target_of};

use crate::place::Place;

/// Where a click goes.
#[derive(Clone, Copy)]
pub(crate) enum Target {
    /// Outside the window.
    Outside,
    /// On a slot of it.
    On(Place),
}

/// A row of the table of clicks, with the slot that was clicked.
#[derive(Clone, Copy)]
pub(crate) enum Row {
    /// The left button.
    Left(Place),
    /// The right button.
    Right(Place),
    /// A button with shift.
    Shift(Place),
    /// The number key of a slot of the hotbar, from 0 to 8.
    Number(u8, Place),
    /// The drop key.
    DropOne(Place),
    /// The drop key with control.
    DropAll(Place),
    /// The left button outside.
    ThrowAll,
    /// The right button outside.
    ThrowOne,
    /// The drop key outside.
    Nothing,
}

/// Where the slot of a click lies, in the window of a chest or in the player's own.
pub(crate) fn target_of(has_chest: bool, slot: i16) -> Option<Target>
    ensures { result ≡ target_of has_chest slot }
{
    if slot == -999 {
        return Some(Target::Outside);
    }
    match place_of(has_chest, slot) {
        Some(place) => Some(Target::On(place)),
        None => None,
    }
}

/// The place of a slot.
fn place_of(has_chest: bool, slot: i16) -> Option<Place>
    ensures { result ≡ place_of has_chest slot }
{
    match (has_chest, slot) {
        (false, 9..=44) => Some(Place::Packed(slot as usize - 9)),
        (true, 0..=26) => Some(Place::Chested(slot as usize)),
        (true, 27..=62) => Some(Place::Packed(slot as usize - 27)),
        _ => None,
    }
}

/// The row of a mode and a button.
pub(crate) fn row_of(target: Target, mode: i8, button: i8) -> Option<Row>
    ensures { result ≡ row_of target mode button }
{
    match target {
        Target::Outside => row_outside(mode, button),
        Target::On(place) => row_on(place, mode, button),
    }
}

/// The row of a click outside the window.
fn row_outside(mode: i8, button: i8) -> Option<Row>
    ensures { result ≡ row_of Outside mode button }
{
    match (mode, button) {
        (0, 0) => Some(Row::ThrowAll),
        (0, 1) => Some(Row::ThrowOne),
        (4, 0 | 1) => Some(Row::Nothing),
        _ => None,
    }
}

/// The row of a click on a slot.
fn row_on(place: Place, mode: i8, button: i8) -> Option<Row>
    ensures { result ≡ row_of (On place) mode button }
{
    match (mode, button) {
        (0, 0) => Some(Row::Left(place)),
        (0, 1) => Some(Row::Right(place)),
        (1, 0 | 1) => Some(Row::Shift(place)),
        (2, 0..=8) => Some(Row::Number(button as u8, place)),
        (4, 0) => Some(Row::DropOne(place)),
        (4, 1) => Some(Row::DropAll(place)),
        _ => None,
    }
}
