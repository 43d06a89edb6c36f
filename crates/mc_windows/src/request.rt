use mc_slots::Slot;

/// A click in a window, as the client sent it.
#[derive(Drop)]
pub struct Click {
    /// The number of the window.
    pub window: u8,
    /// The slot, or -999 outside the window.
    pub slot: i16,
    /// The button or the key.
    pub button: i8,
    /// The number of the click.
    pub number: i16,
    /// What kind of click it is.
    pub mode: i8,
    /// What the client saw in the slot.
    pub item: Slot,
}

/// Why a click is refused, in the order of the tests.
#[derive(Clone, Copy, Debug, PartialEq, Eq)]
pub enum Why {
    /// It is in a window that is not shown.
    WrongWindow,
    /// An earlier refusal is yet to be confirmed.
    Waiting,
    /// The window has no such slot.
    NoSlot,
    /// The table of clicks has no row for its mode, button and slot.
    NoMode,
    /// The client saw another item in the slot.
    OtherItem,
    /// It would drop something, and there is no room for one more item.
    NoRoomToDrop,
}
