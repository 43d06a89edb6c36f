use crate::ScriptKind;
use mc_bytes::{NoMemory, Text};
use mc_fields::Cell;

/// What a line of a script does.
#[derive(Drop)]
pub enum Act {
    /// Asks for views of so many columns.
    View(i8),
    /// Moves to an x, y of the feet and z, in 1/32 blocks.
    Move(i32, i32, i32),
    /// Looks by a yaw and a pitch, in 256ths of a turn.
    Look(u8, u8),
    /// Digs the block of a cell from a face.
    Dig(Cell, i8),
    /// Places what is held at a face of a cell.
    Place(Cell, i8),
    /// Holds a slot of the hotbar.
    Held(i16),
    /// Drops one item of what is held.
    Drop,
    /// Drops all of what is held.
    DropAll,
    /// Says a text of 1 to 100 code points.
    Say(Text),
    /// Closes the window that is shown.
    Close,
    /// Clicks a slot of the window that is shown, with a button, in a mode.
    Click(i16, i8, i8),
    /// Reads until so many more packets were taken.
    Wait(u32),
    /// Reads until a cell has a state.
    Until(Cell, u16),
    /// Compares the state of a cell.
    Expect(Cell, u16),
    /// Ends the script.
    Leave,
}

/// A line that does something.
#[derive(Drop)]
pub struct Line {
    /// Its number, from 1.
    pub number: u32,
    /// What it does.
    pub act: Act,
}

/// What a line of a script says.
#[derive(Drop)]
pub enum Said {
    /// A name of 1 to 16 code points joins.
    Join(Text),
    /// Something is to be done.
    Does(Act),
}

/// Why a line is not read.
#[derive(Clone, Copy, Debug, PartialEq, Eq)]
pub enum Unread {
    /// Something is wrong with it.
    Fault(ScriptKind),
    /// There was no memory.
    NoMemory,
}

impl From<NoMemory> for Unread {
    ghost use Rattle.std.specs.Prelude.{◌≡◌};
    ghost use Rattle.mc_bot.specs.declared.act.Unread.TheVariants as unread;

    ghost from_gives = { λ _ error. error ≡ unread.NoMemory };

    fn from(_refusal: NoMemory) -> Unread {
        Unread::NoMemory
    }
}
