//! The list of players.
#![tactic(auto, using(mc_bytes::proofs::Kept::kept_whole, mc_bytes::proofs::Kept::kept_same, mc_bytes::proofs::Kept::kept_by, mc_bytes::proofs::Kept::kept_past))]

ghost use Rattle.std.specs.Prelude.{◌≡◌, take, length, OnOk};
ghost use Rattle.mc_bytes.specs.Reading.{Gives};
ghost use Rattle.mc_fields.specs.Row.{fields_read, row_fits, row_append};
ghost use Rattle.mc_packets.specs.Down.{player_list};

use crate::players::{take_action, take_players, write_players};
use crate::{Down, Players};
use mc_bytes::{Cursor, NoMemory, ReadError};
use mc_fields::{VarInt, put_row};
use std::alloc::Global;

/// Reads an action and what it says of each player.
pub fn read_player_list(alloc: Global, cursor: &mut Cursor<'_>) -> Result<Down, ReadError>
    ensures { Gives (λ packet. (packet, cursor.new)) result (fields_read player_list cursor.old) }
{
    let action = take_action(cursor)?;
    let changes = take_players(alloc, cursor, action)?;
    Ok(Down::List(action, changes))
}

/// Appends the id, an action and what it says of each player. Without memory some first part of
/// them may be there.
pub fn write_player_list(action: &i32, changes: &Players, out: &mut Vec<u8>) -> Result<(), NoMemory>
    requires { row_fits player_list (action.now, changes.now) }
    ensures ok { OnOk result (out.new.items ≡ row_append player_list (action.now, changes.now)
        out.old.items) }
    ensures kept { take (length out.old.items) out.new.items ≡ out.old.items }
{
    put_row(0x38, &VarInt(*action), out)?;
    write_players(changes, action, out)
}
