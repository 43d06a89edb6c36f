//! The fields of each packet of a client that plays, read by its id: one arm a packet.

ghost use Rattle.mc_bytes.specs.Reading.{Gives};
ghost use Rattle.mc_fields.specs.Row.{GivesRow, fields_read, id_read};
ghost use Rattle.mc_up.specs.PlayUp.{plugin, rows, rows_08, rows_10, rows_18};

use crate::PlayUp;
use crate::play_up::parts::{Looked, Used};
use mc_bytes::{Cursor, Octets, ReadError, Text};
use mc_fields::{Bounded, Cell, Field, RowError, RowFault, VarInt};
use mc_slots::Slot;
use std::alloc::Global;

/// Reads the fields of the packet with this id.
#[tactic(auto, unfolding(crate::specs::PlayUp::rows))]
pub fn read_fields(alloc: Global, cursor: &mut Cursor<'_>, id: i32) -> Result<PlayUp, RowError>
    ensures { GivesRow (λ packet. (packet, cursor.new)) result (id_read rows id cursor.old) }
{
    match id {
        0x00 => {
            let number = VarInt::get(alloc, cursor)?;
            Ok(PlayUp::KeepAlive(number.0))
        }
        0x01 => {
            let said: Bounded<100> = Field::get(alloc, cursor)?;
            Ok(PlayUp::Chat(said.into_text()))
        }
        0x02 => {
            let (target, used): (VarInt, Used) = Field::get(alloc, cursor)?;
            Ok(PlayUp::UseEntity(target.0, used.kind, used.place))
        }
        0x03 => Ok(PlayUp::Player(Field::get(alloc, cursor)?)),
        0x04 => {
            let (x, y, z, on_ground) = Field::get(alloc, cursor)?;
            Ok(PlayUp::Position { x, y, z, on_ground })
        }
        0x05 => {
            let (yaw, pitch, on_ground) = Field::get(alloc, cursor)?;
            Ok(PlayUp::Look(yaw, pitch, on_ground))
        }
        0x06 => {
            let (x, y, z, yaw, pitch, on_ground) = Field::get(alloc, cursor)?;
            Ok(PlayUp::PositionLook {
                x,
                y,
                z,
                yaw,
                pitch,
                on_ground,
            })
        }
        0x07 => {
            let (status, place, face) = Field::get(alloc, cursor)?;
            Ok(PlayUp::Digging(status, place, face))
        }
        _ => read_from_08(alloc, cursor, id),
    }
}

/// Reads the fields of the packet with this id, from 08 on.
#[tactic(auto, unfolding(crate::specs::PlayUp::rows_08))]
fn read_from_08(alloc: Global, cursor: &mut Cursor<'_>, id: i32) -> Result<PlayUp, RowError>
    ensures { GivesRow (λ packet. (packet, cursor.new)) result (id_read rows_08 id cursor.old) }
{
    match id {
        0x08 => {
            let (place, face, item, x, y, z) = Field::get(alloc, cursor)?;
            Ok(PlayUp::Placement {
                place,
                face,
                item,
                x,
                y,
                z,
            })
        }
        0x09 => Ok(PlayUp::Held(Field::get(alloc, cursor)?)),
        0x0A => Ok(PlayUp::Animation),
        0x0B => {
            let (entity, action, boost): (VarInt, VarInt, VarInt) = Field::get(alloc, cursor)?;
            Ok(PlayUp::EntityAction(entity.0, action.0, boost.0))
        }
        0x0C => {
            let (sideways, forward, flags) = Field::get(alloc, cursor)?;
            Ok(PlayUp::Steer(sideways, forward, flags))
        }
        0x0D => Ok(PlayUp::CloseWindow(Field::get(alloc, cursor)?)),
        0x0E => {
            let (window, slot, button, number, mode, item) = Field::get(alloc, cursor)?;
            Ok(PlayUp::ClickWindow {
                window,
                slot,
                button,
                number,
                mode,
                item,
            })
        }
        0x0F => {
            let (window, number, accepted) = Field::get(alloc, cursor)?;
            Ok(PlayUp::Confirm(window, number, accepted))
        }
        _ => read_from_10(alloc, cursor, id),
    }
}

/// A channel between plugins, and all bytes after it.
fn read_plugin(alloc: Global, cursor: &mut Cursor<'_>) -> Result<PlayUp, ReadError>
    ensures { Gives (λ packet. (packet, cursor.new)) result (fields_read plugin cursor.old) }
{
    let channel = Text::get(alloc, cursor)?;
    let bytes = Octets::from_slice(alloc, cursor.take_rest())?;
    Ok(PlayUp::Plugin(channel, bytes))
}

/// Reads the fields of the packet with this id, from 10 on.
#[tactic(auto, unfolding(crate::specs::PlayUp::rows_10))]
fn read_from_10(alloc: Global, cursor: &mut Cursor<'_>, id: i32) -> Result<PlayUp, RowError>
    ensures { GivesRow (λ packet. (packet, cursor.new)) result (id_read rows_10 id cursor.old) }
{
    match id {
        0x10 => {
            let (slot, item) = Field::get(alloc, cursor)?;
            Ok(PlayUp::Creative(slot, item))
        }
        0x11 => {
            let (window, enchantment) = Field::get(alloc, cursor)?;
            Ok(PlayUp::Enchant(window, enchantment))
        }
        0x12 => {
            let (place, first, second, third, fourth) = Field::get(alloc, cursor)?;
            Ok(PlayUp::Sign {
                place,
                first,
                second,
                third,
                fourth,
            })
        }
        0x13 => {
            let (flags, flying, walking) = Field::get(alloc, cursor)?;
            Ok(PlayUp::Abilities(flags, flying, walking))
        }
        0x14 => {
            let (typed, looked): (Text, Looked) = Field::get(alloc, cursor)?;
            Ok(PlayUp::TabComplete(typed, looked.looks, looked.place))
        }
        0x15 => {
            let (locale, view, chat_mode, colours, skin) = Field::get(alloc, cursor)?;
            Ok(PlayUp::Settings {
                locale,
                view,
                chat_mode,
                colours,
                skin,
            })
        }
        0x16 => {
            let action = VarInt::get(alloc, cursor)?;
            Ok(PlayUp::ClientStatus(action.0))
        }
        0x17 => Ok(read_plugin(alloc, cursor)?),
        _ => read_from_18(alloc, cursor, id),
    }
}

/// Reads the fields of the packet with this id, from 18 on.
#[tactic(auto, unfolding(crate::specs::PlayUp::rows_18))]
fn read_from_18(alloc: Global, cursor: &mut Cursor<'_>, id: i32) -> Result<PlayUp, RowError>
    ensures { GivesRow (λ packet. (packet, cursor.new)) result (id_read rows_18 id cursor.old) }
{
    match id {
        0x18 => Ok(PlayUp::Spectate(Field::get(alloc, cursor)?)),
        0x19 => {
            let (hash, outcome): (Text, VarInt) = Field::get(alloc, cursor)?;
            Ok(PlayUp::ResourcePack(hash, outcome.0))
        }
        _ => Err(RowError::Fault(RowFault::UnknownId(id))),
    }
}
