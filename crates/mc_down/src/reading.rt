//! Packets to a client, read.

ghost use Rattle.std.specs.Prelude.{◌≡◌, true, List, ℕ, Ok, IfOk};
ghost use Rattle.mc_bytes.specs.Reading.{Gives};
ghost use Rattle.mc_fields.specs.Row.{GivesRow, GivesPacket, fields_read, id_read, packet_read};
ghost use Rattle.mc_fields.specs.Row.{packet_of, is_one_of};
ghost use Rattle.mc_packets.specs.declared.down.Down.{Down};
ghost use Rattle.mc_packets.specs.Down.{is_raw, raw, plugin, rows_from_00, rows_from_08};
ghost use Rattle.mc_packets.specs.Down.{rows_from_13};
ghost use Rattle.mc_packets.specs.Down.{rows_from_1B, rows_from_2E, rows_from_3A, rows, SpellsDown};

use mc_bytes::{Cursor, ReadError, Text};
use mc_fields::{Field, PacketRead, RowError, RowFault, VarInt, take_varint, whole};
use mc_packets::{Down, is_horse, read_player_list, take_horse_if, take_rest, take_speed_if};
use std::alloc::Global;

/// Whether a packet's fields are not taken apart.
fn is_raw(id: i32) -> bool
    ensures { result ≡ is_one_of is_raw id }
{
    matches!(
        id,
        0x0A | 0x10
            | 0x11
            | 0x1D
            | 0x1E
            | 0x20
            | 0x24..=0x2A
            | 0x2C
            | 0x33..=0x35
            | 0x37
            | 0x3B..=0x3E
            | 0x42..=0x45
            | 0x47..=0x49
    )
}

/// All bytes after such an id.
fn read_raw(alloc: Global, cursor: &mut Cursor<'_>, id: i32) -> Result<Down, ReadError>
    requires { is_one_of is_raw id ≡ true }
    ensures { Gives (λ packet. (packet, cursor.new)) result (fields_read (raw id) cursor.old) }
{
    let bytes = take_rest(alloc, cursor)?;
    Ok(Down::Raw(id, bytes))
}

/// A channel between plugins, and all bytes after it.
fn read_plugin(alloc: Global, cursor: &mut Cursor<'_>) -> Result<Down, ReadError>
    ensures { Gives (λ packet. (packet, cursor.new)) result (fields_read plugin cursor.old) }
{
    let channel = Text::get(alloc, cursor)?;
    let content = take_rest(alloc, cursor)?;
    Ok(Down::Plugin(channel, content))
}

/// The fields of the packet with this id, from 3A on.
#[tactic(auto, unfolding(mc_packets::specs::Down::rows_from_3A))]
fn read_from_3a(alloc: Global, cursor: &mut Cursor<'_>, id: i32) -> Result<Down, RowError>
    ensures { GivesRow (λ read. (read, cursor.new)) result (id_read rows_from_3A id cursor.old) }
{
    match id {
        0x3A => Ok(Down::TabComplete(Field::get(alloc, cursor)?)),
        0x3F => Ok(read_plugin(alloc, cursor)?),
        0x40 => Ok(Down::Disconnect(Field::get(alloc, cursor)?)),
        0x41 => Ok(Down::Difficulty(Field::get(alloc, cursor)?)),
        _ => Err(RowError::Fault(RowFault::UnknownId(id))),
    }
}

/// The fields of the packet with this id, from 2E on.
#[tactic(auto, unfolding(mc_packets::specs::Down::rows_from_2E))]
fn read_from_2e(alloc: Global, cursor: &mut Cursor<'_>, id: i32) -> Result<Down, RowError>
    ensures { GivesRow (λ read. (read, cursor.new)) result (id_read rows_from_2E id cursor.old) }
{
    match id {
        0x2E => Ok(Down::CloseWindow(Field::get(alloc, cursor)?)),
        0x2F => {
            let (window, index, item) = Field::get(alloc, cursor)?;
            Ok(Down::SetSlot(window, index, item))
        }
        0x30 => {
            let (window, items) = Field::get(alloc, cursor)?;
            Ok(Down::WindowItems(window, items))
        }
        0x31 => {
            let (window, property, value) = Field::get(alloc, cursor)?;
            Ok(Down::WindowProperty(window, property, value))
        }
        0x32 => {
            let (window, number, accepted) = Field::get(alloc, cursor)?;
            Ok(Down::Confirm(window, number, accepted))
        }
        0x36 => Ok(Down::SignEditor(Field::get(alloc, cursor)?)),
        0x38 => Ok(read_player_list(alloc, cursor)?),
        0x39 => {
            let (flags, flying, walking) = Field::get(alloc, cursor)?;
            Ok(Down::Abilities(flags, flying, walking))
        }
        _ => read_from_3a(alloc, cursor, id),
    }
}

/// The fields of the packet with this id, from 1B on.
#[tactic(auto, unfolding(mc_packets::specs::Down::rows_from_1B))]
fn read_from_1b(alloc: Global, cursor: &mut Cursor<'_>, id: i32) -> Result<Down, RowError>
    ensures { GivesRow (λ read. (read, cursor.new)) result (id_read rows_from_1B id cursor.old) }
{
    match id {
        0x1B => {
            let (eid, vehicle, is_leash) = Field::get(alloc, cursor)?;
            Ok(Down::Attach(eid, vehicle, is_leash))
        }
        0x1C => {
            let (VarInt(eid), metas) = Field::get(alloc, cursor)?;
            Ok(Down::Meta(eid, metas))
        }
        0x1F => {
            let (bar, VarInt(level), VarInt(total)) = Field::get(alloc, cursor)?;
            Ok(Down::Experience(bar, level, total))
        }
        0x21 => {
            let (cx, cz, ground_up, mask, body) = Field::get(alloc, cursor)?;
            Ok(Down::Chunk {
                cx,
                cz,
                ground_up,
                mask,
                body,
            })
        }
        0x22 => {
            let (cx, cz, records) = Field::get(alloc, cursor)?;
            Ok(Down::MultiChange(cx, cz, records))
        }
        0x23 => {
            let (cell, VarInt(state)) = Field::get(alloc, cursor)?;
            Ok(Down::Change(cell, state))
        }
        0x2B => {
            let (reason, value) = Field::get(alloc, cursor)?;
            Ok(Down::GameState(reason, value))
        }
        0x2D => {
            let (window, kind, title, slots): (u8, Text, Text, u8) = Field::get(alloc, cursor)?;
            let horse = take_horse_if(is_horse(kind.as_str()), cursor)?;
            Ok(Down::OpenWindow {
                window,
                kind,
                title,
                slots,
                horse,
            })
        }
        _ => read_from_2e(alloc, cursor, id),
    }
}

/// The fields of the packet with this id, from 13 on.
#[tactic(auto, unfolding(mc_packets::specs::Down::rows_from_13))]
fn read_from_13(alloc: Global, cursor: &mut Cursor<'_>, id: i32) -> Result<Down, RowError>
    ensures { GivesRow (λ read. (read, cursor.new)) result (id_read rows_from_13 id cursor.old) }
{
    match id {
        0x13 => Ok(Down::Destroy(Field::get(alloc, cursor)?)),
        0x14 => {
            let VarInt(eid) = Field::get(alloc, cursor)?;
            Ok(Down::Entity(eid))
        }
        0x15 => {
            let (VarInt(eid), dx, dy, dz, on_ground) = Field::get(alloc, cursor)?;
            Ok(Down::Step {
                eid,
                dx,
                dy,
                dz,
                on_ground,
            })
        }
        0x16 => {
            let (VarInt(eid), yaw, pitch, on_ground) = Field::get(alloc, cursor)?;
            Ok(Down::Look {
                eid,
                yaw,
                pitch,
                on_ground,
            })
        }
        0x17 => {
            let (VarInt(eid), dx, dy, dz, yaw, pitch, on_ground) = Field::get(alloc, cursor)?;
            Ok(Down::StepLook {
                eid,
                dx,
                dy,
                dz,
                yaw,
                pitch,
                on_ground,
            })
        }
        0x18 => {
            let (VarInt(eid), x, y, z, yaw, pitch, on_ground) = Field::get(alloc, cursor)?;
            Ok(Down::Teleport {
                eid,
                x,
                y,
                z,
                yaw,
                pitch,
                on_ground,
            })
        }
        0x19 => {
            let (VarInt(eid), head) = Field::get(alloc, cursor)?;
            Ok(Down::HeadLook(eid, head))
        }
        0x1A => {
            let (eid, event) = Field::get(alloc, cursor)?;
            Ok(Down::Status(eid, event))
        }
        _ => read_from_1b(alloc, cursor, id),
    }
}

/// The fields of the packet with this id, from 08 on.
#[tactic(auto, unfolding(mc_packets::specs::Down::rows_from_08))]
fn read_from_08(alloc: Global, cursor: &mut Cursor<'_>, id: i32) -> Result<Down, RowError>
    ensures { GivesRow (λ read. (read, cursor.new)) result (id_read rows_from_08 id cursor.old) }
{
    match id {
        0x08 => {
            let (x, y, z, yaw, pitch, flags) = Field::get(alloc, cursor)?;
            Ok(Down::PositionLook {
                x,
                y,
                z,
                yaw,
                pitch,
                flags,
            })
        }
        0x09 => Ok(Down::Held(Field::get(alloc, cursor)?)),
        0x0B => {
            let (VarInt(eid), motion) = Field::get(alloc, cursor)?;
            Ok(Down::Animation(eid, motion))
        }
        0x0C => {
            let (VarInt(eid), uuid, (x, y, z), (yaw, pitch), item, metas) = Field::get(
                alloc, cursor,
            )?;
            Ok(Down::SpawnPlayer {
                eid,
                uuid,
                x,
                y,
                z,
                yaw,
                pitch,
                item,
                metas,
            })
        }
        0x0D => {
            let (VarInt(item), VarInt(collector)) = Field::get(alloc, cursor)?;
            Ok(Down::Collect(item, collector))
        }
        0x0E => {
            let (VarInt(eid), kind, (x, y, z), (pitch, yaw), extra) = Field::get(alloc, cursor)?;
            let speed = take_speed_if(extra > 0, cursor)?;
            Ok(Down::SpawnObject {
                eid,
                kind,
                x,
                y,
                z,
                pitch,
                yaw,
                extra,
                speed,
            })
        }
        0x0F => {
            let (VarInt(eid), kind, (x, y, z), (yaw, pitch, head), (dx, dy, dz), metas) =
                Field::get(alloc, cursor)?;
            Ok(Down::SpawnMob {
                eid,
                kind,
                x,
                y,
                z,
                yaw,
                pitch,
                head,
                dx,
                dy,
                dz,
                metas,
            })
        }
        0x12 => {
            let (VarInt(eid), dx, dy, dz) = Field::get(alloc, cursor)?;
            Ok(Down::Velocity { eid, dx, dy, dz })
        }
        _ => read_from_13(alloc, cursor, id),
    }
}

/// The fields of the packet with this id, from 00 on, where they are taken apart.
#[tactic(auto, unfolding(mc_packets::specs::Down::rows_from_00))]
fn read_from_00(alloc: Global, cursor: &mut Cursor<'_>, id: i32) -> Result<Down, RowError>
    ensures { GivesRow (λ read. (read, cursor.new)) result (id_read rows_from_00 id cursor.old) }
{
    match id {
        0x00 => {
            let VarInt(number) = Field::get(alloc, cursor)?;
            Ok(Down::KeepAlive(number))
        }
        0x01 => {
            let (eid, mode, dimension, difficulty, max_players, level_type, reduced_debug_info) =
                Field::get(alloc, cursor)?;
            Ok(Down::JoinGame {
                eid,
                mode,
                dimension,
                difficulty,
                max_players,
                level_type,
                reduced_debug_info,
            })
        }
        0x02 => {
            let (message, place) = Field::get(alloc, cursor)?;
            Ok(Down::Chat(message, place))
        }
        0x03 => {
            let (age, daytime) = Field::get(alloc, cursor)?;
            Ok(Down::Time(age, daytime))
        }
        0x04 => {
            let (VarInt(eid), worn, item) = Field::get(alloc, cursor)?;
            Ok(Down::Equipment(eid, worn, item))
        }
        0x05 => Ok(Down::SpawnPosition(Field::get(alloc, cursor)?)),
        0x06 => {
            let (points, VarInt(food), saturation) = Field::get(alloc, cursor)?;
            Ok(Down::Health(points, food, saturation))
        }
        0x07 => {
            let (dimension, difficulty, mode, level_type) = Field::get(alloc, cursor)?;
            Ok(Down::Respawn {
                dimension,
                difficulty,
                mode,
                level_type,
            })
        }
        _ => read_from_08(alloc, cursor, id),
    }
}

/// The fields of the packet with this id.
#[tactic(auto, unfolding(mc_packets::specs::Down::rows))]
fn read_fields(alloc: Global, cursor: &mut Cursor<'_>, id: i32) -> Result<Down, RowError>
    ensures { GivesRow (λ packet. (packet, cursor.new)) result (id_read rows id cursor.old) }
{
    if is_raw(id) {
        return Ok(read_raw(alloc, cursor, id)?);
    }
    read_from_00(alloc, cursor, id)
}

/// The packet of a frame, or its first fault, with its place counted from the frame's end.
#[tactic(auto, unfolding(mc_fields::specs::Row::packet_read))]
fn packet_in(alloc: Global, frame: &[u8]) -> Result<Down, RowError>
    ensures { GivesRow (λ packet. packet) result (packet_read rows frame.now) }
{
    let mut cursor = Cursor::new(frame);
    let id = take_varint(&mut cursor)?;
    let packet = read_fields(alloc, &mut cursor, id)?;
    Ok(whole(packet, &cursor)?)
}

/// Reads a packet, whose frame is the bytes after the frame's length.
///
/// `UnknownId` where the id reads and names no packet: 46 (hex), a negative one, or one above 49.
/// `Field` where the id or a field does not read, with the first one. `Trailing` where bytes are
/// left after the last field.
pub fn read_down(alloc: Global, frame: &[u8]) -> Result<Down, PacketRead>
    // What is read is spelled so.
    ensures found { IfOk result (λ packet. SpellsDown packet frame.now) }
    // What is spelled so is read, unless memory runs out.
    ensures only { (packet : Down) → SpellsDown packet frame.now → GivesPacket result (Ok packet) }
    // A frame spells one packet at most.
    ensures one { (p q : Down) → SpellsDown p frame.now → SpellsDown q frame.now → p ≡ q }
    // Which fault it is.
    ensures exact { GivesPacket result (packet_of frame.now (packet_read rows frame.now)) }
{
    packet_in(alloc, frame).map_err(|error| error.within(frame.len()))
}
