//! Packets to a client, written.
#![tactic(auto, using(mc_bytes::proofs::Kept::kept_whole, mc_bytes::proofs::Kept::kept_same, mc_bytes::proofs::Kept::kept_by, mc_bytes::proofs::Kept::kept_past))]

ghost use Rattle.std.specs.Prelude.{◌≡◌, ◌++◌, List, ℕ, Ok, OnOk, OnErr, take, length};
ghost use Rattle.mc_fields.specs.Row.{packet_read, row_fits, row_append};
ghost use Rattle.mc_packets.specs.Down.{spawn_object, spawn_mob, rows, SpellsDown, FitsDown};
ghost use Rattle.mc_packets.specs.Down.{spelling_of, append_of};

use crate::parts::{write_int_if, write_speed_if};
use crate::player_list::write_player_list;
use crate::{Down, Metas, Speed};
use mc_bytes::{NoMemory, write_octets};
use mc_fields::{
    VarInt, put_row, put_row2, put_row3, put_row4, put_row5, put_row6, put_row7, write_varint,
};

/// An object, with its speed where it is there.
fn write_object(
    eid: i32,
    kind: i8,
    place: (i32, i32, i32),
    turns: (u8, u8),
    extra: i32,
    speed: &Option<Speed>,
    out: &mut Vec<u8>,
) -> Result<(), NoMemory>
    requires { row_fits spawn_object ((eid, kind, place, turns, extra), speed.now) }
    ensures ok { OnOk result (out.new.items ≡
        row_append spawn_object ((eid, kind, place, turns, extra), speed.now) out.old.items) }
    ensures kept { take (length out.old.items) out.new.items ≡ out.old.items }
{
    put_row5(0x0E, &VarInt(eid), &kind, &place, &turns, &extra, out)?;
    write_speed_if(speed, out)?;
    Ok(())
}

/// A mob.
fn write_mob(
    eid: i32,
    kind: u8,
    place: (i32, i32, i32),
    turns: (u8, u8, u8),
    speed: (i16, i16, i16),
    metas: &Metas,
    out: &mut Vec<u8>,
) -> Result<(), NoMemory>
    requires { row_fits spawn_mob (eid, kind, place, turns, speed, metas.now) }
    ensures ok { OnOk result (out.new.items ≡
        row_append spawn_mob (eid, kind, place, turns, speed, metas.now) out.old.items) }
    ensures kept { take (length out.old.items) out.new.items ≡ out.old.items }
{
    put_row6(
        0x0F,
        &VarInt(eid),
        &kind,
        &place,
        &turns,
        &speed,
        metas,
        out,
    )?;
    Ok(())
}

/// The id and the fields of a packet; without memory some first part of them.
fn write_fields(packet: &Down, out: &mut Vec<u8>) -> Result<(), NoMemory>
    requires { FitsDown packet.now }
    ensures ok { OnOk result (out.new.items ≡ append_of packet.now out.old.items) }
    ensures begun { OnErr result (take (length out.old.items) out.new.items ≡ out.old.items) }
{
    // Dear to prove, for its 45 forms: wide rows as functions of their own gain nothing, and rows
    // that are taken out make others dearer.
    match packet {
        Down::KeepAlive(number) => put_row(0x00, &VarInt(*number), out),
        Down::JoinGame {
            eid,
            mode,
            dimension,
            difficulty,
            max_players,
            level_type,
            reduced_debug_info,
        } => put_row7(
            0x01,
            eid,
            mode,
            dimension,
            difficulty,
            max_players,
            level_type,
            reduced_debug_info,
            out,
        ),
        Down::Chat(message, place) => put_row2(0x02, message, place, out),
        Down::Time(age, daytime) => put_row2(0x03, age, daytime, out),
        Down::Equipment(eid, worn, item) => put_row3(0x04, &VarInt(*eid), worn, item, out),
        Down::SpawnPosition(cell) => put_row(0x05, cell, out),
        Down::Health(points, food, saturation) => put_row3(
            0x06,
            points,
            &VarInt(*food),
            saturation,
            out,
        ),
        Down::Respawn {
            dimension,
            difficulty,
            mode,
            level_type,
        } => put_row4(0x07, dimension, difficulty, mode, level_type, out),
        Down::PositionLook {
            x,
            y,
            z,
            yaw,
            pitch,
            flags,
        } => put_row6(0x08, x, y, z, yaw, pitch, flags, out),
        Down::Held(index) => put_row(0x09, index, out),
        Down::Animation(eid, motion) => put_row2(0x0B, &VarInt(*eid), motion, out),
        Down::SpawnPlayer {
            eid,
            uuid,
            x,
            y,
            z,
            yaw,
            pitch,
            item,
            metas,
        } => put_row6(
            0x0C,
            &VarInt(*eid),
            uuid,
            &(*x, *y, *z),
            &(*yaw, *pitch),
            item,
            metas,
            out,
        ),
        Down::Collect(item, collector) => put_row2(0x0D, &VarInt(*item), &VarInt(*collector), out),
        Down::SpawnObject {
            eid,
            kind,
            x,
            y,
            z,
            pitch,
            yaw,
            extra,
            speed,
        } => write_object(
            *eid,
            *kind,
            (*x, *y, *z),
            (*pitch, *yaw),
            *extra,
            speed,
            out,
        ),
        Down::SpawnMob {
            eid,
            kind,
            x,
            y,
            z,
            yaw,
            pitch,
            head,
            dx,
            dy,
            dz,
            metas,
        } => write_mob(
            *eid,
            *kind,
            (*x, *y, *z),
            (*yaw, *pitch, *head),
            (*dx, *dy, *dz),
            metas,
            out,
        ),
        Down::Velocity { eid, dx, dy, dz } => put_row4(0x12, &VarInt(*eid), dx, dy, dz, out),
        Down::Destroy(eids) => put_row(0x13, eids, out),
        Down::Entity(eid) => put_row(0x14, &VarInt(*eid), out),
        Down::Step {
            eid,
            dx,
            dy,
            dz,
            on_ground,
        } => put_row5(0x15, &VarInt(*eid), dx, dy, dz, on_ground, out),
        Down::Look {
            eid,
            yaw,
            pitch,
            on_ground,
        } => put_row4(0x16, &VarInt(*eid), yaw, pitch, on_ground, out),
        Down::StepLook {
            eid,
            dx,
            dy,
            dz,
            yaw,
            pitch,
            on_ground,
        } => put_row7(0x17, &VarInt(*eid), dx, dy, dz, yaw, pitch, on_ground, out),
        Down::Teleport {
            eid,
            x,
            y,
            z,
            yaw,
            pitch,
            on_ground,
        } => put_row7(0x18, &VarInt(*eid), x, y, z, yaw, pitch, on_ground, out),
        Down::HeadLook(eid, head) => put_row2(0x19, &VarInt(*eid), head, out),
        Down::Status(eid, event) => put_row2(0x1A, eid, event, out),
        Down::Attach(eid, vehicle, is_leash) => put_row3(0x1B, eid, vehicle, is_leash, out),
        Down::Meta(eid, metas) => put_row2(0x1C, &VarInt(*eid), metas, out),
        Down::Experience(bar, level, total) => put_row3(
            0x1F,
            bar,
            &VarInt(*level),
            &VarInt(*total),
            out,
        ),
        Down::Chunk {
            cx,
            cz,
            ground_up,
            mask,
            body,
        } => put_row5(0x21, cx, cz, ground_up, mask, body, out),
        Down::MultiChange(cx, cz, records) => put_row3(0x22, cx, cz, records, out),
        Down::Change(cell, state) => put_row2(0x23, cell, &VarInt(*state), out),
        Down::GameState(reason, value) => put_row2(0x2B, reason, value, out),
        Down::OpenWindow {
            window,
            kind,
            title,
            slots,
            horse,
        } => {
            put_row4(0x2D, window, kind, title, slots, out)?;
            write_int_if(horse, out)
        }
        Down::CloseWindow(window) => put_row(0x2E, window, out),
        Down::SetSlot(window, index, item) => put_row3(0x2F, window, index, item, out),
        Down::WindowItems(window, items) => put_row2(0x30, window, items, out),
        Down::WindowProperty(window, property, value) => put_row3(
            0x31, window, property, value, out,
        ),
        Down::Confirm(window, number, accepted) => put_row3(0x32, window, number, accepted, out),
        Down::SignEditor(cell) => put_row(0x36, cell, out),
        Down::List(action, changes) => write_player_list(action, changes, out),
        Down::Abilities(flags, flying, walking) => put_row3(0x39, flags, flying, walking, out),
        Down::TabComplete(matches) => put_row(0x3A, matches, out),
        Down::Plugin(channel, content) => {
            put_row(0x3F, channel, out)?;
            write_octets(content.as_slice(), out)
        }
        Down::Disconnect(reason) => put_row(0x40, reason, out),
        Down::Difficulty(level) => put_row(0x41, level, out),
        Down::Raw(id, bytes) => {
            write_varint(*id, out)?;
            write_octets(bytes.as_slice(), out)
        }
    }
}

/// Appends a packet, with its VarInts the shortest and the bytes of a chunk whole. Without memory
/// `out` is as before.
pub fn write_down(packet: &Down, out: &mut Vec<u8>) -> Result<(), NoMemory>
    // It has a spelling.
    requires { (bytes : List ℕ) × SpellsDown packet.now bytes }
    ensures ok { OnOk result (out.new.items ≡ out.old.items ++ spelling_of packet.now) }
    ensures spelled { SpellsDown packet.now (spelling_of packet.now) }
    // What is written is read as the same packet.
    ensures again { packet_read rows (spelling_of packet.now) ≡ Ok packet.now }
    ensures err { OnErr result (out.new.items ≡ out.old.items) }
{
    let start = out.len();
    let written = write_fields(packet, out);
    if written.is_err() {
        out.truncate(start);
    }
    written
}
