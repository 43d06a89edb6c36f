//! Packets to a client in play, and metadata: `down FRAME` and `meta BYTES` read one and write it
//! again, `again FRAME` reads a packet and says only what it is written as, and `destroy NUMBER ..`
//! makes one.

use crate::fields::packet_read;
use crate::parts::{Put, put_named};
use mc_down::read_down;
use mc_packets::{Down, Varints, read_meta, write_down, write_meta};
use mc_rows::{Answer, Words};

/// Reads a packet.
pub fn down(words: &mut Words<'_>, answer: &mut Answer) {
    let frame = words.bytes();
    match read_down(words.alloc, &frame) {
        Ok(packet) => {
            put_state(&packet, answer);
            let mut out = Vec::new(words.alloc);
            answer.needs(write_down(&packet, &mut out));
            drop(packet);
            answer.frame_again(&frame, &out);
        }
        Err(error) => packet_read(error, answer),
    }
}

/// Reads a packet, and says only what it is written as.
pub fn again(words: &mut Words<'_>, answer: &mut Answer) {
    let frame = words.bytes();
    match read_down(words.alloc, &frame) {
        Ok(packet) => {
            let mut out = Vec::new(words.alloc);
            answer.needs(write_down(&packet, &mut out));
            drop(packet);
            answer.word("read");
            answer.frame_again(&frame, &out);
        }
        Err(error) => packet_read(error, answer),
    }
}

/// Makes a packet from a list of numbers.
pub fn destroy(words: &mut Words<'_>, answer: &mut Answer) {
    let mut list = Varints::new(words.alloc);
    for _ in 0..64 {
        if words.is_more() {
            answer.needs(list.push(words.number()));
        }
    }
    let packet = Down::Destroy(list);
    put_state(&packet, answer);
    drop(packet);
}

/// Reads metadata.
pub fn meta(words: &mut Words<'_>, answer: &mut Answer) {
    let input = words.marked();
    match read_meta(words.alloc, &input.bytes, input.at) {
        Ok((list, end)) => {
            (&list).put(answer);
            answer.at(end);
            let mut out = input.front();
            answer.needs(write_meta(&list, &mut out));
            drop(list);
            answer.again(&input, end, &out);
        }
        Err(fault) => answer.read_fault(fault),
    }
}

/// Puts the fields of a packet, in their order: the connection and what is said.
fn put_state(packet: &Down, answer: &mut Answer) {
    match packet {
        Down::KeepAlive(id) => put_named("KeepAlive", id, answer),
        Down::JoinGame {
            eid,
            mode,
            dimension,
            difficulty,
            max_players,
            level_type,
            reduced_debug_info,
        } => {
            let players = (max_players, level_type, reduced_debug_info);
            put_named(
                "JoinGame",
                ((eid, mode), (dimension, difficulty), players),
                answer,
            );
        }
        Down::Respawn {
            dimension,
            difficulty,
            mode,
            level_type,
        } => put_named("Respawn", (dimension, difficulty, mode, level_type), answer),
        Down::Disconnect(reason) => put_named("Disconnect", reason, answer),
        Down::Chat(json, place) => put_named("Chat", (json, place), answer),
        Down::List(action, list) => put_named("List", (action, list), answer),
        _ => put_own(packet, answer),
    }
}

/// Puts the fields of a packet: the state of the player, and what is kept as it is.
/// Dear to prove: eight arms in a match on an enum of many forms.
fn put_own(packet: &Down, answer: &mut Answer) {
    match packet {
        Down::Health(health, food, saturation) => {
            put_named("Health", (health, food, saturation), answer);
        }
        Down::PositionLook {
            x,
            y,
            z,
            yaw,
            pitch,
            flags,
        } => put_named("PositionLook", ((x, y, z), (yaw, pitch, flags)), answer),
        Down::Held(index) => put_named("Held", index, answer),
        Down::Experience(bar, level, all) => put_named("Experience", (bar, level, all), answer),
        Down::Abilities(flags, flying, view) => put_named(
            "Abilities",
            (flags, flying, view),
            answer,
        ),
        Down::TabComplete(list) => put_named("TabComplete", list, answer),
        Down::Plugin(channel, bytes) => put_named("Plugin", (channel, bytes), answer),
        Down::Raw(id, bytes) => put_named("Raw", (id, bytes), answer),
        _ => put_spawn(packet, answer),
    }
}

/// Puts the fields of a packet: entities that come.
fn put_spawn(packet: &Down, answer: &mut Answer) {
    match packet {
        Down::SpawnPlayer {
            eid,
            uuid,
            x,
            y,
            z,
            yaw,
            pitch,
            item,
            metas,
        } => {
            let look = (yaw, pitch, item, metas);
            put_named("SpawnPlayer", ((eid, uuid), (x, y, z), look), answer);
        }
        Down::SpawnObject {
            eid,
            kind,
            x,
            y,
            z,
            pitch,
            yaw,
            extra,
            speed,
        } => {
            let look = (pitch, yaw, extra, speed);
            put_named("SpawnObject", ((eid, kind), (x, y, z), look), answer);
        }
        _ => put_mob(packet, answer),
    }
}

/// Puts the fields of a packet: mobs that come, entities that go, and what they have.
fn put_mob(packet: &Down, answer: &mut Answer) {
    match packet {
        Down::SpawnMob {
            eid,
            kind,
            x,
            y,
            z,
            yaw,
            pitch,
            head,
            dx,
            dy,
            dz,
            metas,
        } => {
            let speed = (dx, dy, dz, metas);
            put_named(
                "SpawnMob",
                ((eid, kind), (x, y, z), (yaw, pitch, head), speed),
                answer,
            );
        }
        Down::Collect(item, taker) => put_named("Collect", (item, taker), answer),
        Down::Destroy(list) => put_named("Destroy", list, answer),
        Down::Meta(eid, list) => put_named("Meta", (eid, list), answer),
        Down::Equipment(eid, place, item) => put_named("Equipment", (eid, place, item), answer),
        _ => put_gesture(packet, answer),
    }
}

/// Puts the fields of a packet: what entities do, and their steps.
fn put_gesture(packet: &Down, answer: &mut Answer) {
    match packet {
        Down::Animation(eid, kind) => put_named("Animation", (eid, kind), answer),
        Down::Status(eid, kind) => put_named("Status", (eid, kind), answer),
        Down::Attach(eid, vehicle, leash) => put_named("Attach", (eid, vehicle, leash), answer),
        Down::Velocity { eid, dx, dy, dz } => put_named("Velocity", (eid, dx, dy, dz), answer),
        Down::Entity(eid) => put_named("Entity", eid, answer),
        Down::Step {
            eid,
            dx,
            dy,
            dz,
            on_ground,
        } => put_named("Step", ((eid, dx, dy), (dz, on_ground)), answer),
        _ => put_move(packet, answer),
    }
}

/// Puts the fields of a packet: entities that are elsewhere or look elsewhere.
fn put_move(packet: &Down, answer: &mut Answer) {
    match packet {
        Down::Teleport {
            eid,
            x,
            y,
            z,
            yaw,
            pitch,
            on_ground,
        } => put_named(
            "Teleport",
            ((eid, x, y, z), (yaw, pitch, on_ground)),
            answer,
        ),
        Down::Look {
            eid,
            yaw,
            pitch,
            on_ground,
        } => put_named("Look", (eid, yaw, pitch, on_ground), answer),
        Down::StepLook {
            eid,
            dx,
            dy,
            dz,
            yaw,
            pitch,
            on_ground,
        } => put_named(
            "StepLook",
            ((eid, dx, dy, dz), (yaw, pitch, on_ground)),
            answer,
        ),
        Down::HeadLook(eid, yaw) => put_named("HeadLook", (eid, yaw), answer),
        _ => put_world(packet, answer),
    }
}

/// Puts the fields of a packet: the world.
fn put_world(packet: &Down, answer: &mut Answer) {
    match packet {
        Down::Time(age, day) => put_named("Time", (age, day), answer),
        Down::SpawnPosition(place) => put_named("SpawnPosition", place, answer),
        Down::GameState(kind, value) => put_named("GameState", (kind, value), answer),
        Down::Difficulty(level) => put_named("Difficulty", level, answer),
        Down::Chunk {
            cx,
            cz,
            ground_up,
            mask,
            body,
        } => put_named("Chunk", ((cx, cz), (ground_up, mask), body), answer),
        Down::MultiChange(cx, cz, list) => put_named("MultiChange", (cx, cz, list), answer),
        Down::Change(place, state) => put_named("Change", (place, state), answer),
        Down::SignEditor(place) => put_named("SignEditor", place, answer),
        _ => put_window(packet, answer),
    }
}

/// Puts the fields of a packet: windows.
fn put_window(packet: &Down, answer: &mut Answer) {
    match packet {
        Down::OpenWindow {
            window,
            kind,
            title,
            slots,
            horse,
        } => put_named(
            "OpenWindow",
            ((window, kind, title), (slots, horse)),
            answer,
        ),
        Down::CloseWindow(window) => put_named("CloseWindow", window, answer),
        Down::WindowProperty(window, property, value) => {
            put_named("WindowProperty", (window, property, value), answer);
        }
        Down::SetSlot(window, index, item) => put_named("SetSlot", (window, index, item), answer),
        Down::WindowItems(window, list) => put_named("WindowItems", (window, list), answer),
        Down::Confirm(window, click, accepted) => {
            put_named("Confirm", (window, click, accepted), answer);
        }
        _ => answer.word("another packet"),
    }
}
