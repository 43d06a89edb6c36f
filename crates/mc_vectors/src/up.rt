//! Packets before play and to the server: `PHASE FRAME` reads one and writes it again.

use crate::fields::packet_read;
use crate::parts::put_named;
use mc_rows::{Answer, Words};
use mc_up::{
    Hand, LoginDown, LoginUp, PlayUp, StatusDown, StatusUp, read_hand, read_login_down,
    read_login_up, read_play_up, read_status_down, read_status_up, write_hand, write_login_down,
    write_login_up, write_play_up, write_status_down, write_status_up,
};

/// Reads the packet of a connection's first frame.
pub fn hand(words: &mut Words<'_>, answer: &mut Answer) {
    let frame = words.bytes();
    match read_hand(words.alloc, &frame) {
        Ok(packet) => {
            put_hand(&packet, answer);
            let mut out = Vec::new(words.alloc);
            answer.needs(write_hand(&packet, &mut out));
            drop(packet);
            answer.frame_again(&frame, &out);
        }
        Err(error) => packet_read(error, answer),
    }
}

/// Puts the fields of such a packet.
fn put_hand(packet: &Hand, answer: &mut Answer) {
    match packet {
        Hand::Handshake {
            protocol,
            address,
            port,
            next,
        } => {
            put_named("Handshake", (protocol, address, port, next), answer);
            answer.word(*next == 1);
        }
    }
}

/// Reads a packet of a client that asks for the status.
pub fn status_up(words: &mut Words<'_>, answer: &mut Answer) {
    let frame = words.bytes();
    match read_status_up(&frame) {
        Ok(packet) => {
            match packet {
                StatusUp::Request => answer.word("Request"),
                StatusUp::Ping(ping) => put_named("Ping", &ping, answer),
            }
            let mut out = Vec::new(words.alloc);
            answer.needs(write_status_up(&packet, &mut out));
            drop(packet);
            answer.frame_again(&frame, &out);
        }
        Err(error) => packet_read(error, answer),
    }
}

/// Reads a packet to a client that asks for the status.
pub fn status_down(words: &mut Words<'_>, answer: &mut Answer) {
    let frame = words.bytes();
    match read_status_down(words.alloc, &frame) {
        Ok(packet) => {
            put_status_down(&packet, answer);
            let mut out = Vec::new(words.alloc);
            answer.needs(write_status_down(&packet, &mut out));
            drop(packet);
            answer.frame_again(&frame, &out);
        }
        Err(error) => packet_read(error, answer),
    }
}

/// Puts the fields of such a packet.
fn put_status_down(packet: &StatusDown, answer: &mut Answer) {
    match packet {
        StatusDown::Response(json) => put_named("Response", json, answer),
        StatusDown::Pong(ping) => put_named("Pong", ping, answer),
    }
}

/// Reads a packet of a client that logs in.
pub fn login_up(words: &mut Words<'_>, answer: &mut Answer) {
    let frame = words.bytes();
    match read_login_up(words.alloc, &frame) {
        Ok(packet) => {
            let LoginUp::Start(name) = &packet;
            put_named("Start", name, answer);
            let mut out = Vec::new(words.alloc);
            answer.needs(write_login_up(&packet, &mut out));
            drop(packet);
            answer.frame_again(&frame, &out);
        }
        Err(error) => packet_read(error, answer),
    }
}

/// Reads a packet to a client that logs in.
pub fn login_down(words: &mut Words<'_>, answer: &mut Answer) {
    let frame = words.bytes();
    match read_login_down(words.alloc, &frame) {
        Ok(packet) => {
            put_login_down(&packet, answer);
            let mut out = Vec::new(words.alloc);
            answer.needs(write_login_down(&packet, &mut out));
            drop(packet);
            answer.frame_again(&frame, &out);
        }
        Err(error) => packet_read(error, answer),
    }
}

/// Puts the fields of such a packet.
fn put_login_down(packet: &LoginDown, answer: &mut Answer) {
    match packet {
        LoginDown::Disconnect(reason) => put_named("Disconnect", reason, answer),
        LoginDown::Success(id, name) => put_named("Success", (id, name), answer),
    }
}

/// Reads a packet of a client that plays.
pub fn play_up(words: &mut Words<'_>, answer: &mut Answer) {
    let frame = words.bytes();
    match read_play_up(words.alloc, &frame) {
        Ok(packet) => {
            put_play_up(&packet, answer);
            let mut out = Vec::new(words.alloc);
            answer.needs(write_play_up(&packet, &mut out));
            drop(packet);
            answer.frame_again(&frame, &out);
        }
        Err(error) => packet_read(error, answer),
    }
}

/// Puts the fields of such a packet, in their order.
fn put_play_up(packet: &PlayUp, answer: &mut Answer) {
    match packet {
        PlayUp::KeepAlive(id) => put_named("KeepAlive", id, answer),
        PlayUp::Chat(said) => put_named("Chat", said, answer),
        PlayUp::UseEntity(target, kind, hit) => put_named("UseEntity", (target, kind, hit), answer),
        PlayUp::Digging(status, place, face) => put_named("Digging", (status, place, face), answer),
        PlayUp::CloseWindow(window) => put_named("CloseWindow", window, answer),
        PlayUp::Confirm(window, click, accepted) => {
            put_named("Confirm", (window, click, accepted), answer);
        }
        PlayUp::Creative(index, item) => put_named("Creative", (index, item), answer),
        PlayUp::Enchant(window, enchantment) => put_named("Enchant", (window, enchantment), answer),
        _ => put_place_up(packet, answer),
    }
}

/// Puts the fields of such a packet: where the player is.
fn put_place_up(packet: &PlayUp, answer: &mut Answer) {
    match packet {
        PlayUp::Player(on_ground) => put_named("Player", on_ground, answer),
        PlayUp::Position { x, y, z, on_ground } => put_named(
            "Position",
            (x, y, z, on_ground),
            answer,
        ),
        PlayUp::Look(yaw, pitch, on_ground) => put_named("Look", (yaw, pitch, on_ground), answer),
        PlayUp::PositionLook {
            x,
            y,
            z,
            yaw,
            pitch,
            on_ground,
        } => put_named("PositionLook", ((x, y, z), (yaw, pitch, on_ground)), answer),
        _ => put_act_up(packet, answer),
    }
}

/// Puts the fields of such a packet: what the player does.
fn put_act_up(packet: &PlayUp, answer: &mut Answer) {
    match packet {
        PlayUp::Placement {
            place,
            face,
            item,
            x,
            y,
            z,
        } => put_named("Placement", ((place, face, item), (x, y, z)), answer),
        PlayUp::ClickWindow {
            window,
            slot,
            button,
            number,
            mode,
            item,
        } => put_named(
            "ClickWindow",
            ((window, slot, button), (number, mode, item)),
            answer,
        ),
        PlayUp::Held(index) => put_named("Held", index, answer),
        PlayUp::Animation => answer.word("Animation"),
        PlayUp::EntityAction(entity, action, boost) => {
            put_named("EntityAction", (entity, action, boost), answer);
        }
        PlayUp::Steer(sideways, forward, flags) => {
            put_named("Steer", (sideways, forward, flags), answer);
        }
        _ => put_words_up(packet, answer),
    }
}

/// Puts the fields of such a packet: what the player writes and sets.
/// Dear to prove: eight arms in a match on an enum of many forms.
fn put_words_up(packet: &PlayUp, answer: &mut Answer) {
    match packet {
        PlayUp::Sign {
            place,
            first,
            second,
            third,
            fourth,
        } => put_named("Sign", ((place, first), (second, third, fourth)), answer),
        PlayUp::TabComplete(typed, looks, place) => {
            put_named("TabComplete", (typed, looks, place), answer);
        }
        PlayUp::Settings {
            locale,
            view,
            chat_mode,
            colours,
            skin,
        } => put_named(
            "Settings",
            ((locale, view, chat_mode), (colours, skin)),
            answer,
        ),
        PlayUp::Abilities(flags, flying, walking) => {
            put_named("Abilities", (flags, flying, walking), answer);
        }
        PlayUp::ClientStatus(action) => put_named("ClientStatus", action, answer),
        PlayUp::Plugin(channel, bytes) => put_named("Plugin", (channel, bytes), answer),
        PlayUp::Spectate(player) => put_named("Spectate", player, answer),
        PlayUp::ResourcePack(hash, outcome) => put_named("ResourcePack", (hash, outcome), answer),
        _ => answer.word("another packet"),
    }
}
