ghost use Rattle.std.specs.Prelude.{◌≡◌, ◌++◌, IfOk, IfSome, OnOk, OnErr, true, codes};
ghost use lib.IntN.{pos};
ghost use Rattle.mc_fields.specs.Position.{FitsCell};
ghost use Rattle.mc_fields.specs.Text.{FitsText};
ghost use Rattle.mc_model.specs.Numbers.{degrees_of, pattern_of};
ghost use Rattle.mc_replica.specs.Asking.{CanAsk, frame_of};
ghost use Rattle.mc_slots.specs.declared.slot.Slot.TheVariants as slots;
ghost use Rattle.mc_up.specs.declared.play_up.PlayUp.TheVariants as ups;
ghost use Rattle.mc_bot.specs.Asked.{IsInRange, ask_all, ask_one, bytes_of, packets_of, reply_to};

use crate::Act;
use crate::clicking::{Click, click_of};
use mc_bytes::{NoMemory, Text};
use mc_fields::{Cell, degrees, pattern};
use mc_frame::write_frame;
use mc_packets::Down;
use mc_replica::Seer;
use mc_slots::Slot;
use mc_up::{PlayUp, write_play_up};
use std::alloc::Global;

/// The cell that a drop names.
const NOWHERE: Cell = Cell { x: 0, y: 0, z: 0 };

/// A move to a place.
fn move_to(x: i32, y: i32, z: i32) -> PlayUp
    ensures is { result ≡ ups.Position (pattern_of x) (pattern_of y) (pattern_of z) true }
    ensures can { CanAsk result }
{
    PlayUp::Position {
        x: pattern(x),
        y: pattern(y),
        z: pattern(z),
        on_ground: true,
    }
}

/// A look.
fn look_by(yaw: u8, pitch: u8) -> PlayUp
    ensures is { result ≡ ups.Look (degrees_of yaw) (degrees_of pitch) true }
    ensures can { CanAsk result }
{
    PlayUp::Look(degrees(yaw), degrees(pitch), true)
}

/// A step of digging.
fn dig(status: i8, place: Cell, face: i8) -> PlayUp
    requires { FitsCell place }
    ensures is { result ≡ ups.Digging status place face }
    ensures can { CanAsk result }
{
    PlayUp::Digging(status, place, face)
}

/// A drop, of one item or of all.
fn let_fall(status: i8) -> PlayUp
    ensures is { result ≡ ups.Digging status (record { x = pos 0; y = pos 0; z = pos 0 }) (pos 0) }
    ensures can { CanAsk result }
{
    dig(status, NOWHERE, 0)
}

/// What is held is placed at the middle of a face.
fn place_at(place: Cell, face: i8) -> PlayUp
    requires { FitsCell place }
    ensures is { result ≡ ups.Placement place face slots.Empty (pos 8) (pos 8) (pos 8) }
    ensures can { CanAsk result }
{
    PlayUp::Placement {
        place,
        face,
        item: Slot::Empty,
        x: 8,
        y: 8,
        z: 8,
    }
}

/// A slot of the hotbar is held.
fn hold(slot: i16) -> PlayUp
    ensures is { result ≡ ups.Held slot }
    ensures can { CanAsk result }
{
    PlayUp::Held(slot)
}

/// A window is closed.
fn close(window: u8) -> PlayUp
    ensures is { result ≡ ups.CloseWindow window }
    ensures can { CanAsk result }
{
    PlayUp::CloseWindow(window)
}

/// A text is said.
fn say(text: &Text) -> Result<PlayUp, NoMemory>
    requires { FitsText 100 text.now }
    ensures is { IfOk result (λ packet. packet ≡ ups.Chat text.now) }
    ensures can { IfOk result (λ packet. CanAsk packet) }
{
    Ok(PlayUp::Chat(text.copy()?))
}

/// The settings that ask for a view.
fn view_by(alloc: Global, view: i8) -> Result<PlayUp, NoMemory>
    ensures is { IfOk result (λ packet.
        packet ≡ ups.Settings (codes "en_US") view (pos 0) true 127) }
    ensures can { IfOk result (λ packet. CanAsk packet) }
{
    Ok(PlayUp::Settings {
        locale: Text::from_str(alloc, "en_US")?,
        view,
        chat_mode: 0,
        colours: true,
        skin: 127,
    })
}

/// Appends what is to be sent for a packet, and lets go of it.
fn ask<S: Seer>(seer: &mut S, packet: PlayUp, out: &mut Vec<u8>) -> Result<(), NoMemory>
    requires { CanAsk packet }
    ensures { OnOk result (record { seen = seer.new; bytes = out.new.items } ≡
        ask_one S.asked S.sent (record { seen = seer.old; bytes = out.old.items }) packet) }
{
    let done = seer.ask(&packet, out);
    drop(packet);
    done
}

/// Appends what is to be sent for a line; a click has a number. Out of memory some first part of it
/// may have been asked for.
pub fn put_act<S: Seer>(
    alloc: Global,
    seer: &mut S,
    act: &Act,
    number: i16,
    out: &mut Vec<u8>,
) -> Result<(), NoMemory>
    requires { IsInRange act.now }
    ensures { OnOk result (record { seen = seer.new; bytes = out.new.items } ≡
        ask_all S.asked S.sent (record { seen = seer.old; bytes = out.old.items })
        (packets_of (S.slot_at seer.old) (S.window_at seer.old) number act.now)) }
{
    let packet = match act {
        Act::View(view) => view_by(alloc, *view)?,
        Act::Move(x, y, z) => move_to(*x, *y, *z),
        Act::Look(yaw, pitch) => look_by(*yaw, *pitch),
        Act::Dig(place, face) => {
            ask(seer, dig(0, *place, *face), out)?;
            dig(2, *place, *face)
        }
        Act::Place(place, face) => place_at(*place, *face),
        Act::Held(slot) => hold(*slot),
        Act::Drop => let_fall(4),
        Act::DropAll => let_fall(3),
        Act::Say(text) => say(text)?,
        Act::Close => close(seer.shown()),
        Act::Click(slot, button, mode) => {
            let click = Click {
                window: seer.shown(),
                slot: *slot,
                button: *button,
                number,
                mode: *mode,
            };
            click_of(alloc, seer, click)?
        }
        _ => return Ok(()),
    };
    ask(seer, packet, out)
}

/// Appends the frame of a packet, and lets go of it. Out of memory `out` is as before.
fn put_frame(alloc: Global, packet: PlayUp, out: &mut Vec<u8>) -> Result<(), NoMemory>
    requires { CanAsk packet }
    ensures ok { OnOk result (out.new.items ≡ out.old.items ++ frame_of packet) }
    ensures err { OnErr result (out.new.items ≡ out.old.items) }
{
    let mut payload = Vec::new(alloc);
    let written = write_play_up(&packet, &mut payload);
    drop(packet);
    written?;
    write_frame(payload.as_slice(), out)
}

/// The answer that a packet needs, where it needs one.
fn reply_to(packet: &Down) -> Option<PlayUp>
    ensures is { result ≡ reply_to packet.now }
    ensures can { IfSome result (λ reply. CanAsk reply) }
{
    match packet {
        Down::KeepAlive(number) => Some(PlayUp::KeepAlive(*number)),
        Down::Confirm(window, number, false) => Some(PlayUp::Confirm(*window, *number, true)),
        Down::PositionLook {
            x,
            y,
            z,
            yaw,
            pitch,
            ..
        } => Some(PlayUp::PositionLook {
            x: *x,
            y: *y,
            z: *z,
            yaw: *yaw,
            pitch: *pitch,
            on_ground: true,
        }),
        _ => None,
    }
}

/// Appends the answer that a bot gives to a packet by itself. Out of memory `out` is as before.
pub fn put_reply(alloc: Global, packet: &Down, out: &mut Vec<u8>) -> Result<(), NoMemory>
    ensures ok { OnOk result
        (out.new.items ≡ out.old.items ++ bytes_of (reply_to packet.now)) }
    ensures err { OnErr result (out.new.items ≡ out.old.items) }
{
    match reply_to(packet) {
        Some(reply) => put_frame(alloc, reply, out),
        None => Ok(()),
    }
}
