ghost use Rattle.std.specs.Prelude.{◌≡◌, ◌^◌, ◌<◌, List, ℕ, IfOk, nat_lt, length, true};
ghost use lib.IntN.{pos};
ghost use Rattle.mc_replica.specs.Asking.{CanAsk};
ghost use Rattle.mc_up.specs.PlayUp.{SpellsPlayUp, spelling_of};
ghost use Rattle.mc_slots.specs.Slot.{HasId};
ghost use Rattle.mc_bot.specs.Asked.{click_after, click_on, click_packet, click_with, has_id};
ghost use Rattle.mc_bot.specs.Playing.{number_past};
ghost use Rattle.mc_slots.specs.declared.slot.Slot.TheVariants as slots;

use crate::Act;
use mc_bytes::NoMemory;
use mc_replica::Seer;
use mc_slots::Slot;
use mc_up::{PlayUp, write_play_up};
use std::alloc::Global;

/// How many bytes a packet has fewer than.
const PACKET_END: usize = 2_097_152;

/// A click of a slot of a window, with a button, in a mode, by its number.
#[derive(Clone, Copy)]
pub struct Click {
    /// The number of the window.
    pub window: u8,
    /// The slot.
    pub slot: i16,
    /// The button.
    pub button: i8,
    /// The number of the click.
    pub number: i16,
    /// The mode.
    pub mode: i8,
}

/// The number of the click after one.
fn number_after(number: i16) -> i16
    ensures { result ≡ click_after number }
{
    if number < i16::MAX { number + 1 } else { 1 }
}

/// The number of the next click after a line, where that of the line is this.
pub fn number_past(act: &Act, number: i16) -> i16
    ensures { result ≡ number_past act.now number }
{
    match act {
        Act::Click(..) => number_after(number),
        _ => number,
    }
}

/// Says whether an item has bytes of its own.
fn has_id(item: &Slot) -> bool
    ensures is { result ≡ has_id item.now }
    ensures id { result ≡ true → HasId item.now }
{
    match item {
        Slot::Empty => true,
        Slot::Full(stack) => stack.id >= 0,
    }
}

/// Says whether a frame has room for a packet.
fn has_room(alloc: Global, packet: &PlayUp) -> Result<bool, NoMemory>
    requires { (bytes : List ℕ) × SpellsPlayUp packet.now bytes }
    ensures { IfOk result (λ has. has ≡ nat_lt (length (spelling_of packet.now)) (2 ^ 21)) }
{
    let mut payload = Vec::new(alloc);
    write_play_up(packet, &mut payload)?;
    Ok(payload.len() < PACKET_END)
}

/// The click with an item.
fn click_with(click: Click, item: Slot) -> PlayUp
    requires { HasId item }
    ensures is { result ≡ click_with click item }
    ensures spelled { (bytes : List ℕ) × SpellsPlayUp result bytes }
{
    PlayUp::ClickWindow {
        window: click.window,
        slot: click.slot,
        button: click.button,
        number: click.number,
        mode: click.mode,
        item,
    }
}

/// The click with no item.
fn click_bare(click: Click) -> PlayUp
    ensures is { result ≡ click_with click slots.Empty }
    ensures can { CanAsk result }
{
    PlayUp::ClickWindow {
        window: click.window,
        slot: click.slot,
        button: click.button,
        number: click.number,
        mode: click.mode,
        item: Slot::Empty,
    }
}

/// The click of a slot that holds an item.
#[tactic(auto, unfolding(crate::specs::Asked::click_on))]
fn click_on(alloc: Global, click: Click, item: &Slot) -> Result<PlayUp, NoMemory>
    ensures is { IfOk result (λ packet. packet ≡ click_on click item.now) }
    ensures can { IfOk result (λ packet. CanAsk packet) }
{
    if !has_id(item) {
        return Ok(click_bare(click));
    }
    let packet = click_with(click, item.copy()?);
    match has_room(alloc, &packet) {
        Ok(true) => Ok(packet),
        Ok(false) => {
            drop(packet);
            Ok(click_bare(click))
        }
        Err(refusal) => {
            drop(packet);
            Err(refusal)
        }
    }
}

/// The packet of a click, with the item that is there.
pub fn click_of<S: Seer>(alloc: Global, seer: &S, click: Click) -> Result<PlayUp, NoMemory>
    ensures is { IfOk result (λ packet. packet ≡ click_packet (S.slot_at seer.now) click) }
    ensures can { IfOk result (λ packet. CanAsk packet) }
{
    if click.slot == -999 {
        return Ok(click_bare(click));
    }
    match seer.slot(click.slot) {
        Some(item) => click_on(alloc, click, item),
        None => Ok(click_bare(click)),
    }
}
