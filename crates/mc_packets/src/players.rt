//! What the list of players says of each.
#![tactic(auto, using(mc_bytes::proofs::Loops::times_next, mc_bytes::proofs::Loops::times_stop, mc_bytes::proofs::Loops::times_halt, mc_bytes::proofs::Loops::times_done, mc_bytes::proofs::Loops::times_first, mc_bytes::proofs::Kept::kept_whole, mc_bytes::proofs::Kept::kept_same, mc_bytes::proofs::Kept::kept_by, mc_bytes::proofs::Kept::kept_past))]

ghost use Rattle.std.specs.Prelude.{◌≡◌, ◌<◌, ◌^◌, take, length, IfSome, OnOk};
ghost use Rattle.mc_bytes.specs.Reading.{Yields, Gives};
ghost use Rattle.mc_bytes.specs.Format.{Anything};
ghost use Rattle.mc_bytes.specs.Combine.{tested_read};
ghost use Rattle.mc_bytes.specs.Times.{times_at};
ghost use Rattle.mc_bytes.specs.Many.{AllFit, all_append};
ghost use Rattle.mc_fields.specs.Varint.{varint_read};
ghost use Rattle.mc_fields.specs.VarintFormat.{varint};
ghost use Rattle.mc_fields.specs.Counted.{counted};
ghost use Rattle.mc_fields.specs.TextFormat.{string};
ghost use Rattle.mc_packets.specs.PlayerChange.{is_action, property, joining, join_parts};
ghost use Rattle.mc_packets.specs.PlayerChange.{join_back};
ghost use Rattle.mc_packets.specs.PlayerChange.{showing, shown_parts, change, player, own_fits};
ghost use Rattle.mc_packets.specs.PlayerChange.{own_append};

use crate::parts::{take_text_if, write_text_if};
use crate::{Player, PlayerChange, Players, Properties, Property};
use mc_bytes::{Cursor, Kind, NoMemory, ReadError, Stop, Text};
use mc_fields::{
    Field, VarInt, put3, take_count, take_varint, write_bool, write_text, write_u128, write_varint,
};
use std::alloc::Global;

/// What changes of the players, from 0 to 4. `BadNumber` elsewhere.
pub fn take_action(cursor: &mut Cursor<'_>) -> Result<i32, Stop>
    ensures { Yields (λ action. (action, cursor.new)) result
        (tested_read (varint_read 5) is_action Kind.BadNumber cursor.old) }
{
    let start = Cursor::new(cursor.rest());
    let action = take_varint(cursor)?;
    if action < 0 || action > 4 {
        return Err(start.stop(Kind::BadNumber));
    }
    Ok(action)
}

fn take_property(alloc: Global, cursor: &mut Cursor<'_>) -> Result<Property, ReadError>
    ensures { Gives (λ value. (value, cursor.new)) result (property.read cursor.old) }
{
    let (name, value, is_signed): (Text, Text, bool) = Field::get(alloc, cursor)?;
    let signature = take_text_if(is_signed, alloc, cursor)?;
    Ok(Property {
        name,
        value,
        is_signed,
        signature,
    })
}

fn write_property(value: &Property, out: &mut Vec<u8>) -> Result<(), NoMemory>
    requires { property.fits value.now }
    ensures ok { OnOk result (out.new.items ≡ property.append value.now out.old.items) }
    ensures kept { take (length out.old.items) out.new.items ≡ out.old.items }
{
    put3(&value.name, &value.value, &value.is_signed, out)?;
    write_text_if(&value.signature, out)
}

impl Field for Property {
    ghost format = { property };

    fn get(alloc: Global, cursor: &mut Cursor<'_>) -> Result<Property, ReadError> {
        take_property(alloc, cursor)
    }

    fn put(&self, out: &mut Vec<u8>) -> Result<(), NoMemory> {
        write_property(self, out)
    }
}

/// Whether a player that joins has a name that is shown, and that name.
fn take_name_shown(
    alloc: Global,
    cursor: &mut Cursor<'_>,
) -> Result<(bool, Option<Text>), ReadError>
    ensures { Gives (λ shown. (shown, cursor.new)) result (shown_parts.read cursor.old) }
{
    let is_shown = bool::get(alloc, cursor)?;
    let shown = take_text_if(is_shown, alloc, cursor)?;
    Ok((is_shown, shown))
}

fn take_join(alloc: Global, cursor: &mut Cursor<'_>) -> Result<PlayerChange, ReadError>
    ensures { Gives (λ what. (what, cursor.new)) result (joining.read cursor.old) }
{
    let (name, properties, VarInt(mode), VarInt(ping)): (Text, Properties, VarInt, VarInt) =
        Field::get(alloc, cursor)?;
    let (is_shown, shown) = take_name_shown(alloc, cursor)?;
    Ok(PlayerChange::Join {
        name,
        properties,
        mode,
        ping,
        is_shown,
        shown,
    })
}

fn take_shown(alloc: Global, cursor: &mut Cursor<'_>) -> Result<PlayerChange, ReadError>
    ensures { Gives (λ what. (what, cursor.new)) result (showing.read cursor.old) }
{
    let (is_shown, shown) = take_name_shown(alloc, cursor)?;
    Ok(PlayerChange::Shown(is_shown, shown))
}

/// What an action changes of a player.
fn take_change(
    alloc: Global,
    cursor: &mut Cursor<'_>,
    action: i32,
) -> Result<PlayerChange, ReadError>
    ensures { Gives (λ what. (what, cursor.new)) result ((change action).read cursor.old) }
{
    match action {
        0 => take_join(alloc, cursor),
        1 => Ok(PlayerChange::Number(VarInt::get(alloc, cursor)?.0)),
        2 => Ok(PlayerChange::Number(VarInt::get(alloc, cursor)?.0)),
        3 => take_shown(alloc, cursor),
        _ => Ok(PlayerChange::Leave),
    }
}

#[tactic(auto, unfolding(crate::specs::PlayerChange::player_read))]
fn take_player(alloc: Global, cursor: &mut Cursor<'_>, action: &i32) -> Result<Player, ReadError>
    ensures { Gives (λ item. (item, cursor.new)) result ((player action.now).read cursor.old) }
{
    let uuid = cursor.u128()?;
    let change = take_change(alloc, cursor, *action)?;
    Ok(Player { uuid, change })
}

fn players_in(
    alloc: Global,
    cursor: &mut Cursor<'_>,
    action: &i32,
    count: usize,
) -> Result<Players, ReadError>
    ensures { Gives (λ list. (list, cursor.new)) result (times_at (player action.now).read count
        cursor.old) }
{
    let mut list = Players::new(alloc);
    for _ in 0..count {
        list.push(take_player(alloc, cursor, action)?)?;
    }
    Ok(list)
}

/// Players behind their number, each with what the action changes of it.
pub fn take_players(
    alloc: Global,
    cursor: &mut Cursor<'_>,
    action: i32,
) -> Result<Players, ReadError>
    ensures { Gives (λ list. (list, cursor.new)) result
        ((counted {Rest = Anything} (player action)).read cursor.old) }
{
    let count = take_count(cursor)?;
    let list = players_in(alloc, cursor, &action, count)?;
    Ok(list)
}

/// The name and the properties of a player that joins.
#[tactic(auto, using(mc_bytes::proofs::Kept::kept_whole, mc_bytes::proofs::Kept::kept_same, mc_bytes::proofs::Kept::kept_by, crate::proofs::Begun::kept_through))]
fn write_join_head(name: &Text, properties: &Properties, out: &mut Vec<u8>) -> Result<(), NoMemory>
    requires name { length name.now < 2 ^ 31 }
    requires properties { (counted {Rest = Anything} property).fits properties.now }
    ensures ok { OnOk result (out.new.items ≡ (counted {Rest = Anything} property).append
        properties.now ((string {Rest = Anything}).append name.now out.old.items)) }
    ensures kept { take (length out.old.items) out.new.items ≡ out.old.items }
{
    write_text(name, out)?;
    properties.put(out)?;
    Ok(())
}

/// What follows the properties of a player that joins.
#[tactic(auto, using(mc_bytes::proofs::Kept::kept_whole, mc_bytes::proofs::Kept::kept_same, mc_bytes::proofs::Kept::kept_by, crate::proofs::Begun::kept_through, mc_fields::proofs::Ids::id_fits))]
fn write_join_tail(
    mode: i32,
    ping: i32,
    is_shown: bool,
    shown: &Option<Text>,
    out: &mut Vec<u8>,
) -> Result<(), NoMemory>
    requires { IfSome shown.now (λ bytes. length bytes < 2 ^ 31) }
    ensures ok { OnOk result (out.new.items ≡ shown_parts.append (is_shown, shown.now)
        ((varint {Rest = Anything}).append ping ((varint {Rest = Anything}).append mode
        out.old.items))) }
    ensures kept { take (length out.old.items) out.new.items ≡ out.old.items }
{
    put3(&VarInt(mode), &VarInt(ping), &is_shown, out)?;
    write_text_if(shown, out)
}

/// A player that joins.
#[tactic(auto, using(mc_bytes::proofs::Kept::kept_whole, mc_bytes::proofs::Kept::kept_same, mc_bytes::proofs::Kept::kept_by, crate::proofs::Begun::kept_through))]
fn write_join(
    name: &Text,
    properties: &Properties,
    mode: i32,
    ping: i32,
    is_shown: bool,
    shown: &Option<Text>,
    out: &mut Vec<u8>,
) -> Result<(), NoMemory>
    requires name { length name.now < 2 ^ 31 }
    requires properties { (counted {Rest = Anything} property).fits properties.now }
    requires shown { IfSome shown.now (λ bytes. length bytes < 2 ^ 31) }
    ensures ok { OnOk result (out.new.items ≡ join_parts.append (
      name.now,
      (properties.now, (mode, (ping, (is_shown, shown.now)))),
    ) out.old.items) }
    ensures kept { take (length out.old.items) out.new.items ≡ out.old.items }
{
    write_join_head(name, properties, out)?;
    write_join_tail(mode, ping, is_shown, shown, out)
}

fn write_shown(is_shown: bool, shown: &Option<Text>, out: &mut Vec<u8>) -> Result<(), NoMemory>
    requires { IfSome shown.now (λ bytes. length bytes < 2 ^ 31) }
    ensures ok { OnOk result (out.new.items ≡ shown_parts.append (is_shown, shown.now)
        out.old.items) }
    ensures kept { take (length out.old.items) out.new.items ≡ out.old.items }
{
    write_bool(is_shown, out)?;
    write_text_if(shown, out)?;
    Ok(())
}

/// What changes of a player, which is written alike whatever the action is.
fn write_change(what: &PlayerChange, out: &mut Vec<u8>) -> Result<(), NoMemory>
    requires { own_fits what.now }
    ensures ok { OnOk result (out.new.items ≡ own_append what.now out.old.items) }
    ensures kept { take (length out.old.items) out.new.items ≡ out.old.items }
{
    match what {
        PlayerChange::Join {
            name,
            properties,
            mode,
            ping,
            is_shown,
            shown,
        } => { write_join(name, properties, *mode, *ping, *is_shown, shown, out)? }
        PlayerChange::Number(number) => write_varint(*number, out)?,
        PlayerChange::Shown(is_shown, shown) => write_shown(*is_shown, shown, out)?,
        PlayerChange::Leave => (),
    }
    Ok(())
}

/// A player, with what the action changes of it.
fn write_player(item: &Player, action: &i32, out: &mut Vec<u8>) -> Result<(), NoMemory>
    requires { (player action.now).fits item.now }
    ensures ok { OnOk result (out.new.items ≡ (player action.now).append item.now out.old.items) }
    ensures kept { take (length out.old.items) out.new.items ≡ out.old.items }
{
    write_u128(item.uuid, out)?;
    write_change(&item.change, out)?;
    let _action = action;
    Ok(())
}

fn append_players(items: &[Player], action: &i32, out: &mut Vec<u8>) -> Result<(), NoMemory>
    requires { AllFit (player action.now).fits items.now }
    ensures ok { OnOk result (out.new.items ≡ all_append (player action.now).append items.now
        out.old.items) }
    ensures kept { take (length out.old.items) out.new.items ≡ out.old.items }
{
    for item in items {
        write_player(item, action, out)?;
    }
    Ok(())
}

/// Players behind their number, each with what the action changes of it.
#[tactic(auto, using(mc_bytes::proofs::Kept::kept_whole, mc_bytes::proofs::Kept::kept_same, mc_bytes::proofs::Kept::kept_by, crate::proofs::Begun::kept_through))]
pub fn write_players(list: &Players, action: &i32, out: &mut Vec<u8>) -> Result<(), NoMemory>
    requires { (counted {Rest = Anything} (player action.now)).fits list.now }
    ensures ok { OnOk result (out.new.items ≡ (counted {Rest = Anything} (player action.now)).append
        list.now out.old.items) }
    ensures kept { take (length out.old.items) out.new.items ≡ out.old.items }
{
    let items = list.as_slice();
    write_varint(items.len() as i32, out)?;
    append_players(items, action, out)?;
    Ok(())
}
