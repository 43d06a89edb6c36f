//! The id and the fields of each packet of a client that plays, written: one arm a packet.
#![tactic(auto, using(mc_bytes::proofs::Kept::kept_whole, mc_bytes::proofs::Kept::kept_same, mc_bytes::proofs::Kept::kept_by, mc_bytes::proofs::Kept::kept_past))]

ghost use Rattle.std.specs.Prelude.{◌≡◌, OnOk, OnErr, take, length};
ghost use Rattle.mc_bytes.specs.Format.{Anything};
ghost use Rattle.mc_fields.specs.Row.{row_append};
ghost use Rattle.mc_fields.specs.TextFormat.{string};
ghost use Rattle.mc_up.specs.PlayUp.{FitsPlayUp, append_of, plugin};

use crate::PlayUp;
use crate::play_up::parts::{Looked, Used};
use mc_bytes::{NoMemory, Octets, Text, write_octets};
use mc_fields::{VarInt, put_row, put_row2, put_row3, put_row4, put_row5, put_row6, write_varint};

/// A message of a plugin, whose bytes go to the end of the frame.
fn put_plugin(channel: &Text, bytes: &Octets, out: &mut Vec<u8>) -> Result<(), NoMemory>
    requires { (string {Rest = Anything}).fits channel.now }
    ensures ok { OnOk result (out.new.items ≡
        row_append plugin (channel.now, bytes.now) out.old.items) }
    ensures kept { take (length out.old.items) out.new.items ≡ out.old.items }
{
    put_row(0x17, channel, out)?;
    write_octets(bytes.as_slice(), out)?;
    Ok(())
}

/// The id and the fields of a packet; without memory some first part of them.
#[tactic(auto, using(mc_hello::proofs::Wider::wider_100))]
pub fn write_fields(packet: &PlayUp, out: &mut Vec<u8>) -> Result<(), NoMemory>
    requires { FitsPlayUp packet.now }
    ensures ok { OnOk result (out.new.items ≡ append_of packet.now out.old.items) }
    ensures begun { OnErr result (take (length out.old.items) out.new.items ≡ out.old.items) }
{
    match packet {
        PlayUp::KeepAlive(number) => put_row(0x00, &VarInt(*number), out),
        PlayUp::Chat(said) => put_row(0x01, said, out),
        PlayUp::UseEntity(target, kind, place) => {
            let used = Used {
                kind: *kind,
                place: *place,
            };
            put_row2(0x02, &VarInt(*target), &used, out)
        }
        PlayUp::Player(on_ground) => put_row(0x03, on_ground, out),
        PlayUp::Position { x, y, z, on_ground } => put_row4(0x04, x, y, z, on_ground, out),
        PlayUp::Look(yaw, pitch, on_ground) => put_row3(0x05, yaw, pitch, on_ground, out),
        PlayUp::PositionLook {
            x,
            y,
            z,
            yaw,
            pitch,
            on_ground,
        } => put_row6(0x06, x, y, z, yaw, pitch, on_ground, out),
        PlayUp::Digging(status, place, face) => put_row3(0x07, status, place, face, out),
        PlayUp::Placement {
            place,
            face,
            item,
            x,
            y,
            z,
        } => put_row6(0x08, place, face, item, x, y, z, out),
        PlayUp::Held(slot) => put_row(0x09, slot, out),
        PlayUp::Animation => write_varint(0x0A, out),
        PlayUp::EntityAction(entity, action, boost) => put_row3(
            0x0B,
            &VarInt(*entity),
            &VarInt(*action),
            &VarInt(*boost),
            out,
        ),
        PlayUp::Steer(sideways, forward, flags) => put_row3(0x0C, sideways, forward, flags, out),
        PlayUp::CloseWindow(window) => put_row(0x0D, window, out),
        PlayUp::ClickWindow {
            window,
            slot,
            button,
            number,
            mode,
            item,
        } => put_row6(0x0E, window, slot, button, number, mode, item, out),
        PlayUp::Confirm(window, number, accepted) => {
            put_row3(0x0F, window, number, accepted, out)
        }
        PlayUp::Creative(slot, item) => put_row2(0x10, slot, item, out),
        PlayUp::Enchant(window, enchantment) => put_row2(0x11, window, enchantment, out),
        PlayUp::Sign {
            place,
            first,
            second,
            third,
            fourth,
        } => put_row5(0x12, place, first, second, third, fourth, out),
        PlayUp::Abilities(flags, flying, walking) => put_row3(0x13, flags, flying, walking, out),
        PlayUp::TabComplete(typed, looks, place) => {
            let looked = Looked {
                looks: *looks,
                place: *place,
            };
            put_row2(0x14, typed, &looked, out)
        }
        PlayUp::Settings {
            locale,
            view,
            chat_mode,
            colours,
            skin,
        } => put_row5(0x15, locale, view, chat_mode, colours, skin, out),
        PlayUp::ClientStatus(action) => put_row(0x16, &VarInt(*action), out),
        PlayUp::Plugin(channel, bytes) => put_plugin(channel, bytes, out),
        PlayUp::Spectate(player) => put_row(0x18, player, out),
        PlayUp::ResourcePack(hash, outcome) => put_row2(0x19, hash, &VarInt(*outcome), out),
    }
}
