//! The packets of entities that hold numbers alone, but for their metadata. Each can be sent.

ghost use Rattle.std.specs.Prelude.{◌≡◌, None, pos, true};
ghost use Rattle.mc_packets.specs.declared.down.Down.TheVariants as down;
ghost use Rattle.mc_model.specs.Delta.{no_flags};
ghost use Rattle.mc_sending.specs.Sending.{IsClear};

use mc_fields::Spot;
use mc_packets::{Down, Metas};

/// The kind of an object that is a dropped item.
const ITEM_KIND: i8 = 2;

/// The kind of a mob.
const MOB_KIND: u8 = 90;

/// An object that is a dropped item, and does not move.
pub fn object(eid: i32, spot: &Spot) -> Down
    ensures value { result ≡ down.SpawnObject eid (pos 2) spot.now.x spot.now.y spot.now.z
        spot.now.pitch spot.now.yaw (pos 0) None }
    ensures clear { IsClear result }
{
    let (yaw, pitch) = (spot.yaw, spot.pitch);
    Down::SpawnObject {
        eid,
        kind: ITEM_KIND,
        x: spot.x,
        y: spot.y,
        z: spot.z,
        pitch,
        yaw,
        extra: 0,
        speed: None,
    }
}

/// A player, with the id of what it holds, and its flags.
pub fn player(eid: i32, uuid: u128, spot: &Spot, held: i16, metas: Metas) -> Down
    requires { metas ≡ no_flags }
    ensures value { result ≡ down.SpawnPlayer eid uuid spot.now.x spot.now.y spot.now.z
        spot.now.yaw spot.now.pitch held no_flags }
    ensures clear { IsClear result }
{
    let (yaw, pitch) = (spot.yaw, spot.pitch);
    Down::SpawnPlayer {
        eid,
        uuid,
        x: spot.x,
        y: spot.y,
        z: spot.z,
        yaw,
        pitch,
        item: held,
        metas,
    }
}

/// A mob, with its flags, whose head looks as it does, and which has no speed.
pub fn mob(eid: i32, spot: &Spot, metas: Metas) -> Down
    requires { metas ≡ no_flags }
    ensures value { result ≡ down.SpawnMob eid 90 spot.now.x spot.now.y spot.now.z
        spot.now.yaw spot.now.pitch spot.now.yaw (pos 0) (pos 0) (pos 0) no_flags }
    ensures clear { IsClear result }
{
    let (yaw, pitch) = (spot.yaw, spot.pitch);
    Down::SpawnMob {
        eid,
        kind: MOB_KIND,
        x: spot.x,
        y: spot.y,
        z: spot.z,
        yaw,
        pitch,
        head: yaw,
        dx: 0,
        dy: 0,
        dz: 0,
        metas,
    }
}

/// An entity's move.
pub fn step(eid: i32, dx: i8, dy: i8, dz: i8) -> Down
    ensures value { result ≡ down.Step eid dx dy dz true }
    ensures clear { IsClear result }
{
    Down::Step {
        eid,
        dx,
        dy,
        dz,
        on_ground: true,
    }
}

/// An entity's move, and where it looks.
pub fn step_turn(eid: i32, dx: i8, dy: i8, dz: i8, yaw: u8, pitch: u8) -> Down
    ensures value { result ≡ down.StepLook eid dx dy dz yaw pitch true }
    ensures clear { IsClear result }
{
    Down::StepLook {
        eid,
        dx,
        dy,
        dz,
        yaw,
        pitch,
        on_ground: true,
    }
}

/// Where an entity looks.
pub fn turn(eid: i32, yaw: u8, pitch: u8) -> Down
    ensures value { result ≡ down.Look eid yaw pitch true }
    ensures clear { IsClear result }
{
    Down::Look {
        eid,
        yaw,
        pitch,
        on_ground: true,
    }
}

/// An entity's place, told anew, and where it looks.
pub fn jump(eid: i32, x: i32, y: i32, z: i32, yaw: u8, pitch: u8) -> Down
    ensures value { result ≡ down.Teleport eid x y z yaw pitch true }
    ensures clear { IsClear result }
{
    Down::Teleport {
        eid,
        x,
        y,
        z,
        yaw,
        pitch,
        on_ground: true,
    }
}

/// Where an entity's head looks.
pub fn head_look(eid: i32, yaw: u8) -> Down
    ensures value { result ≡ down.HeadLook eid yaw }
    ensures clear { IsClear result }
{
    Down::HeadLook(eid, yaw)
}
