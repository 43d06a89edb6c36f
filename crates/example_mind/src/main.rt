//! An example for who writes a mind: a mob that walks to the east and back. A server without
//! sockets has one client, five ticks come, and what the client is told of the mob is printed.
//!
//! It stands on `mc_server`, and on `mc_frame` and `mc_down` to read what the client is told. The
//! one contract of a mind is that of `Mind`: its `step` is the first move of its plan.
#![tactic(auto)]

mod patrol;

use mc_bytes::NoMemory;
use mc_down::read_down;
use mc_entities::Mind;
use mc_frame::{Splitter, Take};
use mc_land::Terrain;
use mc_packets::Down;
use mc_server::{Input, Server, Settings};
use patrol::Patrol;
use std::alloc::Global;
use std::io;
use std::io::Write;

/// The number of the one connection.
const CLIENT: u32 = 1;

/// The handshake and the login of a client that is called Al.
const LOGIN: &[u8] = b"\x0f\x00\x2f\x09localhost\x63\xdd\x02\x04\x00\x02Al";

/// What the server begins with.
const SETTINGS: Settings = Settings {
    players: 20,
    cap: 2,
    terrain: Terrain::Flat,
};

/// What a frame tells of the mob, as a line; of all else nothing.
fn line_of(alloc: Global, frame: &[u8]) -> Result<String, NoMemory> {
    let Ok(packet) = read_down(alloc, frame) else {
        return Ok(String::new(alloc));
    };
    let line = match &packet {
        Down::SpawnMob { eid, x, y, z, .. } => format!(in alloc; "mob {eid} is at {x} {y} {z}\n"),
        Down::Step {
            eid,
            dx,
            dy,
            dz,
            ..
        } => format!(in alloc; "mob {eid} goes {dx} {dy} {dz}\n"),
        _ => Ok(String::new(alloc)),
    };
    drop(packet);
    Ok(line?)
}

/// Takes what the client is owed, and puts what the frames in it tell of the mob.
fn listen(
    alloc: Global,
    server: &mut Server<Box<dyn Mind>>,
    splitter: &mut Splitter,
    told: &mut String,
) -> Result<(), NoMemory> {
    for _ in 0..10_000 {
        let count = splitter.feed(server.front(CLIENT))?;
        server.took(CLIENT, count);
        if let Take::Frame(frame) = splitter.take()? {
            told.push_str(line_of(alloc, frame.as_slice())?.as_str())?;
        }
    }
    Ok(())
}

/// Lets the client log in and five ticks come, and answers what it is told of the mob.
fn watch(alloc: Global, server: &mut Server<Box<dyn Mind>>) -> Result<String, NoMemory> {
    let mut splitter = Splitter::new(alloc);
    let mut told = String::new(alloc);
    server.event(Input::Join(CLIENT))?;
    server.event(Input::Bytes(CLIENT, LOGIN))?;
    for _ in 0..5 {
        if server.age() < 1_000_000_000 {
            server.event(Input::Tick)?;
        }
        listen(alloc, server, &mut splitter, &mut told)?;
    }
    Ok(told)
}

/// Plays a world with one mob. A boxed mind is made where it is handed to the server.
fn play(alloc: Global) -> Result<String, NoMemory> {
    let mut minds: Vec<Box<dyn Mind>> = Vec::new(alloc);
    minds.push(Box::new(alloc, Patrol { there: 2, back: 1 })?)?;
    let mut server = Server::new(alloc, SETTINGS, minds)?;
    let told = watch(alloc, &mut server);
    drop(server);
    told
}

fn main(rt: HostRuntime) -> io::Result<()> {
    let mut out = io::writer(&rt);
    match play(rt.alloc()) {
        Ok(told) => write!(out, "{told}"),
        Err(NoMemory) => writeln!(out, "out of memory"),
    }
}
