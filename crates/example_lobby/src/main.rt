//! An example for who writes a lobby: one with a single visitor, which is served as `craft47 serve`
//! serves its sockets. How that ended and how many bytes the visitor took is printed.
//!
//! It stands on the trait of `mc_wire` and on `mc_server`. The one contract of a lobby is that of
//! `Lobby`: who joins has a number above all before, bytes stand in the buffer, and a fault, a stall
//! or a break is counted.
#![tactic(auto)]

mod visit;

use mc_entities::Planned;
use mc_land::Terrain;
use mc_server::{Budget, DriveFault, Ended, Server, Settings, drive};
use std::alloc::Global;
use std::io;
use std::io::Write;
use visit::Visit;

/// What the server begins with.
const SETTINGS: Settings = Settings {
    players: 20,
    cap: 2,
    terrain: Terrain::Flat,
};

/// How long the lobby is served, and on which port it is to listen.
const BUDGET: Budget = Budget {
    port: 25_565,
    ticks: 100,
    events: 1_000,
};

/// Serves a lobby with a new server that has no mobs.
fn serve(alloc: Global, lobby: &mut Visit) -> Result<Ended, DriveFault> {
    let minds: Vec<Planned> = Vec::new(alloc);
    let mut server = Server::new(alloc, SETTINGS, minds)?;
    let ended = drive(&mut server, lobby, BUDGET);
    drop(server);
    ended
}

fn main(rt: HostRuntime) -> io::Result<()> {
    let mut out = io::writer(&rt);
    let mut lobby = Visit::new(3);
    match serve(rt.alloc(), &mut lobby) {
        Ok(Ended::Closed(tally)) => writeln!(
            out,
            "{} joined and took {} bytes",
            tally.joins,
            lobby.taken()
        ),
        Ok(Ended::Ticks(_)) => writeln!(out, "all ticks came"),
        Err(_) => writeln!(out, "serving ended early"),
    }
}
