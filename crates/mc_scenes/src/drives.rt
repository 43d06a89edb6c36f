//! Serving: `drive PLAYERS CAP TERRAIN PORT TICKS EVENTS LOBBY` has a new server serve a lobby, and
//! answers how that ended, what was counted, and the log. `puts K PLAYERS ..` answers what one
//! connection was put in all, as frames. `untold PLAYERS ..` has it serve one that tells nothing,
//! and answers how that ended and which connections are left.

ghost use Rattle.std.specs.Prelude.{◌≡◌, ◌≤◌, IfSome};
ghost use Rattle.mc_events.specs.Served.{age_of};

use crate::frames::put_frames;
use crate::lobbies::{lobby_in, put_log};
use crate::minds::Counted;
use crate::servers::new_server;
use crate::terrains::terrain_in;
use crate::untold::Untold;
use mc_rows::{Answer, Words};
use mc_server::{Budget, DriveFault, Ended, Server, Tally, drive};
use mc_wire::{Lobby, LogEntry, MemoryLobby};
use std::alloc::Global;

/// The server of the next words.
fn server_in(words: &mut Words<'_>) -> Option<Server<Counted>>
    ensures { IfSome result (λ server. age_of server.inner ≡ 0) }
{
    let players = words.number();
    let cap = words.number();
    let minds = Vec::new(words.alloc);
    new_server(words.alloc, players, cap, terrain_in(words), minds)
}

/// The budget of the next words.
fn budget_in(words: &mut Words<'_>) -> Budget {
    Budget {
        port: words.number(),
        ticks: words.number(),
        events: words.number(),
    }
}

/// A new server, the lobby that it is to serve, and how long.
#[derive(Drop)]
struct Service {
    server: Server<Counted>,
    lobby: MemoryLobby,
    budget: Budget,
}

/// The service of the next words. That there is no lobby is answered; no server makes the row a bad
/// one.
fn service_in(words: &mut Words<'_>, answer: &mut Answer) -> Option<Service>
    ensures { IfSome result (λ service. age_of service.server.inner ≡ 0) }
{
    let server = server_in(words);
    let budget = budget_in(words);
    let lobby = lobby_in(words, answer);
    if lobby.is_none() {
        answer.word("no lobby");
    } else if server.is_none() {
        words.fail();
    }
    let (server, lobby) = server.zip(lobby)?;
    Some(Service {
        server,
        lobby,
        budget,
    })
}

/// Serves a lobby, where the budget is one; else the row is a bad one.
fn serve<L: Lobby>(
    server: &mut Server<Counted>,
    lobby: &mut L,
    budget: Budget,
    words: &mut Words<'_>,
    answer: &mut Answer,
)
    requires { age_of server.old.inner ≡ 0 }
{
    let is_one = 0 < budget.port && 0 < budget.events;
    if is_one && 0 < budget.ticks && budget.ticks <= 1_000_000_000 {
        put_end(drive(server, lobby, budget), answer);
    } else {
        words.fail();
    }
}

/// Puts how serving ended.
fn put_end(end: Result<Ended, DriveFault>, answer: &mut Answer) {
    match end {
        Ok(Ended::Ticks(tally)) => put_tally("ticks", tally, answer),
        Ok(Ended::Closed(tally)) => put_tally("closed", tally, answer),
        Err(DriveFault::Listen) => answer.word("listen fault"),
        Err(DriveFault::Next) => answer.word("next fault"),
        Err(DriveFault::Events(count)) => {
            answer.word("events");
            answer.word(count);
        }
        Err(DriveFault::NoMemory) => answer.lose(),
    }
}

/// Puts what was counted.
fn put_tally(name: &str, tally: Tally, answer: &mut Answer) {
    answer.word(name);
    answer.word("joins");
    answer.word(tally.joins);
    answer.word("closed");
    answer.word(tally.closed);
}

/// Answers how serving ended, and the log.
pub fn log(words: &mut Words<'_>, answer: &mut Answer) {
    if let Some(mut service) = service_in(words, answer) {
        let Service {
            server,
            lobby,
            budget,
        } = &mut service;
        serve(server, lobby, *budget, words, answer);
        put_log(service.lobby.log(), answer);
        drop(service);
    }
}

/// Answers what one connection was put.
pub fn puts(words: &mut Words<'_>, answer: &mut Answer) {
    let k = words.number();
    if let Some(mut service) = service_in(words, answer) {
        let Service {
            server,
            lobby,
            budget,
        } = &mut service;
        serve(server, lobby, *budget, words, answer);
        let all = put_to(words.alloc, k, service.lobby.log().unwrap_or(&[]), answer);
        drop(service);
        answer.comma();
        put_all(&all, answer);
    }
}

/// Puts the frames of some bytes, or that there are none.
fn put_all(bytes: &[u8], answer: &mut Answer) {
    if bytes.is_empty() {
        answer.word("nothing");
    } else {
        put_frames(bytes, answer);
    }
}

/// What one connection was put in a log.
fn put_to(alloc: Global, k: u32, log: &[LogEntry], answer: &mut Answer) -> Vec<u8> {
    let mut all = Vec::new(alloc);
    for entry in log {
        match entry {
            LogEntry::Put(j, bytes) if *j == k => {
                answer.needs(all.extend_from_slice(bytes.as_slice()));
            }
            _ => {}
        }
    }
    all
}

/// Answers how serving a lobby that tells nothing ended, and which connections are left.
pub fn untold(words: &mut Words<'_>, answer: &mut Answer) {
    if let Some(service) = service_in(words, answer) {
        let Service {
            mut server,
            lobby,
            budget,
        } = service;
        let mut untold = Untold::new(lobby);
        serve(&mut server, &mut untold, budget, words, answer);
        drop(untold);
        put_left(&server, answer);
        drop(server);
    }
}

/// Puts which connections are left.
fn put_left(server: &Server<Counted>, answer: &mut Answer) {
    answer.comma();
    answer.word("left");
    for k in server.connections() {
        answer.word(*k);
    }
}
