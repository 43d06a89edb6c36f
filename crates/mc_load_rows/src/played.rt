//! A load that is played on a server, whose clients read all that they are sent after each event.

use crate::client::Client;
use crate::differing::difference;
use crate::fault::Fault;
use mc_bytes::NoMemory;
use mc_entities::Planned;
use mc_land::Terrain;
use mc_load::{put_arrival, put_turn};
use mc_server::{Input, Server, Settings};
use std::alloc::Global;

/// A server, its clients, and how many comparisons were made.
#[derive(Drop)]
struct Played {
    alloc: Global,
    server: Server<Planned>,
    clients: Vec<Client>,
    /// Room for what a client sends.
    bytes: Vec<u8>,
    compared: u32,
}

/// Plays a load of so many clients and ticks; answers how many times a replica was compared.
pub fn compare(alloc: Global, clients: u32, ticks: u32) -> Result<u32, Fault> {
    if clients == 0 || clients > 50 {
        return Ok(0);
    }
    let settings = Settings {
        players: clients,
        cap: 2,
        terrain: Terrain::Flat,
    };
    let mut played = Played {
        alloc,
        server: Server::new(alloc, settings, Vec::new(alloc))?,
        clients: Vec::new(alloc),
        bytes: Vec::new(alloc),
        compared: 0,
    };
    let done = played.play(clients, ticks);
    let compared = played.compared;
    drop(played);
    done?;
    Ok(compared)
}

/// A tick comes.
fn tick(server: &mut Server<Planned>) -> Result<(), NoMemory> {
    if server.age() >= 1_000_000_000 {
        return Err(NoMemory);
    }
    server.event(Input::Tick)
}

impl Played {
    /// Plays so many arrivals and ticks.
    fn play(&mut self, clients: u32, ticks: u32) -> Result<(), Fault> {
        for number in 0..clients {
            self.arrive(number)?;
        }
        for done in 0..ticks {
            self.play_round(clients, done.saturating_add(1))?;
        }
        Ok(())
    }

    /// A client joins and comes.
    fn arrive(&mut self, number: u32) -> Result<(), Fault> {
        self.clients
            .push(Client::new(self.alloc, number))
            .map_err(NoMemory::from)?;
        self.server.event(Input::Join(number))?;
        self.read_all()?;
        self.bytes.clear();
        if number < 50 {
            put_arrival(self.alloc, number, &mut self.bytes)?;
        }
        self.server
            .event(Input::Bytes(number, self.bytes.as_slice()))?;
        self.read_all()
    }

    /// Each client has its turn, and then a tick comes, after which all are compared.
    fn play_round(&mut self, clients: u32, number: u32) -> Result<(), Fault> {
        for client in 0..clients {
            self.turn(client, number)?;
        }
        tick(&mut self.server)?;
        self.read_all()?;
        self.compare_all()
    }

    /// A client has its turn before a tick.
    fn turn(&mut self, client: u32, number: u32) -> Result<(), Fault> {
        self.bytes.clear();
        if client < 50 && number <= 10_000 {
            put_turn(self.alloc, client, number, &mut self.bytes)?;
        }
        self.server
            .event(Input::Bytes(client, self.bytes.as_slice()))?;
        self.read_all()
    }

    /// Each client reads all that it is owed.
    fn read_all(&mut self) -> Result<(), Fault> {
        for client in self.clients.iter_mut() {
            client.read(&mut self.server)?;
        }
        Ok(())
    }

    /// Compares each replica with what the server says of its client.
    fn compare_all(&mut self) -> Result<(), Fault> {
        for client in self.clients.iter() {
            compare_one(&self.server, client)?;
            self.compared = self.compared.saturating_add(1);
        }
        Ok(())
    }
}

/// Compares the replica of a client with what the server says of it.
fn compare_one(server: &Server<Planned>, client: &Client) -> Result<(), Fault> {
    let Some(view) = server.client(client.number) else {
        return Err(Fault::Gone(client.number));
    };
    match difference(&view, &client.replica) {
        None => Ok(()),
        Some(what) => Err(Fault::Differs(client.number, what)),
    }
}
