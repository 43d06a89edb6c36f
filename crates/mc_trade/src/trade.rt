//! The trade of four clients on a new server.

use crate::fault::Fault;
use crate::land::Land;
use crate::tally::{Tally, count};
use crate::trader::{Trader, log_in};
use mc_bytes::NoMemory;
use mc_entities::Planned;
use mc_fields::Cell;
use mc_land::Terrain;
use mc_rows::Words;
use mc_server::{Input, Server, Settings};
use std::alloc::Global;

/// How many clients there are.
const CLIENTS: u32 = 4;

/// What a name has when it first comes: ids, and how many.
const KIT: [(i16, u32); 4] = [(1, 64), (3, 64), (5, 64), (54, 4)];

/// A server, the clients in play, and what was counted.
#[derive(Drop)]
pub struct Trade {
    alloc: Global,
    server: Server<Planned>,
    traders: Vec<Trader>,
    /// How many connections there were, and which clients ever came.
    connections: u32,
    names: Vec<u32>,
    /// The land as it was, and as the rows say that it is.
    flat: Land,
    land: Land,
    tally: Tally,
}

/// A new server for the clients, on flat land and with the smallest view.
fn new_server(alloc: Global) -> Result<Server<Planned>, NoMemory> {
    let settings = Settings {
        players: CLIENTS,
        cap: 2,
        terrain: Terrain::Flat,
    };
    Server::new(alloc, settings, Vec::new(alloc))
}

/// A tick comes.
fn tick(server: &mut Server<Planned>) -> Result<(), NoMemory> {
    if server.age() >= 1_000_000_000 {
        return Err(NoMemory);
    }
    server.event(Input::Tick)
}

/// How many of a sort a kit has.
fn kit_of(id: i16, damage: i16) -> u32 {
    for (other, number) in KIT {
        if other == id && damage == 0 {
            return number;
        }
    }
    0
}

impl Trade {
    /// A trade that begins.
    pub fn new(alloc: Global) -> Result<Trade, Fault> {
        let flat = Land::new(alloc)?;
        let land = Land::new(alloc)?;
        Ok(Trade {
            alloc,
            server: new_server(alloc)?,
            traders: Vec::new(alloc),
            connections: 0,
            names: Vec::new(alloc),
            flat,
            land,
            tally: Tally::new(),
        })
    }

    /// What was counted.
    pub fn tally(&self) -> Tally {
        self.tally
    }

    /// Plays a row: `tick`, `set X Y Z STATE`, `count ID DAMAGE NUMBER`, `told CLIENT` and what it
    /// is to be told, or a client and what it does.
    pub fn play(&mut self, row: &str) -> Result<(), Fault> {
        if row == "tick" {
            return self.tick();
        }
        let mut words = Words::new(self.alloc, row);
        self.play_words(&mut words)?;
        if words.are_bad() {
            return Err(Fault::Row);
        }
        Ok(())
    }

    /// Plays a row of several words.
    fn play_words(&mut self, words: &mut Words<'_>) -> Result<(), Fault> {
        if words.is_next("told") {
            return self.expect(words);
        }
        if words.is_next("count") {
            return self.compare_items(words);
        }
        if words.is_next("set") {
            self.set(words);
        } else {
            self.play_client(words)?;
        }
        Ok(())
    }

    /// A cell is to have another state from the next tick on.
    fn set(&mut self, words: &mut Words<'_>) {
        let cell = Cell {
            x: words.number(),
            y: words.number(),
            z: words.number(),
        };
        self.land.set(cell, words.number());
    }

    /// There are so many items of a sort: what kits had and was dug, and was not placed.
    fn compare_items(&self, words: &mut Words<'_>) -> Result<(), Fault> {
        let id: i16 = words.number();
        let damage: i16 = words.number();
        let number: u32 = words.number();
        let state = (id.cast_unsigned() & 4095) << 4 | damage.cast_unsigned() & 15;
        let came = self
            .kits(kit_of(id, damage))
            .saturating_add(self.flat.count(state));
        if number.saturating_add(self.land.count(state)) != came {
            return Err(Fault::Items);
        }
        Ok(())
    }

    /// How many items the kits of all names had, of which each had so many.
    fn kits(&self, number: u32) -> u32 {
        let names = u32::try_from(self.names.len()).unwrap_or(0);
        names.saturating_mul(number)
    }

    /// A client is to be told something, or was told it.
    fn expect(&mut self, words: &mut Words<'_>) -> Result<(), Fault> {
        let client = words.number();
        for trader in self.traders.iter_mut() {
            if trader.client == client {
                trader.expect(words)?;
            }
        }
        Ok(())
    }

    /// A client does something.
    fn play_client(&mut self, words: &mut Words<'_>) -> Result<(), NoMemory> {
        count(&mut self.tally.events);
        let client = words.number();
        if words.is_next("join") {
            return self.join(client);
        }
        if words.is_next("leave") {
            return self.leave(client);
        }
        self.act(client, words)
    }

    /// A client comes, under the next number.
    fn join(&mut self, client: u32) -> Result<(), NoMemory> {
        count(&mut self.connections);
        log_in(self.alloc, &mut self.server, client, self.connections)?;
        self.add(client)?;
        self.know(client)
    }

    /// A client is in play.
    fn add(&mut self, client: u32) -> Result<(), NoMemory> {
        let trader = Trader::new(self.alloc, client, self.connections);
        self.traders.push(trader)?;
        Ok(())
    }

    /// A name is known from now on.
    fn know(&mut self, client: u32) -> Result<(), NoMemory> {
        if !self.names.contains(&client) {
            self.names.push(client)?;
        }
        Ok(())
    }

    /// A client leaves.
    fn leave(&mut self, client: u32) -> Result<(), NoMemory> {
        for trader in self.traders.iter() {
            if trader.client == client {
                trader.leave(&mut self.server)?;
            }
        }
        self.traders.retain(|trader| trader.client != client);
        Ok(())
    }

    /// A client does what the next words say.
    fn act(&mut self, client: u32, words: &mut Words<'_>) -> Result<(), NoMemory> {
        for trader in self.traders.iter() {
            if trader.client == client {
                trader.act(&mut self.server, words)?;
            }
        }
        Ok(())
    }

    /// A tick comes; each client reads what it is sent, and is compared with the rows.
    fn tick(&mut self) -> Result<(), Fault> {
        tick(&mut self.server)?;
        count(&mut self.tally.ticks);
        for trader in self.traders.iter_mut() {
            trader.read(&mut self.server, &mut self.tally)?;
            trader.compare(&self.land)?;
        }
        Ok(())
    }
}
