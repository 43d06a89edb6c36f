//! The walk of three clients on a new server.

use crate::acts::{act_of, spot_in};
use crate::fault::Fault;
use crate::mobs::{MOBS, spot_in as mob_spot_in};
use crate::tally::{Tally, count};
use crate::walker::Walker;
use mc_bytes::NoMemory;
use mc_entities::Planned;
use mc_fields::Spot;
use mc_land::Terrain;
use mc_rows::Words;
use mc_server::{Input, Server, Settings};
use std::alloc::Global;

/// How many clients there are, with the numbers from 1 on.
const CLIENTS: u32 = 3;

/// A server, its clients, and what was counted.
#[derive(Drop)]
pub struct Walk {
    alloc: Global,
    server: Server<Planned>,
    walkers: Vec<Walker>,
    tally: Tally,
}

/// A new server for the clients with these minds, on flat land and with the smallest view.
fn new_server(alloc: Global, minds: Vec<Planned>) -> Result<Server<Planned>, NoMemory> {
    let settings = Settings {
        players: CLIENTS,
        cap: 2,
        terrain: Terrain::Flat,
    };
    Server::new(alloc, settings, minds)
}

/// Clients that stand where players enter, before the first tick.
fn new_walkers(alloc: Global, server: &mut Server<Planned>) -> Result<Vec<Walker>, NoMemory> {
    let mut walkers = Vec::new(alloc);
    for number in 1..CLIENTS + 1 {
        walkers.push(Walker::new(alloc, server, number)?)?;
    }
    Ok(walkers)
}

/// A tick comes.
fn tick(server: &mut Server<Planned>) -> Result<(), NoMemory> {
    if server.age() >= 1_000_000_000 {
        return Err(NoMemory);
    }
    server.event(Input::Tick)
}

impl Walk {
    /// A walk that begins, with a mob for each of these minds.
    pub fn new(alloc: Global, minds: Vec<Planned>) -> Result<Walk, Fault> {
        let mut server = new_server(alloc, minds)?;
        match new_walkers(alloc, &mut server) {
            Ok(walkers) => Ok(Walk {
                alloc,
                server,
                walkers,
                tally: Tally::new(),
            }),
            Err(fault) => {
                drop(server);
                Err(Fault::from(fault))
            }
        }
    }

    /// What was counted.
    pub fn tally(&self) -> Tally {
        self.tally
    }

    /// Plays a row: `tick` and where each mob is to be then, or a client's number and what it does.
    pub fn play(&mut self, row: &str) -> Result<(), Fault> {
        let mut words = Words::new(self.alloc, row);
        if words.is_next("tick") {
            self.tick()?;
            self.compare_mobs(&mut words)?;
        } else {
            let number = words.number();
            self.act(number, &mut words)?;
            count(&mut self.tally.acts);
        }
        if words.are_bad() {
            return Err(Fault::Row);
        }
        Ok(())
    }

    /// A client does what the next words say.
    fn act(&mut self, number: u32, words: &mut Words<'_>) -> Result<(), Fault> {
        let Some(act) = act_of(words.word()) else {
            return Err(Fault::Row);
        };
        for walker in self.walkers.iter_mut() {
            if walker.number == number {
                let spot = spot_in(act, words, walker.spot);
                walker.go(&mut self.server, act, spot)?;
            }
        }
        Ok(())
    }

    /// A tick comes; each client reads what it is sent, and is compared with the others.
    fn tick(&mut self) -> Result<(), Fault> {
        tick(&mut self.server)?;
        count(&mut self.tally.ticks);
        for walker in self.walkers.iter_mut() {
            walker.read(&mut self.server, &mut self.tally)?;
        }
        self.compare_all()
    }

    /// Compares what each client was told with where the others are.
    fn compare_all(&self) -> Result<(), Fault> {
        for walker in self.walkers.iter() {
            self.compare(walker)?;
        }
        Ok(())
    }

    /// Compares what each client was told with where the next words say that each mob is.
    fn compare_mobs(&self, words: &mut Words<'_>) -> Result<(), Fault> {
        for eid in 1..MOBS as i32 + 1 {
            self.compare_mob(eid, &mob_spot_in(words))?;
        }
        Ok(())
    }

    /// Compares what each client was told with where a mob is.
    fn compare_mob(&self, eid: i32, spot: &Spot) -> Result<(), Fault> {
        for walker in self.walkers.iter() {
            walker.compare(eid, spot)?;
        }
        Ok(())
    }

    /// Compares what a client was told with where the others are.
    fn compare(&self, walker: &Walker) -> Result<(), Fault> {
        for other in self.walkers.iter() {
            if other.number != walker.number {
                walker.compare(other.eid, &other.spot)?;
            }
        }
        Ok(())
    }
}
