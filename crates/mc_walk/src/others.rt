//! The others as a client was told of them by its packets.

use crate::fault::Fault;
use crate::tally::{Tally, count};
use mc_bytes::ReadFault;
use mc_fields::Spot;
use mc_packets::Down;
use mc_replica::Replica;
use std::alloc::Global;

/// Another as it was told last: its number, place and look, and where its head looks.
#[derive(Clone, Copy)]
pub struct Told {
    pub eid: i32,
    pub spot: Spot,
    pub head: u8,
}

/// The others that a client sees, in the world that its packets make.
#[derive(Drop)]
pub struct Others {
    /// The client's number, and its own entity's.
    client: u32,
    eid: i32,
    world: Replica,
}

impl Others {
    /// None.
    pub fn new(alloc: Global, client: u32, eid: i32) -> Others {
        Others {
            client,
            eid,
            world: Replica::new(alloc),
        }
    }

    /// The other of a number. None where it is not seen.
    pub fn find(&self, eid: i32) -> Option<Told> {
        let seen = self.world.entity(eid)?;
        Some(Told {
            eid,
            spot: seen.spot(),
            head: seen.head(),
        })
    }

    /// Takes a packet into account.
    pub fn tell(&mut self, packet: &Down, tally: &mut Tally) -> Result<(), Fault> {
        self.look_at(packet, tally)?;
        match self.world.apply(packet) {
            Ok(()) => Ok(()),
            Err(ReadFault::NoMemory) => Err(Fault::NoMemory),
            Err(ReadFault::Field(_)) => Err(Fault::Packet(self.client)),
        }
    }

    /// Counts a packet that tells of others; a fault where it can't be told of these.
    fn look_at(&self, packet: &Down, tally: &mut Tally) -> Result<(), Fault> {
        match packet {
            Down::SpawnPlayer { eid, .. } | Down::SpawnMob { eid, .. } => {
                count(&mut tally.spawns);
                self.is_new(*eid)
            }
            Down::Destroy(eids) => self.are_seen(eids.as_slice(), tally),
            _ => self.look_at_move(packet, tally),
        }
    }

    /// Counts a packet that tells where another or its head is or looks now.
    fn look_at_move(&self, packet: &Down, tally: &mut Tally) -> Result<(), Fault> {
        match packet {
            Down::Step { eid, .. } => self.is_told(*eid, &mut tally.steps),
            Down::StepLook { eid, .. } => self.is_told(*eid, &mut tally.turned),
            Down::Teleport { eid, .. } => self.is_told(*eid, &mut tally.jumps),
            Down::Look { eid, .. } => self.is_told(*eid, &mut tally.turns),
            Down::HeadLook(eid, _) => self.is_told(*eid, &mut tally.heads),
            _ => Ok(()),
        }
    }

    /// Another comes, which is not seen yet.
    fn is_new(&self, eid: i32) -> Result<(), Fault> {
        if eid == self.eid || self.find(eid).is_some() {
            return Err(Fault::Spawn(self.client, eid));
        }
        Ok(())
    }

    /// Others go, which are seen.
    fn are_seen(&self, eids: &[i32], tally: &mut Tally) -> Result<(), Fault> {
        for eid in eids {
            self.is_told(*eid, &mut tally.ends)?;
        }
        Ok(())
    }

    /// Another is told of, which is seen.
    fn is_told(&self, eid: i32, number: &mut u32) -> Result<(), Fault> {
        if self.find(eid).is_none() {
            return Err(Fault::Unseen(self.client, eid));
        }
        count(number);
        Ok(())
    }
}
