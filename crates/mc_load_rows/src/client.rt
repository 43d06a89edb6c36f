//! A client of a load: the bytes that it is sent, folded into a replica.

use crate::fault::{Fault, packet_fault};
use mc_down::read_down;
use mc_entities::Planned;
use mc_frame::{Splitter, Take};
use mc_replica::Replica;
use mc_server::Server;
use std::alloc::Global;

/// The most pieces, and the most frames in one, that are read after an event.
const MOST: u32 = 100_000;

/// A client, and the world that its packets make.
#[derive(Drop)]
pub struct Client {
    alloc: Global,
    /// The number of its connection.
    pub number: u32,
    pub replica: Replica,
    splitter: Splitter,
    /// Whether the answer to its login came.
    is_in: bool,
}

impl Client {
    /// A client that was sent nothing.
    pub fn new(alloc: Global, number: u32) -> Client {
        Client {
            alloc,
            number,
            replica: Replica::new(alloc),
            splitter: Splitter::new(alloc),
            is_in: false,
        }
    }

    /// Reads all that it is owed.
    pub fn read(&mut self, server: &mut Server<Planned>) -> Result<(), Fault> {
        for _ in 0..MOST {
            let count = self.splitter.feed(server.front(self.number))?;
            if count == 0 {
                return Ok(());
            }
            server.took(self.number, count);
            self.take_frames()?;
        }
        Ok(())
    }

    /// Takes each frame that is whole.
    fn take_frames(&mut self) -> Result<(), Fault> {
        for _ in 0..MOST {
            match self.splitter.take()? {
                Take::Frame(payload) => self.take_frame(payload.as_slice())?,
                Take::More => return Ok(()),
                Take::Bad(_) => return Err(Fault::Packet(self.number)),
            }
        }
        Ok(())
    }

    /// Applies the packet of a frame; the first frame is the answer to the login.
    fn take_frame(&mut self, payload: &[u8]) -> Result<(), Fault> {
        if !self.is_in {
            self.is_in = true;
            return Ok(());
        }
        let Ok(packet) = read_down(self.alloc, payload) else {
            return Err(Fault::Packet(self.number));
        };
        let applied = self.replica.apply(&packet);
        drop(packet);
        applied.map_err(|fault| packet_fault(self.number, &fault))
    }
}
