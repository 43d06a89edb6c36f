//! A client that walks: what it says, and what it was told.

use crate::acts::Act;
use crate::fault::Fault;
use crate::mobs::MOBS;
use crate::others::Others;
use crate::tally::Tally;
use mc_bytes::NoMemory;
use mc_down::read_down;
use mc_entities::Planned;
use mc_fields::{Spot, degrees, pattern, write_u8, write_u32, write_u64};
use mc_frame::{Splitter, Take};
use mc_packets::Down;
use mc_server::{Input, Server};
use std::alloc::Global;

/// The handshake of a client that wants to play, and its login up to the last letter of its name,
/// which has ten.
const LOGIN: &[u8] = b"\x0f\x00\x2f\x09localhost\x63\xdd\x02\x0c\x00\x0aWalker_00";

/// An answer to a beat, with a length.
const BEAT: &[u8] = &[2, 0, 0];

/// Where players enter flat land.
const ENTRY: Spot = Spot {
    x: 272,
    y: 128,
    z: 272,
    yaw: 0,
    pitch: 0,
};

/// The most pieces and frames that are read at a tick.
const MOST: u32 = 100_000;

/// A client in play.
#[derive(Drop)]
pub struct Walker {
    alloc: Global,
    /// The number of its connection, and that of its entity, which has those of the mobs before it.
    pub number: u32,
    pub eid: i32,
    /// Where it said last that it is, and how it looks.
    pub spot: Spot,
    pub others: Others,
    splitter: Splitter,
    /// Whether the answer to its login came.
    is_in: bool,
    /// Whether a beat came that it did not answer.
    owes: bool,
}

impl Walker {
    /// A client that connects and logs in. It is the first of this number, from 1 to 9.
    pub fn new(
        alloc: Global,
        server: &mut Server<Planned>,
        number: u32,
    ) -> Result<Walker, NoMemory> {
        let mut login = Vec::new(alloc);
        login.extend_from_slice(LOGIN)?;
        login.push(b'0' + (number % 10) as u8)?;
        server.event(Input::Join(number))?;
        server.event(Input::Bytes(number, &login))?;
        let eid = i32::try_from(MOBS.saturating_add(number)).unwrap_or(0);
        Ok(Walker {
            alloc,
            number,
            eid,
            spot: ENTRY,
            others: Others::new(alloc, number, eid),
            splitter: Splitter::new(alloc),
            is_in: false,
            owes: false,
        })
    }

    /// Moves or looks about, and says so.
    pub fn go(
        &mut self,
        server: &mut Server<Planned>,
        act: Act,
        spot: Spot,
    ) -> Result<(), NoMemory> {
        let mut said = Vec::new(self.alloc);
        put_act(act, &spot, &mut said)?;
        self.spot = spot;
        server.event(Input::Bytes(self.number, &said))
    }

    /// Reads all that it is owed, and answers a beat.
    pub fn read(&mut self, server: &mut Server<Planned>, tally: &mut Tally) -> Result<(), Fault> {
        for _ in 0..MOST {
            let count = self.splitter.feed(server.front(self.number))?;
            if count == 0 {
                return self.answer(server);
            }
            server.took(self.number, count);
            self.take_frames(tally)?;
        }
        Ok(())
    }

    /// Answers a beat, where one came.
    fn answer(&mut self, server: &mut Server<Planned>) -> Result<(), Fault> {
        if self.owes {
            server.event(Input::Bytes(self.number, BEAT))?;
        }
        self.owes = false;
        Ok(())
    }

    /// Takes each frame that is whole.
    fn take_frames(&mut self, tally: &mut Tally) -> Result<(), Fault> {
        for _ in 0..MOST {
            match self.splitter.take()? {
                Take::Frame(payload) => self.take_frame(payload.as_slice(), tally)?,
                Take::More => return Ok(()),
                Take::Bad(_) => return Err(Fault::Packet(self.number)),
            }
        }
        Ok(())
    }

    /// Takes a frame into account; the first is the answer to the login.
    fn take_frame(&mut self, payload: &[u8], tally: &mut Tally) -> Result<(), Fault> {
        if !self.is_in {
            self.is_in = true;
            return Ok(());
        }
        let Ok(packet) = read_down(self.alloc, payload) else {
            return Err(Fault::Packet(self.number));
        };
        let done = self.hear(&packet, tally);
        drop(packet);
        done
    }

    /// Takes a packet into account, which may be a beat.
    fn hear(&mut self, packet: &Down, tally: &mut Tally) -> Result<(), Fault> {
        if let Down::KeepAlive(_) = packet {
            self.owes = true;
        }
        self.others.tell(packet, tally)
    }

    /// Compares what was told of another with where that is: it is seen exactly where its column
    /// is in view.
    pub fn compare(&self, eid: i32, spot: &Spot) -> Result<(), Fault> {
        match self.others.find(eid) {
            Some(told) if told.spot != *spot || told.head != spot.yaw => {
                Err(Fault::Spot(self.number, told, *spot))
            }
            Some(_) if is_near(&self.spot, spot) => Ok(()),
            None if !is_near(&self.spot, spot) => Ok(()),
            _ => Err(Fault::View(self.number, eid)),
        }
    }
}

/// Whether the column of a spot is at most two from another's on each axis.
fn is_near(a: &Spot, b: &Spot) -> bool {
    are_near(a.x, b.x) && are_near(a.z, b.z)
}

/// Whether two places on an axis lie in columns that are at most two apart; a column has 512 parts.
fn are_near(a: i32, b: i32) -> bool {
    (a >> 9).abs_diff(b >> 9) <= 2
}

/// Puts the frame of an act, which leaves its player on the ground.
fn put_act(act: Act, spot: &Spot, said: &mut Vec<u8>) -> Result<(), NoMemory> {
    match act {
        Act::Move => said.extend_from_slice(&[26, 4])?,
        Act::Look => said.extend_from_slice(&[10, 5])?,
        Act::Both => said.extend_from_slice(&[34, 6])?,
    }
    if !matches!(act, Act::Look) {
        put_place(spot, said)?;
    }
    if !matches!(act, Act::Move) {
        put_look(spot, said)?;
    }
    write_u8(1, said)
}

/// Puts a place in blocks.
fn put_place(spot: &Spot, said: &mut Vec<u8>) -> Result<(), NoMemory> {
    write_u64(pattern(spot.x), said)?;
    write_u64(pattern(spot.y), said)?;
    write_u64(pattern(spot.z), said)
}

/// Puts a look in degrees.
fn put_look(spot: &Spot, said: &mut Vec<u8>) -> Result<(), NoMemory> {
    write_u32(degrees(spot.yaw), said)?;
    write_u32(degrees(spot.pitch), said)
}
