use super::connection::is_passing;
use super::limits::{LINGERING_MAX, LINGERING_TICKS};
use mio::net::TcpStream;
use std::alloc::{AllocError, Global};
use std::io::Read;
use std::net::Shutdown;

/// The connections that were closed and whose peers have not ended, the oldest first. To drop a
/// connection while bytes wait to be read resets it, and a reset may destroy what the peer has yet
/// to read. So only the writing side is shut down at once, and what still comes is read and thrown
/// away.
#[derive(Drop)]
pub struct Lingering {
    closed: Vec<Closed>,
    ticks: u64,
}

/// A connection that was closed.
#[derive(Drop)]
struct Closed {
    stream: TcpStream,
    /// The tick at which it is dropped.
    until: u64,
}

impl Lingering {
    /// None yet.
    pub fn new(alloc: Global) -> Lingering {
        Lingering {
            closed: Vec::new(alloc),
            ticks: 0,
        }
    }

    /// Makes room for as many as may ever linger.
    pub fn reserve(&mut self) -> Result<(), AllocError> {
        self.closed
            .reserve(LINGERING_MAX.saturating_sub(self.closed.len()))
    }

    /// Says whether none lingers.
    pub fn is_empty(&self) -> bool {
        self.closed.is_empty()
    }

    /// Shuts down the writing side of a connection, and lets it linger.
    pub fn add(&mut self, stream: TcpStream) {
        let _ = stream.shutdown(Shutdown::Write);
        if self.closed.len() >= LINGERING_MAX {
            self.closed.remove(0);
        }
        let until = self.ticks.saturating_add(LINGERING_TICKS);
        let _ = self.closed.push(Closed { stream, until });
    }

    /// Notes that a tick came.
    pub fn tick(&mut self) {
        self.ticks = self.ticks.saturating_add(1);
    }

    /// Reads once from the connection at a place, and drops it where the peer ended or its time is
    /// over. It answers the place of the next connection, or `None` where there is none at this.
    pub fn read(&mut self, place: usize, buf: &mut [u8]) -> Option<usize> {
        let closed = self.closed.get_mut(place)?;
        let is_open = closed.until > self.ticks
            && match closed.stream.read(buf) {
                Ok(count) => count > 0,
                Err(error) => is_passing(&error),
            };
        if is_open {
            return Some(place + 1);
        }
        self.closed.remove(place);
        Some(place)
    }
}
