ghost use Rattle.std.specs.Prelude.{◌≡◌, ℕ, ◌≤◌, List, length, min, IfSome};
ghost use Rattle.mc_wire.specs.LobbyAnswers.{IsInBuffer, IsInPiece, RaisesLeast};
ghost use Rattle.mc_wire.specs.declared.answers.Pace.TheVariants as paces;
ghost use Rattle.mc_devices.specs.Limits.{read_limit};

use super::allowance::Allowance;
use super::contact::Contact;
use super::limits::READ_MAX;
use super::stall::Stall;
use mc_wire::{Event, Pace, Wrote};
use mio::net::TcpStream;
use std::io;
use std::io::{ErrorKind, Read, Write};

/// A connection that joined and is not closed.
#[derive(Drop)]
pub struct Connection {
    pub number: u32,
    pub stream: TcpStream,
    /// Whether it was told that the peer is gone or the connection broken.
    pub is_over: bool,
    contact: Contact,
    allowance: Allowance,
    stall: Option<Stall>,
}

impl Connection {
    /// One that joins at a time.
    pub fn new(number: u32, stream: TcpStream, now: u64) -> Connection {
        Connection {
            number,
            stream,
            is_over: false,
            contact: Contact::new(now),
            allowance: Allowance::new(),
            stall: None,
        }
    }

    /// What a read at a time brings: bytes, or that the peer is gone, which is told once. By the
    /// clock no more is read than is allowed, and a peer that is silent for too long is gone.
    pub fn read(&mut self, buf: &mut [u8], pace: Pace, now: u64) -> Option<Event>
        ensures within { IfSome result (λ event. IsInBuffer event buf.new) }
        ensures raises { (least : ℕ) → IfSome result (λ event. RaisesLeast event least least) }
    {
        if self.is_over {
            return None;
        }
        if pace == Pace::Clock && self.contact.is_silent(now) {
            return Some(self.leave());
        }
        let most = read_max(pace, self.allowance.bytes(), buf.len());
        if most == 0 {
            return None;
        }
        match self.stream.read(&mut buf[..most]) {
            Ok(0) => Some(self.leave()),
            Ok(count) => {
                self.allowance.spend(count);
                self.contact.heard = now;
                Some(Event::Bytes(self.number, count))
            }
            Err(error) if is_passing(&error) => None,
            Err(_) => Some(self.leave()),
        }
    }

    /// Notes that the peer is gone, and tells it.
    fn leave(&mut self) -> Event
        ensures within { (buffer : List ℕ) → IsInBuffer result buffer }
        ensures raises { (least : ℕ) → RaisesLeast result least least }
    {
        self.is_over = true;
        Event::Gone(self.number)
    }

    /// What a write of a piece at a time takes. A connection that took nothing is not written to
    /// again at once, and is broken once it has taken nothing for too long.
    pub fn write(&mut self, piece: &[u8], now: u64) -> Wrote
        ensures { IsInPiece result (length piece.now) }
    {
        self.contact.asked = now;
        if let Some(stall) = &self.stall
            && !stall.has_paused(now)
        {
            return Wrote::Stalled;
        }
        match self.stream.write(piece) {
            Ok(0) => self.take_nothing(now),
            Ok(count) => {
                self.stall = None;
                Wrote::Took(count)
            }
            Err(error) if is_passing(&error) => self.take_nothing(now),
            Err(_) => self.break_off(),
        }
    }

    /// Notes that a write took nothing, and says what that comes to.
    fn take_nothing(&mut self, now: u64) -> Wrote
        ensures { (size : ℕ) → IsInPiece result size }
    {
        let stall = match self.stall {
            Some(stall) => stall.again(now),
            None => Stall::new(now),
        };
        self.stall = Some(stall);
        if stall.is_long(now) {
            return self.break_off();
        }
        Wrote::Stalled
    }

    /// Notes that the connection is broken.
    fn break_off(&mut self) -> Wrote
        ensures { (size : ℕ) → IsInPiece result size }
    {
        self.is_over = true;
        Wrote::Broken
    }

    /// Notes that a tick came.
    pub fn tick(&mut self) {
        self.allowance.grow(self.stall.is_some());
    }
}

/// How many bytes are read at most into a buffer of a size: by the clock no more than are allowed,
/// and no more than in any turn.
fn read_max(pace: Pace, allowed: usize, size: usize) -> usize
    ensures clock { pace ≡ paces.Clock → result ≡ min (read_limit allowed) size }
    ensures turns { pace ≡ paces.Turns → result ≡ size }
    ensures within { result ≤ size }
{
    match pace {
        Pace::Clock => allowed.min(READ_MAX).min(size),
        Pace::Turns => size,
    }
}

/// Says whether a call that failed so may succeed at another time.
pub fn is_passing(error: &io::Error) -> bool {
    matches!(error.kind(), ErrorKind::WouldBlock | ErrorKind::Interrupted)
}
