ghost use Rattle.std.specs.Prelude.{◌≡◌, ◌^◌, ◌-◌, ◌<◌, ◌≤◌, length, Ok, IfSome};
ghost use Rattle.mc_wire.specs.LinkCounts.{no_link_counts};
ghost use Rattle.mc_wire.specs.LinkStage.{unconnected, IsGot};

use mc_wire::{Failed, Got, Link};
use std::io::{ErrorKind, Read, Write};
use std::marker::Model;
use std::net::{Ipv4Addr, Net, SocketAddr, TcpStream};
use std::time::{Clock, Duration};
use std::{io, thread};

/// How often a connection that is refused, or a write that would block, is tried.
const TRIES: u64 = 1_000_000;

/// How many tries or quiet reads in turn there are for each sleep.
const TRIES_A_SLEEP: u64 = 100;

/// How long a sleep is, in milliseconds.
const SLEEP: u64 = 1;

/// A link over a stream to 127.0.0.1, which tells neither its ports nor its bytes. Once it has
/// given 2^64 - 1 answers with bytes it fails.
#[derive(Drop)]
pub struct TcpLink<'r, R> {
    rt: &'r R,
    stream: Option<TcpStream>,
    has_ended: bool,
    quiet_run: u64,
    faults: u64,
    quiets: u64,
    answers: u64,
}

impl<'r, R> Model for TcpLink<'r, R> {
    ghost use Rattle.std.specs.Prelude.{is_some, ◌<◌, ◌^◌};
    ghost use Rattle.mc_devices.specs.Linked.{TcpLinkState};

    ghost Value = { TcpLinkState };

    ghost view = { λ link. record {
      stage = record {
        connected = is_some link.stream;
        ended = link.has_ended;
        quiet_run = link.quiet_run;
      };
      counts = record { faults = link.faults; quiets = link.quiets };
      answers = link.answers;
    } };

    ghost invariant = { λ link. (link.faults < 2 ^ 64) × (link.quiets < 2 ^ 64) };
}

impl<'r, R> TcpLink<'r, R> {
    /// A link that is not connected yet.
    pub fn new(rt: &'r R) -> TcpLink<'r, R>
        ensures { result ≡ record {
          stage = unconnected;
          counts = no_link_counts;
          answers = 2 ^ 64 - 1;
        } }
    {
        TcpLink {
            rt,
            stream: None,
            has_ended: false,
            quiet_run: 0,
            faults: 0,
            quiets: 0,
            answers: u64::MAX,
        }
    }
}

impl<'r, R: Net<Stream = TcpStream> + Clock> Link for TcpLink<'r, R> {
    ghost use Rattle.std.specs.Prelude.{None};

    ghost told = { λ _. None };

    ghost stage = { λ link. link.stage };

    ghost counts = { λ link. link.counts };

    ghost answers = { λ link. link.answers };

    fn connect(&mut self, port: u16) -> Result<(), Failed> {
        self.quiet_run = 0;
        match connected(self.rt, port) {
            Some(stream) => {
                self.stream = Some(stream);
                self.has_ended = false;
                Ok(())
            }
            None => {
                self.faults = self.faults.saturating_add(1);
                Err(Failed)
            }
        }
    }

    fn read(&mut self, buf: &mut [u8]) -> Result<Got, Failed> {
        let answers = self.answers;
        if answers > 0
            && let Some(stream) = &mut self.stream
            && let Some(got) = got_of(stream, buf)
        {
            match got {
                Got::Bytes(_) => {
                    self.quiet_run = 0;
                    self.answers = answers - 1;
                }
                Got::End => self.has_ended = true,
                Got::Quiet => {
                    self.quiets = self.quiets.saturating_add(1);
                    self.quiet_run = self.quiet_run.saturating_add(1);
                    pause_after(self.rt, self.quiet_run);
                }
            }
            return Ok(got);
        }
        self.faults = self.faults.saturating_add(1);
        Err(Failed)
    }

    fn write(&mut self, piece: &[u8]) -> Result<usize, Failed> {
        if let Some(stream) = &mut self.stream
            && let Some(count) = written(self.rt, stream, piece)
        {
            return Ok(count);
        }
        self.faults = self.faults.saturating_add(1);
        Err(Failed)
    }
}

/// A stream to a port of 127.0.0.1 that does not block, tried again where it is refused.
fn connected<R: Net<Stream = TcpStream> + Clock>(rt: &R, port: u16) -> Option<TcpStream> {
    for tried in 0..TRIES {
        match TcpStream::connect(rt, SocketAddr::from((Ipv4Addr::LOCALHOST, port))) {
            Ok(stream) => return unblocked(stream),
            Err(error) if error.kind() == ErrorKind::ConnectionRefused => {
                pause_after(rt, tried + 1);
            }
            Err(_) => return None,
        }
    }
    None
}

/// A stream whose calls do not block, or `None` where they would.
fn unblocked(stream: TcpStream) -> Option<TcpStream> {
    let _ = stream.set_nodelay(true);
    match stream.set_nonblocking(true) {
        Ok(()) => Some(stream),
        Err(_) => None,
    }
}

/// What a read brings: bytes, the end, or nothing this time. `None` where it fails.
fn got_of(stream: &mut TcpStream, buf: &mut [u8]) -> Option<Got>
    ensures { IfSome result (λ got. IsGot (Ok got) buf.new) }
{
    match stream.read(buf) {
        Ok(0) => Some(Got::End),
        Ok(count) => Some(Got::Bytes(count)),
        Err(error) if is_passing(&error) => Some(Got::Quiet),
        Err(_) => None,
    }
}

/// How many bytes of a piece a write takes, tried again where it would block. `None` where it
/// takes none.
fn written<R: Clock>(rt: &R, stream: &mut TcpStream, piece: &[u8]) -> Option<usize>
    ensures { IfSome result (λ n. (0 < n) × (n ≤ length piece.now)) }
{
    for tried in 0..TRIES {
        match stream.write(piece) {
            Ok(0) => return None,
            Ok(count) => return Some(count),
            Err(error) if is_passing(&error) => pause_after(rt, tried + 1),
            Err(_) => return None,
        }
    }
    None
}

/// Sleeps where so many tries are a hundred more.
fn pause_after<R: Clock>(rt: &R, tries: u64) {
    if tries % TRIES_A_SLEEP == 0 {
        thread::sleep(rt, Duration::from_millis(SLEEP));
    }
}

/// Whether a call that failed so may succeed at another time.
fn is_passing(error: &io::Error) -> bool {
    matches!(error.kind(), ErrorKind::WouldBlock | ErrorKind::Interrupted)
}
