ghost use Rattle.std.specs.Prelude.{◌≡◌, ℕ, ◌<◌, List, length, IfOk, IfSome, IfNone};
ghost use Rattle.mc_wire.specs.LobbyAnswers.{IsInBuffer, IsInPiece, RaisesLeast};

use super::connection::Connection;
use super::limits::QUIET_ROUNDS;
use super::lingering::Lingering;
use super::listening::Listening;
use super::ticker::Ticker;
use super::watch::Watch;
use mc_wire::{Event, Pace, Wrote};
use mio::net::TcpStream;
use std::alloc::Global;
use std::marker::Model;
use std::time::Clock;

/// Whose turn it is to be asked.
#[derive(Clone, Copy)]
enum Turn {
    /// The listener's.
    Listening,
    /// That of the first connection with this number or a greater one.
    Connection(u64),
    /// That of the connection that lingers at this place.
    Lingering(usize),
}

/// The rounds in which the listener and each connection are asked in turn what there is. Who was
/// asked last is asked again only when all others were, so that nobody who always has something to
/// say keeps another from being heard. The clock is looked at before each round and after each of
/// them that brought something, so a tick is late by one of these at most. The numbers of the
/// connections rise.
#[derive(Drop)]
pub struct Rounds {
    pace: Pace,
    watch: Watch,
    ticker: Ticker,
    connections: Vec<Connection>,
    lingering: Lingering,
    least: u64,
    turn: Turn,
    /// Whether the clock is looked at before the next one is asked.
    is_clock_next: bool,
    /// Whether this round has brought nothing so far.
    is_quiet: bool,
    /// How many rounds brought nothing since something came.
    quiet_rounds: u64,
}

// What is seen of it is the least number that the next connection to join may have.
impl Model for Rounds {
    ghost use Rattle.std.specs.Prelude.{ℕ};

    ghost Value = { ℕ };

    ghost view = { λ rounds. rounds.least };
}

impl Rounds {
    /// Nobody is there, and the first round begins.
    pub fn new(alloc: Global) -> Rounds
        ensures { result ≡ 0 }
    {
        Rounds {
            pace: Pace::Clock,
            watch: Watch::new(),
            ticker: Ticker::new(),
            connections: Vec::new(alloc),
            lingering: Lingering::new(alloc),
            least: 0,
            turn: Turn::Listening,
            is_clock_next: true,
            is_quiet: true,
            quiet_rounds: 0,
        }
    }

    /// Sets what ticks come by.
    pub fn set_pace(&mut self, pace: Pace)
        ensures { self.new ≡ self.old }
    {
        self.pace = pace;
    }

    /// Asks until something comes. It gives up with `None` once 2^64 - 1 were asked in vain.
    pub fn next(
        &mut self,
        clock: &impl Clock,
        listening: &mut Listening,
        buf: &mut [u8],
    ) -> Option<Event>
        ensures within { IfSome result (λ event. IsInBuffer event buf.new) }
        ensures raises { IfSome result (λ event. RaisesLeast event self.old self.new) }
        ensures none { IfNone result (self.new ≡ self.old) }
    {
        for _ in 0..u64::MAX {
            if let Some(event) = self.ask(clock, listening, buf) {
                self.is_quiet = false;
                self.quiet_rounds = 0;
                self.is_clock_next = event != Event::Tick;
                return Some(event);
            }
        }
        None
    }

    /// Looks at the clock where that is next, or asks the one whose turn it is and passes the turn
    /// on.
    fn ask(
        &mut self,
        clock: &impl Clock,
        listening: &mut Listening,
        buf: &mut [u8],
    ) -> Option<Event>
        ensures within { IfSome result (λ event. IsInBuffer event buf.new) }
        ensures raises { IfSome result (λ event. RaisesLeast event self.old self.new) }
        ensures none { IfNone result (self.new ≡ self.old) }
    {
        if self.is_clock_next {
            self.is_clock_next = false;
            return self.tick(clock);
        }
        match self.turn {
            Turn::Listening => {
                self.turn = Turn::Connection(0);
                self.join(listening.accept()?)
            }
            Turn::Connection(number) => self.read(number, buf),
            Turn::Lingering(place) => {
                match self.lingering.read(place, buf) {
                    Some(place) => self.turn = Turn::Lingering(place),
                    None => self.begin_round(clock),
                }
                None
            }
        }
    }

    /// What comes by the pace: a tick, or the end.
    fn tick(&mut self, clock: &impl Clock) -> Option<Event>
        ensures within { (bytes : List ℕ) → IfSome result (λ event. IsInBuffer event bytes) }
        ensures raises { IfSome result (λ event. RaisesLeast event self.old self.new) }
        ensures least { self.new ≡ self.old }
    {
        if self.is_over() {
            return Some(Event::End);
        }
        let now = self.watch.look(clock);
        let comes = match self.pace {
            Pace::Clock => self.ticker.ask(now),
            Pace::Turns => self.least > 0 && self.quiet_rounds >= QUIET_ROUNDS,
        };
        if !comes {
            return None;
        }
        self.lingering.tick();
        tick_all(&mut self.connections);
        Some(Event::Tick)
    }

    /// Says whether it is the end, which comes by turns alone: somebody joined, nobody is left, and
    /// nobody joined in a whole round since.
    fn is_over(&self) -> bool {
        self.pace == Pace::Turns
            && self.least > 0
            && self.connections.is_empty()
            && self.quiet_rounds > 0
    }

    /// Lets a connection join, unless the numbers or the memory are at their end.
    fn join(&mut self, stream: TcpStream) -> Option<Event>
        ensures within { (bytes : List ℕ) → IfSome result (λ event. IsInBuffer event bytes) }
        ensures raises { IfSome result (λ event. RaisesLeast event self.old self.new) }
        ensures none { IfNone result (self.new ≡ self.old) }
    {
        let number = u32::try_from(self.least).ok()?;
        self.lingering.reserve().ok()?;
        let connection = Connection::new(number, stream, self.watch.awake());
        self.connections.push(connection).ok()?;
        self.least = u64::from(number) + 1;
        Some(Event::Join(number))
    }

    /// Reads from the first connection with a number or a greater one.
    fn read(&mut self, number: u64, buf: &mut [u8]) -> Option<Event>
        ensures within { IfSome result (λ event. IsInBuffer event buf.new) }
        ensures raises { IfSome result (λ event. RaisesLeast event self.old self.new) }
        ensures least { self.new ≡ self.old }
    {
        let now = self.watch.awake();
        let place = place_of(&self.connections, number).unwrap_or_else(|place| place);
        let Some(connection) = self.connections.get_mut(place) else {
            self.turn = Turn::Lingering(0);
            return None;
        };
        self.turn = Turn::Connection(u64::from(connection.number).saturating_add(1));
        connection.read(buf, self.pace, now)
    }

    /// Begins the next round. By the clock it sleeps first where this one brought nothing.
    fn begin_round(&mut self, clock: &impl Clock)
        ensures { self.new ≡ self.old }
    {
        if self.is_quiet {
            self.quiet_rounds = self.quiet_rounds.saturating_add(1);
            if self.pace == Pace::Clock {
                let is_alone = self.connections.is_empty() && self.lingering.is_empty();
                self.ticker.sleep(clock, is_alone);
            }
        }
        self.ticker.count_round();
        self.is_quiet = true;
        self.is_clock_next = true;
        self.turn = Turn::Listening;
    }

    /// Writes some first part of a piece to a connection.
    pub fn write(&mut self, k: u32, piece: &[u8]) -> Wrote
        ensures within { IsInPiece result (length piece.now) }
        ensures least { self.new ≡ self.old }
    {
        let now = self.watch.awake();
        match place_of(&self.connections, u64::from(k)) {
            Ok(place) => self.connections[place].write(piece, now),
            Err(_) => Wrote::Broken,
        }
    }

    /// Closes a connection. It lingers, unless its peer is gone or it is broken.
    pub fn close(&mut self, k: u32)
        ensures { self.new ≡ self.old }
    {
        if let Ok(place) = place_of(&self.connections, u64::from(k)) {
            let connection = self.connections.remove(place);
            if !connection.is_over {
                self.lingering.add(connection.stream);
            }
        }
    }
}

/// Notes in all connections that a tick came.
fn tick_all(connections: &mut [Connection]) {
    for connection in connections {
        connection.tick();
    }
}

/// The place of the connection with a number, or else the place at which it would stand.
fn place_of(connections: &[Connection], number: u64) -> Result<usize, usize>
    ensures { IfOk result (λ place. place < length connections.now) }
{
    connections.binary_search_by_key(&number, |connection| u64::from(connection.number))
}
