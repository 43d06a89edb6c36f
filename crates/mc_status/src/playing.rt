ghost use Rattle.std.specs.Prelude.{◌≡◌, [], ℕ, List, Option, IfOk, OnOk, OnErr, IsErrOf};
ghost use Rattle.std.specs.List.{fold};
ghost use Rattle.std.specs.FinMap.{get};
ghost use Rattle.mc_laws.specs.Pieces.{emptied};
ghost use Rattle.mc_model.specs.Game.{AreSettings};
ghost use Rattle.mc_model.specs.Step.{on_bytes};
ghost use Rattle.mc_model.specs.World.{Seat, World};
ghost use Rattle.mc_events.specs.Asking.{stage_in};
ghost use Rattle.mc_events.specs.Stands.{Stands};
ghost use Rattle.mc_wire.specs.Count.{Rose, StandsOrRises};
ghost use Rattle.mc_text.specs.Passes.{Breaks, Passes, SendsPart};
ghost use Rattle.mc_status.specs.StatusText.{Exchange, ends_inside, first_exchange, receives};
ghost use Rattle.mc_status.specs.StatusText.{sent_lines, shown_fault};
ghost use Rattle.mc_status.specs.Playing.{HasSeat, IsAnswered, Meets, most_at};

use crate::answers::{put_lines, take_owed};
use crate::kept_line::KeptLine;
use mc_bytes::NoMemory;
use mc_entities::Planned;
use mc_events::{Input, Server};
use mc_land::Terrain;
use mc_model::{Cause, Settings, Stage};
use mc_wire::Sink;
use mc_text::Unfinished;
use mc_words::InputFault;
use std::alloc::Global;

/// The most bytes that come to the server at once: what answers so many has room in an outbox, and
/// in the caches of a processor.
pub const PIECE_MAX: usize = 2_048;

/// A client that asks for the status: the server that it is connected to, and the lines that
/// answer it.
#[derive(Drop)]
pub struct Client {
    /// The server of its one connection, 0.
    pub server: Server,
    /// Room for what it is owed.
    pub owed: Vec<u8>,
    /// The line that was made last.
    pub last: Option<KeptLine>,
    /// The lines that wait to be written.
    pub lines: Vec<u8>,
}

impl Client {
    /// A client that has just joined a new world with so many players at most.
    pub fn new(alloc: Global, most: u32) -> Result<Client, NoMemory>
        requires { AreSettings most 2 }
        ensures { IfOk result (λ client. (start : Option (List ℕ)) →
            Meets most start start client.server client.lines.items (first_exchange most)) }
    {
        let settings = Settings {
            players: most,
            cap: 2,
            terrain: Terrain::Flat,
        };
        let mut server = Server::new(alloc, settings, 0)?;
        server.event::<Planned>(Input::Join(0), &mut [])?;
        Ok(Client {
            server,
            owed: Vec::new(alloc),
            last: None,
            lines: Vec::new(alloc),
        })
    }

    /// How many bytes may come at once; none where nothing more that it says matters.
    fn room(&self) -> usize
        ensures { (w : World) → Stands self.now.server w → result ≡ most_at (stage_in 0 w) }
    {
        match self.server.stage(0) {
            Some(Stage::Hand) => 1,
            Some(Stage::Status) => PIECE_MAX,
            _ => 0,
        }
    }

    /// What is wrong with what it said.
    pub fn fault(&self) -> Option<InputFault>
        ensures { (w : World) → Stands self.now.server w → result ≡ shown_fault (get w.links 0) }
    {
        if let Some(Stage::Login) = self.server.stage(0) {
            return Some(InputFault::Login);
        }
        match self.server.cause(0) {
            Some(Cause::Frame(_)) => Some(InputFault::Frame),
            Some(Cause::Packet(_)) => Some(InputFault::Packet),
            _ => None,
        }
    }

    /// Whether what it said ends inside a frame.
    pub fn is_inside(&self) -> bool
        ensures { (most : ℕ) (start held : Option (List ℕ)) (x : Exchange) →
            Meets most start held self.now.server self.now.lines.items x →
            result ≡ ends_inside x.world }
    {
        self.server.is_inside(0)
    }

    /// Lets bytes come at once, and puts a line for each packet that answers them.
    fn play<O: Sink>(&mut self, piece: &[u8], out: &mut O) -> Result<(), Unfinished>
        ensures played { (s : Seat) → HasSeat self.old.server s →
            IsAnswered (on_bytes 0 s piece.now) → OnOk result
            (HasSeat self.new.server (emptied (on_bytes 0 s piece.now).seat)
            × Passes (O.held out.old) (O.held out.new) self.old.lines.items
            (sent_lines (on_bytes 0 s piece.now).handed) self.new.lines.items []) }
        ensures breaks { (s : Seat) → HasSeat self.old.server s →
            IsAnswered (on_bytes 0 s piece.now) → OnErr result
            (Breaks (O.held out.old) (O.held out.new) self.old.lines.items
            (sent_lines (on_bytes 0 s piece.now).handed)) }
        ensures failed { IsErrOf result Unfinished.Failed →
            Rose (O.faults out.old) (O.faults out.new) }
        ensures counts { StandsOrRises (O.faults out.old) (O.faults out.new) }
    {
        self.server
            .event::<Planned>(Input::Bytes(0, piece), &mut [])?;
        self.owed.clear();
        take_owed(&mut self.server, &mut self.owed)?;
        put_lines(&self.owed, &mut self.last, &mut self.lines, out)
    }

    /// Receives the bytes of a line.
    pub fn receive<O: Sink>(
        &mut self,
        most: u32,
        line: &[u8],
        out: &mut O,
    ) -> Result<(), Unfinished>
        requires { AreSettings most 2 }
        ensures received { (start : Option (List ℕ)) (x : Exchange) →
            Meets most start (O.held out.old) self.old.server self.old.lines.items x →
            OnOk result (Meets most start (O.held out.new) self.new.server self.new.lines.items
            (fold receives x line.now)) }
        ensures stopped { (start : Option (List ℕ)) (x : Exchange) →
            Meets most start (O.held out.old) self.old.server self.old.lines.items x →
            OnErr result (SendsPart start (O.held out.new) (fold receives x line.now).text) }
        ensures failed { IsErrOf result Unfinished.Failed →
            Rose (O.faults out.old) (O.faults out.new) }
        ensures counts { StandsOrRises (O.faults out.old) (O.faults out.new) }
    {
        let mut rest = line;
        while !rest.is_empty() {
            let count = self.room().min(rest.len());
            if count == 0 {
                return Ok(());
            }
            let (piece, later) = rest.split_at(count);
            self.play(piece, out)?;
            rest = later;
        }
        Ok(())
    }
}
