ghost use Rattle.std.specs.Prelude.{◌≡◌, ◌<◌, ◌≤◌, ◌++◌, Ok, Some, [], ◌∷◌, length, take, drop};
ghost use Rattle.std.specs.Prelude.{true, false, option_map, IsOk, IfOk};
ghost use Rattle.std.specs.Option.{option_copied};
ghost use Rattle.mc_wire.specs.Count.{raised};
ghost use Rattle.mc_wire.specs.LinkTold.{Exchanges, ToldByRead, ToldByWrite};
ghost use Rattle.mc_wire.specs.LinkStage.{unconnected, after_connect, after_read, IsGot};
ghost use Rattle.mc_wire.specs.LinkStage.{FewerAnswers};
ghost use Rattle.mc_wire.specs.LinkTroubles.{gives_next, count_given};
ghost use Rattle.mc_wire.specs.LinkState.{link_told, KeptGrows};

use crate::link_record::{LinkRecord, keep_port, keep_taken};
use crate::{Failed, Got, Link, Source, SteadySource};
use std::alloc::Global;
use std::marker::Model;

/// A link in memory that never fails and is never quiet. Where there is no memory for what it took
/// it tells nothing from then on, and answers as it otherwise would.
#[derive(Drop)]
pub struct SteadyLink {
    kept: Option<LinkRecord>,
    left: SteadySource,
    is_connected: bool,
    has_ended: bool,
    quiet_run: u64,
}

impl Model for SteadyLink {
    ghost use Rattle.mc_wire.specs.LinkState.{SteadyLinkState};

    ghost Value = { SteadyLinkState };

    ghost view = { λ link. record {
      kept = link.kept;
      left = link.left;
      stage = record {
        connected = link.is_connected;
        ended = link.has_ended;
        quiet_run = link.quiet_run;
      };
    } };
}

impl SteadyLink {
    /// A link that gives these bytes, and then the end.
    pub fn new(alloc: Global, bytes: Vec<u8>) -> SteadyLink
        ensures { result ≡ record {
          kept = Some (record { ports = []; taken = [] });
          left = bytes.items;
          stage = unconnected;
        } }
    {
        SteadyLink {
            kept: Some(LinkRecord::new(alloc)),
            left: SteadySource::new(bytes),
            is_connected: false,
            has_ended: false,
            quiet_run: 0,
        }
    }

    /// The bytes that it took, or `None` where it no longer tells them.
    pub fn took(&self) -> Option<&[u8]>
        ensures { option_copied result ≡ option_map (λ kept. kept.taken) self.now.kept }
    {
        match &self.kept {
            Some(kept) => Some(kept.taken()),
            None => None,
        }
    }

    /// Keeps the port that it is to connect to, and ends its run of quiet reads.
    pub(crate) fn ask(&mut self, port: u16)
        ensures keeps { KeptGrows self.old.kept self.new.kept (port ∷ []) [] }
        ensures after { self.new ≡ record self.old {
          kept = self.new.kept;
          stage = record self.old.stage { quiet_run = 0 };
        } }
    {
        keep_port(&mut self.kept, port);
        self.quiet_run = 0;
    }

    /// Becomes connected.
    pub(crate) fn begin(&mut self)
        ensures { self.new ≡ record self.old {
          stage = record self.old.stage { connected = true; ended = false };
        } }
    {
        self.is_connected = true;
        self.has_ended = false;
    }

    /// Counts a quiet read.
    pub(crate) fn rest(&mut self)
        ensures { self.new ≡ record self.old {
          stage = record self.old.stage { quiet_run = raised self.old.stage.quiet_run };
        } }
    {
        self.quiet_run = self.quiet_run.saturating_add(1);
    }

    /// Gives the bytes that are left, as many as the buffer can hold, or the end.
    pub(crate) fn give(&mut self, buf: &mut [u8]) -> Got
        requires room { 0 < length buf.old }
        ensures is { result ≡ gives_next (length buf.old) self.old.left }
        ensures after { self.new ≡ record self.old {
          left = drop (count_given (Ok result)) self.old.left;
          stage = after_read (Ok result) self.old.stage;
        } }
        ensures bytes { buf.new ≡ take (count_given (Ok result)) self.old.left
            ++ drop (count_given (Ok result)) buf.old }
    {
        let count = self.left.read(buf).unwrap();
        if count == 0 {
            self.has_ended = true;
            return Got::End;
        }
        self.quiet_run = 0;
        Got::Bytes(count)
    }

    /// Keeps a piece.
    pub(crate) fn keep(&mut self, piece: &[u8])
        ensures keeps { KeptGrows self.old.kept self.new.kept [] piece.now }
        ensures after { self.new ≡ record self.old { kept = self.new.kept } }
    {
        keep_taken(&mut self.kept, piece);
    }
}

impl Link for SteadyLink {
    ghost use Rattle.std.specs.Prelude.{length};
    ghost use Rattle.mc_wire.specs.LinkCounts.{no_link_counts};
    ghost use Rattle.mc_wire.specs.LinkState.{link_told};

    ghost told = { λ link. link_told link.kept link.left };

    ghost stage = { λ link. link.stage };

    ghost counts = { λ _. no_link_counts };

    ghost answers = { λ link. length link.left };

    fn connect(&mut self, port: u16) -> Result<(), Failed>
        ensures steady { IsOk result }
        ensures tells { Exchanges (link_told self.old.kept self.old.left)
            (link_told self.new.kept self.new.left) (port ∷ []) [] [] }

        // What it leaves in the link.
        ensures after { self.new ≡ record self.old {
          kept = self.new.kept;
          stage = after_connect result self.old.stage;
        } }
    {
        self.ask(port);
        self.begin();
        Ok(())
    }

    fn read(&mut self, buf: &mut [u8]) -> Result<Got, Failed>
        requires connected { self.old.stage.connected ≡ true }
        requires room { 0 < length buf.old }
        ensures steady { IsOk result }
        ensures within { IsGot result buf.new }
        ensures tells { ToldByRead result buf.new (link_told self.old.kept self.old.left)
            (link_told self.new.kept self.new.left) }
        ensures fewer { FewerAnswers result (length self.old.left) (length self.new.left) }

        // The exact answer, and what it leaves in the link and in the buffer.
        ensures is { result ≡ Ok (gives_next (length buf.old) self.old.left) }
        ensures after { self.new ≡ record self.old {
          left = drop (count_given result) self.old.left;
          stage = after_read result self.old.stage;
        } }
        ensures bytes { buf.new ≡ take (count_given result) self.old.left
            ++ drop (count_given result) buf.old }
    {
        Ok(self.give(buf))
    }

    fn write(&mut self, piece: &[u8]) -> Result<usize, Failed>
        requires connected { self.old.stage.connected ≡ true }
        requires some { 0 < length piece.now }
        ensures steady { IsOk result }
        ensures took { IfOk result (λ n. (0 < n) × (n ≤ length piece.now)) }
        ensures tells { ToldByWrite result piece.now (link_told self.old.kept self.old.left)
            (link_told self.new.kept self.new.left) }

        // The exact answer, and what it leaves in the link.
        ensures many { result ≡ Ok (length piece.now) }
        ensures after { self.new ≡ record self.old { kept = self.new.kept } }
    {
        self.keep(piece);
        Ok(piece.len())
    }
}
