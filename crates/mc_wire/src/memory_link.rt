ghost use Rattle.std.specs.Prelude.{◌≡◌, ◌<◌, ◌≤◌, ◌↔◌, ◌++◌, Some, [], ◌∷◌, length, take, drop};
ghost use Rattle.std.specs.Prelude.{true, option_map, IsErr, IfOk, OnOk, OnErr, Contains};
ghost use Rattle.std.specs.Option.{option_copied};
ghost use Rattle.mc_wire.specs.Count.{Rose, raised};
ghost use Rattle.mc_wire.specs.LinkTold.{Exchanges, ToldByRead, ToldByWrite};
ghost use Rattle.mc_wire.specs.LinkStage.{unconnected, after_connect, after_read, IsGot};
ghost use Rattle.mc_wire.specs.LinkStage.{FewerAnswers};
ghost use Rattle.mc_wire.specs.LinkCounts.{no_link_counts, with_link_fault, with_read};
ghost use Rattle.mc_wire.specs.LinkCounts.{NeitherFalls, ReadHasCause};
ghost use Rattle.mc_wire.specs.LinkTroubles.{read_fate, Answers, count_given};
ghost use Rattle.mc_wire.specs.LinkState.{link_told};

use crate::link_troubles::LinkTroubles;
use crate::read_fate::ReadFate;
use crate::{Failed, Got, Link, LinkTrouble, SteadyLink};
use std::alloc::Global;
use std::marker::Model;

/// A link in memory, some of whose calls fail or are quiet. Where there is no memory for what it
/// took it tells nothing from then on, and answers as it otherwise would.
#[derive(Drop)]
pub struct MemoryLink {
    steady: SteadyLink,
    troubles: LinkTroubles,
}

impl Model for MemoryLink {
    ghost use Rattle.mc_wire.specs.LinkState.{MemoryLinkState};
    ghost use Rattle.mc_wire.specs.LinkCounts.{NeitherFalls};

    ghost Value = { MemoryLinkState };

    ghost view = { λ link. record {
      kept = link.steady.kept;
      left = link.steady.left;
      stage = link.steady.stage;
      troubles = link.troubles.troubles;
      reads = link.troubles.reads;
      writes = link.troubles.writes;
      counts = link.troubles.counts;
    } };

    ghost invariant = { λ link. NeitherFalls link.troubles.counts link.troubles.counts };
}

impl MemoryLink {
    /// A link that gives these bytes, and then the end, whose calls go wrong by these troubles.
    pub fn new(alloc: Global, bytes: Vec<u8>, troubles: Vec<LinkTrouble>) -> MemoryLink
        ensures { result ≡ record {
          kept = Some (record { ports = []; taken = [] });
          left = bytes.items;
          stage = unconnected;
          troubles = troubles.items;
          reads = 0;
          writes = 0;
          counts = no_link_counts;
        } }
    {
        MemoryLink {
            steady: SteadyLink::new(alloc, bytes),
            troubles: LinkTroubles::new(troubles),
        }
    }

    /// The bytes that it took, or `None` where it no longer tells them.
    pub fn took(&self) -> Option<&[u8]>
        ensures { option_copied result ≡ option_map (λ kept. kept.taken) self.now.kept }
    {
        self.steady.took()
    }
}

impl Link for MemoryLink {
    ghost use Rattle.std.specs.Prelude.{length};
    ghost use Rattle.mc_wire.specs.LinkState.{link_told};

    ghost told = { λ link. link_told link.kept link.left };

    ghost stage = { λ link. link.stage };

    ghost counts = { λ link. link.counts };

    ghost answers = { λ link. length link.left };

    fn connect(&mut self, port: u16) -> Result<(), Failed>
        ensures tells { Exchanges (link_told self.old.kept self.old.left)
            (link_told self.new.kept self.new.left) (port ∷ []) [] [] }
        ensures failed { OnErr result (Rose self.old.counts.faults self.new.counts.faults) }
        ensures falls { NeitherFalls self.old.counts self.new.counts }

        // When it fails, and what it leaves in the link.
        ensures fails { IsErr result ↔ Contains self.old.troubles LinkTrouble.FailConnect }
        ensures ok { OnOk result (self.new ≡ record self.old {
          kept = self.new.kept;
          stage = after_connect result self.old.stage;
        }) }
        ensures err { OnErr result (self.new ≡ record self.old {
          kept = self.new.kept;
          stage = after_connect result self.old.stage;
          counts = with_link_fault self.old.counts;
        }) }
    {
        self.steady.ask(port);
        self.troubles.connect()?;
        self.steady.begin();
        Ok(())
    }

    fn read(&mut self, buf: &mut [u8]) -> Result<Got, Failed>
        requires connected { self.old.stage.connected ≡ true }
        requires room { 0 < length buf.old }
        ensures within { IsGot result buf.new }
        ensures tells { ToldByRead result buf.new (link_told self.old.kept self.old.left)
            (link_told self.new.kept self.new.left) }
        ensures cause { ReadHasCause result self.old.counts self.new.counts }
        ensures falls { NeitherFalls self.old.counts self.new.counts }
        ensures fewer { FewerAnswers result (length self.old.left) (length self.new.left) }

        // The exact answer, and what it leaves in the link and in the buffer.
        ensures is { Answers (read_fate self.old.troubles self.old.reads) (length buf.old)
            self.old.left result }
        ensures after { self.new ≡ record self.old {
          left = drop (count_given result) self.old.left;
          stage = after_read result self.old.stage;
          reads = raised self.old.reads;
          counts = with_read result self.old.counts;
        } }
        ensures bytes { buf.new ≡ take (count_given result) self.old.left
            ++ drop (count_given result) buf.old }
    {
        match self.troubles.read() {
            ReadFate::Goes => Ok(self.steady.give(buf)),
            ReadFate::Rests => {
                self.steady.rest();
                Ok(Got::Quiet)
            }
            ReadFate::Fails => Err(Failed),
        }
    }

    fn write(&mut self, piece: &[u8]) -> Result<usize, Failed>
        requires connected { self.old.stage.connected ≡ true }
        requires some { 0 < length piece.now }
        ensures took { IfOk result (λ n. (0 < n) × (n ≤ length piece.now)) }
        ensures tells { ToldByWrite result piece.now (link_told self.old.kept self.old.left)
            (link_told self.new.kept self.new.left) }
        ensures failed { OnErr result (Rose self.old.counts.faults self.new.counts.faults) }
        ensures falls { NeitherFalls self.old.counts self.new.counts }

        // The exact answer, and what it leaves in the link.
        ensures fails { IsErr result ↔
            Contains self.old.troubles (LinkTrouble.FailWrite self.old.writes) }
        ensures many { IfOk result (λ n. n ≡ length piece.now) }
        ensures ok { OnOk result (self.new ≡ record self.old {
          kept = self.new.kept;
          writes = raised self.old.writes;
        }) }
        ensures err { OnErr result (self.new ≡ record self.old {
          writes = raised self.old.writes;
          counts = with_link_fault self.old.counts;
        }) }
    {
        self.troubles.write()?;
        self.steady.keep(piece);
        Ok(piece.len())
    }
}
