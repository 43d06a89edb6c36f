ghost use Rattle.std.specs.Prelude.{◌≡◌, ◌⊎◌, OnOk, OnErr, IfErr};
ghost use Rattle.mc_wire.specs.Count.{Rose, StandsOrRises};
ghost use Rattle.mc_wire.specs.Stream.{Grows};
ghost use Rattle.mc_capture.specs.Gathering.{WritesPart};
ghost use Rattle.mc_replica.specs.Dump.{dump_text};
ghost use Rattle.mc_show.specs.Following.{first_followed, followed_by};

use crate::following::follow;
use mc_bytes::NoMemory;
use mc_capture::{CaptureEnd, Record, State, States, Way};
use mc_frame::Splitter;
use mc_replica::{DumpFault, Replica};
use mc_wire::Sink;
use std::alloc::Global;
use std::marker::Model;

/// A client that is followed through a capture. Contracts see how far the two ways of its
/// connection have come, what of the bytes of each is no whole frame yet, and its world; of a way
/// behind its first fault nothing is kept.
#[derive(Drop)]
pub(crate) struct Client {
    states: States,
    up: Option<Splitter>,
    down: Option<Splitter>,
    world: Replica,
}

impl Model for Client {
    ghost use Rattle.std.specs.Coded.{codes};
    ghost use Rattle.mc_capture.specs.Hearings.{IsSettled, waiting_bytes};
    ghost use Rattle.mc_replica.specs.contracts.replica.Replica.{the_row as replica_row};
    ghost use Rattle.mc_show.specs.Following.{Followed};

    ghost Value = { Followed };

    ghost coded = { Prim.hlevel (codes, replica_row.coded) };

    ghost view = { λ c. record {
      talk = record {
        states = c.states;
        up = waiting_bytes c.up;
        down = waiting_bytes c.down;
      };
      world = c.world;
    } };

    ghost invariant = { λ c. IsSettled c.up × IsSettled c.down };
}

impl Client {
    /// A client of whose connection nothing came yet. It takes no memory.
    pub(crate) fn new(alloc: Global) -> Client
        ensures { result ≡ first_followed }
    {
        Client {
            states: States {
                up: State::Hand,
                down: State::Hand,
            },
            up: Some(Splitter::new(alloc)),
            down: Some(Splitter::new(alloc)),
            world: Replica::new(alloc),
        }
    }

    /// Takes a record of its connection.
    pub(crate) fn take(&mut self, alloc: Global, rec: &Record) -> Result<(), NoMemory>
        ensures { OnOk result (self.new ≡ followed_by self.old rec.now) }
    {
        let bytes = rec.bytes.as_slice();
        let (states, world) = (&mut self.states, &mut self.world);
        match rec.kind {
            1 => follow(alloc, Way::Up, states, &mut self.up, world, bytes),
            4 => follow(alloc, Way::Down, states, &mut self.down, world, bytes),
            _ => Ok(()),
        }
    }

    /// Writes its world as text. `Write` comes only where the sink failed; any error leaves some
    /// first part of the text written.
    pub(crate) fn dump<O: Sink>(&self, out: &mut O) -> Result<(), CaptureEnd>
        ensures whole { OnOk result
            (Grows (O.held out.old) (O.held out.new) (dump_text self.now.world)) }
        ensures part { OnErr result
            (WritesPart (O.held out.old) (O.held out.new) (dump_text self.now.world)) }
        ensures err { IfErr result (λ end.
            ((end ≡ CaptureEnd.Write) × Rose (O.faults out.old) (O.faults out.new))
            ⊎ (end ≡ CaptureEnd.NoMemory)) }
        ensures counts { StandsOrRises (O.faults out.old) (O.faults out.new) }
    {
        match self.world.dump(out) {
            Ok(()) => Ok(()),
            Err(DumpFault::Write) => Err(CaptureEnd::Write),
            Err(DumpFault::NoMemory) => Err(CaptureEnd::NoMemory),
        }
    }
}
