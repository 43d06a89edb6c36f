ghost use Rattle.std.specs.Prelude.{◌≡◌, ◌++◌, OnOk, OnErr, IsErrOf};
ghost use Rattle.mc_wire.specs.Count.{Rose, StandsOrRises};
ghost use Rattle.mc_capture.specs.Gathering.{Gathers, WritesPart};
ghost use Rattle.mc_capture.specs.Talks.{heard_lines, new_talk, talk_after};

use crate::hearing::hear;
use crate::states::{State, States, Way};
use crate::unwritten::Unwritten;
use mc_frame::Splitter;
use mc_wire::Sink;
use std::alloc::Global;
use std::marker::Model;

/// What came of one connection. Contracts see how far its two ways have come, and what of the bytes
/// of each is no whole frame yet; of a way behind its first fault nothing is kept.
#[derive(Drop)]
pub(crate) struct Conversation {
    states: States,
    up: Option<Splitter>,
    down: Option<Splitter>,
}

impl Model for Conversation {
    ghost use Rattle.mc_capture.specs.Talks.{Talk};

    ghost Value = { Talk };

    ghost use Rattle.mc_capture.specs.Hearings.{IsSettled, waiting_bytes};

    ghost view = { λ c. record {
      states = c.states;
      up = waiting_bytes c.up;
      down = waiting_bytes c.down;
    } };

    ghost invariant = { λ c. IsSettled c.up × IsSettled c.down };
}

impl Conversation {
    /// A connection of which nothing came yet.
    pub(crate) fn new(alloc: Global) -> Conversation
        ensures { result ≡ new_talk }
    {
        Conversation {
            states: States {
                up: State::Hand,
                down: State::Hand,
            },
            up: Some(Splitter::new(alloc)),
            down: Some(Splitter::new(alloc)),
        }
    }

    /// Shows bytes of one of its ways.
    pub(crate) fn hear<O: Sink>(
        &mut self,
        k: u32,
        way: Way,
        piece: &[u8],
        lines: &mut Vec<u8>,
        out: &mut O,
    ) -> Result<(), Unwritten>
        ensures gathers { OnOk result (Gathers (O.held out.old) (O.held out.new)
            (lines.old.items ++ heard_lines k way self.old piece.now) lines.new.items) }
        ensures next { OnOk result (self.new ≡ talk_after k way self.old piece.now) }
        ensures part { OnErr result (WritesPart (O.held out.old) (O.held out.new)
            (lines.old.items ++ heard_lines k way self.old piece.now)) }
        ensures failed { IsErrOf result Unwritten.Failed →
            Rose (O.faults out.old) (O.faults out.new) }
        ensures counts { StandsOrRises (O.faults out.old) (O.faults out.new) }
    {
        match way {
            Way::Up => hear(k, way, &mut self.states, &mut self.up, piece, lines, out),
            Way::Down => hear(k, way, &mut self.states, &mut self.down, piece, lines, out),
        }
    }
}
