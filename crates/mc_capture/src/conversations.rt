ghost use Rattle.std.specs.Prelude.{◌≡◌, ◌++◌, OnOk, OnErr, IsErrOf};
ghost use Rattle.std.specs.Option.{option_copied_mut};
ghost use Rattle.std.specs.FinMap.{empty, get, insert};
ghost use Rattle.mc_wire.specs.Count.{Rose, StandsOrRises};
ghost use Rattle.mc_capture.specs.Gathering.{Gathers, WritesPart};
ghost use Rattle.mc_capture.specs.Talks.{heard_lines, new_talk, talk_after};
ghost use Rattle.mc_capture.specs.Tables.{talk_in};

use crate::conversation::Conversation;
use crate::states::Way;
use crate::unwritten::Unwritten;
use mc_bytes::NoMemory;
use mc_wire::Sink;
use std::alloc::Global;
use std::collections::BTreeMap;
use std::marker::Model;

/// What came of the connections of which bytes came, by their numbers. Contracts see that map.
#[derive(Drop)]
pub(crate) struct Conversations {
    by_connection: BTreeMap<u32, Conversation>,
}

impl Model for Conversations {
    ghost use Rattle.std.specs.Coded.{codes, coded_ℕ};
    ghost use Rattle.std.specs.FinMap.{FinMap, code, from_entries};
    ghost use Rattle.std.specs.Ordering.{nat_cmp};
    ghost use Rattle.mc_capture.specs.Talks.{Talk};

    ghost Value = { FinMap nat_cmp Talk };

    ghost coded = { code coded_ℕ (Prim.hlevel codes) };

    ghost view = { λ talks. from_entries talks.by_connection.entries };
}

impl Conversations {
    ghost use Rattle.std.specs.Borrow.{LendsIf, sem};
    ghost use Rattle.mc_capture.specs.contracts.conversation.Conversation.{the_row as talk_row};
    ghost use Rattle.mc_capture.specs.contracts.conversations.Conversations.{the_row};

    /// Nothing came yet.
    pub(crate) fn new(alloc: Global) -> Conversations
        ensures { result ≡ empty }
    {
        Conversations {
            by_connection: BTreeMap::new(alloc),
        }
    }

    /// What came of a connection to write into, if anything did; nothing else changes.
    fn find_mut(&mut self, k: u32) -> Option<&mut Conversation>
        ensures* lends { sem 𝓛 (LendsIf the_row talk_row self.entry result
            (insert self.old k) self.old) }
        ensures is { option_copied_mut result ≡ get self.old k }
    {
        self.by_connection.get_mut(&k)
    }

    /// Keeps what came of a connection.
    fn add(&mut self, k: u32, talk: Conversation) -> Result<(), NoMemory>
        ensures { OnOk result (self.new ≡ insert self.old k talk) }
    {
        drop(self.by_connection.insert(k, talk)?);
        Ok(())
    }

    /// Shows bytes of one way of a connection.
    pub(crate) fn hear<O: Sink>(
        &mut self,
        k: u32,
        way: Way,
        piece: &[u8],
        lines: &mut Vec<u8>,
        out: &mut O,
    ) -> Result<(), Unwritten>
        ensures gathers { OnOk result (Gathers (O.held out.old) (O.held out.new)
            (lines.old.items ++ heard_lines k way (talk_in self.old k) piece.now) lines.new.items) }
        ensures next { OnOk result
            (self.new ≡ insert self.old k (talk_after k way (talk_in self.old k) piece.now)) }
        ensures part { OnErr result (WritesPart (O.held out.old) (O.held out.new)
            (lines.old.items ++ heard_lines k way (talk_in self.old k) piece.now)) }
        ensures failed { IsErrOf result Unwritten.Failed →
            Rose (O.faults out.old) (O.faults out.new) }
        ensures counts { StandsOrRises (O.faults out.old) (O.faults out.new) }
    {
        if let Some(talk) = self.find_mut(k) {
            return talk.hear(k, way, piece, lines, out);
        }
        self.hear_first(k, way, piece, lines, out)
    }

    /// Shows bytes of one way of a connection of which none came before.
    fn hear_first<O: Sink>(
        &mut self,
        k: u32,
        way: Way,
        piece: &[u8],
        lines: &mut Vec<u8>,
        out: &mut O,
    ) -> Result<(), Unwritten>
        ensures gathers { OnOk result (Gathers (O.held out.old) (O.held out.new)
            (lines.old.items ++ heard_lines k way new_talk piece.now) lines.new.items) }
        ensures next { OnOk result
            (self.new ≡ insert self.old k (talk_after k way new_talk piece.now)) }
        ensures part { OnErr result (WritesPart (O.held out.old) (O.held out.new)
            (lines.old.items ++ heard_lines k way new_talk piece.now)) }
        ensures failed { IsErrOf result Unwritten.Failed →
            Rose (O.faults out.old) (O.faults out.new) }
        ensures counts { StandsOrRises (O.faults out.old) (O.faults out.new) }
    {
        let mut talk = Conversation::new(*lines.allocator());
        talk.hear(k, way, piece, lines, out)?;
        self.add(k, talk)?;
        Ok(())
    }
}
