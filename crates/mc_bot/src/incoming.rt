ghost use Rattle.std.specs.Prelude.{◌≡◌, ◌+◌, ◌≤◌, ◌<◌, Ok, None, IfOk, IfErr, OnOk, length, true};
ghost use Rattle.mc_frame.specs.Cut.{IsPart};
ghost use Rattle.mc_frame.specs.Splitting.{Takes, held_max};
ghost use Rattle.mc_wire.specs.LinkStage.{after_read};
ghost use Rattle.mc_bot.specs.Arriving.{nothing_came, holding, GoesWith, IsPatient, HasGot};
ghost use Rattle.mc_bot.specs.Arriving.{HasRead, HasNext, HasTries, to_come, tries};
ghost use Rattle.mc_bot.specs.LinkFaults.{LinkFaults};

use crate::BotFault;
use mc_bytes::{NoMemory, Octets, Text};
use mc_frame::{HELD_MAX, Splitter, Take};
use mc_wire::{Got, Link};
use std::alloc::{AllocError, Global};
use std::marker::Model;

/// How many bytes are asked of a link at once, at most.
const PIECE_MAX: usize = 65_536;

/// What comes of a link, frame by frame, with the patience for reads that are quiet in a row.
/// Contracts see the splitter, the run of quiet reads and the patience.
#[derive(Drop)]
pub struct Incoming {
    splitter: Splitter,
    piece: Vec<u8>,
    quiets: u64,
    patience: u64,
}

impl Model for Incoming {
    ghost use Rattle.std.specs.Prelude.{◌<◌, length};
    ghost use Rattle.mc_bot.specs.Arriving.{Arriving};

    ghost Value = { Arriving };

    ghost view = { λ incoming. record {
      splitting = incoming.splitter;
      quiets = incoming.quiets;
      patience = incoming.patience;
    } };

    ghost invariant = { λ incoming. 0 < length incoming.piece.items };
}

/// So many zeros.
fn zeros(alloc: Global, count: usize) -> Result<Vec<u8>, AllocError>
    ensures { IfOk result (λ bytes. length bytes.items ≡ count) }
{
    vec![in alloc; 0u8; count]
}

/// How many bytes are read at once, of a piece of at most so many, where no whole frame is held.
#[tactic(auto, using(mc_frame::proofs::Fronts::part_few))]
fn room_for(splitter: &Splitter, most: usize) -> usize
    requires part { IsPart splitter.now.held }
    requires some { 0 < most }
    ensures some { 0 < result }
    ensures within { result ≤ most }
    ensures fits { length splitter.now.held + result ≤ held_max }
{
    most.min(HELD_MAX - splitter.len())
}

/// Feeds a splitter a piece for which it has room.
#[tactic(auto, using(crate::proofs::Arrivals::fed_whole))]
fn feed_whole(splitter: &mut Splitter, piece: &[u8]) -> Result<(), NoMemory>
    requires fine { splitter.old.fault ≡ None }
    requires room { length splitter.old.held + length piece.now ≤ held_max }
    ensures holds { OnOk result (splitter.new ≡ holding splitter.old piece.now) }
    ensures few { OnOk result (length splitter.new.held ≤ held_max) }
{
    splitter.feed(piece)?;
    Ok(())
}

/// Reads once into a piece for which a splitter has room, and feeds it.
#[tactic(auto, using(crate::proofs::Arrivals::told_same, crate::proofs::Arrivals::told_given, crate::proofs::Arrivals::piece_room))]
fn read_once<K: Link>(
    link: &mut K,
    splitter: &mut Splitter,
    piece: &mut [u8],
) -> Result<Got, BotFault>
    requires connected { (K.stage link.old).connected ≡ true }
    requires some { 0 < length piece.old }
    requires fine { splitter.old.fault ≡ None }
    requires room { length splitter.old.held + length piece.old ≤ held_max }
    ensures got { HasGot splitter.old splitter.new (K.told link.old) (K.told link.new) result }
    ensures stands { IfOk result (λ got.
        K.stage link.new ≡ after_read (Ok got) (K.stage link.old)) }
    ensures link { LinkFaults (K.counts link.old).faults (K.counts link.new).faults result }
    ensures fewer { HasTries result (K.answers link.old) (K.answers link.new) }
{
    let got = link.read(piece)?;
    if let Got::Bytes(count) = got {
        feed_whole(splitter, &piece[..count])?;
    }
    Ok(got)
}

/// Reads once, no more than a splitter has room for that holds no whole frame, and feeds it.
fn read_into<K: Link>(
    link: &mut K,
    splitter: &mut Splitter,
    piece: &mut Vec<u8>,
) -> Result<Got, BotFault>
    requires connected { (K.stage link.old).connected ≡ true }
    requires some { 0 < length piece.old.items }
    requires fine { splitter.old.fault ≡ None }
    requires part { IsPart splitter.old.held }
    ensures len { length piece.new.items ≡ length piece.old.items }
    ensures got { HasGot splitter.old splitter.new (K.told link.old) (K.told link.new) result }
    ensures stands { IfOk result (λ got.
        K.stage link.new ≡ after_read (Ok got) (K.stage link.old)) }
    ensures link { LinkFaults (K.counts link.old).faults (K.counts link.new).faults result }
    ensures fewer { HasTries result (K.answers link.old) (K.answers link.new) }
{
    let room = room_for(splitter, piece.len());
    read_once(link, splitter, &mut piece[..room])
}

impl Incoming {
    /// What comes of a link that gave nothing yet.
    pub fn new(alloc: Global, patience: u64) -> Result<Incoming, BotFault>
        ensures is { IfOk result (λ incoming. incoming ≡ nothing_came patience) }
        ensures fault { IfErr result (λ fault. fault ≡ BotFault.NoMemory) }
    {
        Ok(Incoming {
            splitter: Splitter::new(alloc),
            piece: zeros(alloc, PIECE_MAX)?,
            quiets: 0,
            patience,
        })
    }

    /// Takes what stands at the front of what is held.
    fn take(&mut self) -> Result<Take, BotFault>
        ensures kept { self.new ≡ record self.old { splitting = self.new.splitting } }
        ensures takes { IfOk result (λ take. Takes self.old.splitting take self.new.splitting) }
        ensures part { IsPart self.old.splitting.held →
            IfOk result (λ take. take ≡ Take.More) }
        ensures fault { IfErr result (λ fault. fault ≡ BotFault.NoMemory) }
    {
        Ok(self.splitter.take()?)
    }

    /// Reads once, where no whole frame is held.
    #[tactic(auto, using(crate::proofs::Arrivals::read_none, crate::proofs::Arrivals::read_failed, crate::proofs::Arrivals::read_bytes, crate::proofs::Arrivals::read_quiet, crate::proofs::Arrivals::read_end, crate::proofs::Arrivals::tries_bytes, crate::proofs::Arrivals::tries_quiet, crate::proofs::Arrivals::to_come_bytes, crate::proofs::Arrivals::to_come_quiet))]
    fn read<K: Link>(&mut self, link: &mut K) -> Result<(), BotFault>
        requires goes { GoesWith self.old (K.stage link.old) }
        requires part { IsPart self.old.splitting.held }
        ensures read { HasRead self.old self.new (K.told link.old) (K.told link.new)
            (K.stage link.new) result }
        ensures link { LinkFaults (K.counts link.old).faults (K.counts link.new).faults result }
        ensures fewer { OnOk result (to_come (K.answers link.new) self.new.splitting ≤
            to_come (K.answers link.old) self.old.splitting) }
        ensures tries { OnOk result
            (tries (K.answers link.new) self.new < tries (K.answers link.old) self.old) }
    {
        if self.quiets >= self.patience {
            return Err(BotFault::Patience(self.patience));
        }
        match read_into(link, &mut self.splitter, &mut self.piece)? {
            Got::Bytes(_) => {
                self.quiets = 0;
                Ok(())
            }
            Got::Quiet => {
                self.quiets += 1;
                Ok(())
            }
            Got::End => {
                let nothing = String::new(*self.piece.allocator());
                Err(BotFault::Closed(Text::from_string(nothing)))
            }
        }
    }

    /// Takes the next frame, and reads as long as none is there.
    #[tactic(auto, using(crate::proofs::Arrivals::waited_none, crate::proofs::Arrivals::waited_more, crate::proofs::Arrivals::waited_frame, crate::proofs::Arrivals::waited_bad, crate::proofs::Arrivals::waited_lost, crate::proofs::Arrivals::waited_fails))]
    pub fn next<K: Link>(&mut self, link: &mut K) -> Result<Octets, BotFault>
        requires goes { GoesWith self.old (K.stage link.old) }
        requires patient { IsPatient self.old }
        ensures next { HasNext self.old self.new (K.told link.old) (K.told link.new)
            (K.stage link.new) result }
        ensures link { LinkFaults (K.counts link.old).faults (K.counts link.new).faults result }
        ensures fewer { OnOk result (to_come (K.answers link.new) self.new.splitting <
            to_come (K.answers link.old) self.old.splitting) }
    {
        loop {
            match self.take()? {
                Take::Frame(payload) => return Ok(payload),
                Take::Bad(fault) => return Err(BotFault::Frame(fault)),
                Take::More => self.read(link)?,
            }
        }
    }
}
