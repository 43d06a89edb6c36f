ghost use Rattle.std.specs.Prelude.{◌≡◌, ◌-◌, ◌<◌, ◌≤◌, ◌++◌, ℕ, List, Ok, Some, None, IfOk, OnErr};
ghost use Rattle.std.specs.Prelude.{length, take, drop};
ghost use Rattle.mc_frame.specs.Frame.{SpellsFrame};
ghost use Rattle.mc_frame.specs.Cut.{IsPart, Ends};
ghost use Rattle.mc_frame.specs.Held.{nothing_held};
ghost use Rattle.mc_frame.specs.Splitting.{Feeds, Peeks, Takes, held_max, shortened, room_for};

use crate::frame::front_frame;
use crate::{FrameFault, Peek, Take};
use mc_bytes::{NoMemory, Octets};
use std::alloc::Global;
use std::marker::Model;

/// How many bytes a splitter holds at most: those of the longest frame.
pub const HELD_MAX: usize = 2_097_154;

/// Cuts a stream into frames, whatever the pieces in which it comes. Contracts see the bytes that
/// it holds, how many of the stream stand before them, and the fault that it met.
///
/// The bytes stand in one buffer, and a place in it rises from frame to frame. The held bytes are
/// moved to the front only where at least as many have gone, so a stream costs time in its length.
#[derive(Drop)]
pub struct Splitter {
    buffer: Vec<u8>,
    start: usize,
    before: u64,
    fault: Option<FrameFault>,
}

impl Model for Splitter {
    ghost use Rattle.std.specs.Prelude.{drop};
    ghost use Rattle.mc_frame.specs.Held.{Splitting};

    ghost Value = { Splitting };

    ghost use Rattle.mc_frame.specs.Kept.{IsKeptSplitter};

    ghost view = { λ s. record {
      held = drop s.start s.buffer.items;
      before = s.before;
      fault = s.fault;
    } };

    ghost invariant = { λ s. IsKeptSplitter s.buffer.items s.start s.before s.fault };
}

/// Moves the bytes from `start` on to the front of a buffer, where that copies no more bytes than
/// have gone, and gives the place where they stand then.
fn compact(buffer: &mut Vec<u8>, start: usize) -> usize
    requires { start ≤ length buffer.old.items }
    ensures within { result ≤ length buffer.new.items }
    ensures held { drop result buffer.new.items ≡ drop start buffer.old.items }
{
    let held = buffer.len() - start;
    if start < held {
        return start;
    }
    move_to_front(buffer.as_mut_slice(), start);
    buffer.truncate(held);
    0
}

/// Copies the bytes from `start` on to the front, which they don't reach into.
fn move_to_front(bytes: &mut [u8], start: usize)
    requires within { start ≤ length bytes.old }
    requires apart { length bytes.old - start ≤ start }
    ensures { take (length bytes.old - start) bytes.new ≡ drop start bytes.old }
{
    let (front, held) = bytes.split_at_mut(start);
    front[..held.len()].copy_from_slice(held);
}

impl Splitter {
    /// The splitter of a stream of which nothing came yet. It takes no memory.
    pub fn new(alloc: Global) -> Splitter
        ensures { result ≡ nothing_held }
    {
        Splitter {
            buffer: Vec::new(alloc),
            start: 0,
            before: 0,
            fault: None,
        }
    }

    /// How many bytes are held.
    pub fn len(&self) -> usize
        ensures { result ≡ length self.now.held }
    {
        self.buffer.len() - self.start
    }

    /// How many more bytes are taken.
    fn room(&self) -> usize
        ensures { result ≡ room_for self.now.fault self.now.held }
    {
        match self.fault {
            Some(_) => 0,
            None => HELD_MAX - self.len(),
        }
    }

    /// Takes the first bytes of a piece, at most so many that 2,097,154 are held, and says how
    /// many. After `Take::Bad` it takes none.
    pub fn feed(&mut self, piece: &[u8]) -> Result<usize, NoMemory>
        ensures fed { IfOk result (λ count. Feeds self.old piece.now count self.new) }
        // After `Take::More` a piece is never refused whole.
        ensures some { IsPart self.old.held → self.old.fault ≡ None → 0 < length piece.now →
            IfOk result (λ count. 0 < count) }
        ensures bounded { length self.new.held ≤ held_max }
        ensures err { OnErr result (self.new ≡ self.old) }
    {
        let count = piece.len().min(self.room());
        self.start = compact(&mut self.buffer, self.start);
        self.buffer.extend_from_slice(&piece[..count])?;
        Ok(count)
    }

    /// Shows what stands at the front of the held bytes, without copying it: a whole frame, `More`
    /// where they are a part of a frame, or `Bad` where no frame begins so.
    pub fn peek(&self) -> Peek<'_>
        ensures { Peeks self.now result }
    {
        if let Some(fault) = self.fault {
            return Peek::Bad(fault);
        }
        let held = self.buffer.split_at(self.start).1;
        match front_frame(held, self.before) {
            Ok((payload, len)) => Peek::Frame(payload, len),
            Err(None) => Peek::More,
            Err(Some(fault)) => Peek::Bad(fault),
        }
    }

    /// Lets go of the first `len` of the held bytes. Those of the frame that `peek` showed are
    /// taken by it.
    pub fn pass(&mut self, len: usize)
        requires within { len ≤ length self.old.held }
        requires fine { self.old.fault ≡ None }
        ensures is { self.new ≡ shortened len self.old }
        ensures takes { (payload : List ℕ) → SpellsFrame payload (take len self.old.held) →
            Takes self.old (Take.Frame payload) self.new }
    {
        self.start += len;
        self.before = self.before.saturating_add(len as u64);
    }

    /// Takes the frame at the front of the held bytes, or says why there is none: `More` exactly
    /// where they are a part of a frame, `Bad` exactly where no frame begins so, and for good.
    pub fn take(&mut self) -> Result<Take, NoMemory>
        // What it answers is so, by the definition of a cut.
        ensures takes { IfOk result (λ answer. Takes self.old answer self.new) }
        // What is so, it answers.
        ensures frame { (payload front rest : List ℕ) → SpellsFrame payload front → self.old.held ≡
            front ++ rest →
            IfOk result (λ answer. answer ≡ Take.Frame payload) }
        ensures more { IsPart self.old.held → result ≡ Ok Take.More }
        ensures bad { (fault : FrameFault) → Ends self.old.before self.old.held (Some fault) →
            result ≡ Ok (Take.Bad fault) }
        ensures err { OnErr result (self.new ≡ self.old) }
    {
        match self.peek() {
            Peek::Frame(payload, len) => {
                let frame = Octets::from_slice(*self.buffer.allocator(), payload)?;
                self.pass(len);
                Ok(Take::Frame(frame))
            }
            Peek::More => Ok(Take::More),
            Peek::Bad(fault) => {
                self.fault = Some(fault);
                Ok(Take::Bad(fault))
            }
        }
    }
}
