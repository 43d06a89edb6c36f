ghost use Rattle.std.specs.Prelude.{◌≡◌, ◌+◌, ◌++◌, ◌≤◌, ◌↔◌, [], OnOk, drop, length, nat_le, take};
ghost use Rattle.mc_frame.specs.Kept.{joined, outbox_max};

mod fields;

use bytes::Bytes;
use mc_bytes::NoMemory;
use mc_frame::{OUTBOX_MAX, Outbox};
use std::alloc::Global;
use std::marker::Model;

/// The bytes that a connection was handed and has not taken. Contracts see them as one list.
#[derive(Drop)]
pub struct Backlog {
    alloc: Global,
    outbox: Outbox,
}

impl Model for Backlog {
    ghost use Rattle.std.specs.Prelude.{ℕ, List};

    ghost Value = { List ℕ };

    ghost view = { λ b. b.outbox };
}

impl Backlog {
    /// Nothing is owed.
    pub fn new(alloc: Global) -> Backlog
        ensures { result ≡ [] }
    {
        Backlog {
            alloc,
            outbox: Outbox::new(alloc),
        }
    }

    /// How many bytes are owed.
    pub fn len(&self) -> usize
        ensures { result ≡ length self.now }
    {
        self.outbox.len()
    }

    /// The first bytes that are owed, without copying them.
    pub fn front(&self) -> &[u8]
        ensures first { take (length result.now) self.now ≡ result.now }
        ensures empty { (result.now ≡ []) ↔ (self.now ≡ []) }
    {
        self.outbox.front()
    }

    /// Takes the first bytes that are owed, or all of them where `n` is more.
    pub fn took(&mut self, n: usize)
        ensures { self.new ≡ drop n self.old }
    {
        let n = n.min(self.outbox.len());
        self.outbox.took(n);
    }

    /// Lets go of all that is owed.
    pub fn clear(&mut self)
        ensures { self.new ≡ [] }
    {
        self.outbox = Outbox::new(self.alloc);
    }

    /// Whether so many more bytes may be owed.
    pub fn has_room(&self, more: usize) -> bool
        ensures { result ≡ nat_le (length self.now + more) outbox_max }
    {
        more <= OUTBOX_MAX - self.outbox.len()
    }

    /// Whether the bytes of these pieces may be owed too.
    pub fn has_room_for(&self, pieces: &[Bytes]) -> bool
        ensures { result ≡ nat_le (length self.now + length (joined pieces.now)) outbox_max }
    {
        let mut room = OUTBOX_MAX - self.outbox.len();
        for piece in pieces {
            if room < piece.len() {
                return false;
            }
            room -= piece.len();
        }
        true
    }

    /// Puts a piece behind what is owed.
    fn push(&mut self, piece: Bytes) -> Result<(), NoMemory>
        requires { length self.old + length piece ≤ outbox_max }
        ensures { OnOk result (self.new ≡ self.old ++ piece) }
    {
        self.outbox.push(piece)?;
        Ok(())
    }

    /// Puts bytes that nothing shares behind what is owed.
    pub fn push_owned(&mut self, bytes: Vec<u8>) -> Result<(), NoMemory>
        requires { length self.old + length bytes.items ≤ outbox_max }
        ensures { OnOk result (self.new ≡ self.old ++ bytes.items) }
    {
        self.outbox.push_owned(bytes)?;
        Ok(())
    }

    /// Copies bytes behind what is owed.
    pub fn push_slice(&mut self, bytes: &[u8]) -> Result<(), NoMemory>
        requires { length self.old + length bytes.now ≤ outbox_max }
        ensures { OnOk result (self.new ≡ self.old ++ bytes.now) }
    {
        self.outbox.push_slice(bytes)?;
        Ok(())
    }

    /// Puts pieces behind what is owed.
    pub fn push_all(&mut self, pieces: Vec<Bytes>) -> Result<(), NoMemory>
        requires { length self.old + length (joined pieces.items) ≤ outbox_max }
        ensures { OnOk result (self.new ≡ self.old ++ joined pieces.items) }
    {
        for piece in pieces {
            self.push(piece)?;
        }
        Ok(())
    }
}
