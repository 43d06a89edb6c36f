ghost use Rattle.std.specs.Prelude.{◌≡◌, ◌+◌, ◌<◌, ◌≤◌, ◌++◌, ◌↔◌, ℕ, List, [], OnOk, OnErr};
ghost use Rattle.std.specs.Prelude.{length, take, drop};
ghost use Rattle.mc_frame.specs.Kept.{kept_bytes, outbox_max, shared_min, IsInFirst, IsKeptOutbox};
ghost use Rattle.mc_frame.specs.Kept.{ArePieces};

use bytes::Bytes;
use mc_bytes::NoMemory;
use std::alloc::Global;
use std::collections::VecDeque;
use std::marker::Model;

/// How many bytes an outbox holds at most.
pub const OUTBOX_MAX: usize = 67_108_864;

/// The least bytes of a piece that is kept as it was pushed. Smaller ones are joined, until they
/// have come to as many.
pub const SHARED_MIN: usize = 4_096;

/// The bytes that wait to be sent, at most `OUTBOX_MAX` of them. Contracts see them as one list.
///
/// A piece of at least `SHARED_MIN` bytes is kept as it was pushed, and never copied. The bytes of
/// smaller ones are copied behind one another, so that many small answers are a few pieces. How
/// many bytes of the first piece are gone is a number, so none is moved.
#[derive(Drop)]
pub struct Outbox {
    pieces: VecDeque<Bytes>,
    /// The small pieces that came last, joined, behind all others.
    joined: Vec<u8>,
    /// How many bytes of the first piece are gone.
    at: usize,
    /// How many bytes are held.
    len: usize,
}

impl Model for Outbox {
    ghost use Rattle.std.specs.Prelude.{ℕ, List, drop};

    ghost Value = { List ℕ };

    ghost use Rattle.mc_frame.specs.Kept.{kept_bytes, IsKeptOutbox};

    ghost view = { λ o. drop o.at (kept_bytes o.pieces.items o.joined.items) };

    ghost invariant = { λ o. IsKeptOutbox o.pieces.items o.joined.items o.at o.len };
}

/// Makes the joined bytes a piece, where they are at least so many. Without memory all is as
/// before.
fn seal(pieces: &mut VecDeque<Bytes>, joined: &mut Vec<u8>, least: usize) -> Result<(), NoMemory>
    requires { 0 < least }
    ensures fewer { OnOk result (length joined.new.items < least) }
    ensures same { kept_bytes pieces.new.items joined.new.items
        ≡ kept_bytes pieces.old.items joined.old.items }
    ensures kept { (at len : ℕ) → IsKeptOutbox pieces.old.items joined.old.items at len →
        IsKeptOutbox pieces.new.items joined.new.items at len }
{
    if joined.len() < least {
        return Ok(());
    }
    let piece = Bytes::copy_from_slice(*joined.allocator(), joined.as_slice())?;
    pieces.push_back(piece)?;
    joined.clear();
    Ok(())
}

/// Drops the pieces that lie before a place in all bytes, and gives the place in those that are
/// left.
fn drop_before(pieces: &mut VecDeque<Bytes>, place: usize) -> usize
    requires { ArePieces pieces.old.items }
    ensures rest { (joined : List ℕ) → drop result (kept_bytes pieces.new.items joined)
        ≡ drop place (kept_bytes pieces.old.items joined) }
    ensures in_first { (joined : List ℕ) → place < length (kept_bytes pieces.old.items joined) →
        IsInFirst result pieces.new.items joined }
    ensures pieces_fit { ArePieces pieces.new.items }
{
    let mut at = place;
    while let Some(first) = pieces.front() {
        if at < first.len() {
            return at;
        }
        at -= first.len();
        pieces.pop_front();
    }
    at
}

impl Outbox {
    /// An outbox that holds nothing.
    pub fn new(alloc: Global) -> Outbox
        ensures { result ≡ [] }
    {
        Outbox {
            pieces: VecDeque::new(alloc),
            joined: Vec::new(alloc),
            at: 0,
            len: 0,
        }
    }

    /// Puts a piece behind the bytes that are held. Without memory they are as before.
    pub fn push(&mut self, piece: Bytes) -> Result<(), NoMemory>
        requires { length self.old + length piece ≤ outbox_max }
        ensures ok { OnOk result (self.new ≡ self.old ++ piece) }
        ensures err { OnErr result (self.new ≡ self.old) }
    {
        if piece.len() < SHARED_MIN {
            return self.join(piece.as_slice());
        }
        self.share(piece)
    }

    /// Puts bytes that nothing shares behind those that are held. Without memory these are as
    /// before.
    pub fn push_owned(&mut self, bytes: Vec<u8>) -> Result<(), NoMemory>
        requires { length self.old + length bytes.items ≤ outbox_max }
        ensures ok { OnOk result (self.new ≡ self.old ++ bytes.items) }
        ensures err { OnErr result (self.new ≡ self.old) }
    {
        if bytes.len() < SHARED_MIN {
            return self.join(bytes.as_slice());
        }
        self.share(Bytes::from_vec(bytes)?)
    }

    /// Copies bytes behind those that are held. Without memory these are as before.
    pub fn push_slice(&mut self, bytes: &[u8]) -> Result<(), NoMemory>
        requires { length self.old + length bytes.now ≤ outbox_max }
        ensures ok { OnOk result (self.new ≡ self.old ++ bytes.now) }
        ensures err { OnErr result (self.new ≡ self.old) }
    {
        if bytes.len() < SHARED_MIN {
            return self.join(bytes);
        }
        let piece = Bytes::copy_from_slice(*self.joined.allocator(), bytes)?;
        self.share(piece)
    }

    /// Copies a small piece behind the bytes that are held. Without memory they are as before.
    fn join(&mut self, piece: &[u8]) -> Result<(), NoMemory>
        requires room { length self.old + length piece.now ≤ outbox_max }
        requires small { length piece.now < shared_min }
        ensures ok { OnOk result (self.new ≡ self.old ++ piece.now) }
        ensures err { OnErr result (self.new ≡ self.old) }
    {
        seal(&mut self.pieces, &mut self.joined, SHARED_MIN)?;
        self.joined.extend_from_slice(piece)?;
        self.len += piece.len();
        Ok(())
    }

    /// Puts a piece that is not small behind the bytes that are held, without copying it. Without
    /// memory they are as before.
    fn share(&mut self, piece: Bytes) -> Result<(), NoMemory>
        requires room { length self.old + length piece ≤ outbox_max }
        requires large { shared_min ≤ length piece }
        ensures ok { OnOk result (self.new ≡ self.old ++ piece) }
        ensures err { OnErr result (self.new ≡ self.old) }
    {
        let len = piece.len();
        seal(&mut self.pieces, &mut self.joined, 1)?;
        self.pieces.push_back(piece)?;
        self.len += len;
        Ok(())
    }

    /// The first bytes that are held, without copying them: at least one where there is any.
    pub fn front(&self) -> &[u8]
        ensures first { take (length result.now) self.now ≡ result.now }
        ensures empty { (result.now ≡ []) ↔ (self.now ≡ []) }
    {
        match self.pieces.front() {
            Some(piece) => piece.as_slice().split_at(self.at).1,
            None => self.joined.as_slice().split_at(self.at).1,
        }
    }

    /// Lets go of the first `n` bytes. They may be more than `front` gives. Where nothing is held
    /// then, its memory is given back.
    pub fn took(&mut self, n: usize)
        requires { n ≤ length self.old }
        ensures { self.new ≡ drop n self.old }
    {
        if n == self.len {
            *self = Outbox::new(*self.joined.allocator());
            return;
        }
        self.len -= n;
        self.at = drop_before(&mut self.pieces, self.at + n);
    }

    /// How many bytes are held.
    pub fn len(&self) -> usize
        ensures is { result ≡ length self.now }
        ensures bounded { result ≤ outbox_max }
    {
        self.len
    }
}
