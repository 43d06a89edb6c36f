ghost use Rattle.std.specs.Prelude.{◌≡◌, ◌≢◌, ℕ, ◌<◌, ◌≤◌, Option, List, ◌++◌, Ok, length, take};
ghost use Rattle.std.specs.Prelude.{IfOk, OnErr, IsErrOf, vec_len};
ghost use Rattle.mc_wire.specs.Count.{Rose, NeverFalls, StandsOrRises};
ghost use Rattle.mc_wire.specs.Stream.{Consumes, IsAtEnd};

use crate::{Failed, InputError};
use std::alloc::{AllocError, Global};

/// How many bytes `read_up_to` asks a source for at a time.
const PIECE: usize = 65_536;

/// What bytes can be read from: a device of the outside, or one in memory.
pub trait Source {
    // What is left to read, where the device tells it.
    ghost left: { Self → Option (List ℕ) };

    // How many failures it has counted.
    ghost faults: { Self → ℕ };

    // How many answers with bytes it has still to give, at most.
    ghost answers: { Self → ℕ };

    /// Reads into the front of the buffer, and says how many bytes it read: 0 only at the end. A
    /// failure leaves what is left, where the source tells that.
    fn read(&mut self, buf: &mut [u8]) -> Result<usize, Failed>
        requires { 0 < length buf.old }
        ensures within { IfOk result (λ n. n ≤ length buf.new) }
        ensures given { IfOk result
            (λ n. Consumes (left self.old) (left self.new) (take n buf.new)) }
        ensures end { result ≡ Ok 0 → IsAtEnd (left self.new) }
        ensures kept { OnErr result (left self.new ≡ left self.old) }
        ensures failed { OnErr result (Rose (faults self.old) (faults self.new)) }
        ensures counts { NeverFalls (faults self.old) (faults self.new) }
        ensures falls { IfOk result (λ n. 0 < n → answers self.new < answers self.old) };
}

/// What a source has left, and of more than `most` bytes the first `most`. It fails where the
/// source does, or where there is no memory for the bytes. An error leaves some first part of them
/// read.
pub fn read_up_to<S: Source>(
    alloc: Global,
    source: &mut S,
    most: usize,
) -> Result<Vec<u8>, InputError>
    ensures given { IfOk result
        (λ bytes. Consumes (S.left source.old) (S.left source.new) bytes.items) }
    ensures most { IfOk result (λ bytes. length bytes.items ≤ most) }
    // Fewer are all that was left.
    ensures end { IfOk result
        (λ bytes. length bytes.items < most → IsAtEnd (S.left source.new)) }
    ensures part { OnErr result ((bytes : List ℕ) × (length bytes ≤ most) ×
        Consumes (S.left source.old) (S.left source.new) bytes) }

    ensures failed { IsErrOf result InputError.Failed →
        Rose (S.faults source.old) (S.faults source.new) }
    ensures counts { StandsOrRises (S.faults source.old) (S.faults source.new) }
    // Out of memory is all that may come before the first read.
    ensures called { 0 < most → result ≢ Err InputError.NoMemory →
        NeverFalls (S.faults source.old) (S.faults source.new) }
{
    let mut room = zeros(alloc, PIECE)?;
    let piece = room.as_mut_slice();
    let mut bytes = Vec::new(alloc);
    while bytes.len() < most {
        let size = PIECE.min(most - bytes.len());
        let count = read_more(source, &mut piece[..size], &mut bytes)?;
        if count == 0 {
            return Ok(bytes);
        }
    }
    Ok(bytes)
}

/// Reads once, and puts what was read behind the other bytes. It answers how many that were.
fn read_more<S: Source>(
    source: &mut S,
    room: &mut [u8],
    bytes: &mut Vec<u8>,
) -> Result<usize, InputError>
    requires { 0 < length room.old }
    ensures given { IfOk result (λ count. (more : List ℕ) × (length more ≡ count) ×
        (count ≤ length room.old) × (bytes.new.items ≡ bytes.old.items ++ more) ×
        Consumes (S.left source.old) (S.left source.new) more) }
    ensures end { result ≡ Ok 0 → IsAtEnd (S.left source.new) }
    ensures falls { IfOk result (λ count. 0 < count →
        S.answers source.new < S.answers source.old) }
    ensures part { OnErr result ((more : List ℕ) × (length more ≤ length room.old) ×
        Consumes (S.left source.old) (S.left source.new) more) }
    ensures failed { IsErrOf result InputError.Failed →
        Rose (S.faults source.old) (S.faults source.new) }
    ensures counts { NeverFalls (S.faults source.old) (S.faults source.new) }
{
    let count = source.read(room)?;
    bytes.extend_from_slice(&room[..count])?;
    Ok(count)
}

/// So many zeros.
fn zeros(alloc: Global, count: usize) -> Result<Vec<u8>, AllocError>
    ensures { IfOk result (λ bytes. vec_len bytes ≡ count) }
{
    vec![in alloc; 0u8; count]
}
