ghost use Rattle.std.specs.Prelude.{◌≡◌, ℕ, ◌<◌, ◌≤◌, Option, List, length, take, IsOk, IfOk, OnOk};
ghost use Rattle.std.specs.Prelude.{OnErr};
ghost use Rattle.mc_wire.specs.Count.{Rose, NeverFalls, StandsOrRises};
ghost use Rattle.mc_wire.specs.Stream.{Grows};

use crate::Failed;

/// What bytes can be written to: a device of the outside, or one in memory.
pub trait Sink {
    // What it holds, where it tells it.
    ghost held: { Self → Option (List ℕ) };

    // How many failures it has counted.
    ghost faults: { Self → ℕ };

    /// Writes some first part of the piece, and says how many bytes that is, one at least. A
    /// failure leaves what the sink holds, where it tells that.
    fn write(&mut self, piece: &[u8]) -> Result<usize, Failed>
        requires { 0 < length piece.now }
        ensures took { IfOk result (λ n. (0 < n) × (n ≤ length piece.now)) }
        ensures grows { IfOk result
            (λ n. Grows (held self.old) (held self.new) (take n piece.now)) }
        ensures kept { OnErr result (held self.new ≡ held self.old) }
        ensures failed { OnErr result (Rose (faults self.old) (faults self.new)) }
        ensures counts { NeverFalls (faults self.old) (faults self.new) };
}

/// Writes a whole piece. A failure leaves some first part of it written, and comes only from the
/// sink. An empty piece does nothing.
pub fn write_all<S: Sink>(sink: &mut S, piece: &[u8]) -> Result<(), Failed>
    ensures whole { OnOk result (Grows (S.held sink.old) (S.held sink.new) piece.now) }
    ensures part { OnErr result
        ((n : ℕ) × Grows (S.held sink.old) (S.held sink.new) (take n piece.now)) }

    ensures failed { OnErr result (Rose (S.faults sink.old) (S.faults sink.new)) }
    ensures counts { StandsOrRises (S.faults sink.old) (S.faults sink.new) }
    ensures called { 0 < length piece.now → NeverFalls (S.faults sink.old) (S.faults sink.new) }
    ensures empty { length piece.now ≡ 0 → IsOk result × (sink.new ≡ sink.old) }
{
    let mut rest = piece;
    while !rest.is_empty() {
        let count = sink.write(rest)?;
        rest = &rest[count..];
    }
    Ok(())
}
