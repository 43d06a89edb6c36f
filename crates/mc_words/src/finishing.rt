ghost use Rattle.std.specs.Prelude.{ℕ, List, IfOk, string_bytes, ◌≡◌};
ghost use Rattle.mc_words.specs.Finishing.{Finishes, FinishesWith};

use crate::ended::{Ended, budget_line};
use mc_bytes::NoMemory;
use mc_wire::{Sink, write_all};
use std::alloc::Global;

/// Writes a last line that was made, and says how a command ends with that: without memory for the
/// line it ends out of memory.
fn finish_with<O: Sink>(line: Result<String, NoMemory>, ended: Ended, out: &mut O) -> Ended
    ensures { (bytes : List ℕ) → IfOk line (λ text. string_bytes text ≡ bytes) →
        FinishesWith ended bytes result (O.held out.old) (O.held out.new)
        (O.faults out.old) (O.faults out.new) }
{
    let Ok(line) = line else {
        return Ended::NoMemory;
    };
    // Where the last line is not written, the status still says how the command ended.
    let _ = write_all(out, line.as_bytes());
    ended
}

/// Writes the last line of a command that ended so, and says how it ends with that.
pub fn finish<O: Sink>(alloc: Global, ended: Ended, out: &mut O) -> Ended
    ensures { Finishes ended result (O.held out.old) (O.held out.new)
        (O.faults out.old) (O.faults out.new) }
{
    match ended {
        Ended::BadInput(bad) => finish_with(bad.last_line(alloc), ended, out),
        Ended::Budget(count) => finish_with(budget_line(alloc, count), ended, out),
        Ended::Refused(refusal) => finish_with(refusal.last_line(alloc), ended, out),
        _ => {
            let _ = write_all(out, ended.last_line());
            ended
        }
    }
}
