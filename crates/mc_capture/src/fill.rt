ghost use Rattle.std.specs.Prelude.{◌≡◌, ℕ, ◌+◌, ◌<◌, ◌≤◌, List, ◌++◌, Ok, length, take};
ghost use Rattle.std.specs.Prelude.{IfOk, OnErr};
ghost use Rattle.mc_wire.specs.Count.{Rose, NeverFalls, StandsOrRises};
ghost use Rattle.mc_wire.specs.Stream.{Consumes, IsAtEnd};

use mc_wire::{Failed, Source};

/// Reads until a buffer is full, and says how many bytes it read: fewer only at the source's end.
pub(crate) fn fill<I: Source>(input: &mut I, room: &mut [u8]) -> Result<usize, Failed>
    ensures within { IfOk result (λ n. n ≤ length room.new) }
    ensures size { length room.new ≡ length room.old }
    ensures given { IfOk result
        (λ n. Consumes (I.left input.old) (I.left input.new) (take n room.new)) }
    ensures end { IfOk result (λ n. n < length room.new → IsAtEnd (I.left input.new)) }
    ensures failed { OnErr result (Rose (I.faults input.old) (I.faults input.new)) }
    ensures counts { StandsOrRises (I.faults input.old) (I.faults input.new) }
{
    let mut count = 0;
    while count < room.len() {
        let more = read_behind(input, room, count)?;
        if more == 0 {
            return Ok(count);
        }
        count += more;
    }
    Ok(count)
}

/// Reads once, behind the bytes that a buffer already has. It answers how many more it has.
fn read_behind<I: Source>(input: &mut I, room: &mut [u8], count: usize) -> Result<usize, Failed>
    requires { count < length room.old }
    ensures within { IfOk result (λ more. count + more ≤ length room.new) }
    ensures size { length room.new ≡ length room.old }
    ensures given { IfOk result (λ more. (bytes : List ℕ) ×
        (take (count + more) room.new ≡ take count room.old ++ bytes) ×
        Consumes (I.left input.old) (I.left input.new) bytes) }
    ensures end { result ≡ Ok 0 → IsAtEnd (I.left input.new) }
    ensures falls { IfOk result (λ more. 0 < more → I.answers input.new < I.answers input.old) }
    ensures failed { OnErr result (Rose (I.faults input.old) (I.faults input.new)) }
    ensures counts { NeverFalls (I.faults input.old) (I.faults input.new) }
{
    let more = input.read(&mut room[count..])?;
    Ok(more)
}
