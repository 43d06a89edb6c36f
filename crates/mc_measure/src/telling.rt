//! The measure of a load.

ghost use Rattle.std.specs.Prelude.{◌≡◌, ◌≢◌, ◌≤◌, ℕ, Err, IsErrOf, OnOk, take};
ghost use Rattle.mc_wire.specs.Count.{Rose, StandsOrRises};
ghost use Rattle.mc_wire.specs.Stream.{Grows};
ghost use Rattle.mc_measure.specs.LoadText.{KeepsAll, load_text};

use crate::line::load_line;
use crate::measured::measure;
use mc_bytes::NoMemory;
use mc_wire::{Failed, Sink, write_all};
use std::alloc::Global;

/// Why a load was not told.
#[derive(Clone, Copy, Debug, PartialEq, Eq)]
pub enum LoadEnd {
    /// The output failed.
    Write,
    /// There was no memory.
    NoMemory,
}

impl From<NoMemory> for LoadEnd {
    ghost use Rattle.mc_measure.specs.declared.telling.LoadEnd.TheVariants as load_end;

    ghost from_gives = { λ _ error. error ≡ load_end.NoMemory };

    fn from(_refusal: NoMemory) -> LoadEnd {
        LoadEnd::NoMemory
    }
}

impl From<Failed> for LoadEnd {
    ghost use Rattle.mc_measure.specs.declared.telling.LoadEnd.TheVariants as load_end;

    ghost from_gives = { λ _ error. error ≡ load_end.Write };

    fn from(_failure: Failed) -> LoadEnd {
        LoadEnd::Write
    }
}

/// Plays a load of so many clients and ticks on a server of a new world, and writes the line that
/// tells what it comes to: how many events it had, how many cells were changed, how many items
/// there are at its end, and how many bytes its clients took. It holds no more of the load than
/// one event. Without memory nothing is written.
pub fn load<O: Sink>(alloc: Global, clients: u32, ticks: u32, out: &mut O) -> Result<(), LoadEnd>
    requires some { 1 ≤ clients }
    requires few { clients ≤ 50 }
    requires first { 1 ≤ ticks }
    requires last { ticks ≤ 10000 }
    ensures told { OnOk result
        (Grows (O.held out.old) (O.held out.new) (load_text clients ticks)) }
    ensures failed { IsErrOf result LoadEnd.Write → Rose (O.faults out.old) (O.faults out.new) }
    ensures counts { StandsOrRises (O.faults out.old) (O.faults out.new) }
    ensures part { IsErrOf result LoadEnd.Write → (n : ℕ)
        × Grows (O.held out.old) (O.held out.new) (take n (load_text clients ticks)) }
    ensures unwritten { IsErrOf result LoadEnd.NoMemory → out.new ≡ out.old }
    ensures keeps { result ≢ Err LoadEnd.NoMemory → KeepsAll clients ticks }
{
    let measured = measure(alloc, clients, ticks)?;
    let line = load_line(alloc, clients, ticks, &measured)?;
    write_all(out, line.as_bytes())?;
    Ok(())
}
