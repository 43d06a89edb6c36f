ghost use Rattle.mc_words.specs.Arguments.{CanLoad};
ghost use Rattle.mc_top.specs.LoadPromise.{Loads};

use mc_measure::LoadEnd;
use mc_wire::Sink;
use mc_words::{Ended, LoadOptions};
use std::alloc::Global;

/// The command `load`: it plays the generated load on a server of a new world, and writes the line
/// that tells what that comes to.
pub fn load<O: Sink>(alloc: Global, options: LoadOptions, out: &mut O) -> Ended
    requires { CanLoad options }
    ensures { Loads options result
        (O.held out.old) (O.held out.new) (O.faults out.old) (O.faults out.new) }
{
    match mc_measure::load(alloc, options.clients, options.ticks, out) {
        Ok(()) => Ended::Done,
        Err(LoadEnd::Write) => Ended::WriteFault,
        Err(LoadEnd::NoMemory) => Ended::NoMemory,
    }
}
