ghost use Rattle.std.specs.Prelude.{◌≡◌, IfErr};
ghost use Rattle.mc_capture.specs.OneTextLaws.{IsSized};
ghost use Rattle.mc_words.specs.Devices.{streams};
ghost use Rattle.mc_top.specs.CapturePromise.{CapturedText, bad_of, ended_by_read, kind_of};
ghost use Rattle.mc_top.specs.CapturePromise.{IsSizedEnd, shown, viewed};

use mc_capture::{CaptureEnd, CaptureFault, CaptureKind};
use mc_wire::{Sink, Source};
use mc_words::{BadInput, Ended, InputFault};
use std::alloc::Global;

/// What is wrong with a capture, as a fault of an input.
fn kind_of(kind: CaptureKind) -> InputFault
    ensures is { result ≡ kind_of kind }
    // A size has 32 bits.
    ensures sized { IsSized kind }
{
    match kind {
        CaptureKind::BadHead => InputFault::BadHead,
        CaptureKind::BadKind(_) => InputFault::BadKind,
        CaptureKind::Short => InputFault::Short,
        CaptureKind::TooLong(_) => InputFault::TooLong,
    }
}

/// The first fault of a capture, as that of an input.
fn bad_of(fault: CaptureFault) -> BadInput
    ensures is { result ≡ bad_of fault }
    ensures sized { IsSized fault.kind }
{
    BadInput {
        at: fault.at,
        kind: kind_of(fault.kind),
    }
}

/// How a command ends where it read a capture so.
fn ended_by_read(read: Result<(), CaptureEnd>) -> Ended
    ensures is { result ≡ ended_by_read read }
    ensures sized { IfErr read IsSizedEnd }
{
    match read {
        Ok(()) => Ended::Done,
        Err(CaptureEnd::Bad(fault)) => Ended::BadInput(bad_of(fault)),
        Err(CaptureEnd::Read) => Ended::ReadFault,
        Err(CaptureEnd::Write) => Ended::WriteFault,
        Err(CaptureEnd::NoMemory) => Ended::NoMemory,
    }
}

/// The command `view`: it reads a capture, and writes it as text.
pub fn view<I: Source, O: Sink>(alloc: Global, input: &mut I, out: &mut O) -> Ended
    ensures { CapturedText viewed result
        (streams (I.left input.old) (I.faults input.old) (O.held out.old) (O.faults out.old))
        (streams (I.left input.new) (I.faults input.new) (O.held out.new) (O.faults out.new)) }
{
    ended_by_read(mc_capture::view(alloc, input, out))
}

/// The command `show`: it reads a capture, and writes the dump of one client's world.
pub fn show<I: Source, O: Sink>(alloc: Global, client: u32, input: &mut I, out: &mut O) -> Ended
    ensures { CapturedText (shown client) result
        (streams (I.left input.old) (I.faults input.old) (O.held out.old) (O.faults out.old))
        (streams (I.left input.new) (I.faults input.new) (O.held out.new) (O.faults out.new)) }
{
    ended_by_read(mc_show::show(alloc, client, input, out))
}
