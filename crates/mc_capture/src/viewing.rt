ghost use Rattle.std.specs.Prelude.{◌≡◌, ◌==◌, ◌++◌, ℕ, [], None, IfErr, OnErr, OnOk};
ghost use Rattle.std.specs.Prelude.{IsErrOf, if◌then◌else◌};
ghost use Rattle.std.specs.FinMap.{empty};
ghost use Rattle.mc_wire.specs.Count.{Rose, StandsOrRises};
ghost use Rattle.mc_wire.specs.Stream.{Grows};
ghost use Rattle.mc_capture.specs.Gathering.{Gathers, WritesPart};
ghost use Rattle.mc_capture.specs.Tables.{talk_in};
ghost use Rattle.mc_capture.specs.ViewText.{after_record, record_lines};
ghost use Rattle.mc_capture.specs.Viewed.{EndsShown, EndsView, IsShown, IsViewed};
ghost use Rattle.mc_capture.specs.Viewed.{IsViewedInPart, faults_of};

use crate::conversations::Conversations;
use crate::frame_lines::put_happening;
use crate::pieces::write_out;
use crate::reader::{place_behind, read_head, read_record};
use crate::states::Way;
use crate::unwritten::Unwritten;
use crate::{CaptureEnd, Record};
use mc_wire::{Sink, Source};
use std::alloc::Global;

/// Shows a record: a line, or those of the frames that become whole by it.
fn show_record<O: Sink>(
    talks: &mut Conversations,
    rec: &Record,
    lines: &mut Vec<u8>,
    out: &mut O,
) -> Result<(), Unwritten>
    ensures gathers { OnOk result (Gathers (O.held out.old) (O.held out.new) (lines.old.items
        ++ record_lines (talk_in talks.old rec.now.connection) rec.now) lines.new.items) }
    ensures next { OnOk result ((k : ℕ) → talk_in talks.new k
        ≡ (if rec.now.connection == k then after_record (talk_in talks.old k) rec.now
        else talk_in talks.old k)) }
    ensures part { OnErr result (WritesPart (O.held out.old) (O.held out.new) (lines.old.items
        ++ record_lines (talk_in talks.old rec.now.connection) rec.now)) }
    ensures failed { IsErrOf result Unwritten.Failed → Rose (O.faults out.old) (O.faults out.new) }
    ensures counts { StandsOrRises (O.faults out.old) (O.faults out.new) }
{
    let connection = rec.connection;
    match rec.kind {
        1 => talks.hear(connection, Way::Up, rec.bytes.as_slice(), lines, out),
        4 => talks.hear(connection, Way::Down, rec.bytes.as_slice(), lines, out),
        kind => put_happening(kind, connection, lines, out),
    }
}

/// Shows a capture up to its end, or to what is wrong with it; some lines may wait still.
fn show_capture<I: Source, O: Sink>(
    alloc: Global,
    input: &mut I,
    talks: &mut Conversations,
    lines: &mut Vec<u8>,
    out: &mut O,
) -> Result<(), CaptureEnd>
    requires nothing_came { talks.old ≡ empty }
    requires nothing_waits { lines.old.items ≡ [] }
    ensures ok { OnOk result (IsShown None (I.left input.old) (I.left input.new)
        (O.held out.old) (O.held out.new) lines.new.items) }
    ensures part { OnErr result
        (IsViewedInPart (I.left input.old) (O.held out.old) (O.held out.new)) }
    ensures err { IfErr result (λ end. EndsShown end (I.left input.old) (I.left input.new)
        (O.held out.old) (O.held out.new) lines.new.items
        (faults_of (I.faults input.old) (O.faults out.old))
        (faults_of (I.faults input.new) (O.faults out.new))) }
    ensures counts { StandsOrRises (O.faults out.old) (O.faults out.new) }
{
    read_head(input)?;
    let mut at = 8;
    for _ in 0..u64::MAX {
        let found = read_record(alloc, input, at)?;
        match &found {
            None => return Ok(()),
            Some(record) => {
                show_record(talks, record, lines, out)?;
                at = place_behind(&found, at);
            }
        }
    }
    Err(CaptureEnd::NoMemory)
}

/// Writes the lines that wait at the end.
fn finish<O: Sink>(lines: &mut Vec<u8>, out: &mut O) -> Result<(), CaptureEnd>
    ensures whole { OnOk result (Grows (O.held out.old) (O.held out.new) lines.old.items) }
    ensures part { OnErr result (WritesPart (O.held out.old) (O.held out.new) lines.old.items) }
    ensures failed { IfErr result
        (λ end. (end ≡ CaptureEnd.Write) × Rose (O.faults out.old) (O.faults out.new)) }
    ensures counts { StandsOrRises (O.faults out.old) (O.faults out.new) }
{
    match write_out(lines, out) {
        Ok(()) => Ok(()),
        Err(_failure) => Err(CaptureEnd::Write),
    }
}

/// Writes a capture as text, in the order in which it happened: a line for each record without
/// bytes, and for the others a line for each frame that becomes whole. Ok where the source was read
/// to its end. Where the capture is none the text ends with the last whole record, and `Bad` says
/// what is wrong and where.
///
/// It holds one record, the part of a frame that each way of a connection waits with, and at most
/// 65,536 bytes of text.
pub fn view<I: Source, O: Sink>(alloc: Global, input: &mut I, out: &mut O) -> Result<(), CaptureEnd>
    ensures ok { OnOk result (IsViewed None (I.left input.old) (I.left input.new)
        (O.held out.old) (O.held out.new)) }
    // Whatever ended it, a first part of the text was written.
    ensures part { OnErr result
        (IsViewedInPart (I.left input.old) (O.held out.old) (O.held out.new)) }
    ensures err { IfErr result (λ end. EndsView end (I.left input.old) (I.left input.new)
        (O.held out.old) (O.held out.new)
        (faults_of (I.faults input.old) (O.faults out.old))
        (faults_of (I.faults input.new) (O.faults out.new))) }
    ensures counts { StandsOrRises (O.faults out.old) (O.faults out.new) }
{
    let mut lines = Vec::new(alloc);
    let mut talks = Conversations::new(alloc);
    let shown = show_capture(alloc, input, &mut talks, &mut lines, out);
    drop(talks);
    match shown {
        Ok(()) => finish(&mut lines, out),
        Err(CaptureEnd::Bad(fault)) => {
            finish(&mut lines, out)?;
            Err(CaptureEnd::Bad(fault))
        }
        Err(CaptureEnd::Read) => Err(CaptureEnd::Read),
        Err(CaptureEnd::Write) => Err(CaptureEnd::Write),
        Err(CaptureEnd::NoMemory) => Err(CaptureEnd::NoMemory),
    }
}
