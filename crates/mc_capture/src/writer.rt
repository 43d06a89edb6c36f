ghost use Rattle.std.specs.Prelude.{◌≡◌, ◌<◌, ◌≤◌, ℕ, length, take, OnOk, OnErr, IfErr};
ghost use Rattle.mc_wire.specs.Count.{Rose, NeverFalls};
ghost use Rattle.mc_wire.specs.Stream.{Grows};
ghost use Rattle.mc_capture.specs.Grammar.{IsRecord, record_with, capture_head, most_bytes};
ghost use Rattle.mc_capture.specs.Grammar.{record_bytes};
ghost use Rattle.mc_capture.specs.declared.record.TheConstants.{KINDS};
ghost use Rattle.mc_capture.specs.declared.fault.CaptureEnd.TheVariants as ends;

use crate::heading::{Heading, heading_bytes};
use crate::{CaptureEnd, HEAD, Record};
use mc_wire::{Failed, Sink, write_all};

/// Writes a capture into a sink: its head once and first, and then record after record.
///
/// A record goes whole into the sink or the sink fails; no call takes memory.
#[derive(Drop)]
pub struct Writer<'a, O> {
    /// The sink.
    pub out: &'a mut O,
}

impl<'a, O: Sink> Writer<'a, O> {
    /// A writer into a sink, of which nothing is written yet.
    pub fn new(out: &'a mut O) -> Writer<'a, O>
        ensures reference { result.out.ghost_name ≡ out.entry.ghost_name }
        ensures untouched { result.out.now ≡ out.old }
    {
        Writer { out }
    }

    /// Writes what a capture begins with. A failure comes only from the sink, and leaves some first
    /// part of it written.
    pub fn head(&mut self) -> Result<(), CaptureEnd>
        ensures reference { self.new.out.ghost_name ≡ self.old.out.ghost_name }
        ensures whole { OnOk result
            (Grows (O.held self.old.out.now) (O.held self.new.out.now) capture_head) }
        ensures part { OnErr result ((n : ℕ) ×
            Grows (O.held self.old.out.now) (O.held self.new.out.now) (take n capture_head)) }
        ensures failed { IfErr result (λ end. (end ≡ ends.Write) ×
            Rose (O.faults self.old.out.now) (O.faults self.new.out.now)) }
        ensures counts { NeverFalls (O.faults self.old.out.now) (O.faults self.new.out.now) }
    {
        match write_all(self.out, &HEAD) {
            Ok(()) => Ok(()),
            Err(_) => Err(CaptureEnd::Write),
        }
    }

    /// Writes a record. A failure comes only from the sink, and leaves some first part of it
    /// written.
    pub fn put(&mut self, rec: &Record) -> Result<(), CaptureEnd>
        requires { IsRecord rec.now }
        ensures reference { self.new.out.ghost_name ≡ self.old.out.ghost_name }
        ensures whole { OnOk result
            (Grows (O.held self.old.out.now) (O.held self.new.out.now) (record_bytes rec.now)) }
        ensures part { OnErr result ((n : ℕ) × Grows (O.held self.old.out.now)
            (O.held self.new.out.now) (take n (record_bytes rec.now))) }
        ensures failed { IfErr result (λ end. (end ≡ ends.Write) ×
            Rose (O.faults self.old.out.now) (O.faults self.new.out.now)) }
        ensures counts { NeverFalls (O.faults self.old.out.now) (O.faults self.new.out.now) }
    {
        match write_record(rec, self.out) {
            Ok(()) => Ok(()),
            Err(_) => Err(CaptureEnd::Write),
        }
    }
}

/// Writes a record into a sink.
fn write_record<O: Sink>(rec: &Record, out: &mut O) -> Result<(), Failed>
    requires { IsRecord rec.now }
    ensures whole { OnOk result
        (Grows (O.held out.old) (O.held out.new) (record_bytes rec.now)) }
    ensures part { OnErr result ((n : ℕ) ×
        Grows (O.held out.old) (O.held out.new) (take n (record_bytes rec.now))) }
    ensures failed { OnErr result (Rose (O.faults out.old) (O.faults out.new)) }
    ensures counts { NeverFalls (O.faults out.old) (O.faults out.new) }
{
    write_parts(rec.kind, rec.connection, rec.bytes.as_slice(), out)
}

/// Writes a record that carries these bytes into a sink.
pub(crate) fn write_parts<O: Sink>(
    kind: u8,
    connection: u32,
    bytes: &[u8],
    out: &mut O,
) -> Result<(), Failed>
    requires kind { kind < KINDS }
    requires size { length bytes.now ≤ most_bytes kind }
    ensures whole { OnOk result
        (Grows (O.held out.old) (O.held out.new) (record_with kind connection bytes.now)) }
    ensures part { OnErr result ((n : ℕ) ×
        Grows (O.held out.old) (O.held out.new) (take n (record_with kind connection bytes.now))) }
    ensures failed { OnErr result (Rose (O.faults out.old) (O.faults out.new)) }
    ensures counts { NeverFalls (O.faults out.old) (O.faults out.new) }
{
    let front = heading_bytes(Heading {
        kind,
        connection,
        size: bytes.len() as u32,
    });
    write_all(out, &front)?;
    write_all(out, bytes)?;
    Ok(())
}
