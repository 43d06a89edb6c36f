ghost use Rattle.std.specs.Prelude.{◌≡◌, ◌+◌, ◌<◌, ◌≤◌, length, vec_len, IfOk, OnOk, IfErr};
ghost use Rattle.mc_wire.specs.Count.{StandsOrRises};
ghost use Rattle.mc_wire.specs.Stream.{Consumes, IsAtEnd};
ghost use Rattle.mc_capture.specs.Grammar.{capture_head};
ghost use Rattle.mc_capture.specs.Headings.{EndsCarried, FindsFront, IsFront};
ghost use Rattle.mc_capture.specs.Reading.{EndsHead, EndsSo, Finds, IsFaultOf, found_len};
ghost use Rattle.mc_capture.specs.Reading.{kept_place};
ghost use Rattle.mc_capture.specs.declared.fault.CaptureKind.TheVariants.{Short};

use crate::fill::fill;
use crate::heading::{Heading, heading_of};
use crate::record::{KINDS, most_bytes};
use crate::{CaptureEnd, CaptureFault, CaptureKind, HEAD, Record};
use mc_bytes::Octets;
use mc_wire::Source;
use std::alloc::{AllocError, Global};

/// Reads a capture from a source: its head once and first, and then record after record. After an
/// error it is not used again.
///
/// It holds nothing between two calls but the place where it is.
#[derive(Drop)]
pub struct Reader<'a, I> {
    /// The source.
    pub input: &'a mut I,
    /// How many bytes were read as head and whole records, or 2^64 - 1 where that is larger.
    pub at: u64,
    alloc: Global,
}

impl<'a, I: Source> Reader<'a, I> {
    /// A reader of a source, of which nothing is read yet.
    pub fn new(alloc: Global, input: &'a mut I) -> Reader<'a, I>
        ensures reference { result.input.ghost_name ≡ input.entry.ghost_name }
        ensures untouched { result.input.now ≡ input.old }
        ensures at { result.at ≡ 0 }
    {
        Reader {
            input,
            at: 0,
            alloc,
        }
    }

    /// Reads what a capture begins with. It takes no memory.
    pub fn head(&mut self) -> Result<(), CaptureEnd>
        ensures reference { self.new.input.ghost_name ≡ self.old.input.ghost_name }
        ensures ok { OnOk result (Consumes (I.left self.old.input.now) (I.left self.new.input.now)
            capture_head) }
        ensures at { OnOk result (self.new.at ≡ 8) }
        ensures err { IfErr result (λ end. EndsHead end (I.left self.old.input.now)
            (I.left self.new.input.now) (I.faults self.old.input.now)
            (I.faults self.new.input.now)) }
        ensures counts { StandsOrRises (I.faults self.old.input.now) (I.faults self.new.input.now) }
    {
        read_head(self.input)?;
        self.at = 8;
        Ok(())
    }

    /// Reads the next record. None at the end of the source.
    pub fn next(&mut self) -> Result<Option<Record>, CaptureEnd>
        ensures reference { self.new.input.ghost_name ≡ self.old.input.ghost_name }
        ensures ok { IfOk result
            (λ found. Finds found (I.left self.old.input.now) (I.left self.new.input.now)) }
        ensures at { IfOk result
            (λ found. self.new.at ≡ kept_place (self.old.at + found_len found)) }
        ensures err { IfErr result (λ end. EndsSo end self.old.at (I.left self.old.input.now)
            (I.left self.new.input.now) (I.faults self.old.input.now)
            (I.faults self.new.input.now)) }
        ensures counts { StandsOrRises (I.faults self.old.input.now) (I.faults self.new.input.now) }
    {
        let found = read_record(self.alloc, self.input, self.at)?;
        self.at = place_behind(&found, self.at);
        Ok(found)
    }

    /// How many bytes were read as head and whole records, or 2^64 - 1 where that is larger.
    pub fn at(&self) -> u64
        ensures { result ≡ self.now.at }
    {
        self.at
    }
}

/// The place behind what was found at a place.
pub(crate) fn place_behind(found: &Option<Record>, at: u64) -> u64
    ensures { result ≡ kept_place (at + found_len found.now) }
{
    match found {
        Some(record) => at.saturating_add(9 + record.bytes.as_slice().len() as u64),
        None => at,
    }
}

/// Reads what a capture begins with.
pub(crate) fn read_head<I: Source>(input: &mut I) -> Result<(), CaptureEnd>
    ensures ok { OnOk result (Consumes (I.left input.old) (I.left input.new) capture_head) }
    ensures err { IfErr result (λ end. EndsHead end (I.left input.old) (I.left input.new)
        (I.faults input.old) (I.faults input.new)) }
    ensures counts { StandsOrRises (I.faults input.old) (I.faults input.new) }
{
    let mut room = [0u8; 8];
    let Ok(count) = fill(input, &mut room) else {
        return Err(CaptureEnd::Read);
    };
    if room[..count] == HEAD[..] {
        return Ok(());
    }
    let kind = CaptureKind::BadHead;
    Err(CaptureEnd::Bad(CaptureFault { kind, at: 0 }))
}

/// Reads a record that begins at a place. None at the end of the source.
pub(crate) fn read_record<I: Source>(
    alloc: Global,
    input: &mut I,
    at: u64,
) -> Result<Option<Record>, CaptureEnd>
    ensures ok { IfOk result (λ found. Finds found (I.left input.old) (I.left input.new)) }
    ensures err { IfErr result (λ end. EndsSo end at (I.left input.old) (I.left input.new)
        (I.faults input.old) (I.faults input.new)) }
    ensures counts { StandsOrRises (I.faults input.old) (I.faults input.new) }
{
    let Some(heading) = read_heading(input, at)? else {
        return Ok(None);
    };
    let bytes = read_bytes(alloc, input, heading.size)?;
    if bytes.as_slice().len() < heading.size as usize {
        let kind = CaptureKind::Short;
        return Err(CaptureEnd::Bad(CaptureFault { kind, at }));
    }
    Ok(Some(Record {
        kind: heading.kind,
        connection: heading.connection,
        bytes,
    }))
}

/// Reads the heading of a record that begins at a place. None at the end of the source.
fn read_heading<I: Source>(input: &mut I, at: u64) -> Result<Option<Heading>, CaptureEnd>
    ensures ok { IfOk result (λ found. FindsFront found (I.left input.old) (I.left input.new)) }
    ensures err { IfErr result (λ end. EndsSo end at (I.left input.old) (I.left input.new)
        (I.faults input.old) (I.faults input.new)) }
    ensures counts { StandsOrRises (I.faults input.old) (I.faults input.new) }
{
    let mut room = [0u8; 9];
    let Ok(count) = fill(input, &mut room) else {
        return Err(CaptureEnd::Read);
    };
    match front_in(&room[..count], at) {
        Ok(found) => Ok(found),
        Err(fault) => Err(CaptureEnd::Bad(fault)),
    }
}

/// The heading that a record's first bytes are, nine at most. None where there are none.
fn front_in(bytes: &[u8], at: u64) -> Result<Option<Heading>, CaptureFault>
    requires { length bytes.now ≤ 9 }
    ensures ok { IfOk result (λ found. IsFront found bytes.now) }
    ensures err { IfErr result (λ fault. IsFaultOf fault at bytes.now) }
    ensures short { IfErr result (λ fault. fault.kind ≡ Short → length bytes.now < 9) }
{
    let Some((kind, _)) = bytes.split_first() else {
        return Ok(None);
    };
    if *kind >= KINDS {
        let kind = CaptureKind::BadKind(*kind);
        return Err(CaptureFault { kind, at });
    }
    let Some(heading) = heading_of(bytes) else {
        let kind = CaptureKind::Short;
        return Err(CaptureFault { kind, at });
    };
    if heading.size > most_bytes(heading.kind) {
        let kind = CaptureKind::TooLong(heading.size);
        return Err(CaptureFault {
            kind,
            at: at.saturating_add(5),
        });
    }
    Ok(Some(heading))
}

/// Reads so many bytes, and fewer only at the end of the source.
fn read_bytes<I: Source>(alloc: Global, input: &mut I, size: u32) -> Result<Octets, CaptureEnd>
    ensures given { IfOk result (λ bytes. (length bytes ≤ size) ×
        Consumes (I.left input.old) (I.left input.new) bytes) }
    ensures end { IfOk result (λ bytes. length bytes < size → IsAtEnd (I.left input.new)) }
    ensures err { IfErr result (λ end. EndsCarried end (I.faults input.old) (I.faults input.new)) }
    ensures counts { StandsOrRises (I.faults input.old) (I.faults input.new) }
{
    let Ok(mut bytes) = zeros(alloc, size as usize) else {
        return Err(CaptureEnd::NoMemory);
    };
    let Ok(count) = fill(input, bytes.as_mut_slice()) else {
        return Err(CaptureEnd::Read);
    };
    bytes.truncate(count);
    Ok(Octets::from_vec(bytes))
}

/// So many zeros.
fn zeros(alloc: Global, count: usize) -> Result<Vec<u8>, AllocError>
    ensures { IfOk result (λ bytes. vec_len bytes ≡ count) }
{
    vec![in alloc; 0u8; count]
}
