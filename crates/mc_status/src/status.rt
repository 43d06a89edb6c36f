ghost use Rattle.std.specs.Prelude.{◌≡◌, ◌==◌, ◌-◌, slice_index, ℕ, List, Option, [], None, length};
ghost use Rattle.std.specs.Prelude.{IfOk, OnOk, OnErr, IsErrOf};
ghost use Rattle.mc_model.specs.Game.{AreSettings};
ghost use Rattle.mc_wire.specs.Count.{Rose, StandsOrRises};
ghost use Rattle.mc_wire.specs.Stream.{Grows};
ghost use Rattle.mc_text.specs.Lines.{lines_of};
ghost use Rattle.mc_text.specs.Passes.{Passes, SendsPart};
ghost use Rattle.mc_status.specs.StatusText.{Exchange, first_exchange, receives_next};
ghost use Rattle.mc_status.specs.StatusText.{last_byte_line, status_told};
ghost use Rattle.mc_status.specs.Playing.{Meets, Receives};

use crate::playing::Client;
use mc_wire::Sink;
use mc_text::{Unfinished, cut_line, goes_past, put_line, write_out};
use mc_words::{BadInput, InputFault};
use std::alloc::Global;

/// Receives the next line, up to whose end a text of `len` bytes has `size`, and gives its fault.
/// `bytes` is room for the line's bytes.
fn receive_next<O: Sink>(
    most: u32,
    client: &mut Client,
    bytes: &mut Vec<u8>,
    line: &[u8],
    len: usize,
    size: usize,
    out: &mut O,
) -> Result<Option<InputFault>, Unfinished>
    requires { AreSettings most 2 }
    ensures received { IfOk result (λ fault. (start : Option (List ℕ)) (x : Exchange) →
        Meets most start (O.held out.old) client.old.server client.old.lines.items x →
        Receives most start (O.held out.new) client.new.server client.new.lines.items fault
        (receives_next len size x line.now)) }
    ensures stopped { OnErr result ((start : Option (List ℕ)) (x : Exchange) →
        Meets most start (O.held out.old) client.old.server client.old.lines.items x →
        SendsPart start (O.held out.new) (receives_next len size x line.now).text) }
    ensures failed { IsErrOf result Unfinished.Failed → Rose (O.faults out.old) (O.faults out.new) }
    ensures counts { StandsOrRises (O.faults out.old) (O.faults out.new) }
{
    if goes_past(len, size) {
        return Ok(Some(InputFault::Long));
    }
    bytes.clear();
    if !put_line(line, bytes)? {
        return Ok(Some(InputFault::Hex));
    }
    client.receive(most, bytes, out)?;
    Ok(client.fault())
}

/// Whether the last byte of a text ends a line.
fn ends_line(text: &[u8]) -> bool
    ensures { result ≡ (slice_index text.now (length text.now - 1) == 10) }
{
    match text {
        [] => false,
        [.., last] => *last == b'\n',
    }
}

/// The number of the line that holds the last byte of a text of `count` lines.
fn last_byte_line(count: u64, text: &[u8]) -> u64
    ensures { count ≡ length (lines_of text.now) → result ≡ last_byte_line text.now }
{
    if ends_line(text) {
        count.saturating_sub(1)
    } else {
        count
    }
}

/// Receives the lines of a text, and gives its first fault.
fn receive_text<O: Sink>(
    alloc: Global,
    most: u32,
    client: &mut Client,
    input: &[u8],
    out: &mut O,
) -> Result<Option<BadInput>, Unfinished>
    requires settings { AreSettings most 2 }
    requires meets { (start : Option (List ℕ)) → Meets most start start client.old.server
        client.old.lines.items (first_exchange most) }
    ensures told { IfOk result (λ fault. Passes (O.held out.old) (O.held out.new) []
        (status_told most input.now).text client.new.lines.items []
        × (fault ≡ (status_told most input.now).fault)) }
    ensures stopped { OnErr result (SendsPart (O.held out.old) (O.held out.new)
        (status_told most input.now).text) }
    ensures failed { IsErrOf result Unfinished.Failed → Rose (O.faults out.old) (O.faults out.new) }
    ensures counts { StandsOrRises (O.faults out.old) (O.faults out.new) }
{
    let mut bytes = Vec::new(alloc);
    let mut count = 0u64;
    let mut size = 0;
    let mut rest = Some(input);
    while let Some(text) = rest {
        let (line, after) = cut_line(text);
        count += 1;
        size += line.len() + 1;
        let fault = receive_next(most, client, &mut bytes, line, input.len(), size, out)?;
        if let Some(kind) = fault {
            return Ok(Some(BadInput { at: count, kind }));
        }
        rest = after;
    }
    if !client.is_inside() {
        return Ok(None);
    }
    Ok(Some(BadInput {
        at: last_byte_line(count, input),
        kind: InputFault::Cut,
    }))
}

/// Receives the lines of a text, and writes all that answers them.
fn write_text<O: Sink>(
    alloc: Global,
    most: u32,
    client: &mut Client,
    input: &[u8],
    out: &mut O,
) -> Result<Option<BadInput>, Unfinished>
    requires settings { AreSettings most 2 }
    requires meets { (start : Option (List ℕ)) → Meets most start start client.old.server
        client.old.lines.items (first_exchange most) }
    ensures text { OnOk result (Grows (O.held out.old) (O.held out.new)
        (status_told most input.now).text) }
    ensures fault { IfOk result (λ fault. fault ≡ (status_told most input.now).fault) }
    ensures stopped { OnErr result (SendsPart (O.held out.old) (O.held out.new)
        (status_told most input.now).text) }
    ensures failed { IsErrOf result Unfinished.Failed → Rose (O.faults out.old) (O.faults out.new) }
    ensures counts { StandsOrRises (O.faults out.old) (O.faults out.new) }
{
    let fault = receive_text(alloc, most, client, input, out)?;
    write_out(&mut client.lines, out)?;
    Ok(fault)
}

/// Writes what the world of a server with so many players at most answers to an input, and gives
/// the input's first fault. An error leaves some first part of it written.
pub fn write_status<O: Sink>(
    alloc: Global,
    most: u32,
    input: &[u8],
    out: &mut O,
) -> Result<Option<BadInput>, Unfinished>
    requires { AreSettings most 2 }
    ensures text { OnOk result (Grows (O.held out.old) (O.held out.new)
        (status_told most input.now).text) }
    ensures fault { IfOk result (λ fault. fault ≡ (status_told most input.now).fault) }
    ensures stopped { OnErr result (SendsPart (O.held out.old) (O.held out.new)
        (status_told most input.now).text) }
    ensures failed { IsErrOf result Unfinished.Failed → Rose (O.faults out.old) (O.faults out.new) }
    ensures counts { StandsOrRises (O.faults out.old) (O.faults out.new) }
{
    let mut client = Client::new(alloc, most)?;
    let done = write_text(alloc, most, &mut client, input, out);
    drop(client);
    done
}
