ghost use Rattle.std.specs.Prelude.{◌≡◌, ◌*◌, ◌≤◌, ◌++◌, [], length, OnOk, OnErr, IsErrOf};
ghost use Rattle.hex.specs.Hex.{encode_lower};
ghost use Rattle.mc_wire.specs.Count.{Rose, StandsOrRises};
ghost use Rattle.mc_text.specs.Passes.{Breaks, Passes};

use crate::unfinished::Unfinished;
use mc_bytes::NoMemory;
use mc_wire::{Failed, Sink, write_all};

/// The most bytes of lines that wait, and are written at once.
pub const PIECE: usize = 65_536;

/// The most bytes that are put as hex at once: their digits are a piece.
pub const HEX_PIECE: usize = 32_768;

/// Writes all lines that wait.
pub fn write_out<O: Sink>(lines: &mut Vec<u8>, out: &mut O) -> Result<(), Failed>
    ensures passes { OnOk result
        (Passes (O.held out.old) (O.held out.new) lines.old.items [] lines.new.items []) }
    ensures empty { OnOk result (lines.new.items ≡ []) }
    ensures breaks { OnErr result (Breaks (O.held out.old) (O.held out.new) lines.old.items []) }
    ensures failed { OnErr result (Rose (O.faults out.old) (O.faults out.new)) }
    ensures counts { StandsOrRises (O.faults out.old) (O.faults out.new) }
{
    write_all(out, lines)?;
    lines.clear();
    Ok(())
}

/// Writes the lines that wait where there is no room for so many bytes behind them.
fn make_room<O: Sink>(more: usize, lines: &mut Vec<u8>, out: &mut O) -> Result<(), Failed>
    ensures passes { OnOk result
        (Passes (O.held out.old) (O.held out.new) lines.old.items [] lines.new.items []) }
    ensures breaks { OnErr result (Breaks (O.held out.old) (O.held out.new) lines.old.items []) }
    ensures failed { OnErr result (Rose (O.faults out.old) (O.faults out.new)) }
    ensures counts { StandsOrRises (O.faults out.old) (O.faults out.new) }
{
    if lines.len().saturating_add(more) <= PIECE {
        return Ok(());
    }
    write_out(lines, out)
}

/// Appends bytes as lower-case hex.
fn append_hex(bytes: &[u8], lines: &mut Vec<u8>) -> Result<(), NoMemory>
    requires { length bytes.now ≤ 32768 }
    ensures { OnOk result (lines.new.items ≡ lines.old.items ++ encode_lower bytes.now) }
{
    let start = lines.len();
    lines.resize(start + 2 * bytes.len(), 0)?;
    let room = &mut lines.as_mut_slice()[start..];
    // The room is as long as the digits.
    let _ = hex::encode_to_slice(bytes, room);
    Ok(())
}

/// Puts bytes behind the lines that wait.
pub fn put<O: Sink>(bytes: &[u8], lines: &mut Vec<u8>, out: &mut O) -> Result<(), Unfinished>
    ensures passes { OnOk result
        (Passes (O.held out.old) (O.held out.new) lines.old.items bytes.now lines.new.items []) }
    ensures breaks { OnErr result
        (Breaks (O.held out.old) (O.held out.new) lines.old.items bytes.now) }
    ensures failed { IsErrOf result Unfinished.Failed → Rose (O.faults out.old) (O.faults out.new) }
    ensures counts { StandsOrRises (O.faults out.old) (O.faults out.new) }
{
    make_room(bytes.len(), lines, out)?;
    lines.extend_from_slice(bytes)?;
    Ok(())
}

/// Puts bytes as lower-case hex behind the lines that wait.
pub fn put_hex<O: Sink>(bytes: &[u8], lines: &mut Vec<u8>, out: &mut O) -> Result<(), Unfinished>
    requires { length bytes.now ≤ 32768 }
    ensures passes { OnOk result (Passes (O.held out.old) (O.held out.new) lines.old.items
        (encode_lower bytes.now) lines.new.items []) }
    ensures breaks { OnErr result
        (Breaks (O.held out.old) (O.held out.new) lines.old.items (encode_lower bytes.now)) }
    ensures failed { IsErrOf result Unfinished.Failed → Rose (O.faults out.old) (O.faults out.new) }
    ensures counts { StandsOrRises (O.faults out.old) (O.faults out.new) }
{
    make_room(2 * bytes.len(), lines, out)?;
    append_hex(bytes, lines)?;
    Ok(())
}
