ghost use Rattle.std.specs.Prelude.{◌≡◌, [], List, ℕ, IfOk, OnOk, OnErr, IsErrOf, string_bytes};
ghost use Rattle.std.specs.List.{flat_map};
ghost use Rattle.mc_wire.specs.Count.{Rose, StandsOrRises};
ghost use Rattle.mc_text.specs.Lines.{ended_line};
ghost use Rattle.mc_text.specs.Passes.{Breaks, Passes};

use crate::lines::Dumped;
use mc_bytes::NoMemory;
use mc_wire::Sink;
use mc_text::{Unfinished, put};
use std::alloc::Global;

/// The line of something, with its end.
fn ended<T: Dumped>(alloc: Global, item: &T) -> Result<String, NoMemory>
    ensures { IfOk result (λ text. string_bytes text ≡ ended_line (T.line item.now)) }
{
    let mut text = item.to_line(alloc)?;
    text.push_str("\n")?;
    Ok(text)
}

/// Puts a text behind the lines that wait, if there was memory for it.
pub(crate) fn put_text<O: Sink>(
    text: Result<String, NoMemory>,
    lines: &mut Vec<u8>,
    out: &mut O,
) -> Result<(), Unfinished>
    ensures passes { (bytes : List ℕ) → IfOk text (λ t. string_bytes t ≡ bytes) → OnOk result
        (Passes (O.held out.old) (O.held out.new) lines.old.items bytes lines.new.items []) }
    ensures breaks { (bytes : List ℕ) → IfOk text (λ t. string_bytes t ≡ bytes) → OnErr result
        (Breaks (O.held out.old) (O.held out.new) lines.old.items bytes) }
    ensures failed { IsErrOf result Unfinished.Failed → Rose (O.faults out.old) (O.faults out.new) }
    ensures counts { StandsOrRises (O.faults out.old) (O.faults out.new) }
{
    let text = text?;
    put(text.as_bytes(), lines, out)?;
    Ok(())
}

/// Puts the lines of all these behind those that wait.
pub(crate) fn put_all<T: Dumped, O: Sink>(
    alloc: Global,
    items: &[T],
    lines: &mut Vec<u8>,
    out: &mut O,
) -> Result<(), Unfinished>
    ensures passes { OnOk result (Passes (O.held out.old) (O.held out.new) lines.old.items
        (flat_map (λ item. ended_line (T.line item)) items.now) lines.new.items []) }
    ensures breaks { OnErr result (Breaks (O.held out.old) (O.held out.new) lines.old.items
        (flat_map (λ item. ended_line (T.line item)) items.now)) }
    ensures failed { IsErrOf result Unfinished.Failed → Rose (O.faults out.old) (O.faults out.new) }
    ensures counts { StandsOrRises (O.faults out.old) (O.faults out.new) }
{
    for item in items {
        put_text(ended(alloc, item), lines, out)?;
    }
    Ok(())
}
