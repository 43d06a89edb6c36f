ghost use Rattle.std.specs.Prelude.{◌≡◌, ◌++◌, ◌∷◌, [], OnOk, codes, decimal, string_bytes};
ghost use Rattle.mc_replica.specs.Dump.{cursor_line, slot_line, slot_lines, text_of};

use crate::lines::stack_words;
use crate::slot_row::SlotRow;
use mc_bytes::NoMemory;
use mc_slots::Slot;
use std::alloc::Global;

/// Appends a line and its end.
fn push_line(line: &str, text: &mut String) -> Result<(), NoMemory>
    ensures { OnOk result (string_bytes text.new ≡ string_bytes text.old ++ text_of (line.now ∷ [])) }
{
    text.push_str(line)?;
    text.push_str("\n")?;
    Ok(())
}

/// Appends the line of slot `i` of a name, where it is full.
fn push_slot(
    alloc: Global,
    name: &str,
    i: usize,
    slot: &Slot,
    text: &mut String,
) -> Result<(), NoMemory>
    ensures { OnOk result (string_bytes text.new ≡
        string_bytes text.old ++ text_of (slot_line name.now i slot.now)) }
{
    let Slot::Full(stack) = slot else {
        return Ok(());
    };
    let words = stack_words(alloc, stack)?;
    let words = words.as_str();
    let line = format!(in alloc; "{name} {i}{words}")?;
    push_line(line.as_str(), text)?;
    Ok(())
}

/// Appends the lines of the slots of a name that are full.
pub(crate) fn push_slots(
    alloc: Global,
    name: &str,
    row: &SlotRow,
    text: &mut String,
) -> Result<(), NoMemory>
    ensures { OnOk result (string_bytes text.new ≡
        string_bytes text.old ++ text_of (slot_lines name.now 0 row.now)) }
{
    for i in 0..row.len() {
        push_slot(alloc, name, i, row.get(i), text)?;
    }
    Ok(())
}

/// Appends the line of the cursor, where something hangs on it.
pub(crate) fn push_cursor(alloc: Global, slot: &Slot, text: &mut String) -> Result<(), NoMemory>
    ensures { OnOk result (string_bytes text.new ≡
        string_bytes text.old ++ text_of (cursor_line slot.now)) }
{
    let Slot::Full(stack) = slot else {
        return Ok(());
    };
    let words = stack_words(alloc, stack)?;
    let words = words.as_str();
    let line = format!(in alloc; "cursor{words}")?;
    push_line(line.as_str(), text)?;
    Ok(())
}

/// Appends the line of a window of a number.
pub(crate) fn push_number(alloc: Global, number: u8, text: &mut String) -> Result<(), NoMemory>
    ensures { OnOk result (string_bytes text.new ≡
        string_bytes text.old ++ text_of ((codes "window " ++ decimal number) ∷ [])) }
{
    let line = format!(in alloc; "window {number}")?;
    push_line(line.as_str(), text)?;
    Ok(())
}
