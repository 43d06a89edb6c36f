//! The line that tells what a load comes to.

ghost use Rattle.std.specs.Prelude.{◌≡◌, ◌≤◌, ◌++◌, IfOk, string_bytes};
ghost use Rattle.mc_measure.specs.LoadText.{load_outcome, load_size};

use crate::measured::Measured;
use mc_bytes::NoMemory;
use mc_load::event_count;
use std::alloc::Global;

/// How large a load of so many clients and ticks is.
fn load_size(alloc: Global, clients: u32, ticks: u32) -> Result<String, NoMemory>
    requires clients { clients ≤ 50 }
    requires ticks { ticks ≤ 10000 }
    ensures { IfOk result (λ text. string_bytes text ≡ load_size clients ticks) }
{
    let events = event_count(clients, ticks);
    Ok(format!(in alloc; "clients={clients} ticks={ticks} events={events}")?)
}

/// What a load comes to, and the end of the line.
fn load_outcome(alloc: Global, measured: &Measured) -> Result<String, NoMemory>
    ensures { IfOk result (λ text. string_bytes text
        ≡ load_outcome measured.now.census measured.now.bytes) }
{
    let (edits, stock) = (measured.census.edits, measured.census.stock);
    let bytes = measured.bytes;
    Ok(format!(in alloc; " edits={edits} stock={stock} bytes={bytes}\n")?)
}

/// The line that tells what a load of so many clients and ticks comes to, with its end.
pub fn load_line(
    alloc: Global,
    clients: u32,
    ticks: u32,
    measured: &Measured,
) -> Result<String, NoMemory>
    requires clients { clients ≤ 50 }
    requires ticks { ticks ≤ 10000 }
    ensures { IfOk result (λ line. string_bytes line
        ≡ load_size clients ticks ++ load_outcome measured.now.census measured.now.bytes) }
{
    let mut line = load_size(alloc, clients, ticks)?;
    let outcome = load_outcome(alloc, measured)?;
    line.push_str(outcome.as_str())?;
    Ok(line)
}
