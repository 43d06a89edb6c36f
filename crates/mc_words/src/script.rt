ghost use Rattle.std.specs.Prelude.{◌≡◌, IfOk, OnOk};
ghost use Rattle.mc_words.specs.Script.{script_of};
ghost use Rattle.mc_words.specs.ScriptRead.{PutsEvent, after_line, IsScript};

use crate::bad_input::BadInput;
use crate::script_line::{Before, ScriptEvent, Unread, line_event};
use mc_bytes::NoMemory;
use mc_text::cut_line;
use std::alloc::Global;

/// A script: events, in the order in which they happen.
#[derive(Drop)]
pub struct Script {
    /// The events.
    pub events: Vec<ScriptEvent>,
}

/// Why a text is not read as a script.
#[derive(Clone, Copy, Debug, PartialEq, Eq)]
pub enum ScriptError {
    /// It is none, and this is its first fault.
    Bad(BadInput),
    /// There was no memory.
    NoMemory,
}

impl From<NoMemory> for ScriptError {
    ghost use Rattle.mc_words.specs.declared.script.ScriptError.TheVariants as script_error;

    ghost from_gives = { λ _ error. error ≡ script_error.NoMemory };

    fn from(_refusal: NoMemory) -> ScriptError {
        ScriptError::NoMemory
    }
}

/// Puts the event of a line behind the others, and gives what stands before the next line.
fn put_event(
    events: &mut Vec<ScriptEvent>,
    before: Before,
    event: Option<ScriptEvent>,
) -> Result<Before, NoMemory>
    ensures put { OnOk result (PutsEvent event events.old.items events.new.items) }
    ensures next { IfOk result (λ next. next ≡ after_line before event) }
{
    let Some(event) = event else {
        return Ok(before);
    };
    let next = before.after(&event);
    events.push(event)?;
    Ok(next)
}

impl Script {
    /// Reads a text as a script: its events, or its first fault.
    pub fn read(alloc: Global, text: &[u8]) -> Result<Script, ScriptError>
        ensures { IsScript (script_of text.now) result }
    {
        let mut events = Vec::new(alloc);
        let mut before = Before {
            last: None,
            ticks_left: 1_000_000_000,
        };
        let mut count = 0u64;
        let mut size = 0;
        let mut rest = Some(text);
        while let Some(left) = rest {
            let (line, after) = cut_line(left);
            count += 1;
            size += line.len() + 1;
            match line_event(alloc, text.len(), size, before, line) {
                Ok(event) => before = put_event(&mut events, before, event)?,
                Err(Unread::Fault(kind)) => {
                    return Err(ScriptError::Bad(BadInput { at: count, kind }));
                }
                Err(Unread::NoMemory) => return Err(ScriptError::NoMemory),
            }
            rest = after;
        }
        Ok(Script { events })
    }
}
