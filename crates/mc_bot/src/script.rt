ghost use Rattle.std.specs.Prelude.{◌≡◌};
ghost use Rattle.mc_bot.specs.Script.{named, script_of};
ghost use Rattle.mc_fields.specs.Text.{FitsText};
ghost use Rattle.mc_bot.specs.ScriptFits.{LinesFit, NameFits};
ghost use Rattle.mc_bot.specs.ScriptRead.{IsScriptRead};

use crate::act::Line;
use crate::begun::Begun;
use mc_bytes::{NoMemory, Text};
use std::alloc::Global;
use std::marker::Model;

/// What is wrong with a line of a script.
#[derive(Clone, Copy, Debug, PartialEq, Eq)]
pub enum ScriptKind {
    /// It has no form that a script knows, or a name or a text out of its range.
    Word,
    /// A number of it is not well formed, or out of its range.
    Number,
    /// It is no hex, which no line of a bot's script has to be.
    Hex,
    /// It is the first to say something and joins nobody, or a later one that joins.
    Order,
    /// It goes past the most bytes that a text may have.
    Long,
}

/// The first fault of a script.
#[derive(Clone, Copy, Debug, PartialEq, Eq)]
pub struct ScriptFault {
    /// The number of the line where it shows, from 1.
    pub line: u32,
    /// What is wrong there.
    pub kind: ScriptKind,
}

/// Why a text is not read as a script.
#[derive(Clone, Copy, Debug, PartialEq, Eq)]
pub enum ScriptRead {
    /// It is none, and this is its first fault.
    Bad(ScriptFault),
    /// There was no memory.
    NoMemory,
}

/// A bot's script: the name that it joins by, and what it does. Contracts see it as these two, of
/// which each is in the range of its packets.
#[derive(Drop)]
pub struct Script {
    name: Text,
    lines: Vec<Line>,
}

impl Model for Script {
    ghost use Rattle.mc_bot.specs.Script.{ScriptValue};

    ghost Value = { ScriptValue };

    ghost use Rattle.mc_fields.specs.Text.{FitsText};
    ghost use Rattle.mc_bot.specs.ScriptFits.{LinesFit};

    ghost view = { λ script. record { name = script.name; lines = script.lines.items } };

    ghost invariant = { λ script. FitsText 16 script.name × LinesFit script.lines.items };
}

impl Script {
    /// Reads a text as a script: what it says, or its first fault.
    #[tactic(auto, using(crate::proofs::Ranges::name_taken, crate::proofs::Ranges::lines_taken), unfolding(crate::specs::Script::script_of))]
    pub fn read(alloc: Global, text: &[u8]) -> Result<Script, ScriptRead>
        ensures { IsScriptRead (script_of text.now) result }
    {
        let mut begun = Begun::new(alloc);
        match begun.take_all(alloc, text) {
            Ok(()) => finish(begun),
            Err(read) => {
                drop(begun);
                Err(read)
            }
        }
    }

    /// The name that it joins by, of 1 to 16 code points.
    pub fn name(&self) -> &Text
        ensures is { result.now ≡ self.now.name }
        ensures fits { FitsText 16 result.now }
    {
        &self.name
    }

    /// What it does, in order.
    pub fn lines(&self) -> &[Line]
        ensures is { result.now ≡ self.now.lines }
        ensures fit { LinesFit result.now }
    {
        self.lines.as_slice()
    }
}

/// Makes a script of what all its lines came to. One in which nobody joins has its fault in its
/// first line.
fn finish(begun: Begun) -> Result<Script, ScriptRead>
    requires name { NameFits begun.name }
    requires lines { LinesFit begun.lines }
    ensures { IsScriptRead (named begun.name begun.lines) result }
{
    let Begun { name, lines } = begun;
    match name {
        Some(name) => Ok(Script { name, lines }),
        None => {
            drop(lines);
            Err(ScriptRead::Bad(ScriptFault {
                line: 1,
                kind: ScriptKind::Order,
            }))
        }
    }
}
