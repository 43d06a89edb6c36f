ghost use Rattle.std.specs.Prelude.{◌≡◌, ◌≤◌, ◌⊎◌, [], ◌∷◌, ◌++◌, OnOk, length};
ghost use Rattle.mc_text.specs.Lines.{lines_of};
ghost use Rattle.mc_text.specs.declared.lines.TheConstants.{TEXT_MAX};
ghost use Rattle.mc_bot.specs.Script.{line_after, lines_after, not_begun, said_next};
ghost use Rattle.mc_bot.specs.ScriptRead.{AreTaken, IsTaken, read_at};

use crate::act::{Line, Said, Unread};
use crate::line::line_said;
use crate::{ScriptFault, ScriptKind, ScriptRead};
use mc_bytes::{NoMemory, Text};
use mc_text::{cut_line, goes_past, is_skipped};
use std::alloc::Global;
use std::marker::Model;

/// What the first lines of a script came to.
#[derive(Drop)]
pub struct Begun {
    /// The name, once one joined.
    pub name: Option<Text>,
    /// What to do, in order.
    pub lines: Vec<Line>,
}

impl Model for Begun {
    ghost use Rattle.mc_bot.specs.Script.{Begun as BegunValue};

    ghost Value = { BegunValue };

    ghost view = { λ begun. record { name = begun.name; lines = begun.lines.items } };
}

impl Begun {
    /// What no line came to.
    pub fn new(alloc: Global) -> Begun
        ensures { result ≡ not_begun }
    {
        Begun {
            name: None,
            lines: Vec::new(alloc),
        }
    }

    /// Puts what a line does behind the others.
    fn push(&mut self, line: Line) -> Result<(), NoMemory>
        ensures { OnOk result (self.new ≡ record self.old {
          lines = self.old.lines ++ line ∷ [];
        }) }
    {
        self.lines.push(line)?;
        Ok(())
    }

    /// Takes what a line says, the first of which joins, and no other.
    fn take_said(&mut self, number: u32, said: Said) -> Result<(), Unread>
        ensures { IsTaken (said_next number self.old.name self.old.lines said) result self.new }
    {
        match said {
            Said::Join(name) => {
                if self.name.is_some() {
                    return Err(Unread::Fault(ScriptKind::Order));
                }
                self.name = Some(name);
            }
            Said::Does(act) => {
                if self.name.is_none() {
                    return Err(Unread::Fault(ScriptKind::Order));
                }
                self.push(Line { number, act })?;
            }
        }
        Ok(())
    }

    /// Takes a line. The text has `len` bytes, and `size` up to the line's end.
    #[tactic(auto, unfolding(crate::specs::Script::line_after))]
    fn take_line(
        &mut self,
        alloc: Global,
        number: u32,
        len: usize,
        size: usize,
        line: &[u8],
    ) -> Result<(), Unread>
        ensures taken { IsTaken (line_after number len size self.old line.now) result self.new }
        ensures within { OnOk result ((len ≤ TEXT_MAX) ⊎ (size ≤ TEXT_MAX)) }
    {
        if goes_past(len, size) {
            return Err(Unread::Fault(ScriptKind::Long));
        }
        if is_skipped(line) {
            return Ok(());
        }
        self.take_said(number, line_said(alloc, line)?)
    }

    /// Takes all lines of a text, to the first fault.
    pub fn take_all(&mut self, alloc: Global, text: &[u8]) -> Result<(), ScriptRead>
        ensures { AreTaken (lines_after (length text.now) 0 0 self.old (lines_of text.now)) result
            self.new }
    {
        let mut number = 0u32;
        let mut size = 0;
        let mut rest = Some(text);
        while let Some(left) = rest {
            let (line, after) = cut_line(left);
            number += 1;
            size += line.len() + 1;
            if let Err(unread) = self.take_line(alloc, number, text.len(), size, line) {
                return Err(read_at(number, unread));
            }
            rest = after;
        }
        Ok(())
    }
}

/// Why a script is not read, by what it is about one of its lines.
fn read_at(number: u32, unread: Unread) -> ScriptRead
    ensures { result ≡ read_at number unread }
{
    match unread {
        Unread::Fault(kind) => ScriptRead::Bad(ScriptFault { line: number, kind }),
        Unread::NoMemory => ScriptRead::NoMemory,
    }
}
