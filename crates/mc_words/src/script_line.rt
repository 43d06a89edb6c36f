ghost use Rattle.std.specs.Prelude.{◌≡◌};
ghost use Rattle.mc_text.specs.Words.{number_of};
ghost use Rattle.mc_words.specs.Script.{hex_of, is_next, join_event};
ghost use Rattle.mc_words.specs.Script.{ticks_event, bytes_event, one_word, two_words, three_words};
ghost use Rattle.mc_text.specs.Words.{words_of};
ghost use Rattle.mc_words.specs.Script.{words_event, line_event, after_event};
ghost use Rattle.mc_words.specs.ScriptRead.{IsRead};

use crate::bad_input::InputFault;
use mc_bytes::{NoMemory, Octets};
use mc_text::{cut_word, goes_past, is_skipped, is_text, number, put_decoded};
use std::alloc::Global;

/// What a line of a script says.
#[derive(Drop)]
pub enum ScriptEvent {
    /// A connection joins.
    Joined(u32),
    /// Bytes of a connection come, at least one.
    Came(u32, Octets),
    /// A connection is gone.
    Gone(u32),
    /// So many ticks come, at least one.
    Ticks(u32),
}

/// What stands before a line of a script.
#[derive(Clone, Copy, Debug, PartialEq, Eq)]
pub struct Before {
    /// The last number that joined.
    pub last: Option<u32>,
    /// How many ticks are left of those that a script may have.
    pub ticks_left: u32,
}

/// Why a line is not read.
#[derive(Clone, Copy, Debug, PartialEq, Eq)]
pub enum Unread {
    /// Something is wrong with it.
    Fault(InputFault),
    /// There was no memory.
    NoMemory,
}

impl From<NoMemory> for Unread {
    ghost use Rattle.mc_words.specs.declared.script_line.Unread.TheVariants as unread;

    ghost from_gives = { λ _ error. error ≡ unread.NoMemory };

    fn from(_refusal: NoMemory) -> Unread {
        Unread::NoMemory
    }
}

impl Before {
    /// What stands before the next line, after an event.
    pub fn after(self, event: &ScriptEvent) -> Before
        ensures { result ≡ after_event self event.now }
    {
        match event {
            ScriptEvent::Joined(connection) => Before {
                last: Some(*connection),
                ..self
            },
            ScriptEvent::Ticks(count) => Before {
                ticks_left: self.ticks_left.saturating_sub(*count),
                ..self
            },
            ScriptEvent::Came(_, _) | ScriptEvent::Gone(_) => self,
        }
    }

    /// The event of a connection that joins.
    fn join(self, connection: u32) -> Result<ScriptEvent, Unread>
        ensures { IsRead (join_event self connection) result }
    {
        if is_next(self.last, connection) {
            Ok(ScriptEvent::Joined(connection))
        } else {
            Err(Unread::Fault(InputFault::Order))
        }
    }

    /// The event of so many ticks.
    fn ticks(self, count: u32) -> Result<ScriptEvent, Unread>
        ensures { IsRead (ticks_event self count) result }
    {
        if count <= self.ticks_left {
            Ok(ScriptEvent::Ticks(count))
        } else {
            Err(Unread::Fault(InputFault::Number))
        }
    }
}

/// Whether a number is above the last one.
fn is_next(last: Option<u32>, number: u32) -> bool
    ensures { result ≡ is_next last number }
{
    match last {
        None => true,
        Some(last) => last < number,
    }
}

/// The number of a connection.
fn connection(word: &[u8]) -> Option<u32>
    ensures { result ≡ number_of 0 4294967295 word.now }
{
    number(word, 0, u32::MAX)
}

/// The event of a connection's bytes.
fn came(alloc: Global, connection: u32, digits: &[u8]) -> Result<ScriptEvent, Unread>
    ensures { IsRead (bytes_event connection (hex_of digits.now)) result }
{
    if digits.is_empty() {
        return Err(Unread::Fault(InputFault::Hex));
    }
    let mut bytes = Vec::new(alloc);
    if !put_decoded(digits, &mut bytes)? {
        return Err(Unread::Fault(InputFault::Hex));
    }
    Ok(ScriptEvent::Came(connection, Octets::from_vec(bytes)))
}

/// The event of a line of one word.
fn one_word(before: Before, verb: &[u8]) -> Result<ScriptEvent, Unread>
    ensures { IsRead (one_word before verb.now) result }
{
    if verb == b"tick".as_slice() {
        before.ticks(1)
    } else {
        Err(Unread::Fault(InputFault::Word))
    }
}

/// The event of a line of two words.
fn two_words(before: Before, verb: &[u8], word: &[u8]) -> Result<ScriptEvent, Unread>
    ensures { IsRead (two_words before verb.now word.now) result }
{
    if verb == b"join".as_slice() {
        match connection(word) {
            Some(connection) => before.join(connection),
            None => Err(Unread::Fault(InputFault::Number)),
        }
    } else if verb == b"gone".as_slice() {
        match connection(word) {
            Some(connection) => Ok(ScriptEvent::Gone(connection)),
            None => Err(Unread::Fault(InputFault::Number)),
        }
    } else if verb == b"tick".as_slice() {
        match number(word, 1, 100_000) {
            Some(count) => before.ticks(count),
            None => Err(Unread::Fault(InputFault::Number)),
        }
    } else {
        Err(Unread::Fault(InputFault::Word))
    }
}

/// The event of a line of three words.
fn three_words(
    alloc: Global,
    verb: &[u8],
    word: &[u8],
    digits: &[u8],
) -> Result<ScriptEvent, Unread>
    ensures { IsRead (three_words verb.now word.now digits.now) result }
{
    if verb == b"bytes".as_slice() {
        match connection(word) {
            Some(connection) => came(alloc, connection, digits),
            None => Err(Unread::Fault(InputFault::Number)),
        }
    } else {
        Err(Unread::Fault(InputFault::Word))
    }
}

/// The event of a line's words.
fn words_event(alloc: Global, before: Before, line: &[u8]) -> Result<ScriptEvent, Unread>
    ensures { IsRead (words_event before (words_of line.now)) result }
{
    let (verb, rest) = cut_word(line);
    let Some(more) = rest else {
        return one_word(before, verb);
    };
    let (word, rest) = cut_word(more);
    let Some(more) = rest else {
        return two_words(before, verb, word);
    };
    let (digits, rest) = cut_word(more);
    if rest.is_some() {
        return Err(Unread::Fault(InputFault::Word));
    }
    three_words(alloc, verb, word, digits)
}

/// The event of a line, or none where it is left out. The text has `len` bytes, and `size` up to
/// the line's end.
#[tactic(auto, unfolding(crate::specs::Script::line_event))]
pub fn line_event(
    alloc: Global,
    len: usize,
    size: usize,
    before: Before,
    line: &[u8],
) -> Result<Option<ScriptEvent>, Unread>
    ensures { IsRead (line_event len size before line.now) result }
{
    if goes_past(len, size) {
        return Err(Unread::Fault(InputFault::Long));
    }
    if is_skipped(line) {
        return Ok(None);
    }
    if !is_text(line) {
        return Err(Unread::Fault(InputFault::Word));
    }
    Ok(Some(words_event(alloc, before, line)?))
}
