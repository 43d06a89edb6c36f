use crate::marked::Marked;
use crate::runs::{Runs, States};
use crate::shown::{Hex, Shown};
use mc_bytes::{FieldFault, ReadFault};
use std::alloc::Global;
use std::fmt;
use std::fmt::{Debug, Display, Write};

/// What a row answers: words with a space between them, or `done` where there are none. Once there
/// is no memory for one it says so alone.
#[derive(Drop)]
pub struct Answer {
    text: String,
    is_lost: bool,
}

impl Display for Answer {
    fn fmt<W: fmt::Write>(&self, f: &mut fmt::Formatter<W>) -> fmt::Result {
        if self.is_lost {
            return write!(f, "out of memory");
        }
        if self.text.as_str().is_empty() {
            return write!(f, "done");
        }
        write!(f, "{}", self.text)
    }
}

impl Answer {
    /// Makes an answer without words.
    pub fn new(alloc: Global) -> Answer {
        Answer {
            text: String::new(alloc),
            is_lost: false,
        }
    }

    /// Makes the answer to a row that is none.
    pub fn no_such_call(alloc: Global) -> Answer {
        let mut answer = Answer::new(alloc);
        answer.word("no such call");
        answer
    }

    /// Makes it say that there was no memory.
    pub fn lose(&mut self) {
        self.is_lost = true;
    }

    /// Makes it say that there was no memory, where a call had none.
    pub fn needs<T: Drop, E: Drop>(&mut self, done: Result<T, E>) {
        if done.is_err() {
            self.is_lost = true;
        }
    }

    /// Puts a space, but not at the front or behind an opening bracket.
    fn space(&mut self) {
        if let Some(last) = self.text.as_bytes().last()
            && *last != b'['
        {
            self.put(' ');
        }
    }

    /// Puts a text behind what is there.
    pub fn put<T: Display + Drop>(&mut self, value: T) {
        let done = write!(self.text, "{value}");
        self.needs(done);
    }

    /// Puts a comma, but not at the front or behind an opening bracket.
    pub fn comma(&mut self) {
        if let Some(last) = self.text.as_bytes().last()
            && *last != b'['
        {
            self.put(',');
        }
    }

    /// Puts a word.
    pub fn word<T: Display + Drop>(&mut self, value: T) {
        self.space();
        self.put(value);
    }

    /// Puts a word as `Debug` writes it.
    pub fn name<T: Debug + Drop>(&mut self, value: T) {
        self.space();
        let done = write!(self.text, "{value:?}");
        self.needs(done);
    }

    /// Puts bytes as hex.
    pub fn hex(&mut self, bytes: &[u8]) {
        self.word(Hex::new(bytes));
    }

    /// Puts bytes as a text with escapes.
    pub fn shown(&mut self, bytes: &[u8]) {
        self.word(Shown::new(bytes));
    }

    /// Puts bytes as a word, with long runs shortened.
    pub fn bytes(&mut self, bytes: &[u8]) {
        self.space();
        if bytes.is_empty() {
            self.put('-');
        }
        self.put(Runs::new(bytes));
    }

    /// Puts states of two bytes each, the least significant first, as a word.
    pub fn states(&mut self, bytes: &[u8]) {
        self.space();
        self.put(States::new(bytes));
    }

    /// Puts a text: in quotes where it is plain ASCII, else its bytes.
    pub fn text(&mut self, text: &str) {
        let bytes = text.as_bytes();
        if bytes.iter().all(|byte| 0x20 <= *byte && *byte <= 0x7e) {
            self.space();
            self.put('"');
            self.put(text);
            self.put('"');
        } else {
            self.bytes(bytes);
        }
    }

    /// Puts where something is.
    pub fn at(&mut self, at: usize) {
        self.word("at");
        self.word(at);
    }

    /// Puts a fault and its place.
    pub fn fault(&mut self, fault: FieldFault) {
        self.name(fault.kind);
        self.at(fault.at);
    }

    /// Puts why a field was not read.
    pub fn read_fault(&mut self, fault: ReadFault) {
        match fault {
            ReadFault::Field(fault) => self.fault(fault),
            ReadFault::NoMemory => self.lose(),
        }
    }

    /// Puts what reading gave: the value and the offset after it, or the fault.
    pub fn read<T: Display + Drop>(&mut self, read: Result<(T, usize), FieldFault>) {
        match read {
            Ok((value, end)) => {
                self.word(value);
                self.at(end);
            }
            Err(fault) => self.fault(fault),
        }
    }

    /// Puts what the packet of a frame is written as.
    pub fn frame_again(&mut self, frame: &[u8], out: &[u8]) {
        self.put(", again");
        if frame == out {
            self.word("the same");
        } else {
            self.bytes(out);
        }
    }

    /// Gives the allocator of its text.
    pub fn alloc(&self) -> Global {
        *self.text.allocator()
    }

    /// Puts what a value is written as, behind the bytes that stood before it where it was read.
    pub fn again(&mut self, input: &Marked, end: usize, out: &[u8]) {
        self.put(", again");
        if input.bytes.get(..end) == Some(out) {
            self.word("the same");
        } else {
            self.bytes(out.get(input.at..).unwrap_or(out));
        }
    }
}
