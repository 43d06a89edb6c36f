ghost use Rattle.std.specs.Prelude.{◌≡◌, IfOk, string_bytes};
ghost use Rattle.mc_words.specs.Ended.{bad_input_line};

use mc_bytes::NoMemory;
use std::alloc::Global;
use std::fmt;

/// What is wrong with what a command reads. It is printed as its name.
#[derive(Clone, Copy, Debug, PartialEq, Eq)]
pub enum InputFault {
    /// The line is no hex.
    Hex,
    /// The length of a frame is one that no frame has.
    Frame,
    /// A frame is no packet that the client may send then.
    Packet,
    /// The client wants to log in.
    Login,
    /// The text ends inside a frame.
    Cut,
    /// The line goes past the most bytes that a text may have.
    Long,
    /// The line has no form that a script knows.
    Word,
    /// A number of the line is not well formed, or out of its range.
    Number,
    /// A connection joins whose number is not above all earlier ones.
    Order,
    /// The bytes do not begin as a capture does.
    BadHead,
    /// A record of a capture is of no kind that there is.
    BadKind,
    /// A capture ends inside a record.
    Short,
    /// A record of a capture says that it carries more bytes than it may.
    TooLong,
}

impl fmt::Display for InputFault {
    ghost use Rattle.std.specs.Prelude.{Some};
    ghost use Rattle.mc_words.specs.FaultName.{fault_name};

    ghost output = { λ kind. Some (fault_name kind) };

    fn fmt<W: fmt::Write>(&self, f: &mut fmt::Formatter<W>) -> fmt::Result {
        f.write_str(match self {
            InputFault::Hex => "Hex",
            InputFault::Frame => "Frame",
            InputFault::Packet => "Packet",
            InputFault::Login => "Login",
            InputFault::Cut => "Cut",
            InputFault::Long => "Long",
            InputFault::Word => "Word",
            InputFault::Number => "Number",
            InputFault::Order => "Order",
            InputFault::BadHead => "BadHead",
            InputFault::BadKind => "BadKind",
            InputFault::Short => "Short",
            InputFault::TooLong => "TooLong",
        })
    }
}

/// The first fault of an input: where it shows, and what is wrong there.
#[derive(Clone, Copy, Debug, PartialEq, Eq)]
pub struct BadInput {
    /// The number of the line of a text, counted from 1, or how many bytes of a capture stand before
    /// it, at most 2^64 - 1.
    pub at: u64,
    /// What is wrong.
    pub kind: InputFault,
}

impl BadInput {
    /// The last line of the output, with its end.
    pub fn last_line(self, alloc: Global) -> Result<String, NoMemory>
        ensures { IfOk result (λ text. string_bytes text ≡ bad_input_line self) }
    {
        let BadInput { at, kind } = self;
        Ok(format!(in alloc; "bad input at {at}: {kind}\n")?)
    }
}
