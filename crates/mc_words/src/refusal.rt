ghost use Rattle.std.specs.Prelude.{◌≡◌, IfOk, string_bytes};
ghost use Rattle.mc_words.specs.Ended.{refused_line};

use mc_bytes::NoMemory;
use std::alloc::Global;
use std::fmt;

/// Why a bot was refused. It is printed as the last line says it.
#[derive(Clone, Copy, Debug, PartialEq, Eq)]
pub enum Refusal {
    /// The server closed it, or sent no more where it needed a packet.
    Closed,
    /// The server sent a length that no frame has.
    Frame,
    /// The server sent a frame that is no packet that it may send then.
    Packet,
    /// The server sent a chunk of another size than its columns have.
    Body,
    /// A line of the script expects a cell to have another state than it has.
    Expect {
        /// The number of the line, from 1.
        line: u32,
        /// The state that it expects.
        want: u16,
        /// The state that the cell has, or none where its column is not loaded.
        have: Option<u16>,
    },
}

impl fmt::Display for Refusal {
    ghost use Rattle.std.specs.Prelude.{Some};
    ghost use Rattle.mc_words.specs.RefusalText.{refusal_text};

    ghost output = { λ refusal. Some (refusal_text refusal) };

    fn fmt<W: fmt::Write>(&self, f: &mut fmt::Formatter<W>) -> fmt::Result {
        match self {
            Refusal::Closed => f.write_str("closed"),
            Refusal::Frame => f.write_str("frame"),
            Refusal::Packet => f.write_str("packet"),
            Refusal::Body => f.write_str("body"),
            Refusal::Expect {
                line,
                want,
                have: None,
            } => write!(f, "expect line {line} want {want} have none"),
            Refusal::Expect {
                line,
                want,
                have: Some(have),
            } => write!(f, "expect line {line} want {want} have {have}"),
        }
    }
}

impl Refusal {
    /// The last line of the output, with its end.
    pub fn last_line(self, alloc: Global) -> Result<String, NoMemory>
        ensures { IfOk result (λ text. string_bytes text ≡ refused_line self) }
    {
        Ok(format!(in alloc; "refused: {self}\n")?)
    }
}
