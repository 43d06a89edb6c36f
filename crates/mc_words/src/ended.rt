ghost use Rattle.std.specs.Prelude.{◌≡◌, IfOk, string_bytes};
ghost use Rattle.mc_words.specs.Ended.{status_of, fixed_line_of, ended_told, budget_line};

use crate::bad_input::BadInput;
use crate::refusal::Refusal;
use mc_bytes::NoMemory;
use mc_text::Unfinished;
use std::alloc::Global;

/// The line that says how the program is called, with its end.
pub const USAGE: &str = "usage: craft47 status, serve, replay, bot, view, show or load\n";

/// How a command ended.
#[derive(Clone, Copy, Debug, PartialEq, Eq)]
pub enum Ended {
    /// It did all that it was asked.
    Done,
    /// There was no memory.
    NoMemory,
    /// The arguments name no command.
    Usage,
    /// The input failed.
    ReadFault,
    /// The output failed.
    WriteFault,
    /// The lobby could not listen, or not say what comes next; or the link failed.
    NetFault,
    /// The input is not what the command reads.
    BadInput(BadInput),
    /// So many events came, or so many reads in turn were quiet, all that may.
    Budget(u64),
    /// The bot was refused.
    Refused(Refusal),
}

/// The last line of a command that used up its events or its patience, with its end.
pub fn budget_line(alloc: Global, count: u64) -> Result<String, NoMemory>
    ensures { IfOk result (λ text. string_bytes text ≡ budget_line count) }
{
    Ok(format!(in alloc; "budget {count}\n")?)
}

impl Ended {
    /// How a command ends that wrote what is told of its input, and found this first fault there.
    pub fn told(fault: Result<Option<BadInput>, Unfinished>) -> Ended
        ensures { result ≡ ended_told fault }
    {
        match fault {
            Ok(None) => Ended::Done,
            Ok(Some(bad)) => Ended::BadInput(bad),
            Err(Unfinished::Failed) => Ended::WriteFault,
            Err(Unfinished::NoMemory) => Ended::NoMemory,
        }
    }

    /// The status of the program.
    pub fn status(self) -> u8
        ensures { result ≡ status_of self }
    {
        match self {
            Ended::Done => 0,
            Ended::NoMemory => 1,
            Ended::Usage => 2,
            Ended::ReadFault => 3,
            Ended::WriteFault => 4,
            Ended::NetFault => 5,
            Ended::BadInput(_) => 6,
            Ended::Budget(_) => 7,
            Ended::Refused(_) => 8,
        }
    }

    /// The last line of the output with its end, or nothing where there is none or where it says
    /// more than that it ended so.
    pub fn last_line(self) -> &'static [u8]
        ensures { result.now ≡ fixed_line_of self }
    {
        match self {
            Ended::Done | Ended::NoMemory | Ended::WriteFault => b"",
            Ended::BadInput(_) | Ended::Budget(_) | Ended::Refused(_) => b"",
            Ended::Usage => USAGE.as_bytes(),
            Ended::ReadFault => b"read fault\n",
            Ended::NetFault => b"net fault\n",
        }
    }
}
