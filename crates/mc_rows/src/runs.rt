use std::fmt;
use std::fmt::Display;

/// The most bytes of a run that are written one by one.
const PLAIN: usize = 16;

/// Bytes as a word, with long runs of equal bytes, and of bytes that rise by one, shortened.
#[derive(Clone, Copy)]
pub struct Runs<'a> {
    bytes: &'a [u8],
}

impl<'a> Runs<'a> {
    /// Takes the bytes.
    pub fn new(bytes: &'a [u8]) -> Runs<'a> {
        Runs { bytes }
    }
}

impl<'a> Display for Runs<'a> {
    fn fmt<W: fmt::Write>(&self, f: &mut fmt::Formatter<W>) -> fmt::Result {
        let mut next = 0;
        let mut is_apart = false;
        for i in 0..self.bytes.len() {
            if i >= next {
                let run = front(self.bytes.get(i..).unwrap_or(&[]));
                let plus = plus(i > 0 && (is_apart || run.len > 1));
                write!(f, "{plus}{run}")?;
                is_apart = run.len > 1;
                next = i.saturating_add(run.len);
            }
        }
        Ok(())
    }
}

/// What stands before a part.
fn plus(is_apart: bool) -> &'static str {
    if is_apart { "+" } else { "" }
}

/// So many bytes from a first one on.
#[derive(Clone, Copy)]
struct Run {
    first: u8,
    sign: char,
    len: usize,
}

impl Display for Run {
    fn fmt<W: fmt::Write>(&self, f: &mut fmt::Formatter<W>) -> fmt::Result {
        write!(f, "{:02x}", self.first)?;
        if self.len > 1 {
            write!(f, "{}{}", self.sign, self.len)?;
        }
        Ok(())
    }
}

/// The run at the front of some bytes, of one byte where it is not long.
fn front(bytes: &[u8]) -> Run {
    let first = bytes.first().copied().unwrap_or(0);
    let equal = run_len(bytes, first, 0);
    let rising = run_len(bytes, first, 1);
    if equal > PLAIN {
        Run {
            first,
            sign: '*',
            len: equal,
        }
    } else if rising > PLAIN {
        Run {
            first,
            sign: '^',
            len: rising,
        }
    } else {
        Run {
            first,
            sign: '+',
            len: 1,
        }
    }
}

/// How many bytes the run at the front has, of which each differs from the one before by `step`.
fn run_len(bytes: &[u8], first: u8, step: u8) -> usize {
    let mut next = first;
    let mut len: usize = 0;
    for byte in bytes {
        if *byte != next {
            return len;
        }
        next = byte.wrapping_add(step);
        len = len.saturating_add(1);
    }
    len
}

/// States of two bytes each, the least significant first, as a word: each with how many stand in a
/// row, where they are more than one.
#[derive(Clone, Copy)]
pub struct States<'a> {
    bytes: &'a [u8],
}

impl<'a> States<'a> {
    /// Takes the states.
    pub fn new(bytes: &'a [u8]) -> States<'a> {
        States { bytes }
    }
}

impl<'a> Display for States<'a> {
    fn fmt<W: fmt::Write>(&self, f: &mut fmt::Formatter<W>) -> fmt::Result {
        let mut row = Row { state: 0, len: 0 };
        for pair in self.bytes.chunks_exact(2) {
            let state = state_of(pair);
            if state == row.state {
                row.len = row.len.saturating_add(1);
            } else {
                write!(f, "{row}")?;
                row = Row { state, len: 1 };
            }
        }
        write!(f, "{row}")
    }
}

/// So many cells of a state in a row.
#[derive(Clone, Copy)]
struct Row {
    state: u16,
    len: usize,
}

impl Display for Row {
    fn fmt<W: fmt::Write>(&self, f: &mut fmt::Formatter<W>) -> fmt::Result {
        if self.len == 0 {
            return Ok(());
        }
        write!(f, "({}*{})", self.state, self.len)
    }
}

/// The state of two bytes.
fn state_of(pair: &[u8]) -> u16 {
    match pair {
        [low, high] => u16::from_le_bytes([*low, *high]),
        _ => 0,
    }
}
