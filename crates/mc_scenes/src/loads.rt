use mc_rows::Answer;
use std::fmt;
use std::fmt::Display;

/// Columns of one row that are loaded one after another: `load X Z..Z MASK SIZE`.
#[derive(Clone, Copy)]
pub struct Loads {
    cx: i32,
    first: i32,
    last: i32,
    mask: u16,
    size: usize,
}

impl Display for Loads {
    fn fmt<W: fmt::Write>(&self, f: &mut fmt::Formatter<W>) -> fmt::Result {
        write!(f, "load {} {}..{}", self.cx, self.first, self.last)?;
        write!(f, " {} {}", self.mask, self.size)
    }
}

impl Loads {
    /// One column, with its sections that have a block and how many bytes it is sent in.
    pub fn one(cx: i32, cz: i32, mask: u16, size: usize) -> Loads {
        Loads {
            cx,
            first: cz,
            last: cz,
            mask,
            size,
        }
    }

    /// Whether another column is the next of the same row.
    fn goes_on(&self, next: &Loads) -> bool {
        self.cx == next.cx
            && self.last.checked_add(1) == Some(next.first)
            && self.mask == next.mask
            && self.size == next.size
    }
}

/// Columns that are kept until it is known whether the next is of their row.
#[derive(Clone, Copy)]
pub struct Kept {
    loads: Option<Loads>,
}

impl Kept {
    /// No columns.
    pub fn new() -> Kept {
        Kept { loads: None }
    }

    /// Puts the columns that were kept.
    pub fn end(&mut self, answer: &mut Answer) {
        if let Some(loads) = self.loads {
            answer.word(loads);
        }
        self.loads = None;
    }

    /// Keeps a column with those of its row, or puts those that are of another.
    pub fn add(&mut self, next: Loads, answer: &mut Answer) {
        let kept = self.loads;
        self.loads = Some(next);
        if let Some(loads) = kept {
            if loads.goes_on(&next) {
                self.loads = Some(Loads {
                    last: next.last,
                    ..loads
                });
            } else {
                answer.word(loads);
            }
        }
    }
}
