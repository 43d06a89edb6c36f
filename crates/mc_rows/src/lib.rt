//! Words and answers of the tables of rows: what a row is read from, and what it answers as words.
//! It stands on `mc_bytes` and on the crate `hex`, and the programs of tables stand on it.
//!
//! It has no contract of its own: the tables say what each of their rows answers.
#![tactic(auto)]

mod answer;
mod marked;
mod runs;
mod shown;
mod texts;
mod words;

pub use answer::Answer;
pub use marked::{Marked, bytes_of};
pub use runs::{Runs, States};
pub use shown::{Hex, Shown};
pub use texts::text_of;
pub use words::{Words, look_up};
