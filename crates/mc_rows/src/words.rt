use crate::marked::{Marked, bytes_of};
use crate::texts::text_of;
use mc_bytes::{Octets, Text};
use std::alloc::Global;
use std::str::FromStr;

/// The words of a row that are still to be read. A word that is missing or not as it must be is
/// read as nothing, and makes the row a bad one.
#[derive(Drop)]
pub struct Words<'a> {
    pub alloc: Global,
    rest: &'a str,
    is_bad: bool,
}

impl<'a> Words<'a> {
    /// Takes the words of a row, with one space between them.
    pub fn new(alloc: Global, row: &'a str) -> Words<'a> {
        Words {
            alloc,
            rest: row,
            is_bad: false,
        }
    }

    /// Tells whether a word is left.
    pub fn is_more(&self) -> bool {
        !self.rest.is_empty()
    }

    /// Tells whether the row is a bad one, or a word of it was not read.
    pub fn are_bad(&self) -> bool {
        self.is_bad || self.is_more()
    }

    /// Makes the row a bad one, of which no word is left.
    pub fn fail(&mut self) {
        self.is_bad = true;
        self.rest = "";
    }

    /// Takes the next word, empty where none is left.
    pub fn word(&mut self) -> &'a str {
        let (word, rest) = self.rest.split_once(' ').unwrap_or((self.rest, ""));
        self.rest = rest;
        word
    }

    /// Takes all that is left of the row, which has no word then.
    pub fn rest(&mut self) -> &'a str {
        let rest = self.rest;
        self.rest = "";
        rest
    }

    /// Reads over the next word, where it is this one, and tells whether it was.
    pub fn is_next(&mut self, word: &str) -> bool {
        let rest = self.rest;
        if self.word() == word {
            return true;
        }
        self.rest = rest;
        false
    }

    /// Reads over the next word, which must be this one.
    pub fn skip(&mut self, word: &str) {
        if self.word() != word {
            self.fail();
        }
    }

    /// Takes what a word was read as, or this in place of it, which makes the row a bad one.
    fn or<T: Drop>(&mut self, read: Option<T>, nothing: T) -> T {
        if read.is_none() {
            self.fail();
        }
        read.unwrap_or(nothing)
    }

    /// Reads the next word as a number or a truth value.
    pub fn number<T: FromStr + Default + Drop>(&mut self) -> T
    where
        T::Err: Drop,
    {
        let read = self.word().parse::<T>().ok();
        self.or(read, T::default())
    }

    /// Reads the next word as a number in hex.
    pub fn pattern(&mut self) -> u64 {
        let read = u64::from_str_radix(self.word(), 16).ok();
        self.or(read, 0)
    }

    /// Reads the next word as bytes with marks.
    pub fn marked(&mut self) -> Marked {
        let read = Marked::parse(self.alloc, self.word());
        self.or(read, Marked::nothing(self.alloc))
    }

    /// Reads the next word as bytes.
    pub fn bytes(&mut self) -> Vec<u8> {
        let read = bytes_of(self.alloc, self.word());
        self.or(read, Vec::new(self.alloc))
    }

    /// Reads the next word as a list of bytes.
    pub fn octets(&mut self) -> Octets {
        Octets::from_vec(self.bytes())
    }

    /// Reads the bytes of a text with escapes.
    pub fn escaped(&mut self, text: &str) -> Vec<u8> {
        let read = text_of(self.alloc, text);
        self.or(read, Vec::new(self.alloc))
    }

    /// Reads the next word as a text with escapes.
    pub fn text(&mut self) -> Text {
        let word = self.word();
        let read = String::from_utf8(self.escaped(word)).ok();
        Text::from_string(self.or(read, String::new(self.alloc)))
    }
}

/// Looks a word up in a table, None where it names nothing there.
pub fn look_up<T: Copy>(table: &[(&str, T)], name: &str) -> Option<T> {
    for (word, value) in table {
        if *word == name {
            return Some(*value);
        }
    }
    None
}
