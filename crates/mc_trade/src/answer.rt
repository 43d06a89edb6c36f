use mc_rows::Words;

/// The answer to a click: its window and its number, and whether it was accepted.
#[derive(Clone, Copy, PartialEq, Eq)]
pub struct Answer {
    pub window: u8,
    pub number: i16,
    pub is_accepted: bool,
}

/// The answer of the next words.
pub fn answer_in(words: &mut Words<'_>, is_accepted: bool) -> Answer {
    Answer {
        window: words.number(),
        number: words.number(),
        is_accepted,
    }
}
