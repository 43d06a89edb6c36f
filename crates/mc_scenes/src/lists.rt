//! `list STEP ..` works on a list of players, and `place X Y Z YAW PITCH` answers the frame of a
//! player's place.

use mc_bytes::Text;
use mc_fields::Spot;
use mc_flush::{PlayerList, placing_packet, put_made};
use mc_rows::{Answer, Words, look_up};

/// A call of a list of players.
#[derive(Clone, Copy)]
enum Call {
    Enter,
    Leave,
    Settle,
    Count,
    Name,
}

/// The calls by their words.
const CALLS: [(&str, Call); 5] = [
    ("enter", Call::Enter),
    ("leave", Call::Leave),
    ("settle", Call::Settle),
    ("count", Call::Count),
    ("name", Call::Name),
];

/// The call that a word names.
fn call_of(name: &str) -> Option<Call> {
    look_up(&CALLS, name)
}

/// Answers the steps of a new list.
pub fn list(words: &mut Words<'_>, answer: &mut Answer) {
    let mut list = PlayerList::new(words.alloc);
    for _ in 0..64 {
        if words.is_more() {
            step(&mut list, words, answer);
        }
    }
}

/// Answers a step.
fn step(list: &mut PlayerList, words: &mut Words<'_>, answer: &mut Answer) {
    match call_of(words.word()) {
        Some(call) => answer_call(call, list, words, answer),
        None => words.fail(),
    }
}

/// Answers a call.
fn answer_call(call: Call, list: &mut PlayerList, words: &mut Words<'_>, answer: &mut Answer) {
    match call {
        Call::Enter => enter(list, words, answer),
        Call::Leave => put_answer(list.remove(words.number()), answer),
        Call::Settle => answer.needs(list.settle()),
        Call::Count => {
            put_answer(list.len(), answer);
            answer.word("of");
            answer.word(list.settled());
        }
        Call::Name => put_name(list.get(words.number()), answer),
    }
}

/// Puts what a call answers.
fn put_answer<T: std::fmt::Display + Drop>(value: T, answer: &mut Answer) {
    answer.comma();
    answer.word(value);
}

/// Puts a name, if there is one.
fn put_name(name: Option<&Text>, answer: &mut Answer) {
    match name {
        Some(name) => put_answer(name.as_str(), answer),
        None => put_answer("nobody", answer),
    }
}

/// A player enters who is not there.
fn enter(list: &mut PlayerList, words: &mut Words<'_>, answer: &mut Answer) {
    let uuid = words.number();
    let name = words.text();
    if list.has(uuid) {
        words.fail();
    } else {
        answer.needs(list.add(uuid, name));
    }
}

/// Answers the frame of a player's place.
pub fn place(words: &mut Words<'_>, answer: &mut Answer) {
    // Dear to prove, for five fields and the packet, one of 45 forms, that is made of them.
    let place = Spot {
        x: words.number(),
        y: words.number(),
        z: words.number(),
        yaw: words.number(),
        pitch: words.number(),
    };
    let mut frame = Vec::new(words.alloc);
    answer.needs(put_made(placing_packet(&place), &mut frame));
    answer.hex(&frame);
}
