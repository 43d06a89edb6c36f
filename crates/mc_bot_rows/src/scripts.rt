//! Scripts: `script < TEXT` reads one and answers its lines as they were read, with their numbers,
//! or the line and the kind of its first fault. A bar is the end of a line.

use mc_bot::{Act, Line, Script, ScriptRead};
use mc_fields::Cell;
use mc_rows::{Answer, Words};

/// Reads a script.
pub fn script(words: &mut Words<'_>, answer: &mut Answer) {
    let rest = words.rest();
    let text = words.escaped(rest.strip_prefix("< ").unwrap_or(""));
    match Script::read(words.alloc, &text) {
        Ok(script) => {
            put_script(&script, answer);
            drop(script);
        }
        Err(ScriptRead::Bad(fault)) => {
            answer.word("bad at");
            answer.word(fault.line);
            answer.name(fault.kind);
        }
        Err(ScriptRead::NoMemory) => answer.lose(),
    }
}

/// Puts a script.
fn put_script(script: &Script, answer: &mut Answer) {
    answer.word("join");
    answer.word(script.name().as_str());
    for line in script.lines() {
        put_line(line, answer);
    }
}

/// Puts a line.
fn put_line(line: &Line, answer: &mut Answer) {
    answer.comma();
    answer.word(line.number);
    match &line.act {
        Act::View(n) => put_numbers("view", &[i32::from(*n)], answer),
        Act::Move(x, y, z) => put_numbers("move", &[*x, *y, *z], answer),
        Act::Look(yaw, pitch) => {
            put_numbers("look", &[i32::from(*yaw), i32::from(*pitch)], answer);
        }
        Act::Dig(place, face) => put_place("dig", place, i32::from(*face), answer),
        Act::Place(place, face) => put_place("place", place, i32::from(*face), answer),
        Act::Until(place, state) => put_place("until", place, i32::from(*state), answer),
        Act::Expect(place, state) => put_place("expect", place, i32::from(*state), answer),
        other => put_other(other, answer),
    }
}

/// Puts what a line without a place does.
fn put_other(act: &Act, answer: &mut Answer) {
    match act {
        Act::Held(n) => put_numbers("held", &[i32::from(*n)], answer),
        Act::Drop => answer.word("drop"),
        Act::DropAll => answer.word("dropall"),
        Act::Say(text) => {
            answer.word("say");
            answer.word(text.as_str());
        }
        Act::Close => answer.word("close"),
        Act::Click(slot, button, mode) => put_numbers(
            "click",
            &[i32::from(*slot), i32::from(*button), i32::from(*mode)],
            answer,
        ),
        Act::Wait(n) => {
            answer.word("wait");
            answer.word(*n);
        }
        Act::Leave => answer.word("leave"),
        _ => answer.word("other"),
    }
}

/// Puts a name and numbers.
fn put_numbers(name: &str, numbers: &[i32], answer: &mut Answer) {
    answer.word(name);
    for number in numbers {
        answer.word(*number);
    }
}

/// Puts a name, a cell and a number.
fn put_place(name: &str, place: &Cell, number: i32, answer: &mut Answer) {
    put_numbers(name, &[place.x, place.y, place.z, number], answer);
}
