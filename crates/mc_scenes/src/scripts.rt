//! Scripts: `script TEXT` reads one and answers its events as lines, how many they are where they
//! are more than ten, or the line and the kind of its first fault.

use mc_rows::{Answer, Hex, Words};
use mc_top::{Script, ScriptError, ScriptEvent};

/// Reads a script.
pub fn script(words: &mut Words<'_>, answer: &mut Answer) {
    let rest = words.rest();
    let text = words.escaped(rest.strip_prefix("< ").unwrap_or(""));
    match Script::read(words.alloc, &text) {
        Ok(script) => put_script(&script, answer),
        Err(ScriptError::Bad(bad)) => {
            answer.word("bad at");
            answer.word(bad.at);
            answer.name(bad.kind);
        }
        Err(ScriptError::NoMemory) => answer.lose(),
    }
}

/// Puts the events of a script.
fn put_script(script: &Script, answer: &mut Answer) {
    if script.events.len() > 10 {
        answer.word(script.events.len());
        answer.word("events");
        return;
    }
    answer.word('|');
    for event in &script.events {
        put_event(event, answer);
        answer.put('|');
    }
}

/// Puts an event as a line.
fn put_event(event: &ScriptEvent, answer: &mut Answer) {
    match event {
        ScriptEvent::Joined(connection) => put_numbered("join", *connection, answer),
        ScriptEvent::Came(connection, bytes) => {
            put_numbered("bytes", *connection, answer);
            answer.word(Hex::new(bytes.as_slice()));
        }
        ScriptEvent::Gone(connection) => put_numbered("gone", *connection, answer),
        ScriptEvent::Ticks(count) => put_numbered("tick", *count, answer),
    }
}

/// Puts a name and a number.
fn put_numbered(name: &str, number: u32, answer: &mut Answer) {
    answer.put(name);
    answer.word(number);
}
