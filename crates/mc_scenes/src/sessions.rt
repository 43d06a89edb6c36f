//! Sessions: `session STEP ..` answers what each step of a new one comes to, and the stage behind
//! it. `uuid NAME` answers an identifier, and `chat TEXT` the JSON of a text.

use crate::causes::{cause_in, refusal_in};
use mc_bytes::{NoMemory, Octets, Text};
use mc_model::{Name, Stage};
use mc_rows::{Answer, Words, look_up};
use mc_session::{Session, Step, chat_json, offline_uuid};
use mc_up::PlayUp;

/// A call of a session.
#[derive(Clone, Copy)]
enum Call {
    Frame,
    Crowd,
    Accept,
    Refuse,
    Fail,
}

/// The calls by their words.
const CALLS: [(&str, Call); 5] = [
    ("frame", Call::Frame),
    ("crowd", Call::Crowd),
    ("accept", Call::Accept),
    ("refuse", Call::Refuse),
    ("fail", Call::Fail),
];

/// The call that a word names.
fn call_of(name: &str) -> Option<Call> {
    look_up(&CALLS, name)
}

/// Answers the steps of a new session.
pub fn session(words: &mut Words<'_>, answer: &mut Answer) {
    let mut session = Session::new();
    for _ in 0..64 {
        if words.is_more() {
            answer.comma();
            step(&mut session, words, answer);
        }
    }
    answer.comma();
    answer.name(session.stage());
}

/// Answers a step.
fn step(session: &mut Session, words: &mut Words<'_>, answer: &mut Answer) {
    match call_of(words.word()) {
        Some(call) => answer_call(call, session, words, answer),
        None => words.fail(),
    }
}

/// Answers a call.
fn answer_call(call: Call, session: &mut Session, words: &mut Words<'_>, answer: &mut Answer) {
    match call {
        Call::Frame => frame(session, 20, 0, words, answer),
        Call::Crowd => {
            let most = words.number();
            let online = words.number();
            frame(session, most, online, words, answer);
        }
        Call::Accept => accept(session, words, answer),
        Call::Refuse => refuse(session, words, answer),
        Call::Fail => put_told(session.fail(words.alloc, &cause_in(words)), answer),
    }
}

/// Answers a frame, of a client that is not waiting for an answer.
fn frame(
    session: &mut Session,
    most: u32,
    online: u32,
    words: &mut Words<'_>,
    answer: &mut Answer,
) {
    let frame = words.bytes();
    match session.stage() {
        Stage::Asked => words.fail(),
        _ => put_answered(session.on_frame(words.alloc, &frame, most, online), answer),
    }
}

/// Puts what a frame comes to, if there was memory.
fn put_answered(answered: Result<Step, NoMemory>, answer: &mut Answer) {
    match answered {
        Ok(step) => put_step(step, answer),
        Err(NoMemory) => answer.lose(),
    }
}

/// Puts what a frame comes to.
fn put_step(step: Step, answer: &mut Answer) {
    // Dear to prove, for the packet in a step: to borrow it, or fewer calls an arm, gains nothing.
    match step {
        Step::Nothing => answer.word("nothing"),
        Step::Reply(reply) => answer.shown(reply.as_slice()),
        Step::ReplyClose(reply, cause) => {
            answer.shown(reply.as_slice());
            answer.word("closes for");
            answer.name(cause);
        }
        Step::Enter { name, protocol } => {
            answer.word("asks as");
            answer.word(name.as_str());
            answer.word("by");
            answer.word(protocol);
        }
        Step::Act(packet) => put_act(&packet, answer),
        Step::Close(cause) => {
            answer.word("closes for");
            answer.name(cause);
        }
    }
}

/// Puts what a player does.
fn put_act(packet: &PlayUp, answer: &mut Answer) {
    match packet {
        PlayUp::Chat(text) => {
            answer.word("says");
            answer.word(text.as_str());
        }
        _ => answer.word("acts"),
    }
}

/// Puts what a client is told, if there was memory.
fn put_told(told: Result<Octets, NoMemory>, answer: &mut Answer) {
    match told {
        Ok(told) => answer.shown(told.as_slice()),
        Err(NoMemory) => answer.lose(),
    }
}

/// The name that a text is. A text that is none makes the row a bad one.
pub fn name_of(text: &Text, words: &mut Words<'_>) -> Option<Name> {
    match Name::read(words.alloc, text) {
        Ok(Some(name)) => Some(name),
        _ => {
            words.fail();
            None
        }
    }
}

/// Lets a client that asked play.
fn accept(session: &mut Session, words: &mut Words<'_>, answer: &mut Answer) {
    let text = words.text();
    let Some(name) = name_of(&text, words) else {
        return;
    };
    match session.stage() {
        Stage::Asked => put_told(session.accept(words.alloc, &name), answer),
        _ => words.fail(),
    }
}

/// Does not let a client that asked play.
fn refuse(session: &mut Session, words: &mut Words<'_>, answer: &mut Answer) {
    let why = refusal_in(words);
    match session.stage() {
        Stage::Asked => put_told(session.refuse(words.alloc, why), answer),
        _ => words.fail(),
    }
}

/// Answers the identifier of a player.
pub fn uuid(words: &mut Words<'_>, answer: &mut Answer) {
    let text = words.text();
    if let Some(name) = name_of(&text, words) {
        answer.hex(&offline_uuid(&name).to_be_bytes());
    }
}

/// Answers the JSON of a text.
pub fn chat(words: &mut Words<'_>, answer: &mut Answer) {
    let text = words.text();
    match chat_json(words.alloc, text.as_str()) {
        Ok(json) => answer.shown(json.as_str().as_bytes()),
        Err(NoMemory) => answer.lose(),
    }
}
