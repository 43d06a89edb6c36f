//! Servers: `server PLAYERS CAP TERRAIN STEP ..` works on a new one and answers what it is asked.

ghost use Rattle.std.specs.Prelude.{◌≡◌, IfSome};
ghost use Rattle.mc_events.specs.Served.{age_of};

use crate::frames::put_frames;
use crate::minds::Counted;
use crate::terrains::terrain_in;
use mc_bytes::NoMemory;
use mc_land::Terrain;
use mc_rows::{Answer, Words, look_up};
use mc_server::{Census, Input, Server, Settings};
use std::alloc::Global;

/// The most bytes that are put one by one.
const PLAIN: usize = 400;

/// A call of a server.
#[derive(Clone, Copy)]
enum Call {
    Join,
    Crowd,
    Bytes,
    Gone,
    Broke,
    Tick,
    Cause,
    Owed,
    Told,
    Took,
    Done,
    Forget,
    All,
    Age,
    Census,
}

/// The calls by their words.
const CALLS: [(&str, Call); 15] = [
    ("join", Call::Join),
    ("crowd", Call::Crowd),
    ("bytes", Call::Bytes),
    ("gone", Call::Gone),
    ("broke", Call::Broke),
    ("tick", Call::Tick),
    ("cause", Call::Cause),
    ("owed", Call::Owed),
    ("told", Call::Told),
    ("took", Call::Took),
    ("done", Call::Done),
    ("forget", Call::Forget),
    ("all", Call::All),
    ("age", Call::Age),
    ("census", Call::Census),
];

/// The call that a word names.
fn call_of(name: &str) -> Option<Call> {
    look_up(&CALLS, name)
}

/// A new server with these minds, at most 50 players and a view of 2 to 8. None where the numbers are
/// not such, or there is no memory.
pub fn new_server(
    alloc: Global,
    players: u32,
    cap: u8,
    terrain: Terrain,
    minds: Vec<Counted>,
) -> Option<Server<Counted>>
    ensures { IfSome result (λ server. age_of server.inner ≡ 0) }
{
    if players < 1 || players > 50 || cap < 2 || cap > 8 {
        return None;
    }
    let settings = Settings {
        players,
        cap,
        terrain,
    };
    Server::new(alloc, settings, minds).ok()
}

/// Answers the steps of a new server without mobs.
pub fn server(words: &mut Words<'_>, answer: &mut Answer) {
    let minds = Vec::new(words.alloc);
    serve(minds, words, answer);
}

/// Answers the steps of a new server with these minds.
pub fn serve(minds: Vec<Counted>, words: &mut Words<'_>, answer: &mut Answer) {
    let players = words.number();
    let cap = words.number();
    match new_server(words.alloc, players, cap, terrain_in(words), minds) {
        Some(mut server) => {
            steps(&mut server, words, answer);
            drop(server);
        }
        None => words.fail(),
    }
}

/// Answers the steps of a server.
fn steps(server: &mut Server<Counted>, words: &mut Words<'_>, answer: &mut Answer) {
    for _ in 0..200 {
        if words.is_more() {
            step(server, words, answer);
        }
    }
}

/// Answers a step.
fn step(server: &mut Server<Counted>, words: &mut Words<'_>, answer: &mut Answer) {
    match call_of(words.word()) {
        Some(call) => answer_call(call, server, words, answer),
        None => words.fail(),
    }
}

/// Answers a call.
fn answer_call(
    call: Call,
    server: &mut Server<Counted>,
    words: &mut Words<'_>,
    answer: &mut Answer,
) {
    // Dear to prove, for fifteen arms over a server that is lent.
    match call {
        Call::Join => answer.needs(server.event(Input::Join(words.number()))),
        Call::Crowd => answer.needs(crowd(words, server)),
        Call::Bytes => bytes(server, words, answer),
        Call::Gone => answer.needs(server.event(Input::Gone(words.number()))),
        Call::Broke => answer.needs(server.event(Input::Broke(words.number()))),
        Call::Tick => answer.needs(ticks(server, words.number())),
        Call::Cause => put_cause(server, words.number(), answer),
        Call::Owed => put_owed(server, words, answer),
        Call::Told => put_told(server, words, answer),
        Call::Took => took(server, words.number(), words.number()),
        Call::Done => put_answer(server.done(words.number()), answer),
        Call::Forget => server.forget(words.number()),
        Call::All => put_all(server, answer),
        Call::Age => put_answer(server.age(), answer),
        Call::Census => put_census(&server.census(), answer),
    }
}

/// Puts an answer.
fn put_answer<T: std::fmt::Display + Drop>(value: T, answer: &mut Answer) {
    answer.comma();
    answer.word(value);
}

/// Puts how much there is.
fn put_census(census: &Census, answer: &mut Answer) {
    put_answer(census.edits, answer);
    answer.word(census.stock);
}

/// The handshake of a client that wants to play, and what stands before a name of ten letters in
/// its login.
const LOGIN: &[u8] = b"\x0f\x00\x2f\x09localhost\x63\xdd\x02\x0c\x00\x0a";

/// So many connections, from a number on, join one after another, log in under names of their own
/// (`N` and nine digits of the number) and go.
fn crowd(words: &mut Words<'_>, server: &mut Server<Counted>) -> Result<(), NoMemory> {
    let first = words.number::<u32>();
    for i in 0..words.number::<u32>() {
        come_and_go(words.alloc, server, first.saturating_add(i))?;
    }
    Ok(())
}

/// A connection joins, logs in and goes.
fn come_and_go(alloc: Global, server: &mut Server<Counted>, k: u32) -> Result<(), NoMemory> {
    let login = login_of(alloc, k)?;
    server.event(Input::Join(k))?;
    server.event(Input::Bytes(k, &login))?;
    server.event(Input::Gone(k))?;
    server.forget(k);
    Ok(())
}

/// The login under the name of a number.
fn login_of(alloc: Global, k: u32) -> Result<Vec<u8>, NoMemory> {
    let mut login = Vec::new(alloc);
    login.extend_from_slice(LOGIN)?;
    login.push(b'N')?;
    for place in 0..9u32 {
        let front = k.checked_div(10u32.pow(8 - place)).unwrap_or(0);
        login.push(b'0' + (front % 10) as u8)?;
    }
    Ok(login)
}

/// Bytes of a connection come.
fn bytes(server: &mut Server<Counted>, words: &mut Words<'_>, answer: &mut Answer) {
    let k = words.number();
    let bytes = words.bytes();
    answer.needs(server.event(Input::Bytes(k, &bytes)));
}

/// So many ticks come.
pub fn ticks(server: &mut Server<Counted>, count: u32) -> Result<(), NoMemory> {
    for _ in 0..count {
        if server.age() >= 1_000_000_000 {
            return Err(NoMemory);
        }
        server.event(Input::Tick)?;
    }
    Ok(())
}

/// Puts why a connection was closed.
fn put_cause(server: &Server<Counted>, k: u32, answer: &mut Answer) {
    answer.comma();
    match server.cause(k) {
        Some(cause) => answer.name(*cause),
        None => answer.word("none"),
    }
}

/// Puts the numbers of the connections.
fn put_all(server: &Server<Counted>, answer: &mut Answer) {
    answer.comma();
    answer.word("all");
    for k in server.connections() {
        answer.word(*k);
    }
}

/// Takes what a connection is owed, at most so many bytes at a time.
pub fn taken(
    alloc: Global,
    server: &mut Server<Counted>,
    k: u32,
    most: usize,
) -> Result<Vec<u8>, NoMemory> {
    let mut all = Vec::new(alloc);
    for _ in 0..100_000_000u32 {
        let front = server.front(k);
        let count = front.len().min(most);
        if count == 0 {
            return Ok(all);
        }
        all.extend_from_slice(front.get(..count).unwrap_or(&[]))?;
        server.took(k, count);
    }
    Ok(all)
}

/// Takes what a connection is owed, at most so many bytes at a time, and puts it, or how many bytes
/// it has.
fn put_owed(server: &mut Server<Counted>, words: &mut Words<'_>, answer: &mut Answer) {
    let k = words.number();
    answer.comma();
    match taken(words.alloc, server, k, words.number()) {
        Ok(owed) if owed.len() <= PLAIN => answer.shown(&owed),
        Ok(owed) => {
            answer.word(owed.len());
            answer.word("bytes");
        }
        Err(NoMemory) => answer.lose(),
    }
}

/// Takes what a connection is owed, and puts its frames.
fn put_told(server: &mut Server<Counted>, words: &mut Words<'_>, answer: &mut Answer) {
    let k = words.number();
    answer.comma();
    match taken(words.alloc, server, k, usize::MAX) {
        Ok(owed) if owed.is_empty() => answer.word("nothing"),
        Ok(owed) => put_frames(&owed, answer),
        Err(NoMemory) => answer.lose(),
    }
}

/// A connection takes the first bytes of what it is owed next, at most so many.
fn took(server: &mut Server<Counted>, k: u32, most: usize) {
    let count = server.front(k).len().min(most);
    server.took(k, count);
}
