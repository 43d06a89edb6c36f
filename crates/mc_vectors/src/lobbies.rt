//! Lobbies in memory: `lobby EVENTS TROUBLES PORT STEP ..` makes one and listens. `EVENTS` is `-`
//! or entries with commas between them: `joined=K`, `came=K:BYTES`, `left=K`, `ticked`, and those
//! that are no events, `ended`, `put=K:BYTES`, `stalled=K`, `broke=K` and `closed=K`. `TROUBLES` is
//! `steady` for a lobby without any, or `-` or some of `listen`, `next=I`, `stall=I`, `break=I` and
//! `short=I:N`. A step is `pace NAME`, `listen PORT`, `next` with room for four bytes,
//! `write K BYTES` or `close K`. The log follows.

ghost use Rattle.std.specs.Prelude.{◌≡◌, true};

use mc_bytes::Octets;
use mc_rows::{Answer, Marked, Words, look_up};
use mc_wire::{Event, Failed, Lobby, LogEntry, MemoryLobby, Pace, SteadyLobby, Trouble, Wrote};
use std::alloc::Global;

/// Makes a lobby, and puts what it answers.
pub fn lobby(words: &mut Words<'_>, answer: &mut Answer) {
    let events = entries(words, answer);
    if words.is_next("steady") {
        steady(events, words, answer);
    } else {
        let troubles = troubles(words, answer);
        troubled(events, troubles, words, answer);
    }
}

/// Makes a lobby without troubles.
fn steady(events: Vec<LogEntry>, words: &mut Words<'_>, answer: &mut Answer) {
    match SteadyLobby::new(words.alloc, events) {
        Some(mut lobby) => {
            listen(&mut lobby, words, answer);
            put_log(lobby.log(), answer);
            drop(lobby);
        }
        None => answer.word("none"),
    }
}

/// Makes a lobby with troubles.
fn troubled(
    events: Vec<LogEntry>,
    troubles: Vec<Trouble>,
    words: &mut Words<'_>,
    answer: &mut Answer,
) {
    match MemoryLobby::new(words.alloc, events, troubles) {
        Some(mut lobby) => {
            listen(&mut lobby, words, answer);
            put_log(lobby.log(), answer);
            drop(lobby);
        }
        None => answer.word("none"),
    }
}

/// The entries of the next word.
fn entries(words: &mut Words<'_>, answer: &mut Answer) -> Vec<LogEntry> {
    let mut entries = Vec::new(words.alloc);
    for text in words.word().split(',') {
        if text != "-" {
            push_entry(&mut entries, text, words, answer);
        }
    }
    entries
}

/// Appends the entry that a text names.
fn push_entry(entries: &mut Vec<LogEntry>, text: &str, words: &mut Words<'_>, answer: &mut Answer) {
    match entry_of(words.alloc, text) {
        Some(entry) => answer.needs(entries.push(entry)),
        None => words.fail(),
    }
}

/// The entry that a text names.
fn entry_of(alloc: Global, text: &str) -> Option<LogEntry> {
    let (name, rest) = text.split_once('=').unwrap_or((text, "0"));
    let (number, bytes) = rest.split_once(':').unwrap_or((rest, "-"));
    let k = number.parse::<u32>().ok()?;
    match name {
        "joined" => Some(LogEntry::Joined(k)),
        "came" => Some(LogEntry::Came(k, octets_of(alloc, bytes)?)),
        "left" => Some(LogEntry::Left(k)),
        "ticked" => Some(LogEntry::Ticked),
        "ended" => Some(LogEntry::Ended),
        "put" => Some(LogEntry::Put(k, octets_of(alloc, bytes)?)),
        "stalled" => Some(LogEntry::Stalled(k)),
        "broke" => Some(LogEntry::Broke(k)),
        "closed" => Some(LogEntry::Closed(k)),
        _ => None,
    }
}

/// The bytes that a text names.
fn octets_of(alloc: Global, text: &str) -> Option<Octets> {
    let marked = Marked::parse(alloc, text)?;
    Some(Octets::from_vec(marked.bytes))
}

/// The troubles of the next word.
fn troubles(words: &mut Words<'_>, answer: &mut Answer) -> Vec<Trouble> {
    let mut troubles = Vec::new(words.alloc);
    for text in words.word().split(',') {
        match trouble_of(text) {
            Some(trouble) => answer.needs(troubles.push(trouble)),
            None if text == "-" => {}
            None => words.fail(),
        }
    }
    troubles
}

/// The trouble that a text names.
fn trouble_of(text: &str) -> Option<Trouble> {
    let (name, rest) = text.split_once('=').unwrap_or((text, "0"));
    let (number, count) = rest.split_once(':').unwrap_or((rest, "0"));
    let i = number.parse::<u64>().ok()?;
    let n = count.parse::<usize>().ok()?;
    match name {
        "listen" => Some(Trouble::FailListen),
        "next" => Some(Trouble::FailNext(i)),
        "stall" => Some(Trouble::StallWrite(i)),
        "break" => Some(Trouble::BreakWrite(i)),
        "short" => Some(Trouble::ShortWrite(i, n)),
        _ => None,
    }
}

/// Listens, and where that does not fail goes on with the steps.
fn listen<L: Lobby>(lobby: &mut L, words: &mut Words<'_>, answer: &mut Answer) {
    match lobby.listen(words.number()) {
        Ok(()) => {
            answer.word("listens");
            steps(lobby, words, answer);
        }
        Err(Failed) => answer.word("failed"),
    }
}

/// Makes as many calls as there are steps.
fn steps<L: Lobby>(lobby: &mut L, words: &mut Words<'_>, answer: &mut Answer)
    requires { L.listens lobby.old ≡ true }
{
    for _ in 0..64 {
        if words.is_more() {
            answer.comma();
            make_call(lobby, words, answer);
        }
    }
}

/// A call of a lobby that listens.
#[derive(Clone, Copy)]
enum LobbyCall {
    Pace,
    Listen,
    Next,
    Write,
    Close,
}

/// The calls of a lobby by their words.
const LOBBY_CALLS: [(&str, LobbyCall); 5] = [
    ("pace", LobbyCall::Pace),
    ("listen", LobbyCall::Listen),
    ("next", LobbyCall::Next),
    ("write", LobbyCall::Write),
    ("close", LobbyCall::Close),
];

/// The call that a word names.
fn lobby_call_of(word: &str) -> Option<LobbyCall> {
    look_up(&LOBBY_CALLS, word)
}

/// Makes a call, and puts what it answers.
fn make_call<L: Lobby>(lobby: &mut L, words: &mut Words<'_>, answer: &mut Answer)
    requires { L.listens lobby.old ≡ true }
    ensures { L.listens lobby.new ≡ true }
{
    let Some(call) = lobby_call_of(words.word()) else {
        return words.fail();
    };
    match call {
        LobbyCall::Pace => pace(lobby, words, answer),
        LobbyCall::Listen => listen_again(lobby, words, answer),
        LobbyCall::Next => next(lobby, answer),
        LobbyCall::Write => write(lobby, words, answer),
        LobbyCall::Close => {
            lobby.close(words.number());
            answer.word("closed");
        }
    }
}

/// Tells it a pace.
fn pace<L: Lobby>(lobby: &mut L, words: &mut Words<'_>, answer: &mut Answer)
    requires { L.listens lobby.old ≡ true }
    ensures { L.listens lobby.new ≡ true }
{
    let pace = if words.is_next("clock") {
        Pace::Clock
    } else {
        words.skip("turns");
        Pace::Turns
    };
    lobby.pace(pace);
    answer.word("paced");
}

/// Listens once more.
fn listen_again<L: Lobby>(lobby: &mut L, words: &mut Words<'_>, answer: &mut Answer)
    requires { L.listens lobby.old ≡ true }
    ensures { L.listens lobby.new ≡ true }
{
    match lobby.listen(words.number()) {
        Ok(()) => answer.word("listens"),
        Err(Failed) => answer.word("failed"),
    }
}

/// Asks for what comes next.
fn next<L: Lobby>(lobby: &mut L, answer: &mut Answer)
    requires { L.listens lobby.old ≡ true }
    ensures { L.listens lobby.new ≡ true }
{
    let mut room = [0; 4];
    match lobby.next(&mut room) {
        Ok(event) => put_event(event, &room, answer),
        Err(Failed) => answer.word("failed"),
    }
}

/// Writes a piece.
fn write<L: Lobby>(lobby: &mut L, words: &mut Words<'_>, answer: &mut Answer)
    requires { L.listens lobby.old ≡ true }
    ensures { L.listens lobby.new ≡ true }
{
    let k = words.number();
    let piece = words.bytes();
    if piece.is_empty() {
        return words.fail();
    }
    match lobby.write(k, &piece) {
        Wrote::Took(count) => {
            answer.word("took");
            answer.word(count);
        }
        Wrote::Stalled => answer.word("stalled"),
        Wrote::Broken => answer.word("broken"),
    }
}

/// Puts a name and the number of a connection.
fn put_named(name: &str, k: u32, answer: &mut Answer) {
    answer.word(name);
    answer.word(k);
}

/// Puts an event, and the bytes that came.
fn put_event(event: Event, room: &[u8], answer: &mut Answer) {
    match event {
        Event::Join(k) => put_named("join", k, answer),
        Event::Bytes(k, count) => {
            put_named("bytes", k, answer);
            answer.bytes(room.get(..count).unwrap_or(&[]));
        }
        Event::Gone(k) => put_named("gone", k, answer),
        Event::Tick => answer.word("tick"),
        Event::End => answer.word("end"),
    }
}

/// Puts the log, where it is told.
fn put_log(log: Option<&[LogEntry]>, answer: &mut Answer) {
    answer.comma();
    answer.word("log");
    match log {
        Some(entries) => {
            for entry in entries {
                put_entry(entry, answer);
            }
        }
        None => answer.word("untold"),
    }
}

/// Puts an entry.
fn put_entry(entry: &LogEntry, answer: &mut Answer) {
    match entry {
        LogEntry::Joined(k) => put_named("joined", *k, answer),
        LogEntry::Came(k, bytes) => {
            put_named("came", *k, answer);
            answer.bytes(bytes.as_slice());
        }
        LogEntry::Left(k) => put_named("left", *k, answer),
        LogEntry::Ticked => answer.word("ticked"),
        LogEntry::Ended => answer.word("ended"),
        LogEntry::Put(k, bytes) => {
            put_named("put", *k, answer);
            answer.bytes(bytes.as_slice());
        }
        LogEntry::Stalled(k) => put_named("stalled", *k, answer),
        LogEntry::Broke(k) => put_named("broke", *k, answer),
        LogEntry::Closed(k) => put_named("closed", *k, answer),
    }
}
