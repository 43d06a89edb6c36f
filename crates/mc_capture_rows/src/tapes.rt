//! Taped lobbies: `taped EVENTS TROUBLES FAILS STEP ..` makes a lobby in memory that gives these
//! events, tapes it into a sink whose writes with these numbers fail, and listens. `EVENTS` is `-`
//! or entries with commas between them: `joined=K`, `came=K:BYTES`, `left=K` and `ticked`.
//! `TROUBLES` is `-` or some of `listen`, `next=I`, `stall=I`, `break=I` and `short=I:N`. A step is
//! `listen`, `next` with room for 70,000 bytes, `write K BYTES` or `close K`. What follows is
//! whether the sink is sound or broken, and what it holds.

ghost use Rattle.std.specs.Prelude.{◌≡◌, ℕ, List, Some, true, false};
ghost use Rattle.mc_wire.specs.LobbyTold.{LobbyTold};
ghost use Rattle.mc_capture.specs.declared.tape_state.TapeState.{TapeState};
ghost use Rattle.mc_capture.specs.TapedView.{mark_of};
ghost use Rattle.mc_capture.specs.TapeStart.{IsTape, IsTapeOf, start_of};

use mc_bytes::Octets;
use mc_capture::{Started, TapeState, Taped, TapedSince};
use mc_rows::{Answer, Marked, Words};
use mc_wire::{Event, Failed, Lobby, LogEntry, MemoryLobby, MemorySink, Sink, Trouble, Wrote};
use std::alloc::{AllocError, Global};
use std::marker::Brand;

/// How many bytes a step has room for.
const ROOM: usize = 70_000;

/// Tapes a lobby, and puts what its calls answer and what was written.
pub fn taped_row(words: &mut Words<'_>, answer: &mut Answer) {
    let events = entries(words, answer);
    let troubles = troubles(words, answer);
    let mut sink = MemorySink::new(words.alloc, fails(words, answer));
    match MemoryLobby::new(words.alloc, events, troubles) {
        Some(mut lobby) => {
            run(&mut lobby, &mut sink, words, answer);
            drop(lobby);
        }
        None => words.fail(),
    }
    answer.bytes(sink.held().unwrap_or(&[]));
    drop(sink);
}

/// Tapes a lobby into a sink, and makes the calls.
fn run<L: Lobby, O: Sink>(lobby: &mut L, sink: &mut O, words: &mut Words<'_>, answer: &mut Answer)
    ensures { (state : TapeState) × ((a b : LobbyTold) (xs ys : List ℕ) →
        L.told lobby.old ≡ Some a → L.told lobby.new ≡ Some b → O.held sink.old ≡ Some xs →
        O.held sink.new ≡ Some ys → IsTapeOf a b state xs ys) }
{
    let taped = run_since::<L, O, Brand>(Taped::new(lobby, sink), words, answer);
    answer.comma();
    answer.word(if taped.sink_failed() {
        "broken"
    } else {
        "sound"
    });
}

/// Listens, and where that does not fail goes on with the steps.
fn run_since<'a, L: Lobby, O: Sink, S: Started>(
    taped: Taped<'a, L, O>,
    words: &mut Words<'_>,
    answer: &mut Answer,
) -> Taped<'a, L, O>
    requires start { start_of L.told L.counts O.held O.faults taped ≡ S.start }
    requires blank { taped.state ≡ TapeState.Blank }
    requires heard { taped.heard ≡ false }
    requires own_faults { taped.own_faults ≡ 0 }
    ensures lobby { result.lobby.ghost_name ≡ taped.entry.lobby.ghost_name }
    ensures sink { result.out.ghost_name ≡ taped.entry.out.ghost_name }
    ensures tape { IsTape S.start (L.told result.lobby.now) (mark_of O.held O.faults result) }
{
    let mut since = TapedSince::<'a, L, O, S>::new(taped);
    match since.listen(25_565) {
        Ok(()) => {
            answer.word("listens");
            steps(&mut since, words, answer);
        }
        Err(Failed) => answer.word("failed"),
    }
    since.into_taped()
}

/// Makes as many calls as there are steps.
fn steps<L: Lobby>(lobby: &mut L, words: &mut Words<'_>, answer: &mut Answer)
    requires { L.listens lobby.old ≡ true }
{
    for _ in 0..64 {
        if words.is_more() {
            answer.comma();
            make_call(lobby, words, answer);
        }
    }
}

/// Makes a call, and puts what it answers.
fn make_call<L: Lobby>(lobby: &mut L, words: &mut Words<'_>, answer: &mut Answer)
    requires { L.listens lobby.old ≡ true }
    ensures { L.listens lobby.new ≡ true }
{
    match words.word() {
        "listen" => listen(lobby, answer),
        "next" => next(lobby, words, answer),
        "write" => write(lobby, words, answer),
        "close" => {
            lobby.close(words.number());
            answer.word("closed");
        }
        _ => words.fail(),
    }
}

/// Listens once more.
fn listen<L: Lobby>(lobby: &mut L, answer: &mut Answer)
    requires { L.listens lobby.old ≡ true }
    ensures { L.listens lobby.new ≡ true }
{
    match lobby.listen(25_565) {
        Ok(()) => answer.word("listens"),
        Err(Failed) => answer.word("failed"),
    }
}

/// So many zeros.
fn zeros(alloc: Global, count: usize) -> Result<Vec<u8>, AllocError> {
    vec![in alloc; 0u8; count]
}

/// Asks for what comes next.
fn next<L: Lobby>(lobby: &mut L, words: &mut Words<'_>, answer: &mut Answer)
    requires { L.listens lobby.old ≡ true }
    ensures { L.listens lobby.new ≡ true }
{
    let Ok(mut room) = zeros(words.alloc, ROOM) else {
        return answer.lose();
    };
    if room.is_empty() {
        return words.fail();
    }
    match lobby.next(&mut room) {
        Ok(event) => put_event(event, &room, answer),
        Err(Failed) => answer.word("failed"),
    }
}

/// Writes a piece.
fn write<L: Lobby>(lobby: &mut L, words: &mut Words<'_>, answer: &mut Answer)
    requires { L.listens lobby.old ≡ true }
    ensures { L.listens lobby.new ≡ true }
{
    let k = words.number();
    let piece = words.bytes();
    if piece.is_empty() {
        return words.fail();
    }
    match lobby.write(k, &piece) {
        Wrote::Took(count) => put_named("took", count as u64, answer),
        Wrote::Stalled => answer.word("stalled"),
        Wrote::Broken => answer.word("broken"),
    }
}

/// Puts a name and a number.
fn put_named(name: &str, number: u64, answer: &mut Answer) {
    answer.word(name);
    answer.word(number);
}

/// Puts an event, and the bytes that came.
fn put_event(event: Event, room: &[u8], answer: &mut Answer) {
    match event {
        Event::Join(k) => put_named("join", u64::from(k), answer),
        Event::Bytes(k, count) => {
            put_named("bytes", u64::from(k), answer);
            answer.bytes(room.get(..count).unwrap_or(&[]));
        }
        Event::Gone(k) => put_named("gone", u64::from(k), answer),
        Event::Tick => answer.word("tick"),
        Event::End => answer.word("end"),
    }
}

/// The entries of the next word.
fn entries(words: &mut Words<'_>, answer: &mut Answer) -> Vec<LogEntry> {
    let mut entries = Vec::new(words.alloc);
    for text in words.word().split(',') {
        match entry_of(words.alloc, text) {
            Some(entry) => answer.needs(entries.push(entry)),
            None if text == "-" => {}
            None => words.fail(),
        }
    }
    entries
}

/// The entry that a text names.
fn entry_of(alloc: Global, text: &str) -> Option<LogEntry> {
    let (name, rest) = text.split_once('=').unwrap_or((text, "0"));
    let (number, bytes) = rest.split_once(':').unwrap_or((rest, "-"));
    let k = number.parse::<u32>().ok()?;
    match name {
        "joined" => Some(LogEntry::Joined(k)),
        "came" => {
            let marked = Marked::parse(alloc, bytes)?;
            Some(LogEntry::Came(k, Octets::from_vec(marked.bytes)))
        }
        "left" => Some(LogEntry::Left(k)),
        "ticked" => Some(LogEntry::Ticked),
        _ => None,
    }
}

/// The troubles of the next word.
fn troubles(words: &mut Words<'_>, answer: &mut Answer) -> Vec<Trouble> {
    let mut troubles = Vec::new(words.alloc);
    for text in words.word().split(',') {
        match trouble_of(text) {
            Some(trouble) => answer.needs(troubles.push(trouble)),
            None if text == "-" => {}
            None => words.fail(),
        }
    }
    troubles
}

/// The trouble that a text names.
fn trouble_of(text: &str) -> Option<Trouble> {
    let (name, rest) = text.split_once('=').unwrap_or((text, "0"));
    let (number, count) = rest.split_once(':').unwrap_or((rest, "0"));
    let i = number.parse::<u64>().ok()?;
    let n = count.parse::<usize>().ok()?;
    match name {
        "listen" => Some(Trouble::FailListen),
        "next" => Some(Trouble::FailNext(i)),
        "stall" => Some(Trouble::StallWrite(i)),
        "break" => Some(Trouble::BreakWrite(i)),
        "short" => Some(Trouble::ShortWrite(i, n)),
        _ => None,
    }
}

/// The writes of the sink that fail, of the next word.
fn fails(words: &mut Words<'_>, answer: &mut Answer) -> Vec<u64> {
    let mut calls = Vec::new(words.alloc);
    for text in words.word().split(',') {
        match text.parse::<u64>().ok() {
            Some(call) => answer.needs(calls.push(call)),
            None if text == "-" => {}
            None => words.fail(),
        }
    }
    calls
}
