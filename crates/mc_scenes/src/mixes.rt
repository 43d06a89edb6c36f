//! Two clients at once: `mixes HELLO FIRST SECOND TOLD TOLD` gives the bytes of two names of five
//! bytes one by one, mixed in each of the 252 ways, behind a handshake of both, to `replay`. It
//! answers how many mixes that the second client ends, and how many that the first ends, tell the
//! first and then the second or the other way round, as the last byte of a name has its client
//! told; and how many tell anything else.

use mc_entities::Planned;
use mc_rows::{Answer, Words};
use mc_top::run;
use mc_wire::{MemorySink, MemorySource, SteadyLink, SteadyLobby};
use std::alloc::Global;
use std::fmt;
use std::fmt::{Display, Write};

/// What two clients say, and what each is told then.
#[derive(Clone, Copy)]
struct Pair<'a> {
    hello: &'a str,
    first: &'a [u8],
    second: &'a [u8],
    first_told: &'a str,
    second_told: &'a str,
}

/// How many mixes ended in each way.
#[derive(Clone, Copy)]
struct Tally {
    by_second: u32,
    by_first: u32,
    others: u32,
}

impl Display for Tally {
    fn fmt<W: fmt::Write>(&self, f: &mut fmt::Formatter<W>) -> fmt::Result {
        write!(f, "{} by the second", self.by_second)?;
        write!(f, ", {} by the first", self.by_first)?;
        write!(f, ", {} others", self.others)
    }
}

/// The script of two clients whose names come a byte at a time: the next bit of the pattern, the
/// lowest first, is 1 where the next byte is the second client's.
fn script_of(alloc: Global, pair: &Pair<'_>, pattern: u32) -> Option<String> {
    // Dear to prove, for exits from a loop over two iterators.
    let hello = pair.hello;
    let mut script = String::new(alloc);
    write!(script, "join 0\njoin 1\nbytes 0 {hello}\nbytes 1 {hello}\n").ok()?;
    let mut firsts = pair.first.iter();
    let mut seconds = pair.second.iter();
    let mut rest = pattern;
    for _ in 0..10 {
        if rest % 2 == 1 {
            put_byte(1, seconds.next()?, &mut script)?;
        } else {
            put_byte(0, firsts.next()?, &mut script)?;
        }
        rest /= 2;
    }
    Some(script)
}

/// Puts a line of one byte of a client.
fn put_byte(k: u32, byte: &u8, script: &mut String) -> Option<()> {
    write!(script, "bytes {k} {byte:02x}\n").ok()
}

/// What `replay` writes of a script.
fn replayed(alloc: Global, script: String) -> Option<Vec<u8>> {
    // Dear to prove, for exits with a lobby, a link, a source and a sink that are owned.
    let mut line = Vec::new(alloc);
    line.push(String::from_str(alloc, "replay").ok()?).ok()?;
    let minds: Vec<Planned> = Vec::new(alloc);
    let mut lobby = SteadyLobby::new(alloc, Vec::new(alloc))?;
    let mut link = SteadyLink::new(alloc, Vec::new(alloc));
    let mut source = MemorySource::new(script.into_bytes(), Vec::new(alloc));
    let mut sink = MemorySink::new(alloc, Vec::new(alloc));
    let _status = run(
        alloc,
        &line,
        &mut lobby,
        &mut link,
        &mut source,
        &mut sink,
        minds,
    );
    Vec::from_slice(alloc, sink.held()?).ok()
}

/// What is written where the second client is told last, or first.
fn wanted(alloc: Global, pair: &Pair<'_>, second_is_last: bool) -> Option<String> {
    let first = pair.first_told;
    let second = pair.second_told;
    let mut text = String::new(alloc);
    if second_is_last {
        write!(text, "sent 0 {first}\nsent 1 {second}\n").ok()?;
    } else {
        write!(text, "sent 1 {second}\nsent 0 {first}\n").ok()?;
    }
    Some(text)
}

/// Whether what is written of a mix is what is wanted.
fn is_wanted(alloc: Global, pair: &Pair<'_>, pattern: u32) -> Option<bool> {
    let written = replayed(alloc, script_of(alloc, pair, pattern)?)?;
    let wanted = wanted(alloc, pair, pattern >= 512)?;
    Some(written.as_slice() == wanted.as_bytes())
}

/// Counts a mix.
fn count(alloc: Global, pair: &Pair<'_>, pattern: u32, tally: &mut Tally) {
    let is_wanted = is_wanted(alloc, pair, pattern) == Some(true);
    if !is_wanted {
        tally.others = tally.others.saturating_add(1);
    } else if pattern >= 512 {
        tally.by_second = tally.by_second.saturating_add(1);
    } else {
        tally.by_first = tally.by_first.saturating_add(1);
    }
}

/// Counts the mixes of five bytes and five others.
fn tally_of(alloc: Global, pair: &Pair<'_>) -> Tally {
    let mut tally = Tally {
        by_second: 0,
        by_first: 0,
        others: 0,
    };
    for pattern in 0..1024u32 {
        if pattern.count_ones() == 5 {
            count(alloc, pair, pattern, &mut tally);
        }
    }
    tally
}

/// Mixes the bytes of two clients in every way.
pub fn mixes(words: &mut Words<'_>, answer: &mut Answer) {
    let hello = words.word();
    let first = words.bytes();
    let second = words.bytes();
    let pair = Pair {
        hello,
        first: &first,
        second: &second,
        first_told: words.word(),
        second_told: words.word(),
    };
    answer.word(tally_of(words.alloc, &pair));
}
