//! Links in memory: `link BYTES TROUBLES PORT STEP ..` makes one and connects. `TROUBLES` is
//! `steady` for a link without any, or `-` or some of `connect`, `read=I`, `write=I` and `quiet=I`.
//! A step is `read` into four bytes, which are put whole, `write BYTES` or `connect PORT`. What it
//! took follows.

ghost use Rattle.std.specs.Prelude.{◌≡◌, true};

use mc_rows::{Answer, Words, look_up};
use mc_wire::{Failed, Got, Link, LinkTrouble, MemoryLink, SteadyLink};

/// Makes a link, and puts what it answers.
pub fn link(words: &mut Words<'_>, answer: &mut Answer) {
    let bytes = words.bytes();
    if words.is_next("steady") {
        let mut link = SteadyLink::new(words.alloc, bytes);
        connect(&mut link, words, answer);
        put_taken(link.took(), answer);
        drop(link);
    } else {
        let troubles = troubles(words, answer);
        let mut link = MemoryLink::new(words.alloc, bytes, troubles);
        connect(&mut link, words, answer);
        put_taken(link.took(), answer);
        drop(link);
    }
}

/// The troubles of the next word.
fn troubles(words: &mut Words<'_>, answer: &mut Answer) -> Vec<LinkTrouble> {
    let mut troubles = Vec::new(words.alloc);
    for text in words.word().split(',') {
        match trouble_of(text) {
            Some(trouble) => answer.needs(troubles.push(trouble)),
            None if text == "-" => {}
            None => words.fail(),
        }
    }
    troubles
}

/// The trouble that a text names.
fn trouble_of(text: &str) -> Option<LinkTrouble> {
    let (name, rest) = text.split_once('=').unwrap_or((text, "0"));
    let i = rest.parse::<u64>().ok()?;
    match name {
        "connect" => Some(LinkTrouble::FailConnect),
        "read" => Some(LinkTrouble::FailRead(i)),
        "write" => Some(LinkTrouble::FailWrite(i)),
        "quiet" => Some(LinkTrouble::QuietRead(i)),
        _ => None,
    }
}

/// Connects, and where that does not fail goes on with the steps.
fn connect<K: Link>(link: &mut K, words: &mut Words<'_>, answer: &mut Answer) {
    match link.connect(words.number()) {
        Ok(()) => {
            answer.word("connected");
            steps(link, words, answer);
        }
        Err(Failed) => answer.word("failed"),
    }
}

/// Makes as many calls as there are steps.
fn steps<K: Link>(link: &mut K, words: &mut Words<'_>, answer: &mut Answer)
    requires { (K.stage link.old).connected ≡ true }
{
    for _ in 0..64 {
        if words.is_more() {
            answer.comma();
            make_call(link, words, answer);
        }
    }
}

/// A call of a link that is connected.
#[derive(Clone, Copy)]
enum LinkCall {
    Read,
    Write,
    Connect,
}

/// The calls of a link by their words.
const LINK_CALLS: [(&str, LinkCall); 3] = [
    ("read", LinkCall::Read),
    ("write", LinkCall::Write),
    ("connect", LinkCall::Connect),
];

/// The call that a word names.
fn link_call_of(word: &str) -> Option<LinkCall> {
    look_up(&LINK_CALLS, word)
}

/// Makes a call, and puts what it answers.
fn make_call<K: Link>(link: &mut K, words: &mut Words<'_>, answer: &mut Answer)
    requires { (K.stage link.old).connected ≡ true }
    ensures { (K.stage link.new).connected ≡ true }
{
    let Some(call) = link_call_of(words.word()) else {
        return words.fail();
    };
    match call {
        LinkCall::Read => read(link, answer),
        LinkCall::Write => write(link, words, answer),
        LinkCall::Connect => connect_again(link, words, answer),
    }
}

/// Reads into four bytes.
fn read<K: Link>(link: &mut K, answer: &mut Answer)
    requires { (K.stage link.old).connected ≡ true }
    ensures { (K.stage link.new).connected ≡ true }
{
    let mut room = [0; 4];
    match link.read(&mut room) {
        Ok(Got::Bytes(count)) => {
            answer.word("bytes");
            answer.word(count);
        }
        Ok(Got::End) => answer.word("end"),
        Ok(Got::Quiet) => answer.word("quiet"),
        Err(Failed) => answer.word("failed"),
    }
    answer.bytes(&room);
}

/// Writes a piece.
fn write<K: Link>(link: &mut K, words: &mut Words<'_>, answer: &mut Answer)
    requires { (K.stage link.old).connected ≡ true }
    ensures { (K.stage link.new).connected ≡ true }
{
    let piece = words.bytes();
    if piece.is_empty() {
        return words.fail();
    }
    match link.write(&piece) {
        Ok(count) => {
            answer.word("took");
            answer.word(count);
        }
        Err(Failed) => answer.word("failed"),
    }
}

/// Connects once more.
fn connect_again<K: Link>(link: &mut K, words: &mut Words<'_>, answer: &mut Answer)
    requires { (K.stage link.old).connected ≡ true }
    ensures { (K.stage link.new).connected ≡ true }
{
    match link.connect(words.number()) {
        Ok(()) => answer.word("connected"),
        Err(Failed) => answer.word("failed"),
    }
}

/// Puts what a link took, where it tells it.
fn put_taken(taken: Option<&[u8]>, answer: &mut Answer) {
    answer.comma();
    answer.word("took");
    match taken {
        Some(bytes) => answer.bytes(bytes),
        None => answer.word("untold"),
    }
}
