//! Commands: `run ARGUMENT .. < TEXT` runs the program with these arguments over a text and answers
//! the status and what was written; in `failing READS WRITES ARGUMENT .. < TEXT` the calls of the
//! input and of the output with these numbers fail. Their lobby has no events. `lobby EVENTS
//! TROUBLES WRITES ARGUMENT ..` runs it over such a lobby and no text, and answers its log, too;
//! `bot BYTES TROUBLES WRITES ARGUMENT .. < TEXT` runs it over such a link and a text, and answers
//! what the link took, too. A line of more than a thousand bytes is put frame by frame.

use crate::frames::put_frames;
use crate::links::{empty_link, link_in, put_taken};
use crate::lobbies::{lobby_in, put_log};
use crate::minds::Counted;
use mc_rows::{Answer, Shown, Words, text_of};
use mc_top::run;
use mc_wire::{MemoryLink, MemoryLobby, MemorySink, MemorySource};
use std::alloc::Global;

/// The most bytes of a line that is put as it is.
const PLAIN: usize = 1000;

/// The numbers of the next word, which is `-` where there are none.
fn numbers(words: &mut Words<'_>, answer: &mut Answer) -> Vec<u64> {
    let mut numbers = Vec::new(words.alloc);
    for number in words.word().split(',') {
        if let Ok(number) = number.parse::<u64>() {
            answer.needs(numbers.push(number));
        }
    }
    numbers
}

/// An argument, which is a word of the row with escapes.
fn argument_of(alloc: Global, word: &str) -> Option<String> {
    String::from_utf8(text_of(alloc, word)?).ok()
}

/// The arguments that the words of a row are.
fn arguments_of(alloc: Global, words: &str) -> Option<Vec<String>> {
    let mut arguments = Vec::new(alloc);
    if words.is_empty() {
        return Some(arguments);
    }
    for word in words.split(' ') {
        arguments.push(argument_of(alloc, word)?).ok()?;
    }
    Some(arguments)
}

/// The arguments of a run, and the text behind them.
#[derive(Drop)]
struct Job {
    arguments: Vec<String>,
    text: Vec<u8>,
}

/// What is left of a row as arguments and a text.
fn job_of(alloc: Global, row: &str) -> Option<Job> {
    let (front, text) = row.split_once('<')?;
    let arguments = arguments_of(alloc, front.trim_end_matches(' '))?;
    let text = text_of(alloc, text.strip_prefix(' ').unwrap_or(text))?;
    Some(Job { arguments, text })
}

/// Runs the program with the arguments of a row over its text.
pub fn run_steady(words: &mut Words<'_>, answer: &mut Answer) {
    let minds = Vec::new(words.alloc);
    run_with(minds, words, answer);
}

/// Runs the program with these minds and the arguments of a row over its text.
pub fn run_with(minds: Vec<Counted>, words: &mut Words<'_>, answer: &mut Answer) {
    let none = Vec::new(words.alloc);
    let none_either = Vec::new(words.alloc);
    run_over(minds, none, none_either, words, answer);
}

/// Runs the program with the arguments of a row over its text, with devices that fail.
pub fn run_failing(words: &mut Words<'_>, answer: &mut Answer) {
    let reads = numbers(words, answer);
    let writes = numbers(words, answer);
    let minds = Vec::new(words.alloc);
    run_over(minds, reads, writes, words, answer);
}

/// Runs what is left of a row over a lobby without events, with devices whose calls of these
/// numbers fail.
fn run_over(
    minds: Vec<Counted>,
    reads: Vec<u64>,
    writes: Vec<u64>,
    words: &mut Words<'_>,
    answer: &mut Answer,
) {
    let job = job_of(words.alloc, words.rest());
    let lobby = MemoryLobby::new(words.alloc, Vec::new(words.alloc), Vec::new(words.alloc));
    match job.zip(lobby) {
        Some((job, mut lobby)) => {
            let mut link = empty_link(words.alloc);
            run_job(job, &mut lobby, &mut link, minds, reads, writes, answer);
            drop(link);
            drop(lobby);
        }
        None => {
            drop(minds);
            words.fail();
        }
    }
}

/// Runs the program with the arguments of a row over its lobby.
pub fn run_lobby(words: &mut Words<'_>, answer: &mut Answer) {
    let lobby = lobby_in(words, answer);
    let writes = numbers(words, answer);
    let arguments = arguments_of(words.alloc, words.rest());
    match arguments.zip(lobby) {
        Some((arguments, mut lobby)) => {
            let text = Vec::new(words.alloc);
            let reads = Vec::new(words.alloc);
            let minds = Vec::new(words.alloc);
            let job = Job { arguments, text };
            let mut link = empty_link(words.alloc);
            run_job(job, &mut lobby, &mut link, minds, reads, writes, answer);
            put_log(lobby.log(), answer);
            drop(link);
            drop(lobby);
        }
        None => words.fail(),
    }
}

/// Runs the program with the arguments of a row over its link and its text.
pub fn run_bot(words: &mut Words<'_>, answer: &mut Answer) {
    let mut link = link_in(words, answer);
    let writes = numbers(words, answer);
    let job = job_of(words.alloc, words.rest());
    let lobby = MemoryLobby::new(words.alloc, Vec::new(words.alloc), Vec::new(words.alloc));
    match job.zip(lobby) {
        Some((job, mut lobby)) => {
            let reads = Vec::new(words.alloc);
            let minds = Vec::new(words.alloc);
            run_job(job, &mut lobby, &mut link, minds, reads, writes, answer);
            put_taken(link.took(), answer);
            drop(lobby);
        }
        None => words.fail(),
    }
    drop(link);
}

/// Runs the program with some arguments over a lobby, a link and a text.
fn run_job(
    job: Job,
    lobby: &mut MemoryLobby,
    link: &mut MemoryLink,
    minds: Vec<Counted>,
    reads: Vec<u64>,
    writes: Vec<u64>,
    answer: &mut Answer,
) {
    let Job { arguments, text } = job;
    let alloc = answer.alloc();
    let mut source = MemorySource::new(text, reads);
    let mut sink = MemorySink::new(alloc, writes);
    answer.word(run(
        alloc,
        &arguments,
        lobby,
        link,
        &mut source,
        &mut sink,
        minds,
    ));
    put_output(sink.held(), answer);
    drop(sink);
    drop(source);
    drop(arguments);
}

/// Puts what was written, where the device tells it.
fn put_output(held: Option<&[u8]>, answer: &mut Answer) {
    match held {
        None => answer.word("untold"),
        Some([]) => answer.word("-"),
        Some(text) => put_lines(text, answer),
    }
}

/// Puts the lines of a text, each with its end.
fn put_lines(text: &[u8], answer: &mut Answer) {
    answer.word("");
    for line in text.split_inclusive(|byte| *byte == b'\n') {
        if line.len() <= PLAIN {
            answer.put(Shown::new(line));
        } else {
            put_long(line, answer);
        }
    }
}

/// Puts a long line: its two words, and then its frames.
fn put_long(line: &[u8], answer: &mut Answer) {
    match sent_of(answer.alloc(), line) {
        Some((front, bytes)) => {
            answer.put(Shown::new(front));
            put_frames(&bytes, answer);
            answer.put('|');
        }
        None => answer.put("a long line|"),
    }
}

/// What stands before the digits of a line, and the bytes that the digits are.
fn sent_of(alloc: Global, line: &[u8]) -> Option<(&[u8], Vec<u8>)> {
    // Dear to prove, for five exits.
    let at = line.iter().rposition(|byte| *byte == b' ')?;
    let (front, digits) = line.split_at_checked(at)?;
    let digits = digits.strip_prefix(b" ".as_slice())?;
    let digits = digits.strip_suffix(b"\n".as_slice())?;
    Some((front, hex::decode(alloc, digits).ok()?))
}
