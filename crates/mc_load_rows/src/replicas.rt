//! Replicas: `replicas CLIENTS TICKS` plays a load on a server, folds what each client is sent into
//! a replica, and after each tick compares each replica with what the server says of its client. It
//! answers how many times one was compared, or the first that differs.

use crate::fault::Fault;
use crate::played::compare;
use mc_rows::{Answer, Words};

/// Compares the replicas of a load.
pub fn replicas_row(words: &mut Words<'_>, answer: &mut Answer) {
    let clients = words.number::<u32>();
    let ticks = words.number::<u32>();
    if clients == 0 || clients > 50 || ticks > 10_000 {
        return words.fail();
    }
    match compare(words.alloc, clients, ticks) {
        Ok(count) => {
            answer.word(count);
            answer.word("agree");
        }
        Err(fault) => put_fault(fault, answer),
    }
}

/// Puts why replicas were not compared to the end.
fn put_fault(fault: Fault, answer: &mut Answer) {
    match fault {
        Fault::NoMemory => answer.lose(),
        Fault::Packet(client) => put_client(client, "was sent no packet", answer),
        Fault::Gone(client) => put_client(client, "is not in play", answer),
        Fault::Differs(client, what) => {
            put_client(client, "differs in", answer);
            answer.word(what);
        }
    }
}

/// Puts what is wrong with a client.
fn put_client(client: u32, what: &str, answer: &mut Answer) {
    answer.word(client);
    answer.word(what);
}
