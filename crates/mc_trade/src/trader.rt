//! A client that trades: what it says, what it was told, and what it is to be told.

use crate::acts::put_act;
use crate::answer::{Answer, answer_in};
use crate::fault::Fault;
use crate::floor::{count_lying, is_lying, lying_in};
use crate::land::{Land, count_cells};
use crate::pane::{Pane, fits};
use crate::pile::pile_in;
use crate::tally::{Tally, count};
use mc_bytes::{NoMemory, ReadFault};
use mc_down::read_down;
use mc_entities::Planned;
use mc_frame::{Splitter, Take};
use mc_packets::Down;
use mc_replica::Replica;
use mc_rows::{Words, look_up};
use mc_server::{Input, Server};
use std::alloc::Global;

/// The handshake of a client that wants to play, and its login up to the last letter of its name,
/// which has ten.
const LOGIN: &[u8] = b"\x0f\x00\x2f\x09localhost\x63\xdd\x02\x0c\x00\x0aTrader_00";

/// An answer to a beat, with a length.
const BEAT: &[u8] = &[2, 0, 0];

/// The most pieces and frames that are read at a tick.
const MOST: u32 = 100_000;

/// What a row says that a client is to be told, or was told.
#[derive(Clone, Copy)]
enum Telling {
    Sees,
    Views,
    Holds,
    Answers(bool),
    Lies,
    Finds,
}

/// The words for that: `sees WINDOW`, `views BITS` with a bit for each column, piles at places
/// (`holds PLACE PILE ..`), `yes WINDOW NUMBER`, `no WINDOW NUMBER`, how many items lie there
/// (`lies ID DAMAGE NUMBER`), and one of them (`finds ENTITY X Y Z PILE`).
const TELLINGS: [(&str, Telling); 7] = [
    ("sees", Telling::Sees),
    ("views", Telling::Views),
    ("holds", Telling::Holds),
    ("yes", Telling::Answers(true)),
    ("no", Telling::Answers(false)),
    ("lies", Telling::Lies),
    ("finds", Telling::Finds),
];

/// A client in play.
#[derive(Drop)]
pub struct Trader {
    alloc: Global,
    /// Which of the clients it is, and the number of its connection.
    pub client: u32,
    number: u32,
    /// What its packets make of its world, and which clicks were answered.
    world: Replica,
    answers: Vec<Answer>,
    /// What it is to be told.
    due: Pane,
    views: u8,
    due_answers: Vec<Answer>,
    splitter: Splitter,
    /// Whether the answer to its login came.
    is_in: bool,
    /// Whether a beat came that it did not answer.
    owes: bool,
}

/// Connects under a number, and logs in under the name of a client from 0 to 9.
pub fn log_in(
    alloc: Global,
    server: &mut Server<Planned>,
    client: u32,
    number: u32,
) -> Result<(), NoMemory> {
    let mut login = Vec::new(alloc);
    login.extend_from_slice(LOGIN)?;
    login.push(b'0' + (client % 10) as u8)?;
    server.event(Input::Join(number))?;
    server.event(Input::Bytes(number, &login))
}

impl Trader {
    /// A client that has logged in and knows nothing yet.
    pub fn new(alloc: Global, client: u32, number: u32) -> Trader {
        Trader {
            alloc,
            client,
            number,
            world: Replica::new(alloc),
            answers: Vec::new(alloc),
            due: Pane::new(),
            views: 0,
            due_answers: Vec::new(alloc),
            splitter: Splitter::new(alloc),
            is_in: false,
            owes: false,
        }
    }

    /// Leaves.
    pub fn leave(&self, server: &mut Server<Planned>) -> Result<(), NoMemory> {
        server.event(Input::Gone(self.number))
    }

    /// Takes what the next words say that it is to be told, or that it was told.
    pub fn expect(&mut self, words: &mut Words<'_>) -> Result<(), Fault> {
        match look_up(&TELLINGS, words.word()) {
            Some(Telling::Sees) => self.due.see(words.number()),
            Some(Telling::Views) => self.views = words.number(),
            Some(Telling::Holds) => self.expect_piles(words),
            Some(Telling::Answers(is_accepted)) => self.expect_answer(is_accepted, words)?,
            Some(Telling::Lies) => return self.compare_floor(words),
            Some(Telling::Finds) => return self.compare_item(words),
            None => words.fail(),
        }
        Ok(())
    }

    /// Takes what is to lie at places.
    fn expect_piles(&mut self, words: &mut Words<'_>) {
        for _ in 0..MOST {
            if !words.is_more() {
                return;
            }
            let place = words.number();
            if !self.due.put(place, pile_in(words)) {
                words.fail();
            }
        }
    }

    /// Takes how a click is to be answered.
    fn expect_answer(&mut self, is_accepted: bool, words: &mut Words<'_>) -> Result<(), NoMemory> {
        self.due_answers.push(answer_in(words, is_accepted))?;
        Ok(())
    }

    /// Compares how many items of a sort lie where it sees them.
    fn compare_floor(&self, words: &mut Words<'_>) -> Result<(), Fault> {
        let count = count_lying(&self.world, words.number(), words.number());
        if count != words.number::<u32>() {
            return Err(Fault::Told(self.client, "that other items lie there"));
        }
        Ok(())
    }

    /// Compares one that lies where it sees it.
    fn compare_item(&self, words: &mut Words<'_>) -> Result<(), Fault> {
        if !is_lying(&self.world, &lying_in(words)) {
            return Err(Fault::Told(self.client, "that another item fell"));
        }
        Ok(())
    }

    /// Does what the next words say.
    pub fn act(&self, server: &mut Server<Planned>, words: &mut Words<'_>) -> Result<(), NoMemory> {
        let mut packet = Vec::new(self.alloc);
        put_act(words, &mut packet)?;
        self.say(server, &packet)
    }

    /// Says a packet, which is shorter than 128 bytes.
    fn say(&self, server: &mut Server<Planned>, packet: &[u8]) -> Result<(), NoMemory> {
        let mut said = Vec::new(self.alloc);
        said.push(u8::try_from(packet.len()).unwrap_or(0))?;
        said.extend_from_slice(packet)?;
        server.event(Input::Bytes(self.number, &said))
    }

    /// Reads all that it is owed, and answers a beat.
    pub fn read(&mut self, server: &mut Server<Planned>, tally: &mut Tally) -> Result<(), Fault> {
        for _ in 0..MOST {
            let count = self.splitter.feed(server.front(self.number))?;
            if count == 0 {
                return self.answer(server);
            }
            server.took(self.number, count);
            self.take_frames(tally)?;
        }
        Ok(())
    }

    /// Answers a beat, where one came.
    fn answer(&mut self, server: &mut Server<Planned>) -> Result<(), Fault> {
        if self.owes {
            server.event(Input::Bytes(self.number, BEAT))?;
        }
        self.owes = false;
        Ok(())
    }

    /// Takes each frame that is whole.
    fn take_frames(&mut self, tally: &mut Tally) -> Result<(), Fault> {
        for _ in 0..MOST {
            match self.splitter.take()? {
                Take::Frame(payload) => self.take_frame(payload.as_slice(), tally)?,
                Take::More => return Ok(()),
                Take::Bad(_) => return Err(Fault::Told(self.client, "no packet")),
            }
        }
        Ok(())
    }

    /// Takes a frame into account; the first is the answer to the login.
    fn take_frame(&mut self, payload: &[u8], tally: &mut Tally) -> Result<(), Fault> {
        if !self.is_in {
            self.is_in = true;
            return Ok(());
        }
        let Ok(packet) = read_down(self.alloc, payload) else {
            return Err(Fault::Told(self.client, "no packet"));
        };
        let done = self.hear(&packet, tally);
        drop(packet);
        done
    }

    /// Takes a packet into account: a beat, an answer, or what it tells of windows and cells.
    fn hear(&mut self, packet: &Down, tally: &mut Tally) -> Result<(), Fault> {
        match packet {
            Down::KeepAlive(_) => {
                self.owes = true;
                Ok(())
            }
            Down::Confirm(window, number, is_accepted) => {
                count(&mut tally.answers);
                self.hear_answer(window.cast_unsigned(), *number, *is_accepted)?;
                Ok(())
            }
            _ => self.see(packet, tally),
        }
    }

    /// Takes a packet into account that tells of windows, cells or what lies there.
    fn see(&mut self, packet: &Down, tally: &mut Tally) -> Result<(), Fault> {
        if !fits(packet, self.world.window(), tally) {
            return Err(Fault::Told(self.client, "of a slot that is not shown"));
        }
        count_cells(packet, tally);
        match self.world.apply(packet) {
            Ok(()) => Ok(()),
            Err(ReadFault::NoMemory) => Err(Fault::NoMemory),
            Err(ReadFault::Field(_)) => Err(Fault::Told(self.client, "no packet")),
        }
    }

    /// A click was answered.
    fn hear_answer(&mut self, window: u8, number: i16, is_accepted: bool) -> Result<(), NoMemory> {
        self.answers.push(Answer {
            window,
            number,
            is_accepted,
        })?;
        Ok(())
    }

    /// Compares what it was told with what it is to be told, and with the land as it is.
    pub fn compare(&mut self, land: &Land) -> Result<(), Fault> {
        if self.answers != self.due_answers {
            return Err(Fault::Told(self.client, "other answers"));
        }
        self.answers.clear();
        self.due_answers.clear();
        if let Some(place) = self.due.differs(self.world.window()) {
            return Err(Fault::Pane(self.client, place));
        }
        if !land.is_shown(self.views, &self.world) {
            return Err(Fault::Told(self.client, "other cells"));
        }
        Ok(())
    }
}
