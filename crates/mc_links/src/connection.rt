ghost use Rattle.std.specs.Prelude.{◌≡◌, ◌↔◌, ◌<◌, ◌+◌, ◌^◌, [], List, None, Some, IfOk, OnOk};
ghost use Rattle.std.specs.Prelude.{drop, length, nat_le, take};
ghost use Rattle.std.specs.Option.{option_copied};
ghost use Rattle.mc_frame.specs.Cut.{IsPart};
ghost use Rattle.mc_frame.specs.Kept.{joined};
ghost use Rattle.mc_frame.specs.Splitting.{Feeds, Takes};
ghost use Rattle.mc_model.specs.declared.cause.Cause.TheVariants as causes;
ghost use Rattle.mc_model.specs.declared.ticks.TheConstants.{MISSED_MAX};
ghost use Rattle.mc_model.specs.Delta.{is_told};
ghost use Rattle.mc_model.specs.Names.{offline_uuid};
ghost use Rattle.mc_model.specs.Packets.{Sent, bytes_of};
ghost use Rattle.mc_model.specs.Talk.{accepted, farewell, refused, request_of};
ghost use Rattle.mc_model.specs.Stages.{is_closed, is_play};
ghost use Rattle.mc_session.specs.Answers.{next_of, step_of};
ghost use Rattle.mc_model.specs.Link.{disconnect, gone, hand, is_done, is_kept, mark_closed};
ghost use Rattle.mc_model.specs.Step.{heard};
ghost use Rattle.mc_links.specs.Kept.{decoded, is_ours, is_pending, new_connection, state_of};
ghost use Rattle.mc_links.specs.Replying.{MayReply};

mod fields;
mod looks;
mod showing;

use crate::backlog::Backlog;
use bytes::Bytes;
use mc_bytes::{NoMemory, Octets};
use mc_flush::Mark;
use mc_frame::{Peek, Splitter, Take};
use mc_model::{Cause, Name, Refusal, Stage};
use mc_session::{Session, Step, is_silent};
use mc_up::PlayUp;
use std::alloc::Global;
use std::marker::Model;

/// Whether a connection was closed, and not since it left, a write to it broke, or it was done.
pub fn is_ours(cause: Option<&Cause>) -> bool
    ensures { result ≡ is_ours (option_copied cause.entry) }
{
    match cause {
        None | Some(Cause::Gone | Cause::Broke | Cause::Done) => false,
        Some(_) => true,
    }
}

/// Answers a frame. Nothing is to be done while a client waits for an answer.
#[tactic(auto, unfolding(mc_model::specs::Talk::request_of))]
fn answer(
    session: &mut Session,
    alloc: Global,
    frame: &[u8],
    most: u32,
    online: u32,
) -> Result<Step, NoMemory>
    ensures step { IfOk result (λ step. step ≡ step_of session.old
        (request_of session.old.stage most online frame.now)) }
    ensures next { OnOk result (session.new ≡ next_of session.old
        (request_of session.old.stage most online frame.now)) }
{
    match session.stage() {
        Stage::Asked => Ok(Step::Nothing),
        _ => session.on_frame(alloc, frame, most, online),
    }
}

/// One connection: how far it has come and how its bytes are cut, what it is owed, why it was
/// closed, and what its client was shown.
#[derive(Drop)]
pub struct Connection {
    alloc: Global,
    /// The number that it joined under.
    id: u32,
    /// How far it has come, as long as it has no cause.
    session: Session,
    /// The bytes that came and are no whole frame yet.
    splitter: Splitter,
    /// The bytes that it was handed and has not taken.
    backlog: Backlog,
    /// Why it was closed, if it was.
    cause: Option<Cause>,
    /// How many beats its client left without an answer.
    missed: u32,
    /// What its client was shown.
    mark: Mark,
}

impl Model for Connection {
    ghost use Rattle.std.specs.Coded.{codes};
    ghost use Rattle.mc_view.specs.ToldCode.{coded_told};
    ghost use Rattle.mc_links.specs.Kept.{ConnectionValue, stage_of};

    ghost Value = { ConnectionValue };

    ghost coded = { Prim.hlevel (codes, coded_told) };

    ghost view = { λ c. record {
      id = c.id;
      link = record {
        stage = stage_of c.cause c.session.stage;
        protocol = c.session.protocol;
        cause = c.cause;
        owed = c.backlog;
        missed = c.missed;
      };
      splitter = c.splitter;
      mark = c.mark;
    } };
}

impl Connection {
    /// A connection of which nothing came yet.
    pub fn new(alloc: Global, id: u32) -> Connection
        ensures { result ≡ new_connection id }
    {
        Connection {
            alloc,
            id,
            session: Session::new(),
            splitter: Splitter::new(alloc),
            backlog: Backlog::new(alloc),
            cause: None,
            missed: 0,
            mark: Mark::new(alloc),
        }
    }

    /// The number that it joined under.
    pub fn id(&self) -> u32
        ensures { result ≡ self.now.id }
    {
        self.id
    }

    /// How far it has come.
    pub fn stage(&self) -> Stage
        ensures { result ≡ self.now.link.stage }
    {
        match self.cause {
            Some(_) => Stage::Closed,
            None => self.session.stage(),
        }
    }

    /// The protocol that its handshake named.
    pub fn protocol(&self) -> i32
        ensures { result ≡ self.now.link.protocol }
    {
        self.session.protocol()
    }

    /// Why it was closed.
    pub fn cause(&self) -> Option<&Cause>
        ensures { option_copied result ≡ self.now.link.cause }
    {
        self.cause.as_ref()
    }

    /// Whether it was closed, and not since it left, a write to it broke, or it was done.
    pub fn is_ours(&self) -> bool
        ensures { result ≡ is_ours self.now.link.cause }
    {
        is_ours(self.cause.as_ref())
    }

    /// Whether it is closed.
    pub fn is_closed(&self) -> bool
        ensures { result ≡ is_closed self.now.link.stage }
    {
        matches!(self.stage(), Stage::Closed)
    }

    /// Whether it is in play.
    pub fn is_play(&self) -> bool
        ensures { result ≡ is_play self.now.link.stage }
    {
        matches!(self.stage(), Stage::Play)
    }

    /// Whether it is open, or owed bytes still.
    pub fn is_kept(&self) -> bool
        ensures { result ≡ is_kept self.now.link }
    {
        !self.is_closed() || self.backlog.len() > 0
    }

    /// Whether it is owed bytes, or closed.
    pub fn is_pending(&self) -> bool
        ensures { result ≡ is_pending self.now.link }
    {
        self.is_closed() || self.backlog.len() > 0
    }

    /// Whether it is closed and owed nothing.
    pub fn is_done(&self) -> bool
        ensures { result ≡ is_done self.now.link }
    {
        self.is_closed() && self.backlog.len() == 0
    }

    // ---- what it is owed

    /// The first bytes that it is owed, without copying them.
    pub fn front(&self) -> &[u8]
        ensures first { take (length result.now) self.now.link.owed ≡ result.now }
        ensures empty { (result.now ≡ []) ↔ (self.now.link.owed ≡ []) }
    {
        self.backlog.front()
    }

    /// Takes bytes of those that it is owed, or all of them where `n` is more.
    pub fn took(&mut self, n: usize)
        ensures { self.new ≡ record self.old {
          link = record self.old.link { owed = drop n self.old.link.owed };
        } }
    {
        self.backlog.took(n);
    }

    /// Hands it bytes of packets, all or none: where they would bring what it is owed past the most
    /// that an outbox holds, it is closed and owed nothing.
    pub fn hand_all(&mut self, pieces: Vec<Bytes>) -> Result<(), NoMemory>
        ensures ok { (packets : List Sent) → joined pieces.items ≡ bytes_of packets → OnOk result
            (self.new ≡ record self.old { link = (hand self.old.link packets).link }) }
        ensures only { self.new ≡ record self.old { link = self.new.link } }
    {
        if !self.backlog.has_room_for(pieces.as_slice()) {
            self.overflow();
            return Ok(());
        }
        self.backlog.push_all(pieces)?;
        Ok(())
    }

    /// Hands it bytes of packets that stand in one piece, all or none.
    pub fn hand(&mut self, bytes: Octets) -> Result<(), NoMemory>
        ensures ok { (packets : List Sent) → bytes ≡ bytes_of packets → OnOk result
            (self.new ≡ record self.old { link = (hand self.old.link packets).link }) }
        ensures same { self.new.id ≡ self.old.id }
    {
        let bytes = bytes.into_vec();
        if !self.backlog.has_room(bytes.len()) {
            self.overflow();
            return Ok(());
        }
        self.backlog.push_owned(bytes)?;
        Ok(())
    }

    /// Closes it, since it would be owed too much, and owes it nothing.
    fn overflow(&mut self)
        ensures { self.new ≡ record self.old {
          link = record (mark_closed self.old.link Cause.Backlog) { owed = [] };
        } }
    {
        self.mark_closed(Cause::Backlog);
        self.backlog.clear();
    }

    // ---- closing

    /// Marks it closed, for a cause.
    pub fn mark_closed(&mut self, cause: Cause)
        ensures { self.new ≡ record self.old { link = mark_closed self.old.link cause } }
    {
        self.cause = Some(cause);
    }

    /// Lets it go for a cause: it is closed, and owed nothing.
    pub fn leave(&mut self, cause: Cause)
        ensures { self.new ≡ record self.old { link = gone cause self.old.link } }
    {
        if self.is_closed() {
            self.backlog.clear();
            return;
        }
        self.mark_closed(cause);
        self.backlog.clear();
    }

    /// Closes it, with bytes of its last packets.
    pub fn disconnect_with(&mut self, cause: Cause, bytes: Octets) -> Result<(), NoMemory>
        ensures ok { (packets : List Sent) → bytes ≡ bytes_of packets → OnOk result (self.new
            ≡ record self.old { link = (disconnect self.old.link cause packets).link }) }
        ensures same { self.new.id ≡ self.old.id }
    {
        self.mark_closed(cause);
        self.hand(bytes)
    }

    /// Closes it, with the farewell of its stage.
    pub fn disconnect(&mut self, cause: Cause) -> Result<(), NoMemory>
        ensures ok { OnOk result (self.new ≡ record self.old {
          link = (disconnect self.old.link cause (farewell self.old.link.stage cause)).link;
        }) }
        ensures same { self.new.id ≡ self.old.id }
    {
        let bytes = self.last_words(&cause)?;
        self.disconnect_with(cause, bytes)
    }

    /// What its client is told as it is closed for a cause.
    #[tactic(auto, unfolding(mc_model::specs::Talk::farewell))]
    fn last_words(&mut self, cause: &Cause) -> Result<Octets, NoMemory>
        ensures bytes { IfOk result (λ bytes.
            bytes ≡ bytes_of (farewell self.old.link.stage cause.now)) }
        ensures next { OnOk result (self.new ≡ record self.old {
          link = record self.old.link { stage = Stage.Closed };
        }) }
        ensures same { self.new.id ≡ self.old.id }
    {
        match self.cause {
            Some(_) => Ok(Octets::new(self.alloc)),
            None => self.session.fail(self.alloc, cause),
        }
    }

    // ---- logging in

    /// Closes it, since its client may not play, which that is told.
    pub fn refuse(&mut self, why: Refusal) -> Result<(), NoMemory>
        requires { self.old.link.stage ≡ Stage.Asked }
        ensures ok { OnOk result (self.new ≡ record self.old {
          link = (disconnect self.old.link (causes.Refused why) (refused why)).link;
        }) }
        ensures same { self.new.id ≡ self.old.id }
    {
        let bytes = self.session.refuse(self.alloc, why)?;
        self.disconnect_with(Cause::Refused(why), bytes)
    }

    /// Lets its client play under a name, which that is told.
    pub fn welcome(&mut self, name: &Name) -> Result<(), NoMemory>
        requires { self.old.link.stage ≡ Stage.Asked }
        ensures ok { OnOk result (self.new ≡ record self.old {
          link = (hand (record self.old.link { stage = Stage.Play })
              (accepted (offline_uuid name.now) name.now)).link;
        }) }
        ensures same { self.new.id ≡ self.old.id }
    {
        let bytes = self.session.accept(self.alloc, name)?;
        self.hand(bytes)
    }

    // ---- beats

    /// Its client sent a packet in play: one that answers a beat answers all of them.
    pub fn hear(&mut self, packet: &PlayUp)
        ensures { self.new ≡ record self.old { link = heard packet.now self.old.link } }
    {
        if let PlayUp::KeepAlive(_) = packet {
            self.missed = 0;
        }
    }

    /// Whether its client was told this beat last.
    pub fn was_told(&self, beat: i32) -> bool
        ensures { result ≡ is_told self.now.mark.beat beat }
    {
        self.mark.was_told(beat)
    }

    /// Whether its client is silent at the next beat.
    pub fn is_silent(&self) -> bool
        ensures { result ≡ nat_le MISSED_MAX self.now.link.missed }
    {
        is_silent(self.missed)
    }

    /// Its client owes an answer more.
    pub fn await_answer(&mut self)
        requires { self.old.link.missed + 1 < 2 ^ 32 }
        ensures { self.new ≡ record self.old {
          link = record self.old.link { missed = self.old.link.missed + 1 };
        } }
    {
        self.missed += 1;
    }

    // ---- frames

    /// Feeds its splitter with the first bytes of a piece: how many it took.
    pub fn feed(&mut self, piece: &[u8]) -> Result<usize, NoMemory>
        ensures fed { IfOk result (λ count.
            Feeds self.old.splitter piece.now count self.new.splitter) }
        ensures some { IsPart self.old.splitter.held → self.old.splitter.fault ≡ None →
            0 < length piece.now → IfOk result (λ count. 0 < count) }
        ensures rest { self.new ≡ record self.old { splitter = self.new.splitter } }
    {
        self.splitter.feed(piece)
    }

    /// Answers the next frame, with so many players at most and in play, where its session keeps
    /// the answer and there is room for it, and copies nothing else: whether it did.
    pub fn reply_kept(&mut self, most: u32, online: u32) -> Result<bool, NoMemory>
        ensures replied { IfOk result (λ done. MayReply done most online self.old self.new) }
        ensures same { self.new.id ≡ self.old.id }
    {
        let Stage::Status = self.stage() else {
            return Ok(false);
        };
        let Peek::Frame(frame, len) = self.splitter.peek() else {
            return Ok(false);
        };
        let Some(reply) = self.session.kept_reply(frame, most, online) else {
            return Ok(false);
        };
        if !self.backlog.has_room(reply.len()) {
            return Ok(false);
        }
        self.backlog.push_slice(reply)?;
        self.splitter.pass(len);
        Ok(true)
    }

    /// Takes the next frame of those that its splitter holds.
    pub fn take(&mut self) -> Result<Take, NoMemory>
        ensures takes { IfOk result (λ answer. Takes self.old.splitter answer self.new.splitter) }
        ensures rest { self.new ≡ record self.old { splitter = self.new.splitter } }
    {
        self.splitter.take()
    }

    /// Decodes a frame, with so many players at most and in play: what is to be done about it. Its
    /// stage and protocol are then as the frame has them.
    pub fn decode(&mut self, frame: &[u8], most: u32, online: u32) -> Result<Step, NoMemory>
        ensures step { IfOk result (λ step. step ≡ step_of (state_of self.old.link)
            (request_of self.old.link.stage most online frame.now)) }
        ensures next { OnOk result (self.new ≡ record self.old {
          link = decoded
              self.old.link (request_of self.old.link.stage most online frame.now);
        }) }
        ensures same { self.new.id ≡ self.old.id }
    {
        match self.cause {
            Some(_) => Ok(Step::Nothing),
            None => answer(&mut self.session, self.alloc, frame, most, online),
        }
    }
}
