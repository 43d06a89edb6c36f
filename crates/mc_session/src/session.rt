ghost use Rattle.std.specs.Prelude.{◌≡◌, ◌≢◌, true, IfOk, IfSome, OnOk, OnErr, Ok, Result};
ghost use Rattle.mc_fields.specs.Row.{packet_read, packet_of};
ghost use Rattle.mc_hello.specs.Hand as hand;
ghost use Rattle.mc_hello.specs.StatusUp as status;
ghost use Rattle.mc_hello.specs.LoginUp as login;
ghost use Rattle.mc_up.specs.PlayUp as play;
ghost use Rattle.mc_model.specs.Names.{offline_uuid};
ghost use Rattle.mc_model.specs.Packets.{bytes_of};
ghost use Rattle.mc_model.specs.Talk.{wanted, in_hand, in_status, in_login, in_play, request_of};
ghost use Rattle.mc_model.specs.Talk.{accepted, refused, farewell};
ghost use Rattle.mc_session.specs.State.{new_state};
ghost use Rattle.mc_session.specs.Answers.{step_of, next_of};

use crate::kept_status::{KeptStatus, kept_frame, status_frame};
use crate::{Step, reply};
use mc_bytes::{NoMemory, Octets};
use mc_model::{Cause, Name, Refusal, Stage};
use mc_up::{
    Hand, LoginUp, PacketRead, StatusUp, read_hand, read_login_up, read_play_up, read_status_up,
};
use std::alloc::Global;
use std::marker::Model;

/// One connection: how far it has come, and the protocol that its handshake named.
#[derive(Drop)]
pub struct Session {
    stage: Stage,
    protocol: i32,
    /// The frame of the status that its client was sent last.
    status: Option<KeptStatus>,
}

impl Model for Session {
    ghost use Rattle.mc_session.specs.State.{State};

    ghost Value = { State };

    ghost view = { λ session. record { stage = session.stage; protocol = session.protocol } };
}

/// The stage that a client wants to come to.
fn wanted(next: i32) -> Stage
    ensures { result ≡ wanted next }
{
    if next == 1 {
        Stage::Status
    } else {
        Stage::Login
    }
}

/// Whether a frame is a Request. Those that are spelled at length it does not know.
fn is_request(frame: &[u8]) -> bool
    ensures { result ≡ true →
        packet_of frame.now (packet_read status.rows frame.now) ≡ Ok StatusUp.Request }
{
    match frame {
        [id] => *id == 0,
        _ => false,
    }
}

impl Session {
    /// A connection of which nothing came yet.
    pub fn new() -> Session
        ensures { result ≡ new_state }
    {
        Session {
            stage: Stage::Hand,
            protocol: 0,
            status: None,
        }
    }

    /// How far it has come.
    pub fn stage(&self) -> Stage
        ensures { result ≡ self.now.stage }
    {
        self.stage
    }

    /// The protocol that its handshake named.
    pub fn protocol(&self) -> i32
        ensures { result ≡ self.now.protocol }
    {
        self.protocol
    }

    /// Answers a frame, with `max` players at most and `online` in play. Without memory the session
    /// is as before.
    #[tactic(auto, unfolding(mc_model::specs::Talk::request_of))]
    pub fn on_frame(
        &mut self,
        alloc: Global,
        frame: &[u8],
        max: u32,
        online: u32,
    ) -> Result<Step, NoMemory>
        // A client that asked to play is answered before its next frame.
        requires { self.old.stage ≢ Stage.Asked }
        ensures step { IfOk result (λ step. step ≡ step_of self.old
            (request_of self.old.stage max online frame.now)) }
        ensures next { OnOk result (self.new ≡ next_of self.old
            (request_of self.old.stage max online frame.now)) }
        ensures err { OnErr result (self.new ≡ self.old) }
    {
        match self.stage {
            Stage::Hand => self.greet(alloc, frame),
            Stage::Status => self.ask(alloc, frame, max, online),
            Stage::Login => self.log_in(alloc, frame),
            Stage::Play => self.act(alloc, frame),
            Stage::Asked | Stage::Closed => Ok(Step::Nothing),
        }
    }

    /// What `on_frame` would answer to a frame, and leave the session as it is, without copying it:
    /// the frame of the status, where it is kept. None says nothing.
    #[tactic(auto, unfolding(mc_model::specs::Talk::request_of))]
    pub fn kept_reply(&self, frame: &[u8], max: u32, online: u32) -> Option<&[u8]>
        ensures step { IfSome result (λ reply. Step.Reply reply.now ≡ step_of self.now
            (request_of self.now.stage max online frame.now)) }
        ensures next { IfSome result (λ reply. self.now ≡ next_of self.now
            (request_of self.now.stage max online frame.now)) }
    {
        match self.stage {
            Stage::Status if is_request(frame) => kept_frame(self.status.as_ref(), max, online),
            _ => None,
        }
    }

    /// Answers a first frame.
    fn greet(&mut self, alloc: Global, frame: &[u8]) -> Result<Step, NoMemory>
        ensures step { IfOk result (λ step. step ≡ step_of self.old
            (in_hand (packet_of frame.now (packet_read hand.rows frame.now)))) }
        ensures next { OnOk result (self.new ≡ next_of self.old
            (in_hand (packet_of frame.now (packet_read hand.rows frame.now)))) }
        ensures err { OnErr result (self.new ≡ self.old) }
    {
        match read_hand(alloc, frame) {
            Ok(Hand::Handshake { protocol, next, .. }) => {
                self.protocol = protocol;
                self.stage = wanted(next);
                Ok(Step::Nothing)
            }
            Err(PacketRead::Fault(fault)) => Ok(Step::Close(Cause::Packet(fault))),
            Err(PacketRead::NoMemory) => Err(NoMemory),
        }
    }

    /// Answers a client that asks for the status.
    fn ask(&mut self, alloc: Global, frame: &[u8], max: u32, online: u32) -> Result<Step, NoMemory>
        ensures step { IfOk result (λ step. step ≡ step_of self.old
            (in_status max online (packet_of frame.now (packet_read status.rows frame.now)))) }
        ensures next { OnOk result (self.new ≡ next_of self.old
            (in_status max online (packet_of frame.now (packet_read status.rows frame.now)))) }
        ensures err { OnErr result (self.new ≡ self.old) }
    {
        match read_status_up(frame) {
            Ok(StatusUp::Request) => {
                let frame = status_frame(&mut self.status, alloc, max, online)?;
                Ok(Step::Reply(frame))
            }
            Ok(StatusUp::Ping(number)) => {
                let pong = reply::pong(alloc, number)?;
                self.stage = Stage::Closed;
                Ok(Step::ReplyClose(pong, Cause::Done))
            }
            Err(PacketRead::Fault(fault)) => Ok(Step::Close(Cause::Packet(fault))),
            Err(PacketRead::NoMemory) => Err(NoMemory),
        }
    }

    /// Answers a client that logs in.
    fn log_in(&mut self, alloc: Global, frame: &[u8]) -> Result<Step, NoMemory>
        ensures step { IfOk result (λ step. step ≡ step_of self.old
            (in_login (packet_of frame.now (packet_read login.rows frame.now)))) }
        ensures next { OnOk result (self.new ≡ next_of self.old
            (in_login (packet_of frame.now (packet_read login.rows frame.now)))) }
        ensures err { OnErr result (self.new ≡ self.old) }
    {
        match read_login_up(alloc, frame) {
            Ok(LoginUp::Start(name)) => {
                let protocol = self.protocol;
                self.stage = Stage::Asked;
                Ok(Step::Enter { name, protocol })
            }
            Err(PacketRead::Fault(fault)) => Ok(Step::Close(Cause::Packet(fault))),
            Err(PacketRead::NoMemory) => Err(NoMemory),
        }
    }

    /// Answers a client in play.
    fn act(&self, alloc: Global, frame: &[u8]) -> Result<Step, NoMemory>
        ensures { IfOk result (λ step. step ≡ step_of self.now
            (in_play (packet_of frame.now (packet_read play.rows frame.now)))) }
    {
        match read_play_up(alloc, frame) {
            Ok(packet) => Ok(Step::Act(packet)),
            Err(PacketRead::Fault(fault)) => Ok(Step::Close(Cause::Packet(fault))),
            Err(PacketRead::NoMemory) => Err(NoMemory),
        }
    }

    /// Lets the client play under this name: the bytes to be sent. Without memory the session is as
    /// before.
    pub fn accept(&mut self, alloc: Global, name: &Name) -> Result<Octets, NoMemory>
        requires { self.old.stage ≡ Stage.Asked }
        ensures bytes { IfOk result (λ bytes. bytes ≡ bytes_of
            (accepted (offline_uuid name.now) name.now)) }
        ensures next { OnOk result (self.new ≡ record self.old { stage = Stage.Play }) }
        ensures err { OnErr result (self.new ≡ self.old) }
    {
        let bytes = reply::success(alloc, name)?;
        self.stage = Stage::Play;
        Ok(bytes)
    }

    /// Does not let the client play: the bytes to be sent. Without memory the session is as before.
    pub fn refuse(&mut self, alloc: Global, why: Refusal) -> Result<Octets, NoMemory>
        requires { self.old.stage ≡ Stage.Asked }
        ensures bytes { IfOk result (λ bytes. bytes ≡ bytes_of (refused why)) }
        ensures next { OnOk result (self.new ≡ record self.old { stage = Stage.Closed }) }
        ensures err { OnErr result (self.new ≡ self.old) }
    {
        let bytes = reply::refusal(alloc, why)?;
        self.stage = Stage::Closed;
        Ok(bytes)
    }

    /// Closes the connection for this cause: the bytes to be sent. Without memory the session is as
    /// before.
    pub fn fail(&mut self, alloc: Global, cause: &Cause) -> Result<Octets, NoMemory>
        ensures bytes { IfOk result (λ bytes. bytes ≡ bytes_of
            (farewell self.old.stage cause.now)) }
        ensures next { OnOk result (self.new ≡ record self.old { stage = Stage.Closed }) }
        ensures err { OnErr result (self.new ≡ self.old) }
    {
        let bytes = reply::farewell(alloc, self.stage, cause)?;
        self.stage = Stage::Closed;
        Ok(bytes)
    }
}
