ghost use Rattle.std.specs.Prelude.{◌≡◌, IfOk};
ghost use Rattle.mc_frame.specs.Frame.{IsPayload, frame_spelling};
ghost use Rattle.mc_hello.specs.StatusDown as status;
ghost use Rattle.mc_hello.specs.LoginDown as login;
ghost use Rattle.mc_packets.specs.Down as play;
ghost use Rattle.mc_hello.specs.declared.status_down.StatusDown.TheVariants.{Response, Pong};
ghost use Rattle.mc_hello.specs.declared.login_down.LoginDown.TheVariants as login_down;
ghost use Rattle.mc_packets.specs.declared.down.Down.TheVariants as down;
ghost use Rattle.mc_model.specs.Names.{offline_uuid};
ghost use Rattle.mc_model.specs.Texts.{status_json, farewell_text};
ghost use Rattle.mc_model.specs.Packets.{frame_of, of_status, of_login, of_play, bytes_of};
ghost use Rattle.mc_model.specs.Talk.{accepted, refused, as_chat, farewell};

use crate::identity::{offline_uuid, uuid_text};
use crate::words::{chat_json, farewell_text, refusal_text, status_json};
use mc_bytes::{NoMemory, Octets};
use mc_frame::write_frame;
use mc_model::{Cause, Name, Refusal, Stage};
use mc_packets::{Down, write_down};
use mc_up::{LoginDown, StatusDown, write_login_down, write_status_down};
use std::alloc::Global;

/// The frame of a packet with these bytes.
fn framed(alloc: Global, payload: &[u8]) -> Result<Octets, NoMemory>
    requires { IsPayload payload.now }
    ensures { IfOk result (λ frame. frame ≡ frame_spelling payload.now) }
{
    let mut frame = Vec::new(alloc);
    write_frame(payload, &mut frame)?;
    Ok(Octets::from_vec(frame))
}

/// The frame of a packet to a client that asks for the status.
#[tactic(auto, unfolding(mc_model::specs::Packets::frame_of))]
fn status_frame(alloc: Global, packet: &StatusDown) -> Result<Octets, NoMemory>
    requires fits { status.FitsStatusDown packet.now }
    requires framed { IsPayload (status.spelling_of packet.now) }
    ensures { IfOk result (λ frame. frame ≡ frame_of (of_status packet.now)) }
{
    let mut payload = Vec::new(alloc);
    write_status_down(packet, &mut payload)?;
    framed(alloc, &payload)
}

/// The frame of a packet to a client that logs in.
#[tactic(auto, unfolding(mc_model::specs::Packets::frame_of))]
fn login_frame(alloc: Global, packet: &LoginDown) -> Result<Octets, NoMemory>
    requires fits { login.FitsLoginDown packet.now }
    requires framed { IsPayload (login.spelling_of packet.now) }
    ensures { IfOk result (λ frame. frame ≡ frame_of (of_login packet.now)) }
{
    let mut payload = Vec::new(alloc);
    write_login_down(packet, &mut payload)?;
    framed(alloc, &payload)
}

/// The frame of a packet to a client in play.
#[tactic(auto, unfolding(mc_model::specs::Packets::frame_of))]
fn play_frame(alloc: Global, packet: &Down) -> Result<Octets, NoMemory>
    requires fits { play.FitsDown packet.now }
    requires framed { IsPayload (play.spelling_of packet.now) }
    ensures { IfOk result (λ frame. frame ≡ frame_of (of_play packet.now)) }
{
    let mut payload = Vec::new(alloc);
    write_down(packet, &mut payload)?;
    framed(alloc, &payload)
}

/// The frame of the status.
pub fn response(alloc: Global, max: u32, online: u32) -> Result<Octets, NoMemory>
    ensures { IfOk result (λ frame. frame ≡ frame_of
        (of_status (Response (status_json max online)))) }
{
    let packet = StatusDown::Response(status_json(alloc, max, online)?);
    status_frame(alloc, &packet)
}

/// The frame of the answer to a ping.
pub fn pong(alloc: Global, number: i64) -> Result<Octets, NoMemory>
    ensures { IfOk result (λ frame. frame ≡ frame_of (of_status (Pong number))) }
{
    status_frame(alloc, &StatusDown::Pong(number))
}

/// What a client is told that may play: its player's identifier and name.
pub fn success(alloc: Global, name: &Name) -> Result<Octets, NoMemory>
    ensures { IfOk result (λ bytes. bytes ≡ bytes_of (accepted (offline_uuid name.now) name.now)) }
{
    let uuid = uuid_text(alloc, offline_uuid(name))?;
    let packet = LoginDown::Success(uuid, name.text().copy()?);
    login_frame(alloc, &packet)
}

/// What a client is told that may not play.
pub fn refusal(alloc: Global, why: Refusal) -> Result<Octets, NoMemory>
    ensures { IfOk result (λ bytes. bytes ≡ bytes_of (refused why)) }
{
    let reason = chat_json(alloc, refusal_text(why))?;
    login_frame(alloc, &LoginDown::Disconnect(reason))
}

/// What a client that logs in is told whose connection is closed for this cause.
fn login_farewell(alloc: Global, cause: &Cause) -> Result<Octets, NoMemory>
    ensures { IfOk result (λ bytes. bytes ≡ bytes_of
        (as_chat (λ json. of_login (login_down.Disconnect json)) (farewell_text cause.now))) }
{
    let Some(words) = farewell_text(cause) else {
        return Ok(Octets::new(alloc));
    };
    let reason = chat_json(alloc, words)?;
    login_frame(alloc, &LoginDown::Disconnect(reason))
}

/// What a client in play is told whose connection is closed for this cause.
fn play_farewell(alloc: Global, cause: &Cause) -> Result<Octets, NoMemory>
    ensures { IfOk result (λ bytes. bytes ≡ bytes_of
        (as_chat (λ json. of_play (down.Disconnect json)) (farewell_text cause.now))) }
{
    let Some(words) = farewell_text(cause) else {
        return Ok(Octets::new(alloc));
    };
    let reason = chat_json(alloc, words)?;
    play_frame(alloc, &Down::Disconnect(reason))
}

/// What a client is told whose connection is closed for this cause at this stage.
#[tactic(auto, unfolding(mc_model::specs::Talk::farewell))]
pub fn farewell(alloc: Global, stage: Stage, cause: &Cause) -> Result<Octets, NoMemory>
    ensures { IfOk result (λ bytes. bytes ≡ bytes_of (farewell stage cause.now)) }
{
    match stage {
        Stage::Login | Stage::Asked => login_farewell(alloc, cause),
        Stage::Play => play_farewell(alloc, cause),
        Stage::Hand | Stage::Status | Stage::Closed => Ok(Octets::new(alloc)),
    }
}
