//! What one connection does on the game. The player of whoever is closed by it leaves.

ghost use Rattle.std.specs.Prelude.{◌≡◌, ◌<◌, ◌++◌, ℕ, List, false, true, IfOk, OnOk, length};
ghost use lib.IntN.{ℤ};
ghost use Rattle.mc_up.specs.declared.play_up.PlayUp as declared;
ghost use Rattle.mc_up.specs.PlayUp.{FitsPlayUp};
ghost use Rattle.mc_model.specs.Packets.{Sent, bytes_of};
ghost use Rattle.mc_model.specs.Talk.{ClientRequest};
ghost use Rattle.mc_model.specs.Stages.{is_closed};
ghost use Rattle.mc_session.specs.Answers.{step_of};
ghost use Rattle.mc_model.specs.Acts.{act};
ghost use Rattle.mc_model.specs.Leaving.{left_by};
ghost use Rattle.mc_model.specs.Link.{Link, disconnect, hand};
ghost use Rattle.mc_model.specs.Step as definitions;
ghost use Rattle.mc_model.specs.Step.{acted, answer_login, disconnect_for, refusal, turn};
ghost use Rattle.mc_model.specs.World.{Unread};
ghost use Rattle.mc_play.specs.Admitting.{has_room};
ghost use Rattle.mc_play.specs.Kept.{GameValue, played};
ghost use Rattle.mc_links.specs.Kept.{ConnectionValue, decoded, state_of};
ghost use Rattle.mc_links.specs.Sitting.{Holds, Sits};
ghost use Rattle.mc_links.specs.Seats.{AreDone, Becomes, HasRead, IsReading, seat_with};

use crate::Connection;
use mc_bytes::{NoMemory, Octets, Text};
use mc_frame::Take;
use mc_model::{Cause, Name, Stage};
use mc_play::{ActFault, Game};
use mc_session::Step;
use mc_up::PlayUp;

/// The player of a connection leaves that is closed.
fn let_go(game: &mut Game, connection: &Connection) -> Result<(), NoMemory>
    ensures { OnOk result (game.new ≡ played game.old
        (left_by connection.now.id connection.now.link.stage game.old.game) game.new.aside) }
{
    if !connection.is_closed() {
        return Ok(());
    }
    game.leave(connection.id())
}

/// Hands a connection bytes of packets.
fn reply(game: &mut Game, connection: &mut Connection, bytes: Octets) -> Result<(), NoMemory>
    ensures { (packets : List Sent) (unread : Unread) → bytes ≡ bytes_of packets → OnOk result
        (Becomes game.old game.new connection.old connection.new (turn connection.old.id
        (seat_with game.old connection.old unread) (hand connection.old.link packets)).seat) }
{
    connection.hand(bytes)?;
    let_go(game, connection)
}

/// Closes a connection, with bytes of its last packets.
fn reply_last(
    game: &mut Game,
    connection: &mut Connection,
    cause: Cause,
    bytes: Octets,
) -> Result<(), NoMemory>
    ensures { (packets : List Sent) (unread : Unread) → bytes ≡ bytes_of packets → OnOk result
        (Becomes game.old game.new connection.old connection.new (turn connection.old.id
        (seat_with game.old connection.old unread)
        (disconnect connection.old.link cause packets)).seat) }
{
    connection.disconnect_with(cause, bytes)?;
    let_go(game, connection)
}

/// Closes a connection, with the farewell of its stage.
fn close(game: &mut Game, connection: &mut Connection, cause: Cause) -> Result<(), NoMemory>
    ensures { (unread : Unread) → OnOk result
        (Becomes game.old game.new connection.old connection.new (disconnect_for connection.old.id
        (seat_with game.old connection.old unread) cause).seat) }
{
    connection.disconnect(cause)?;
    let_go(game, connection)
}

/// Lets the player of a connection enter, under a name.
fn enter(game: &mut Game, connection: &mut Connection, name: Name) -> Result<(), NoMemory>
    requires asked { connection.old.link.stage ≡ Stage.Asked }
    requires room { has_room game.old.game name ≡ true }
    ensures { (before : Link) (unread : Unread) →
        connection.old.link ≡ record before { stage = Stage.Asked } → OnOk result
        (Becomes game.old game.new connection.old connection.new (answer_login connection.old.id
        (record { game = game.old.game; link = before; unread = unread }) name None).seat) }
{
    connection.welcome(&name)?;
    game.enter(connection.id(), name)?;
    let_go(game, connection)
}

/// Answers a client that asks to play under a name.
fn log_in(game: &mut Game, connection: &mut Connection, name: &Text) -> Result<(), NoMemory>
    requires { connection.old.link.stage ≡ Stage.Asked }
    ensures { (before : Link) (unread : Unread) →
        connection.old.link ≡ record before { stage = Stage.Asked } → OnOk result
        (Becomes game.old game.new connection.old connection.new (answer_login connection.old.id
        (record { game = game.old.game; link = before; unread = unread }) name.now
        (refusal game.old.game before.protocol name.now)).seat) }
{
    match game.admit(connection.protocol(), name)? {
        Ok(name) => enter(game, connection, name),
        Err(why) => {
            connection.refuse(why)?;
            let_go(game, connection)
        }
    }
}

/// Does what a packet of the player of a connection says; a bad number closes the connection.
fn act(game: &mut Game, connection: &mut Connection, packet: &PlayUp) -> Result<(), NoMemory>
    requires { FitsPlayUp packet.now }
    ensures { (unread : Unread) → OnOk result
        (Becomes game.old game.new connection.old connection.new (acted connection.old.id
        (seat_with game.old connection.old unread) packet.now
        (act game.old.game connection.old.id packet.now)).seat) }
{
    match game.act(connection.id(), packet) {
        Ok(()) => {
            connection.hear(packet);
            Ok(())
        }
        Err(ActFault::BadNumber) => close(game, connection, Cause::BadNumber),
        Err(ActFault::NoMemory) => Err(NoMemory),
    }
}

/// Does what a decoded frame comes to.
fn perform(game: &mut Game, connection: &mut Connection, step: Step) -> Result<(), NoMemory>
    requires fits { (packet : declared.PlayUp) → step ≡ Step.Act packet → FitsPlayUp packet }
    requires asked { (name : List ℕ) (protocol : ℤ) → step ≡ Step.Enter name protocol →
        connection.old.link.stage ≡ Stage.Asked }
    ensures { (before : Link) (what : ClientRequest) (unread : Unread) →
        connection.old.link ≡ decoded before what → step ≡ step_of (state_of before) what →
        OnOk result (Becomes game.old game.new connection.old connection.new
        (definitions.perform connection.old.id
        (record { game = game.old.game; link = before; unread = unread }) what).seat) }
{
    match step {
        Step::Nothing => Ok(()),
        Step::Reply(bytes) => reply(game, connection, bytes),
        Step::ReplyClose(bytes, cause) => reply_last(game, connection, cause, bytes),
        Step::Enter { name, protocol: _ } => log_in(game, connection, &name),
        Step::Act(packet) => {
            let done = act(game, connection, &packet);
            drop(packet);
            done
        }
        Step::Close(cause) => close(game, connection, cause),
    }
}

/// Handles a frame of a connection.
fn on_frame(game: &mut Game, connection: &mut Connection, frame: &[u8]) -> Result<(), NoMemory>
    ensures { (unread : Unread) → OnOk result
        (Becomes game.old game.new connection.old connection.new (definitions.on_frame
        connection.old.id (seat_with game.old connection.old unread) frame.now).seat) }
{
    let online = game.online()?;
    let step = connection.decode(frame, game.most(), online)?;
    perform(game, connection, step)
}

/// Answers the next frame of a connection, where its session keeps the answer: whether it did.
fn reply_kept(game: &Game, connection: &mut Connection) -> Result<bool, NoMemory>
    ensures read { (count : ℕ) (all left : List ℕ) (v : GameValue) (c : ConnectionValue) →
        IsReading count all v game.now c connection.old left → IfOk result (λ done.
        IsReading count all v game.now c connection.new left) }
    ensures opened { is_closed connection.old.link.stage ≡ false →
        IfOk result (λ done. is_closed connection.new.link.stage ≡ false) }
    ensures fewer { IfOk result (λ done. done ≡ true →
        length connection.new.splitter.held < length connection.old.splitter.held) }
    ensures same { IfOk result (λ done. done ≡ false → connection.new ≡ connection.old) }
{
    let online = game.online()?;
    connection.reply_kept(game.most(), online)
}

/// Handles the frames that a splitter holds whole, as long as the connection is open: whether it is
/// open then.
fn frames(game: &mut Game, connection: &mut Connection) -> Result<bool, NoMemory>
    requires { is_closed connection.old.link.stage ≡ false }
    ensures read { (count : ℕ) (all left : List ℕ) (v : GameValue) (c : ConnectionValue) →
        IsReading count all v game.old c connection.old left → IfOk result
        (λ goes. HasRead goes count all v game.new c connection.new left) }
    ensures opened { IfOk result (λ goes.
        goes ≡ true → is_closed connection.new.link.stage ≡ false) }
    ensures age { OnOk result (game.new.game.age ≡ game.old.game.age) }
{
    // Dear to prove: of each frame there are five ways on, and what each leaves of two big values
    // is a case.
    'taking: loop {
        if reply_kept(game, connection)? {
            continue;
        }
        match connection.take()? {
            Take::Frame(payload) => {
                on_frame(game, connection, payload.as_slice())?;
                if connection.is_closed() {
                    return Ok(false);
                }
            }
            Take::More => return Ok(true),
            Take::Bad(fault) => {
                close(game, connection, Cause::Frame(fault))?;
                return Ok(false);
            }
        }
    }
}

/// Handles bytes of an open connection behind those that its splitter holds, as long as it is open.
fn read(game: &mut Game, connection: &mut Connection, bytes: &[u8]) -> Result<(), NoMemory>
    requires { is_closed connection.old.link.stage ≡ false }
    ensures done { (unread : Unread) → Holds connection.old.splitter unread → OnOk result
        (AreDone unread.before (unread.rest ++ bytes.now) game.old game.new connection.old
        connection.new) }
    ensures age { OnOk result (game.new.game.age ≡ game.old.game.age) }
{
    let mut rest = bytes;
    while !rest.is_empty() {
        let count = connection.feed(rest)?;
        if count == 0 {
            return Ok(());
        }
        rest = rest.split_at(count).1;
        let goes = frames(game, connection)?;
        if !goes {
            return Ok(());
        }
    }
    Ok(())
}

/// Handles bytes of a connection.
pub fn on_bytes(game: &mut Game, connection: &mut Connection, bytes: &[u8]) -> Result<(), NoMemory>
    ensures becomes { (unread : Unread) → Sits connection.old unread → OnOk result
        (Becomes game.old game.new
        (record connection.old { splitter = connection.new.splitter }) connection.new
        (definitions.on_bytes connection.old.id (seat_with game.old connection.old unread)
        bytes.now).seat) }
    ensures sits { (unread : Unread) → Sits connection.old unread → OnOk result
        (Sits connection.new (definitions.on_bytes connection.old.id
        (seat_with game.old connection.old unread) bytes.now).seat.unread) }
    ensures age { OnOk result (game.new.game.age ≡ game.old.game.age) }
{
    if connection.is_closed() {
        return Ok(());
    }
    read(game, connection, bytes)
}

/// Lets a connection go for a cause: it is closed if it is open, and owed nothing.
pub fn depart(game: &mut Game, connection: &mut Connection, cause: Cause) -> Result<(), NoMemory>
    ensures { (unread : Unread) → OnOk result
        (Becomes game.old game.new connection.old connection.new (definitions.depart
        connection.old.id cause (seat_with game.old connection.old unread)).seat) }
{
    connection.leave(cause);
    let_go(game, connection)
}
