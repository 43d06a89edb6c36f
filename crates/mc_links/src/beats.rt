//! Beats: a client in play is told one every so often and is to answer, or it is silent.

ghost use Rattle.std.specs.Prelude.{◌≡◌, ◌≤◌, OnOk};
ghost use Rattle.mc_links.specs.Beating.{IsBeaten};

use crate::Connection;
use mc_bytes::NoMemory;
use mc_model::{Cause, beat_at};
use mc_play::Game;

/// The beat of a game comes to a connection. Where its client is in play and was told another or
/// none, it owes an answer more, or the connection is closed, since its client is silent.
pub fn beat(game: &Game, connection: &mut Connection) -> Result<(), NoMemory>
    requires { game.now.game.age ≤ 1000000000 }
    ensures beaten { OnOk result (IsBeaten game.now.game connection.old connection.new) }
    ensures same { connection.new.id ≡ connection.old.id }
{
    if game.players().find(connection.id()).is_none() {
        return Ok(());
    }
    if connection.was_told(beat_at(game.age())) {
        return Ok(());
    }
    if connection.is_silent() {
        return connection.disconnect(Cause::Silent);
    }
    connection.await_answer();
    Ok(())
}
