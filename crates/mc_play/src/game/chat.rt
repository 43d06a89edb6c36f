//! What players say.

ghost use Rattle.std.specs.Prelude.{◌≡◌, ◌≤◌, OnErr, OnOk, length};
ghost use Rattle.mc_model.specs.Chat.{say};
ghost use Rattle.mc_play.specs.Kept.{by_player, played};

use crate::game::Game;
use mc_bytes::{NoMemory, Text};

impl Game {
    /// Keeps a text of the player of a connection: all in play are told it at the next tick.
    /// Without memory all is as before.
    pub(super) fn say(&mut self, connection: u32, text: &Text) -> Result<(), NoMemory>
        requires { length text.now ≤ 400 }
        ensures ok { OnOk result (self.new ≡ played self.old
            (by_player connection (λ p. say p text.now) self.old.game) self.old.aside) }
        ensures err { OnErr result (self.new ≡ self.old) }
    {
        let Some(player) = self.players.find(connection) else {
            return Ok(());
        };
        self.lines.add(self.alloc, &player.name, text)?;
        Ok(())
    }
}
