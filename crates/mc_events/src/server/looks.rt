//! What is asked of one connection: how far it has come, what its client is shown a part of, and
//! whether its bytes end inside a frame.

ghost use Rattle.std.specs.Prelude.{◌≡◌, IfSome, Some, is_some};
ghost use Rattle.std.specs.FinMap.{get};
ghost use Rattle.mc_model.specs.declared.player.Player.{Player};
ghost use Rattle.mc_model.specs.Good.{in_play};
ghost use Rattle.mc_model.specs.World.{World};
ghost use Rattle.mc_showing.specs.Scenes.{IsPartOf};
ghost use Rattle.mc_events.specs.Asking.{is_inside_in, stage_in};
ghost use Rattle.mc_events.specs.Stands.{Stands};

use crate::server::Server;
use mc_flush::ClientView;
use mc_model::Stage;
use mc_showing::client_of;

impl Server {
    /// How far a connection has come, if it is there.
    pub fn stage(&self, k: u32) -> Option<Stage>
        ensures { (w : World) → Stands self.now w → result ≡ stage_in k w }
    {
        match self.connections.find(k) {
            Some(connection) => Some(connection.stage()),
            None => None,
        }
    }

    /// What the client of a connection is shown a part of, as it is now; None where it is not in
    /// play. It takes no memory.
    pub fn client(&self, k: u32) -> Option<ClientView<'_>>
        ensures some { (w : World) → Stands self.now w →
            is_some result ≡ in_play (get w.links k) }
        ensures part { (w : World) (p : Player) → Stands self.now w →
            get w.game.players k ≡ Some p → IfSome result (IsPartOf w.game p) }
    {
        match self.game.players().find(k) {
            Some(player) => client_of(&self.game, self.list.list(), player),
            None => None,
        }
    }

    /// Whether a connection is open, and some bytes of a frame came that is not whole yet.
    pub fn is_inside(&self, k: u32) -> bool
        ensures { (w : World) → Stands self.now w → result ≡ is_inside_in k w }
    {
        match self.connections.find(k) {
            Some(connection) => connection.is_inside(),
            None => false,
        }
    }
}
