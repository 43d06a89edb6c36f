//! What one connection does: its bytes, its leaving, and what it takes of what it is owed.

ghost use Rattle.std.specs.Prelude.{◌≡◌, ◌<◌, ◌≤◌, None, OnOk, Some, option_map};
ghost use Rattle.std.specs.FinMap.{get};
ghost use Rattle.mc_model.specs.Step.{Event, came, took, step};
ghost use Rattle.mc_model.specs.declared.player.Player as declared;
ghost use Rattle.mc_model.specs.World.{World};
ghost use Rattle.mc_events.specs.Inputs.{IsLeaving};
ghost use Rattle.mc_events.specs.Listing.{Follows};
ghost use Rattle.mc_events.specs.Served.{age_of};
ghost use Rattle.mc_events.specs.Stands.{HasFailed, Stands, owes};

use crate::server::Server;
use mc_bytes::NoMemory;
use mc_links::{depart, on_bytes};
use mc_model::{Cause, Player};
use mc_showing::{LISTED_MAX, Roster};

/// Lists a player, unless one of its identifier is listed or the list is full.
fn add_player(list: &mut Roster, player: &Player) -> Result<(), NoMemory>
    ensures ok { OnOk result (Follows None (Some player.now) list.old list.new) }
    ensures last { list.new.last ≡ list.old.last }
{
    if list.list().has(player.uuid) || list.list().len() >= LISTED_MAX {
        return Ok(());
    }
    list.add(player.uuid, &player.name)
}

impl Server {
    /// Handles bytes of a connection.
    pub(super) fn bytes(&mut self, k: u32, bytes: &[u8]) -> Result<(), NoMemory>
        ensures follows { (w : World) → Stands self.old w →
            OnOk result (Stands self.new (step w (came k bytes.now)).world) }
        ensures age { OnOk result (age_of self.new ≡ age_of self.old) }
    {
        let was = self.identifier(k);
        let Some(connection) = self.connections.find_mut(k) else {
            return Ok(());
        };
        on_bytes(&mut self.game, connection, bytes)?;
        self.list_player(k, was)
    }

    /// Lets a connection go for a cause: it is closed, and owed nothing, and its player leaves.
    pub(super) fn leave(&mut self, k: u32, cause: Cause) -> Result<(), NoMemory>
        ensures follows { (w : World) (e : Event) → Stands self.old w → IsLeaving k cause e →
            OnOk result (Stands self.new (step w e).world) }
        ensures age { OnOk result (age_of self.new ≡ age_of self.old) }
    {
        let was = self.identifier(k);
        let Some(connection) = self.connections.find_mut(k) else {
            return Ok(());
        };
        depart(&mut self.game, connection, cause)?;
        self.list_player(k, was)
    }

    /// A connection took bytes of those that it is owed.
    pub fn took(&mut self, k: u32, n: usize)
        ensures follows { (w : World) → Stands self.old w →
            Stands self.new (step w (took k n)).world }
        ensures falls { 0 < n → n ≤ owes k self.old → owes k self.new < owes k self.old }
        ensures age { age_of self.new ≡ age_of self.old }
        ensures failed { HasFailed self.old → HasFailed self.new }
    {
        let Some(connection) = self.connections.find_mut(k) else {
            return;
        };
        connection.took(n);
    }

    // ---- the list of players

    /// The identifier of the player of a connection, if it has one.
    fn identifier(&self, k: u32) -> Option<u128>
        ensures { result
            ≡ option_map (λ (p : declared.Player). p.uuid) (get self.now.game.game.players k) }
    {
        let player = self.game.players().find(k)?;
        Some(player.uuid)
    }

    /// Lists the player of a connection that had one of this identifier, or none: one that came is
    /// listed, and one that went no more.
    fn list_player(&mut self, k: u32, was: Option<u128>) -> Result<(), NoMemory>
        ensures rest { self.new ≡ record self.old { list = self.new.list } }
        ensures list { OnOk result (Follows was (get self.old.game.game.players k)
            self.old.list self.new.list) }
        ensures last { self.new.list.last ≡ self.old.list.last }
    {
        match (was, self.game.players().find(k)) {
            (None, Some(player)) => add_player(&mut self.list, player),
            (Some(uuid), None) => {
                self.list.remove(uuid);
                Ok(())
            }
            _ => Ok(()),
        }
    }
}
