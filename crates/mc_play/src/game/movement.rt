//! Where players that move or look about come to be.

ghost use Rattle.std.specs.Prelude.{◌≡◌, option_map};
ghost use Rattle.std.specs.FinMap.{get};
ghost use Rattle.std.specs.Option.{option_and_then};
ghost use Rattle.mc_model.specs.Movement.{moved, turned, arrive, arrived};
ghost use Rattle.mc_model.specs.Game.{spot_of};
ghost use Rattle.mc_play.specs.Acting.{Acts};
ghost use Rattle.mc_play.specs.Kept.{by_player, played, try_player};

use crate::game::Game;
use crate::game::acts::ActFault;
use mc_model::{Wish, spawn_spot};

impl Game {
    /// Where the player of a connection is, if it has one.
    pub(super) fn wish(&self, connection: u32) -> Option<Wish>
        ensures { result
            ≡ option_map (spot_of self.now.game) (get self.now.game.players connection) }
    {
        let player = self.players.find(connection)?;
        Some(Wish::of(&self.spot_of(player)))
    }

    /// Moves the player of a connection to where it wishes to be; out of the range to where players
    /// enter, of which its client is to be told.
    pub(super) fn arrive(&mut self, connection: u32, to: &Wish)
        ensures { self.new ≡ played self.old (by_player connection
            (λ p g. arrived connection p g to.now) self.old.game) self.old.aside }
    {
        let Some(player) = self.players.find(connection) else {
            return;
        };
        if to.is_in_range() {
            self.entities.place(player.eid, to.place());
            return;
        }
        self.entities
            .place(player.eid, spawn_spot(self.ground.terrain()));
        self.players.note_place(connection);
    }

    /// Moves the player of a connection to a place, given by patterns, if it has one. `BadNumber`
    /// where one of them stands for no number.
    pub(super) fn walk(&mut self, connection: u32, x: u64, y: u64, z: u64) -> Result<(), ActFault>
        ensures { Acts result self.old self.new (try_player connection
            (λ p g. arrive connection p (moved (spot_of g p) x y z) g) self.old.game) }
    {
        let Some(wish) = self.wish(connection) else {
            return Ok(());
        };
        let to = wish.moved(x, y, z).ok_or(ActFault::BadNumber)?;
        self.arrive(connection, &to);
        Ok(())
    }

    /// Turns the player of a connection, if it has one, as patterns say. `BadNumber` where one of
    /// them stands for no number.
    pub(super) fn turn(&mut self, connection: u32, yaw: u32, pitch: u32) -> Result<(), ActFault>
        ensures { Acts result self.old self.new (try_player connection
            (λ p g. arrive connection p (turned (spot_of g p) yaw pitch) g) self.old.game) }
    {
        let Some(wish) = self.wish(connection) else {
            return Ok(());
        };
        let to = wish.turned(yaw, pitch).ok_or(ActFault::BadNumber)?;
        self.arrive(connection, &to);
        Ok(())
    }

    /// Moves and turns the player of a connection, if it has one, as patterns say. `BadNumber`
    /// where one of them stands for no number.
    pub(super) fn walk_and_turn(
        &mut self,
        connection: u32,
        x: u64,
        y: u64,
        z: u64,
        yaw: u32,
        pitch: u32,
    ) -> Result<(), ActFault>
        ensures { Acts result self.old self.new (try_player connection
            (λ p g. arrive connection p (option_and_then (λ to. turned to yaw pitch)
            (moved (spot_of g p) x y z)) g) self.old.game) }
    {
        let Some(wish) = self.wish(connection) else {
            return Ok(());
        };
        let to = wish.moved(x, y, z).ok_or(ActFault::BadNumber)?;
        let to = to.turned(yaw, pitch).ok_or(ActFault::BadNumber)?;
        self.arrive(connection, &to);
        Ok(())
    }
}
