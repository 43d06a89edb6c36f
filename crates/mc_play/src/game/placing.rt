//! What players place.

ghost use Rattle.std.specs.Prelude.{◌≡◌, ◌⊎◌, ◌<◌, ◌≤◌, OnOk, Some};
ghost use Rattle.mc_fields.specs.PositionBits.{FitsCell};
ghost use Rattle.mc_slots.specs.Pile.{IsItem};
ghost use Rattle.mc_model.specs.Placing.{item_state, place_at, place_on, put_block};
ghost use Rattle.mc_model.specs.Game.{held_by};
ghost use Rattle.mc_play.specs.Kept.{by_player, played};

use crate::game::Game;
use crate::reach::at_face;
use mc_bytes::NoMemory;
use mc_fields::Cell;
use mc_land::is_chest;
use mc_slots::{Item, Pile, split};

/// The state that an item makes: its damage is the metadata.
fn item_state(item: &Item) -> u16
    requires { IsItem item.now }
    ensures is { result ≡ item_state item.now }
    ensures small { result < 4096 }
    ensures whole { (result ≡ 0) ⊎ (16 ≤ result) }
{
    item.id as u16 * 16 + item.damage as u16
}

impl Game {
    /// Puts one of what the player of a connection has in its hand into a cell that is free.
    fn put_block(&mut self, connection: u32, cell: Cell, target: Cell) -> Result<(), NoMemory>
        ensures { OnOk result (self.new ≡ played self.old (by_player connection
            (λ p g. put_block connection p cell target (held_by g p) g) self.old.game)
            self.new.aside) }
    {
        let Some(player) = self.players.find(connection) else {
            return Ok(());
        };
        let mut left = self.held_by(player);
        let Pile::Full(item) = split(&mut left, 1) else {
            return self.players.refuse_placing(connection, cell, target);
        };
        if !self.is_free(&target) {
            return self.players.refuse_placing(connection, cell, target);
        }
        self.set_state(target, item_state(&item))?;
        self.carry(connection, left);
        Ok(())
    }

    /// Places what the player of a connection has in its hand at a cell, next to one that it
    /// clicked; a chest that is clicked opens.
    fn place_at(&mut self, connection: u32, cell: Cell, target: Cell) -> Result<(), NoMemory>
        ensures { OnOk result (self.new ≡ played self.old (by_player connection
            (λ p. place_at connection p cell (Some target)) self.old.game) self.new.aside) }
    {
        let Some(player) = self.players.find(connection) else {
            return Ok(());
        };
        match self.reach(player, &cell) {
            None => self.players.refuse_placing(connection, cell, target),
            Some(state) if is_chest(state) => self.open_chest(connection, cell),
            Some(_) => self.put_block(connection, cell, target),
        }
    }

    /// Does what a placement of the player of a connection says: nothing, where the number names no
    /// face.
    pub(super) fn place_on(&mut self, connection: u32, cell: Cell, face: i8) -> Result<(), NoMemory>
        requires { FitsCell cell }
        ensures { OnOk result (self.new ≡ played self.old (by_player connection
            (λ p. place_on connection p cell face) self.old.game) self.new.aside) }
    {
        match at_face(&cell, face) {
            Some(target) => self.place_at(connection, cell, target),
            None => Ok(()),
        }
    }
}
