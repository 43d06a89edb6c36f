//! What players dig and drop.

ghost use Rattle.std.specs.Prelude.{◌≡◌, ◌⊎◌, ◌<◌, ◌≤◌, ◌&&◌, ◌+ℤ◌, ◌*ℤ◌, ℕ, suc, nat_le, nat_lt};
ghost use Rattle.std.specs.Prelude.{◌+◌, length, true, IfOk, OnErr, OnOk, unsigned_abs};
ghost use Rattle.std.specs.List.{filter_map};
ghost use lib.IntN.{pos};
ghost use Rattle.mc_land.specs.Places.{is_inside};
ghost use Rattle.mc_slots.specs.Pile.{IsItem};
ghost use Rattle.mc_entities.specs.Folk.{HasRoom};
ghost use Rattle.mc_model.specs.Digging.{all_thrown, block_item, floor_of, is_dug, item_of, dig};
ghost use Rattle.mc_model.specs.Digging.{digging, drop_held, dug, dug_items, stacks_at};
ghost use Rattle.mc_model.specs.Deeds.{thrown};
ghost use Rattle.mc_model.specs.Game.{held_by, room_in, state_in};
ghost use Rattle.mc_model.specs.Windows.{feet_of};
ghost use Rattle.mc_play.specs.Kept.{IsNear, TakesOne, by_player, folk_of, played};

use crate::game::Game;
use mc_bytes::NoMemory;
use mc_fields::{Cell, Spot};
use mc_model::Player;
use mc_slots::{Chest, Item, Pile, split};

/// Whether a block of a state is dug: not air, and not bedrock.
fn is_dug(state: u16) -> bool
    ensures { result ≡ is_dug state }
{
    state != 0 && state / 16 != 7
}

/// One of what a cell of a state was.
fn block_item(state: u16) -> Item
    ensures { result ≡ block_item state }
{
    Item {
        id: (state / 16) as i16,
        damage: (state % 16) as i16,
        count: 1,
    }
}

/// The item of a pile.
fn item_of(pile: &Pile) -> Option<Item>
    ensures { result ≡ item_of pile.now }
{
    match pile {
        Pile::Empty => None,
        Pile::Full(item) => Some(*item),
    }
}

/// How many of the piles of a chest are not empty.
fn stacks_in(piles: &[Pile]) -> usize
    ensures { result ≡ length (filter_map item_of piles.now) }
{
    piles.iter().filter_map(|pile| item_of(pile)).count()
}

/// How many items fall at most where a cell is dug: what it was, so many that lay in it, and what
/// hangs on the cursors of those that are shown it.
fn places_for(stacks: u32, viewers: &[u32]) -> Result<u32, NoMemory>
    ensures { IfOk result (λ n. n ≡ 1 + stacks + length viewers.now) }
{
    match u32::try_from(1 + stacks as usize + viewers.len()) {
        Ok(places) => Ok(places),
        Err(_) => Err(NoMemory),
    }
}

/// Where a block begins along an axis.
fn edge_of(block: i32) -> i32
    requires { unsigned_abs block ≤ 30000000 }
    ensures { result ≡ pos 32 *ℤ block }
{
    32 * block
}

/// Where its middle is.
fn middle_of(block: i32) -> i32
    requires { unsigned_abs block ≤ 30000000 }
    ensures { result ≡ pos 32 *ℤ block +ℤ pos 16 }
{
    32 * block + 16
}

/// The middle of the floor of a cell.
fn floor_of(cell: &Cell) -> Spot
    requires { is_inside cell.now.x cell.now.y cell.now.z ≡ true }
    ensures is { result ≡ floor_of cell.now }
    ensures near { IsNear result }
{
    Spot {
        x: middle_of(cell.x),
        y: edge_of(cell.y),
        z: middle_of(cell.z),
        yaw: 0,
        pitch: 0,
    }
}

impl Game {
    /// Whether one more dropped item may lie.
    pub(super) fn may_drop(&self) -> bool
        ensures { result ≡ nat_lt 0 (room_in self.now.game) }
    {
        self.entities.room() > 0
    }

    /// Makes places for so many more entities. Without memory all is as before.
    pub(super) fn reserve(&mut self, n: u32) -> Result<(), NoMemory>
        ensures ok { OnOk result (n ≤ self.new.aside.reserve) }
        ensures is { self.new ≡ played self.old self.old.game self.new.aside }
        ensures ready { self.new.aside.ready ≡ self.old.aside.ready }
    {
        self.entities.reserve(n)
    }

    /// Lets an item lie at a spot, for which there are room and a place.
    pub(super) fn drop_item(&mut self, item: Item, spot: Spot)
        requires item { IsItem item }
        requires near { IsNear spot }
        requires room { 0 < room_in self.old.game }
        requires place { 0 < self.old.aside.reserve }
        ensures is { self.new ≡ played self.old (thrown item spot self.old.game) self.new.aside }
        ensures rest { (n : ℕ) → HasRoom (suc n) (folk_of self.old) → HasRoom n (folk_of self.new) }
        ensures one { TakesOne self.old.aside self.new.aside }
    {
        self.entities.drop_item(item, self.age, spot);
    }

    /// Lets what lies in a chest lie at a spot, slot by slot, for which there are room and places.
    fn drop_all(&mut self, chest: &Chest, spot: Spot)
        requires near { IsNear spot }
        requires room { HasRoom (length (filter_map item_of chest.now)) (folk_of self.old) }
        ensures is { self.new ≡ played self.old
            (all_thrown (filter_map item_of chest.now) spot self.old.game) self.new.aside }
        ensures places { self.old.aside.reserve
            ≤ self.new.aside.reserve + length (filter_map item_of chest.now) }
    {
        for i in 0..chest.as_slice().len() {
            if let Pile::Full(item) = chest.get(i) {
                self.drop_item(item, spot);
            }
        }
    }

    /// The chest at a cell; an empty one, where there is none.
    fn chest_at(&self, cell: &Cell) -> Chest
        ensures { filter_map item_of result ≡ stacks_at cell.now self.now.game }
    {
        match self.ground.chest(cell) {
            Some(chest) => *chest,
            None => Chest::new(),
        }
    }

    /// Whether all that comes of a cell may lie.
    fn may_take_out(&self, cell: &Cell) -> bool
        ensures { result ≡ nat_le (length (dug_items cell.now self.now.game))
            (room_in self.now.game) }
    {
        let chest = self.chest_at(cell);
        stacks_in(chest.as_slice()) < self.entities.room() as usize
    }

    /// Makes a cell air; what it was lies there, and what lay in it, and then the windows on it
    /// close. Without memory all is as before.
    fn take_out(&mut self, cell: Cell, state: u16) -> Result<(), NoMemory>
        requires inside { is_inside cell.x cell.y cell.z ≡ true }
        requires is { state ≡ state_in self.old.game cell }
        requires dug { is_dug state ≡ true }
        requires small { state < 4096 }
        requires whole { (state ≡ 0) ⊎ (16 ≤ state) }
        requires room { length (dug_items cell self.old.game) ≤ room_in self.old.game }
        ensures ok { OnOk result (self.new
            ≡ played self.old (dug cell self.old.game) self.new.aside) }
        ensures err { OnErr result (self.new
            ≡ played self.old self.old.game self.new.aside) }
    {
        let chest = self.chest_at(&cell);
        let viewers = self.viewers(&cell)?;
        let stacks = stacks_in(chest.as_slice()) as u32;
        let places = places_for(stacks, viewers.as_slice())?;
        self.reserve(places)?;
        self.set_state(cell, 0)?;
        let spot = floor_of(&cell);
        self.drop_item(block_item(state), spot);
        self.drop_all(&chest, spot);
        self.shut_all(viewers.as_slice());
        Ok(())
    }

    /// Digs a cell for the player of a connection, or notes it where that may not be. Without
    /// memory all is as before.
    fn dig(&mut self, connection: u32, cell: Cell) -> Result<(), NoMemory>
        ensures ok { OnOk result (self.new ≡ played self.old (by_player connection
            (λ p. dig connection p cell) self.old.game) self.new.aside) }
        ensures err { OnErr result (self.new
            ≡ played self.old self.old.game self.new.aside) }
    {
        let Some(player) = self.players.find(connection) else {
            return Ok(());
        };
        match self.reach(player, &cell) {
            Some(state) if is_dug(state) && self.may_take_out(&cell) => self.take_out(cell, state),
            _ => self.players.note_cell(connection, cell),
        }
    }

    /// Where lies what a player drops.
    pub(super) fn feet_of(&self, player: &Player) -> Spot
        ensures is { result ≡ feet_of player.now self.now.game }
        ensures near { IsNear result }
    {
        Spot {
            yaw: 0,
            pitch: 0,
            ..self.spot_of(player)
        }
    }

    /// Drops at most so many of what the player of a connection has in its hand, or notes that its
    /// client is to be sent its window again, where there is no room. Without memory all is as
    /// before.
    fn drop_held(&mut self, connection: u32, n: u8) -> Result<(), NoMemory>
        requires { 0 < n }
        ensures ok { OnOk result (self.new ≡ played self.old (by_player connection
            (λ p g. drop_held connection p n (held_by g p) g) self.old.game) self.new.aside) }
        ensures err { OnErr result (self.new
            ≡ played self.old self.old.game self.new.aside) }
    {
        let Some(player) = self.players.find(connection) else {
            return Ok(());
        };
        let mut left = self.held_by(player);
        let Pile::Full(item) = split(&mut left, n) else {
            return Ok(());
        };
        if !self.may_drop() {
            self.players.note_window(connection);
            return Ok(());
        }
        let spot = self.feet_of(player);
        self.entities.reserve(1)?;
        self.carry(connection, left);
        self.drop_item(item, spot);
        Ok(())
    }

    /// Does what a digging of the player of a connection says: 2 digs a cell, 3 drops what is held
    /// and 4 one of it. Without memory all is as before.
    pub(super) fn digging(
        &mut self,
        connection: u32,
        status: i8,
        cell: Cell,
    ) -> Result<(), NoMemory>
        ensures ok { OnOk result (self.new ≡ played self.old (by_player connection
            (λ p. digging connection p status cell) self.old.game) self.new.aside) }
        ensures err { OnErr result (self.new
            ≡ played self.old self.old.game self.new.aside) }
    {
        match status {
            2 => self.dig(connection, cell),
            3 => self.drop_held(connection, 64),
            4 => self.drop_held(connection, 1),
            _ => Ok(()),
        }
    }
}
