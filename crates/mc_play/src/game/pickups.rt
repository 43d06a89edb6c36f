//! What players pick up.

ghost use Rattle.std.specs.Prelude.{◌≡◌, ◌++◌, ◌≤◌, ◌∷◌, [], IfOk, OnOk};
ghost use Rattle.std.specs.List.{filter_map, list_any};
ghost use Rattle.mc_entities.specs.declared.entity.Entity.{Entity};
ghost use Rattle.mc_entities.specs.Kinds.{is_dropped};
ghost use Rattle.mc_slots.specs.Pile.{IsItem, IsPile, pile_of};
ghost use Rattle.mc_model.specs.Deeds.{lessened};
ghost use Rattle.mc_model.specs.Pickups.{pick_up, pickers, pickups, ripe_for};
ghost use Rattle.mc_play.specs.Kept.{by_player, played};
ghost use Rattle.mc_play.specs.Picking.{all_picked, all_stowed, picker, stowed_by, without_those};

use crate::Players;
use crate::game::Game;
use crate::ripe::{Ripe, ripe_among};
use mc_bytes::NoMemory;
use mc_entities::{Entity, EntityKind};
use mc_model::Player;
use mc_slots::{Item, Pile, split};
use mc_windows::store;
use std::alloc::Global;
use std::collections::BTreeSet;

/// So many of an item, of which there are as many at least.
fn some_of(item: Item, count: u8) -> Pile
    requires item { IsItem item }
    requires few { count ≤ item.count }
    ensures is { result ≡ pile_of item count }
    ensures range { IsPile result }
{
    let mut pile = Pile::Full(item);
    split(&mut pile, count)
}

/// The connection whose player an entity is; None of an item.
fn picker_of(players: &Players, entity: &Entity) -> Option<u32>
    ensures { result ≡ picker players.now entity.now }
{
    match entity.kind {
        EntityKind::Dropped { .. } => None,
        _ => players.playing_as(&entity.eid),
    }
}

/// Puts the connection whose player an entity is behind others; of an item nothing.
fn put_picker(
    players: &Players,
    entity: &Entity,
    connections: &mut Vec<u32>,
) -> Result<(), NoMemory>
    ensures { OnOk result (connections.new.items
        ≡ connections.old.items ++ filter_map (picker players.now) (entity.now ∷ [])) }
{
    if let Some(connection) = picker_of(players, entity) {
        connections.push(connection)?;
    }
    Ok(())
}

/// The connections whose players entities are, in the order of these.
fn pickers_among(
    alloc: Global,
    players: &Players,
    entities: &[Entity],
) -> Result<Vec<u32>, NoMemory>
    ensures { IfOk result (λ connections.
        connections.items ≡ filter_map (picker players.now) entities.now) }
{
    let mut connections = Vec::new(alloc);
    for entity in entities {
        put_picker(players, entity, &mut connections)?;
    }
    Ok(connections)
}

/// Whether some of these entities are items.
fn are_items_among(entities: &[Entity]) -> bool
    ensures { result ≡ list_any (λ (e : Entity). is_dropped e.kind) entities.now }
{
    entities
        .iter()
        .any(|entity| matches!(entity.kind, EntityKind::Dropped { .. }))
}

impl Game {
    // ---- one item

    /// Makes what lies under a number so much; where that is nothing, its number is put among those
    /// that go.
    fn lessen(&mut self, eid: i32, left: Pile, gone: &mut BTreeSet<i32>) -> Result<(), NoMemory>
        requires { IsPile left }
        ensures is { OnOk result (without_those gone.new.keys self.new.game
            ≡ lessened eid left (without_those gone.old.keys self.old.game)) }
        ensures rest { self.new ≡ played self.old self.new.game self.new.aside }
        ensures ready { self.new.aside.ready ≡ self.old.aside.ready }
    {
        match left {
            Pile::Empty => {
                gone.insert(eid)?;
            }
            Pile::Full(item) => self.entities.lie_as(eid, item),
        }
        Ok(())
    }

    /// Puts an item into the pack of the player of a connection as far as that has room, if it has
    /// one; what is left of it stays there, and where nothing is its number is put among those that
    /// go.
    fn stow(
        &mut self,
        connection: u32,
        found: Ripe,
        gone: &mut BTreeSet<i32>,
    ) -> Result<(), NoMemory>
        ensures is { OnOk result (without_those gone.new.keys self.new.game
            ≡ stowed_by connection (without_those gone.old.keys self.old.game) found) }
        ensures rest { self.new ≡ played self.old self.new.game self.new.aside }
        ensures ready { self.new.aside.ready ≡ self.old.aside.ready }
    {
        let Some(player) = self.players.find(connection) else {
            return Ok(());
        };
        let mut pack = self.pack_of(player);
        let left = store(&mut pack, found.item);
        self.repack(connection, pack);
        self.lessen(found.eid, some_of(found.item, left), gone)
    }

    // ---- all that one can

    /// What a player can pick up, in rising number.
    fn ripe_for(&self, player: &Player) -> Result<Vec<Ripe>, NoMemory>
        ensures { IfOk result (λ found. found.items ≡ ripe_for player.now self.now.game) }
    {
        let spot = self.spot_of(player);
        ripe_among(self.alloc, self.age, &spot, self.entities.folk().all())
    }

    /// Puts items into the pack of the player of a connection, one after another, if it has one,
    /// and the numbers of those of which nothing is left among those that go.
    fn stow_all(
        &mut self,
        connection: u32,
        found: &[Ripe],
        gone: &mut BTreeSet<i32>,
    ) -> Result<(), NoMemory>
        ensures is { OnOk result (without_those gone.new.keys self.new.game
            ≡ all_stowed connection found.now (without_those gone.old.keys self.old.game)) }
        ensures rest { self.new ≡ played self.old self.new.game self.new.aside }
        ensures ready { self.new.aside.ready ≡ self.old.aside.ready }
    {
        for ripe in found {
            self.stow(connection, *ripe, gone)?;
        }
        Ok(())
    }

    /// Puts items into the pack of the player of a connection, one after another, if it has one.
    /// Those of which nothing is left go in one pass over all entities.
    fn take_all(&mut self, connection: u32, found: &[Ripe]) -> Result<(), NoMemory>
        ensures is { OnOk result (self.new ≡ played self.old
            (all_stowed connection found.now self.old.game) self.new.aside) }
        ensures ready { OnOk result (self.new.aside.ready ≡ self.old.aside.ready) }
    {
        if found.is_empty() {
            return Ok(());
        }
        let mut gone = BTreeSet::new(self.alloc);
        self.stow_all(connection, found, &mut gone)?;
        self.entities.take_all(&gone);
        Ok(())
    }

    /// Lets the player of a connection pick up what it can, if it has one.
    fn pick_up(&mut self, connection: u32) -> Result<(), NoMemory>
        ensures is { OnOk result (self.new ≡ played self.old
            (by_player connection pick_up self.old.game) self.new.aside) }
        ensures ready { OnOk result (self.new.aside.ready ≡ self.old.aside.ready) }
    {
        let Some(player) = self.players.find(connection) else {
            return Ok(());
        };
        let found = self.ripe_for(player)?;
        self.take_all(connection, found.as_slice())
    }

    // ---- all players

    /// The connections of players, in rising number of their entities.
    pub(super) fn pickers(&self) -> Result<Vec<u32>, NoMemory>
        ensures { IfOk result (λ connections. connections.items ≡ pickers self.now.game) }
    {
        pickers_among(self.alloc, &self.players, self.entities.folk().all())
    }

    /// Lets the players of connections pick up what they can, one after another.
    fn pick_up_each(&mut self, connections: &[u32]) -> Result<(), NoMemory>
        ensures is { OnOk result (self.new ≡ played self.old
            (all_picked connections.now self.old.game) self.new.aside) }
        ensures ready { OnOk result (self.new.aside.ready ≡ self.old.aside.ready) }
    {
        for connection in connections {
            self.pick_up(*connection)?;
        }
        Ok(())
    }

    /// Lets all players pick up what they can, one after another in rising number of their
    /// entities: items that lie beside them and have lain there long enough. Where nothing lies
    /// anywhere, no player is looked at.
    #[tactic(auto, unfolding(mc_model::specs::Pickups::pickups))]
    pub fn pick_up_all(&mut self) -> Result<(), NoMemory>
        ensures is { OnOk result (self.new
            ≡ played self.old (pickups self.old.game) self.new.aside) }
        ensures ready { OnOk result (self.new.aside.ready ≡ self.old.aside.ready) }
    {
        if !are_items_among(self.entities.folk().all()) {
            return Ok(());
        }
        let connections = self.pickers()?;
        self.pick_up_each(connections.as_slice())
    }
}
