ghost use Rattle.std.specs.Prelude.{◌≡◌, ◌≤◌, ◌<◌, ◌+◌, ℕ, suc, None, IfOk, IfSome, OnErr, OnOk};
ghost use Rattle.std.specs.Prelude.{◌*◌, ◌^◌, map, nat_lt, true};
ghost use lib.IntN.{pos};
ghost use Rattle.mc_slots.specs.Pile.{IsItem, IsPile, count_of};
ghost use Rattle.mc_slots.specs.declared.pile.Item as items;
ghost use Rattle.mc_slots.specs.declared.pile.Pile as piles;
ghost use Rattle.mc_entities.specs.declared.entity.Entity as entities;
ghost use Rattle.mc_entities.specs.declared.entity.EntityKind as kinds;
ghost use Rattle.mc_entities.specs.declared.entity.EntityKind.TheVariants as variants;
ghost use Rattle.mc_entities.specs.declared.entity.TheConstants.{EID_MAX};
ghost use Rattle.mc_entities.specs.Folk.{HasRoom, entity_of, mobs_in, new_state, placed, removed};
ghost use Rattle.mc_entities.specs.Folk.{removed_all, room_of, settled, spawned, ticked};
ghost use Rattle.mc_entities.specs.Folk.{with_entity, with_kind};
ghost use Rattle.mc_entities.specs.Kinds.{IsKind, are_alike};
ghost use Rattle.mc_entities.specs.Plans.{asked};
ghost use Rattle.mc_model.specs.declared.mobs.TheConstants.{MOBS_MAX};
ghost use Rattle.mc_model.specs.Mobs.{mob_spot};
ghost use Rattle.mc_model.specs.Things.{hand_of, holding, kind_of_item, lying_as};
ghost use Rattle.mc_model.specs.Spots.{spot_in};
ghost use Rattle.mc_play.specs.Census.{entities_items};
ghost use Rattle.mc_play.specs.Kept.{AreNear, IsNear, mobs_begun};

mod fields;

use crate::census::kind_items;
use mc_bytes::NoMemory;
use mc_entities::{Entity, EntityKind, Folk, Mind};
use mc_fields::Spot;
use mc_land::Terrain;
use mc_model::{Eid, mob_spot, spawn_spot};
use mc_slots::{Item, Pile};
use std::alloc::Global;
use std::collections::BTreeSet;
use std::marker::Model;

/// The mobs, the players in play and the dropped items, each where its column can be shown.
#[derive(Drop)]
pub struct Entities {
    folk: Folk,
}

impl Model for Entities {
    ghost use Rattle.mc_entities.specs.Folk.{FolkValue};
    ghost use Rattle.mc_play.specs.Kept.{AreNear};

    ghost Value = { FolkValue };

    ghost view = { λ entities. entities.folk };

    ghost invariant = { λ entities. AreNear entities.folk.state.entities };
}

impl Entities {
    /// Nobody, and nothing.
    pub fn new(alloc: Global) -> Entities
        ensures { result ≡ record { state = new_state; reserve = 0 } }
    {
        Entities {
            folk: Folk::new(alloc),
        }
    }

    /// So many mobs, each where it begins.
    #[tactic(auto, using(crate::proofs::Mobs::mobs_next))]
    pub fn with_mobs(alloc: Global, terrain: &Terrain, mobs: u32) -> Result<Entities, NoMemory>
        requires { mobs ≤ MOBS_MAX }
        ensures { IfOk result (λ entities. entities.state ≡ mobs_begun terrain.now mobs) }
    {
        let mut entities = Entities::new(alloc);
        for i in 0..mobs {
            entities.add_mob(terrain, i)?;
        }
        Ok(entities)
    }

    /// Adds a mob where the one begins before which so many others are.
    fn add_mob(&mut self, terrain: &Terrain, i: u32) -> Result<(), NoMemory>
        requires { i < MOBS_MAX }
        ensures { OnOk result (self.new.state
            ≡ spawned variants.Mob (mob_spot terrain.now i) self.old.state) }
    {
        match self.folk.spawn(EntityKind::Mob, mob_spot(terrain, i)) {
            Ok(_) => Ok(()),
            Err(_) => Err(NoMemory),
        }
    }

    /// All of them.
    pub fn folk(&self) -> &Folk
        ensures is { result.now ≡ self.now }
        ensures near { AreNear result.now.state.entities }
    {
        &self.folk
    }

    /// How many items lie.
    pub fn items(&self) -> u128
        ensures is { result ≡ entities_items count_of self.now.state.entities }
        ensures few { result ≤ 255 * 2 ^ 64 }
    {
        items_among(self.folk.all())
    }

    /// How many more dropped items may lie.
    pub fn room(&self) -> u32
        ensures { result ≡ room_of self.now.state }
    {
        self.folk.room()
    }

    /// Whether one more can have a number.
    pub fn has_number(&self) -> bool
        ensures { result ≡ nat_lt self.now.state.given EID_MAX }
    {
        // All of them tell that no number above the last one was given.
        let _all = self.folk.all();
        !self.folk.is_spent()
    }

    /// Where the one of a number is and looks; where players enter, if there is none.
    pub fn spot_of(&self, terrain: &Terrain, eid: Eid) -> Spot
        ensures is { result ≡ spot_in terrain.now self.now.state.entities eid }
        ensures near { IsNear result }
    {
        match self.folk.get(eid.number()) {
            Some(entity) => entity.spot,
            None => spawn_spot(terrain),
        }
    }

    /// Makes places for so many more. Without memory all is as before.
    pub fn reserve(&mut self, n: u32) -> Result<(), NoMemory>
        ensures ok { OnOk result (n ≤ self.new.reserve) }
        ensures same { self.new.state ≡ self.old.state }
    {
        self.folk.reserve(n)
    }

    /// Adds a player under the next number, and answers that. Without memory all is as before.
    pub fn enter(&mut self, uuid: u128, held: Pile, spot: Spot) -> Result<Eid, NoMemory>
        requires number { self.old.state.given < EID_MAX }
        requires pile { IsPile held }
        requires near { IsNear spot }
        ensures eid { IfOk result (λ eid. eid ≡ self.old.state.given + 1) }
        ensures state { OnOk result (self.new.state
            ≡ spawned (variants.Player uuid held) spot self.old.state) }
        ensures err { OnErr result (self.new.state ≡ self.old.state) }
    {
        match self.folk.spawn(EntityKind::Player { uuid, held }, spot) {
            Ok(eid) => Ok(Eid::of(eid)),
            Err(_) => Err(NoMemory),
        }
    }

    /// Lets an item lie at a spot, for which there is a place, if there is room for it.
    pub fn drop_item(&mut self, item: Item, born: u64, spot: Spot)
        requires item { IsItem item }
        requires near { IsNear spot }
        requires room { 0 < room_of self.old.state }
        requires place { 0 < self.old.reserve }
        ensures state { self.new.state ≡ spawned (variants.Dropped item born) spot self.old.state }
        ensures rest { (n : ℕ) → HasRoom (suc n) self.old → HasRoom n self.new }
        ensures places { self.old.reserve ≤ self.new.reserve + 1 }
    {
        let _eid = self.folk.spawn(EntityKind::Dropped { item, born }, spot);
    }

    /// Puts the one of a number at a spot.
    pub fn place(&mut self, eid: Eid, spot: Spot)
        requires { IsNear spot }
        ensures { self.new ≡ record self.old { state = placed (pos eid) spot self.old.state } }
    {
        self.folk.place(eid.number(), spot);
    }

    /// Gives the player of a number another pile to hold.
    pub fn hold(&mut self, eid: Eid, pile: Pile)
        requires { IsPile pile }
        ensures { self.new
            ≡ record self.old { state = with_entity (pos eid) (holding pile) self.old.state } }
    {
        let eid = eid.number();
        if let Some(kind) = kind_of(&self.folk, eid) {
            self.folk.set_kind(eid, hand_of(pile, kind));
        }
    }

    /// Takes the player of a number out.
    pub fn remove(&mut self, eid: Eid)
        ensures { self.new.state ≡ removed (pos eid) self.old.state }
    {
        self.take_away(eid.number());
    }

    /// Takes the one of a number out.
    pub fn take_away(&mut self, eid: i32)
        ensures { self.new.state ≡ removed eid self.old.state }
    {
        let _gone = self.folk.remove(eid);
    }

    /// Takes the ones of numbers out, in one pass over all.
    pub fn take_all(&mut self, eids: &BTreeSet<i32>)
        ensures { self.new.state ≡ removed_all eids.now.keys self.old.state }
    {
        self.folk.remove_all(eids);
    }

    /// Makes what lies under a number another item, which was dropped when the first was.
    pub fn lie_as(&mut self, eid: i32, item: Item)
        requires { IsItem item }
        ensures { self.new
            ≡ record self.old { state = with_entity eid (lying_as item) self.old.state } }
    {
        if let Some(kind) = kind_of(&self.folk, eid) {
            self.folk.set_kind(eid, kind_of_item(item, kind));
        }
    }

    /// Lets mind i move the i-th mob by rising number, but where it would leave the range.
    pub fn move_mobs<M: Mind>(&mut self, minds: &mut [M])
        ensures state { self.new.state
            ≡ ticked (map (λ mind. M.plan mind) minds.old) self.old.state }
        ensures plans { map (λ mind. M.plan mind) minds.new
            ≡ asked (mobs_in self.old.state.entities) (map (λ mind. M.plan mind) minds.old) }
        ensures reserve { self.new.reserve ≡ self.old.reserve }
    {
        self.folk.tick(minds);
    }

    /// Keeps where each is, as what everyone who knows it was told of it. It takes no memory.
    pub fn settle(&mut self)
        ensures { self.new.state ≡ settled self.old.state }
    {
        self.folk.settle();
    }
}

/// How many items lie among entities.
fn items_among(entities: &[Entity]) -> u128
    ensures is { result ≡ entities_items count_of entities.now }
    ensures few { result ≤ 255 * 2 ^ 64 }
{
    let mut total: u128 = 0;
    for entity in entities {
        total += u128::from(kind_items(&entity.kind));
    }
    total
}

/// What something is that holds a pile: a player holds it, others stay what they are.
fn hand_of(pile: Pile, kind: EntityKind) -> EntityKind
    requires pile { IsPile pile }
    requires kind { IsKind kind }
    ensures is { result ≡ hand_of pile kind }
    ensures range { IsKind result }
    ensures alike { are_alike kind result ≡ true }
{
    match kind {
        EntityKind::Player { uuid, .. } => EntityKind::Player { uuid, held: pile },
        _ => kind,
    }
}

/// What something is that becomes an item: an item becomes it, others stay what they are.
fn kind_of_item(item: Item, kind: EntityKind) -> EntityKind
    requires item { IsItem item }
    requires kind { IsKind kind }
    ensures is { result ≡ kind_of_item item kind }
    ensures range { IsKind result }
    ensures alike { are_alike kind result ≡ true }
{
    match kind {
        EntityKind::Dropped { born, .. } => EntityKind::Dropped { item, born },
        _ => kind,
    }
}

/// What the one of a number is; None where there is none.
fn kind_of(folk: &Folk, eid: i32) -> Option<EntityKind>
    ensures range { IfSome result (λ kind. IsKind kind) }
    ensures alike { IfSome result (λ kind. (other : kinds.EntityKind) →
        are_alike kind other ≡ true →
        IfSome (entity_of eid folk.now.state) (λ e. are_alike e.kind other ≡ true)) }
    // It alone changes where those of the number do.
    ensures holds { IfSome result (λ kind. (pile : piles.Pile) →
        with_kind eid (hand_of pile kind) folk.now.state
        ≡ with_entity eid (holding pile) folk.now.state) }
    ensures lies { IfSome result (λ kind. (item : items.Item) →
        with_kind eid (kind_of_item item kind) folk.now.state
        ≡ with_entity eid (lying_as item) folk.now.state) }
    ensures none { result ≡ None → (f : entities.Entity → entities.Entity) →
        with_entity eid f folk.now.state ≡ folk.now.state }
{
    // Numbers rise among all entities.
    let _all = folk.all();
    let entity = folk.get(eid)?;
    Some(entity.kind)
}
