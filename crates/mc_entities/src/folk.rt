ghost use Rattle.std.specs.Prelude.{◌≡◌, ◌≤◌, ◌<◌, ◌+◌, ◌++◌, ◌∷◌, ◌↔◌, ℕ, [], Ok, Err, None};
ghost use Rattle.std.specs.Prelude.{IfOk, OnOk, OnErr, IfSome, IsOk, is_some, map, suc, true};
ghost use Rattle.std.specs.Prelude.{false};
ghost use lib.IntN.{pos};
ghost use Rattle.std.specs.Option.{option_copied};
ghost use Rattle.mc_entities.specs.declared.fault.FolkFault.TheVariants as folk_faults;
ghost use Rattle.mc_entities.specs.declared.entity.TheConstants.{DROPPED_MAX, EID_MAX};
ghost use Rattle.mc_entities.specs.Kinds.{IsKind, are_alike, is_dropped};
ghost use Rattle.mc_entities.specs.Numbers.{Rise};
ghost use Rattle.mc_entities.specs.Plans.{asked};
ghost use Rattle.mc_entities.specs.Folk.{HasRoom, dropped_in, eid_of, entity_of, is_full, is_spent};
ghost use Rattle.mc_entities.specs.Folk.{mobs_in, new_state, placed, removed, removed_all};
ghost use Rattle.mc_entities.specs.Folk.{room_of, settled};
ghost use Rattle.mc_entities.specs.Folk.{shifted, spawned, ticked, told_of, with_kind};
ghost use Rattle.mc_entities.specs.Kept.{AreKinds, IsPlaced, one_if};

use crate::entity::{DROPPED_MAX, EID_MAX, Entity, EntityKind};
use crate::fault::FolkFault;
use crate::mind::{Mind, Move};
use crate::places::{
    dropped_among, forget, forget_all, leave_out, place_of, settle_told, told_place,
};
use crate::shifting::shift_spot;
use crate::ticking::tick_all;
use mc_bytes::NoMemory;
use mc_fields::Spot;
use std::alloc::Global;
use std::collections::BTreeSet;
use std::marker::Model;

/// All entities of a world, by rising number.
///
/// Contracts see it as the list of its entities, where each was at the last settling, how many
/// numbers were given, and, beside that, for how many more entities it has places in reserve.
#[derive(Drop)]
pub struct Folk {
    /// By rising number.
    entities: Vec<Entity>,
    /// The number and the spot of each that was there at the last settling and still is. It has
    /// room for all entities.
    told: Vec<(i32, Spot)>,
    /// How many numbers were given.
    given: u32,
    /// How many of the entities are dropped items.
    dropped: u32,
}

impl Model for Folk {
    ghost use Rattle.std.specs.Vec.{vec_capacity};
    ghost use Rattle.mc_entities.specs.Folk.{FolkValue};
    ghost use Rattle.mc_entities.specs.Kept.{IsKept, places};

    ghost Value = { FolkValue };

    ghost view = { λ folk. record {
      state = record {
        entities = folk.entities.items;
        told = folk.told.items;
        given = folk.given;
      };
      reserve = places folk.entities.items (vec_capacity folk.entities) (vec_capacity folk.told);
    } };

    ghost invariant = { λ folk. IsKept folk.entities.items folk.told.items
        (vec_capacity folk.told) folk.given folk.dropped };
}

impl Folk {
    /// A folk of nobody, of which no number is given.
    pub fn new(alloc: Global) -> Folk
        ensures { result ≡ record { state = new_state; reserve = 0 } }
    {
        Folk {
            entities: Vec::new(alloc),
            told: Vec::new(alloc),
            given: 0,
            dropped: 0,
        }
    }

    /// How many more dropped items may be added.
    pub fn room(&self) -> u32
        ensures { result ≡ room_of self.now.state }
    {
        let lying = DROPPED_MAX - self.dropped;
        lying.min(EID_MAX - self.given)
    }

    /// Makes the places in reserve so many at least. Without memory all is as before.
    pub fn reserve(&mut self, n: u32) -> Result<(), NoMemory>
        ensures ok { OnOk result (n ≤ self.new.reserve) }
        ensures state { self.new.state ≡ self.old.state }
        ensures keeps { self.old.reserve ≤ self.new.reserve }
        // It takes memory only where places are missing.
        ensures enough { n ≤ self.old.reserve → IsOk result }
        // As many dropped items can be added then, if there is room for them.
        ensures room { OnOk result (n ≤ room_of self.old.state → HasRoom n self.new) }
    {
        let len = self.entities.as_slice().len();
        let told = self.told.as_slice().len();
        self.entities.reserve(n as usize)?;
        self.told.reserve((len + n as usize).saturating_sub(told))?;
        Ok(())
    }

    /// Whether an entity of a kind would be a dropped item too many.
    fn is_full(&self, kind: &EntityKind) -> bool
        ensures { result ≡ is_full kind.now self.now.state }
    {
        kind.is_dropped() && self.dropped == DROPPED_MAX
    }

    /// Whether all numbers were given.
    pub fn is_spent(&self) -> bool
        ensures { result ≡ is_spent self.now.state }
    {
        self.given == EID_MAX
    }

    /// Adds an entity under the next number, and answers that.
    ///
    /// `Full` comes exactly for a dropped item where 4,096 lie; else `Spent` exactly where all
    /// 2,147,483,647 numbers were given; else `NoMemory` only where no place is in reserve. An
    /// error leaves all as before.
    pub fn spawn(&mut self, kind: EntityKind, spot: Spot) -> Result<i32, FolkFault>
        requires { IsKind kind }
        ensures eid { IfOk result (λ eid. eid ≡ pos (self.old.state.given + 1)) }
        ensures state { OnOk result (self.new.state ≡ spawned kind spot self.old.state) }
        ensures full { (result ≡ Err folk_faults.Full) ↔ (is_full kind self.old.state ≡ true) }
        ensures spent { (result ≡ Err folk_faults.Spent) ↔
            ((is_full kind self.old.state ≡ false) × (is_spent self.old.state ≡ true)) }
        ensures memory { result ≡ Err folk_faults.NoMemory → self.old.reserve ≡ 0 }
        ensures kept { OnErr result (self.new.state ≡ self.old.state) }
        ensures keeps { OnErr result (self.old.reserve ≤ self.new.reserve) }
        ensures reserve { self.old.reserve ≤ self.new.reserve + 1 }
        // Where n + 1 dropped items have room and places, this one is added, and n more have.
        ensures room { (n : ℕ) → is_dropped kind ≡ true → HasRoom (suc n) self.old →
            IsOk result × HasRoom n self.new }
    {
        if self.is_full(&kind) {
            return Err(FolkFault::Full);
        }
        if self.is_spent() {
            return Err(FolkFault::Spent);
        }
        self.reserve(1)?;
        Ok(self.add(kind, spot))
    }

    /// Adds an entity for which there are room, a number and a place.
    fn add(&mut self, kind: EntityKind, spot: Spot) -> i32
        requires range { IsKind kind }
        requires room { is_full kind self.old.state ≡ false }
        requires number { is_spent self.old.state ≡ false }
        requires place { 0 < self.old.reserve }
        ensures eid { result ≡ pos (self.old.state.given + 1) }
        ensures state { self.new.state ≡ spawned kind spot self.old.state }
        ensures reserve { self.old.reserve ≤ self.new.reserve + 1 }
    {
        self.given += 1;
        self.dropped += dropped_count(&kind);
        let eid = self.given as i32;
        self.entities.push(Entity { eid, kind, spot }).unwrap();
        eid
    }

    /// Where the entity of a number stands.
    fn place_of(&self, eid: &i32) -> Option<usize>
        ensures none { result ≡ None → entity_of eid.now self.now.state ≡ None }
        ensures some { IfSome result (λ i. IsPlaced eid_of eid.now i self.now.state.entities) }
    {
        place_of(self.entities.as_slice(), eid)
    }

    /// Takes the entity of a number out, and answers it; None exactly where there is none.
    pub fn remove(&mut self, eid: i32) -> Option<Entity>
        ensures entity { result ≡ entity_of eid self.old.state }
        ensures range { IfSome result (λ e. IsKind e.kind) }
        ensures state { self.new.state ≡ removed eid self.old.state }
        ensures keeps { self.old.reserve ≤ self.new.reserve }
    {
        let place = self.place_of(&eid);
        forget(&mut self.told, &eid);
        let Some(at) = place else {
            return None;
        };
        let gone = self.entities.remove(at);
        self.dropped -= dropped_count(&gone.kind);
        Some(gone)
    }

    /// Takes the entities of numbers out. All entities are gone through once, however many go.
    pub fn remove_all(&mut self, eids: &BTreeSet<i32>)
        ensures state { self.new.state ≡ removed_all eids.now.keys self.old.state }
        ensures keeps { self.old.reserve ≤ self.new.reserve }
    {
        leave_out(&mut self.entities, eids);
        forget_all(&mut self.told, eids);
        self.dropped = dropped_among(self.entities.as_slice()) as u32;
    }

    /// Puts the entity of a number at a spot. False exactly where there is none.
    pub fn place(&mut self, eid: i32, spot: Spot) -> bool
        ensures known { result ≡ is_some (entity_of eid self.old.state) }
        ensures state { self.new.state ≡ placed eid spot self.old.state }
        ensures reserve { self.new.reserve ≡ self.old.reserve }
    {
        let Some(at) = self.place_of(&eid) else {
            return false;
        };
        self.entities[at].spot = spot;
        true
    }

    /// Changes what the entity of a number is, a player to a player, a dropped item to a dropped
    /// item. False exactly where there is none.
    pub fn set_kind(&mut self, eid: i32, kind: EntityKind) -> bool
        requires range { IsKind kind }
        requires alike { IfSome (entity_of eid self.old.state) (λ e. are_alike e.kind kind ≡ true) }
        ensures known { result ≡ is_some (entity_of eid self.old.state) }
        ensures state { self.new.state ≡ with_kind eid kind self.old.state }
        ensures reserve { self.new.reserve ≡ self.old.reserve }
    {
        let Some(at) = self.place_of(&eid) else {
            return false;
        };
        self.entities[at].kind = kind;
        true
    }

    /// Moves the entity of a number, but where the sum would leave the range. False exactly where
    /// there is none.
    pub fn shift(&mut self, eid: i32, by: Move) -> bool
        ensures known { result ≡ is_some (entity_of eid self.old.state) }
        ensures state { self.new.state ≡ shifted eid by self.old.state }
        ensures reserve { self.new.reserve ≡ self.old.reserve }
    {
        let Some(at) = self.place_of(&eid) else {
            return false;
        };
        shift_spot(&mut self.entities[at].spot, &by);
        true
    }

    /// The entity of a number; None exactly where there is none.
    pub fn get(&self, eid: i32) -> Option<&Entity>
        ensures entity { option_copied result ≡ entity_of eid self.now.state }
        ensures range { IfSome result (λ e. IsKind e.now.kind) }
    {
        match self.place_of(&eid) {
            Some(at) => Some(&self.entities[at]),
            None => None,
        }
    }

    /// All entities, by rising number.
    pub fn all(&self) -> &[Entity]
        ensures entities { result.now ≡ self.now.state.entities }
        ensures rise { Rise eid_of (pos 0) result.now (pos self.now.state.given) }
        ensures range { AreKinds result.now }
        ensures few { self.now.state.given ≤ EID_MAX }
        ensures lying { dropped_in result.now ≤ DROPPED_MAX }
    {
        self.entities.as_slice()
    }

    /// Answers the spot that the last settling kept under a number. None where it kept none, and
    /// where the entity of the number was taken out since.
    pub fn told(&self, eid: i32) -> Option<&Spot>
        ensures { option_copied result ≡ told_of eid self.now.state }
    {
        match told_place(self.told.as_slice(), &eid) {
            Some(at) => Some(&self.told[at].1),
            None => None,
        }
    }

    /// Keeps where each entity is, as what everyone who knows it was told of it. It takes no
    /// memory.
    pub fn settle(&mut self)
        ensures state { self.new.state ≡ settled self.old.state }
        ensures keeps { self.old.reserve ≤ self.new.reserve }
    {
        settle_told(&self.entities, &mut self.told);
    }

    /// Lets mind i move the i-th mob by rising number, but where the sum would leave the range.
    /// Minds beyond the mobs are not asked, and mobs without a mind stay.
    pub fn tick<M: Mind>(&mut self, minds: &mut [M])
        ensures state { self.new.state ≡
            ticked (map (λ mind. M.plan mind) minds.old) self.old.state }
        ensures plans { map (λ mind. M.plan mind) minds.new ≡
            asked (mobs_in self.old.state.entities) (map (λ mind. M.plan mind) minds.old) }
        ensures reserve { self.new.reserve ≡ self.old.reserve }
    {
        tick_all(&mut self.entities, minds);
    }
}

/// One for a dropped item.
fn dropped_count(kind: &EntityKind) -> u32
    ensures { result ≡ one_if (is_dropped kind.now) }
{
    if kind.is_dropped() { 1 } else { 0 }
}
