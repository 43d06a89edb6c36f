//! Items that lie where a player can pick them up.

ghost use Rattle.std.specs.Prelude.{◌≡◌, ◌++◌, ◌+◌, ◌∷◌, [], IfOk, OnOk, nat_le};
ghost use Rattle.std.specs.List.{filter_map};
ghost use Rattle.mc_entities.specs.Kept.{AreKinds};
ghost use Rattle.mc_entities.specs.Kinds.{IsKind};
ghost use Rattle.mc_model.specs.Pickups.{are_within, is_beside};
ghost use Rattle.mc_model.specs.declared.pickups.TheConstants.{PICKUP_TICKS};
ghost use Rattle.mc_play.specs.Picking.{ripe_at};

use mc_bytes::NoMemory;
use mc_entities::{Entity, EntityKind};
use mc_fields::Spot;
use mc_model::{PICKUP_HEIGHT, PICKUP_SIDE, PICKUP_TICKS};
use mc_slots::Item;
use std::alloc::Global;
use std::marker::Model;

/// An item that can be picked up, and the number under which it lies. Contracts see it as the two.
#[derive(Clone, Copy)]
pub struct Ripe {
    /// The number of its entity.
    pub eid: i32,
    /// What lies there.
    pub item: Item,
}

impl Model for Ripe {
    ghost use lib.IntN.{ℤ};
    ghost use Rattle.mc_slots.specs.Pile.{IsItem};
    ghost use Rattle.mc_slots.specs.declared.pile.Item.{Item};

    ghost Value = { ℤ × Item };

    ghost view = { λ ripe. (ripe.eid, ripe.item) };

    ghost invariant = { λ ripe. IsItem ripe.item };

    ghost inverse = { λ value. record { eid = value.0; item = value.1 } };
}

/// Whether two coordinates are so far apart at most.
fn are_within(most: u32, a: i32, b: i32) -> bool
    ensures { result ≡ are_within most a b }
{
    a.abs_diff(b) <= most
}

/// Whether a spot is beside another.
fn is_beside(a: &Spot, b: &Spot) -> bool
    ensures { result ≡ is_beside a.now b.now }
{
    if !are_within(PICKUP_SIDE, a.x, b.x) {
        return false;
    }
    are_within(PICKUP_HEIGHT, a.y, b.y) && are_within(PICKUP_SIDE, a.z, b.z)
}

/// Whether what was dropped at an age has lain there long enough at another.
fn is_old(born: u64, age: u64) -> bool
    ensures { result ≡ nat_le (born + PICKUP_TICKS) age }
{
    age.saturating_sub(born) >= PICKUP_TICKS
}

impl Ripe {
    /// An entity as what can be picked up at an age beside a spot; None where it is no item, lies
    /// there too short or too far.
    pub fn of(age: u64, spot: &Spot, entity: &Entity) -> Option<Ripe>
        requires { IsKind entity.now.kind }
        ensures { result ≡ ripe_at age spot.now entity.now }
    {
        let EntityKind::Dropped { item, born } = entity.kind else {
            return None;
        };
        if !is_old(born, age) {
            return None;
        }
        if !is_beside(spot, &entity.spot) {
            return None;
        }
        Some(Ripe {
            eid: entity.eid,
            item,
        })
    }
}

/// Puts an entity behind others that can be picked up, if it can be.
fn put_ripe(age: u64, spot: &Spot, entity: &Entity, found: &mut Vec<Ripe>) -> Result<(), NoMemory>
    requires { IsKind entity.now.kind }
    ensures { OnOk result (found.new.items
        ≡ found.old.items ++ filter_map (ripe_at age spot.now) (entity.now ∷ [])) }
{
    if let Some(ripe) = Ripe::of(age, spot, entity) {
        found.push(ripe)?;
    }
    Ok(())
}

/// Those of entities that can be picked up at an age beside a spot, in their order. It takes memory
/// only where there are some.
pub fn ripe_among(
    alloc: Global,
    age: u64,
    spot: &Spot,
    entities: &[Entity],
) -> Result<Vec<Ripe>, NoMemory>
    requires { AreKinds entities.now }
    ensures { IfOk result (λ found. found.items ≡ filter_map (ripe_at age spot.now) entities.now) }
{
    let mut found = Vec::new(alloc);
    for entity in entities {
        put_ripe(age, spot, entity, &mut found)?;
    }
    Ok(found)
}
