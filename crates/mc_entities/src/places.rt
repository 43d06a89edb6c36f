ghost use Rattle.std.specs.Prelude.{◌≡◌, ◌≤◌, IfSome, None, length, map};
ghost use Rattle.std.specs.Vec.{vec_capacity};
ghost use Rattle.mc_entities.specs.Numbers.{numbered, without, without_all};
ghost use Rattle.mc_entities.specs.Folk.{dropped_in, eid_of, told_eid};
ghost use Rattle.mc_entities.specs.Kept.{IsPlaced, Rises};

use crate::entity::Entity;
use mc_fields::Spot;
use std::collections::BTreeSet;

/// Where the entity of a number stands.
pub(crate) fn place_of(entities: &[Entity], eid: &i32) -> Option<usize>
    requires { Rises eid_of entities.now }
    ensures none { result ≡ None → numbered eid_of eid.now entities.now ≡ None }
    ensures some { IfSome result (λ i. IsPlaced eid_of eid.now i entities.now) }
{
    entities.binary_search_by_key(eid, |entity| entity.eid).ok()
}

/// Where the spot stands that the entity of a number had at the last settling.
pub(crate) fn told_place(told: &[(i32, Spot)], eid: &i32) -> Option<usize>
    requires { Rises told_eid told.now }
    ensures none { result ≡ None → numbered told_eid eid.now told.now ≡ None }
    ensures some { IfSome result (λ i. IsPlaced told_eid eid.now i told.now) }
{
    told.binary_search_by_key(eid, |row| row.0).ok()
}

/// Forgets the spot that the entity of a number had at the last settling.
pub(crate) fn forget(told: &mut Vec<(i32, Spot)>, eid: &i32)
    requires { Rises told_eid told.old.items }
    ensures rows { told.new.items ≡ without told_eid eid.now told.old.items }
    ensures capacity { vec_capacity told.new ≡ vec_capacity told.old }
{
    let Some(at) = told_place(told.as_slice(), eid) else {
        return;
    };
    let _gone = told.remove(at);
}

/// Leaves out the entities of numbers.
pub(crate) fn leave_out(entities: &mut Vec<Entity>, eids: &BTreeSet<i32>)
    ensures left { entities.new.items ≡ without_all eid_of eids.now.keys entities.old.items }
    ensures capacity { vec_capacity entities.new ≡ vec_capacity entities.old }
{
    entities.retain(|entity| !eids.contains(&entity.eid));
}

/// Forgets the spots that the entities of numbers had at the last settling.
pub(crate) fn forget_all(told: &mut Vec<(i32, Spot)>, eids: &BTreeSet<i32>)
    ensures rows { told.new.items ≡ without_all told_eid eids.now.keys told.old.items }
    ensures capacity { vec_capacity told.new ≡ vec_capacity told.old }
{
    told.retain(|row| !eids.contains(&row.0));
}

/// How many entities are dropped items.
pub(crate) fn dropped_among(entities: &[Entity]) -> usize
    ensures { result ≡ dropped_in entities.now }
{
    entities
        .iter()
        .filter(|entity| entity.kind.is_dropped())
        .count()
}

/// Keeps the spot of each entity, in the place of all that were kept.
pub(crate) fn settle_told(entities: &Vec<Entity>, told: &mut Vec<(i32, Spot)>)
    requires { length entities.now.items ≤ vec_capacity told.old }
    ensures rows { told.new.items ≡ map (λ e. (e.eid, e.spot)) entities.now.items }
    ensures capacity { vec_capacity told.old ≤ vec_capacity told.new }
{
    told.clear();
    for entity in entities {
        told.push((entity.eid, entity.spot)).unwrap();
    }
}
