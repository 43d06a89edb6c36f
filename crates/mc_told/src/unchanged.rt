//! Whether a client was told of entities just what it is to be shown.

ghost use Rattle.std.specs.Prelude.{◌≡◌, ◌++◌, ◌∷◌, [], IsTrue, Some, map, slice_get};
ghost use Rattle.std.specs.FinMap.{entries, keys};
ghost use Rattle.mc_model.specs.Sight.{others};
ghost use Rattle.mc_told.specs.Telling.{rows_in, told_row};

use crate::EntityView;
use crate::row::{is_in, pile_of};
use mc_entities::Entity;
use mc_view::{Area, ToldRest, Tracker};

/// Whether a client was told of an entity next, of those that it was told of, behind so many.
fn is_next(told: &Tracker, passed: usize, entity: &Entity) -> bool
    ensures { IsTrue result → slice_get (keys told.now) passed ≡ Some entity.now.eid }
{
    match told.known(passed) {
        Some(eid) => eid == entity.eid,
        None => false,
    }
}

/// Goes past what a client was told of an entity, if it is to be shown it: whether it was told just
/// what it is to be shown. `passed` is how many it went past, so that one that was told and is out
/// of view ends this early.
fn pass_entity(
    view: &EntityView<'_>,
    area: &Area,
    entity: &Entity,
    told: &Tracker,
    passed: &mut usize,
    rest: &mut ToldRest<'_>,
) -> bool
    requires { area.now ≡ view.now.view }
    ensures { IsTrue result → rest.old ≡ map told_row (rows_in view.now.view
        (others view.now.me (entity.now ∷ []))) ++ rest.new }
{
    if entity.eid == view.me {
        return true;
    }
    if !is_in(area, entity) {
        return !is_next(told, *passed, entity);
    }
    *passed = passed.saturating_add(1);
    rest.pass(entity.eid, &entity.spot, &pile_of(&entity.kind))
}

/// Whether a client was told of these entities just what it is to be shown, and of no other. It
/// takes no memory.
#[inline(never)]
pub fn are_as_told(view: &EntityView<'_>, entities: &[Entity], told: &Tracker) -> bool
    ensures { IsTrue result → entries told.now
        ≡ map told_row (rows_in view.now.view (others view.now.me entities.now)) }
{
    let area = Area::of(&view.view);
    let mut passed = 0;
    let mut rest = told.rest();
    for entity in entities {
        if !pass_entity(view, &area, entity, told, &mut passed, &mut rest) {
            return false;
        }
    }
    rest.is_empty()
}
