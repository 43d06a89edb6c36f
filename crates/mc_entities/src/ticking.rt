ghost use Rattle.std.specs.Prelude.{◌≡◌, ◌+◌, map};
ghost use Rattle.std.specs.Vec.{vec_capacity};
ghost use Rattle.mc_entities.specs.Kinds.{is_mob};
ghost use Rattle.mc_entities.specs.Plans.{asked, asked_by};
ghost use Rattle.mc_entities.specs.Folk.{after_tick, eid_of, mobs_in, moved_by};
ghost use Rattle.mc_entities.specs.Kept.{Rises, one_if};

use crate::entity::Entity;
use crate::mind::{Mind, ask};
use crate::shifting::shift_spot;

/// Lets the mind at a place move an entity, where that is a mob, and says how many mobs it is.
fn move_one<M: Mind>(entity: &mut Entity, minds: &mut [M], at: usize) -> usize
    ensures entity { entity.new ≡ moved_by (map (λ mind. M.plan mind) minds.old) at entity.old }
    ensures plans { map (λ mind. M.plan mind) minds.new ≡
        asked_by (is_mob entity.old.kind) at (map (λ mind. M.plan mind) minds.old) }
    ensures count { result ≡ one_if (is_mob entity.old.kind) }
{
    if !entity.kind.is_mob() {
        return 0;
    }
    let by = ask(minds, at);
    shift_spot(&mut entity.spot, &by);
    1
}

/// Lets the mind at each place move the mob of that place among the mobs.
pub(crate) fn tick_all<M: Mind>(entities: &mut Vec<Entity>, minds: &mut [M])
    requires { Rises eid_of entities.old.items }
    ensures entities { entities.new.items ≡
        map (after_tick (map (λ mind. M.plan mind) minds.old) entities.old.items)
        entities.old.items }
    ensures plans { map (λ mind. M.plan mind) minds.new ≡
        asked (mobs_in entities.old.items) (map (λ mind. M.plan mind) minds.old) }
    ensures capacity { vec_capacity entities.new ≡ vec_capacity entities.old }
{
    let mut mobs = 0;
    for i in 0..entities.as_slice().len() {
        mobs += move_one(&mut entities[i], minds, mobs);
    }
}
