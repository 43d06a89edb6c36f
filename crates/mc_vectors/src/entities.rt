//! Entities: `folk CALL ..` works on the folk that the rows before it left. A kind is `player UUID
//! PILE`, `dropped PILE BORN` or `mob`, and a spot `X Y Z YAW PITCH`. A pile is one word,
//! `IDxCOUNT:DAMAGE` or `empty`.

ghost use Rattle.std.specs.Prelude.{◌≡◌, IfSome, IsTrue, true};
ghost use Rattle.mc_entities.specs.Kinds.{IsKind, are_alike};
ghost use Rattle.mc_entities.specs.Folk.{entity_of};

use crate::slots::{is_worldly, worldly};
use crate::views::{put_spot, spot_in};
use crate::windows::{Shown, pile_of};
use mc_entities::{Entity, EntityKind, Folk, FolkFault, Move};
use mc_fields::Spot;
use mc_rows::{Answer, Words, look_up};
use mc_slots::Pile;
use std::collections::BTreeSet;
use std::mem::replace;

/// A call of a folk.
#[derive(Clone, Copy)]
enum Call {
    New,
    Room,
    Reserve,
    Spawn,
    Strew,
    Remove,
    Clear,
    Place,
    Kind,
    Shift,
    Get,
    All,
    Told,
    Settle,
}

/// The calls by their words.
const CALLS: [(&str, Call); 14] = [
    ("new", Call::New),
    ("room", Call::Room),
    ("reserve", Call::Reserve),
    ("spawn", Call::Spawn),
    ("strew", Call::Strew),
    ("remove", Call::Remove),
    ("clear", Call::Clear),
    ("place", Call::Place),
    ("kind", Call::Kind),
    ("shift", Call::Shift),
    ("get", Call::Get),
    ("all", Call::All),
    ("told", Call::Told),
    ("settle", Call::Settle),
];

/// The call that a word names.
fn call_of(name: &str) -> Option<Call> {
    look_up(&CALLS, name)
}

/// Answers a row of the folk.
pub fn folk(folk: &mut Folk, words: &mut Words<'_>, answer: &mut Answer) {
    match call_of(words.word()) {
        Some(named) => answer_call(named, folk, words, answer),
        None => words.fail(),
    }
}

/// Answers a call of the folk.
/// Dear to prove: fourteen arms over a folk that is lent.
fn answer_call(call: Call, folk: &mut Folk, words: &mut Words<'_>, answer: &mut Answer) {
    match call {
        Call::New => drop(replace(folk, Folk::new(words.alloc))),
        Call::Room => answer.word(folk.room()),
        Call::Reserve => answer.needs(folk.reserve(words.number())),
        Call::Spawn => spawn(folk, words, answer),
        Call::Strew => strew(folk, words, answer),
        Call::Remove => remove(folk, words, answer),
        Call::Clear => clear(folk, words, answer),
        Call::Place => place(folk, words, answer),
        Call::Kind => set_kind(folk, words, answer),
        Call::Shift => shift(folk, words, answer),
        Call::Get => put_found(folk.get(words.number()), answer),
        Call::All => put_all(folk.all(), answer),
        Call::Told => put_told(folk.told(words.number()), answer),
        Call::Settle => folk.settle(),
    }
}

/// The next words as a kind.
fn kind_in(words: &mut Words<'_>) -> Option<EntityKind>
    ensures { IfSome result (λ kind. IsKind kind) }
{
    if words.is_next("player") {
        return player_in(words);
    }
    if words.is_next("dropped") {
        return dropped_in(words);
    }
    if words.is_next("mob") {
        return Some(EntityKind::Mob);
    }
    None
}

/// The next words as a player: who it is, and what it holds.
fn player_in(words: &mut Words<'_>) -> Option<EntityKind>
    ensures { IfSome result (λ kind. IsKind kind) }
{
    let uuid = words.number();
    let held = worldly(pile_of(words.word())?)?;
    Some(EntityKind::Player { uuid, held })
}

/// The next words as a dropped item: what lies there, and since when.
fn dropped_in(words: &mut Words<'_>) -> Option<EntityKind>
    ensures { IfSome result (λ kind. IsKind kind) }
{
    let pile = pile_of(words.word())?;
    let born = words.number();
    match pile {
        Pile::Full(item) if is_worldly(item) => Some(EntityKind::Dropped { item, born }),
        _ => None,
    }
}

/// Adds an entity, and puts its number.
fn spawn(folk: &mut Folk, words: &mut Words<'_>, answer: &mut Answer) {
    let Some(kind) = kind_in(words) else {
        return words.fail();
    };
    match folk.spawn(kind, spot_in(words)) {
        Ok(eid) => answer.word(eid),
        Err(FolkFault::Full) => answer.word("Full"),
        Err(FolkFault::Spent) => answer.word("Spent"),
        Err(FolkFault::NoMemory) => answer.lose(),
    }
}

/// Adds so many entities alike, and puts how many were added.
fn strew(folk: &mut Folk, words: &mut Words<'_>, answer: &mut Answer) {
    let count = words.number();
    match kind_in(words) {
        Some(kind) => answer.word(spawn_all(folk, count, kind, spot_in(words))),
        None => words.fail(),
    }
}

/// Adds so many entities alike, and answers how many were added.
fn spawn_all(folk: &mut Folk, count: u32, kind: EntityKind, spot: Spot) -> u32
    requires { IsKind kind }
{
    let mut added: u32 = 0;
    for _ in 0..count {
        if folk.spawn(kind, spot).is_ok() {
            added = added.saturating_add(1);
        }
    }
    added
}

/// Takes an entity out, and puts it.
fn remove(folk: &mut Folk, words: &mut Words<'_>, answer: &mut Answer) {
    let gone = folk.remove(words.number());
    put_found(gone.as_ref(), answer);
}

/// Takes the entities of the next words' numbers out, of which 64 are read at most.
fn clear(folk: &mut Folk, words: &mut Words<'_>, answer: &mut Answer) {
    let mut eids = BTreeSet::new(words.alloc);
    for _ in 0..64 {
        if words.is_more() && eids.insert(words.number()).is_err() {
            answer.lose();
        }
    }
    folk.remove_all(&eids);
}

/// Puts an entity at a spot, and says whether there is one.
fn place(folk: &mut Folk, words: &mut Words<'_>, answer: &mut Answer) {
    let eid = words.number();
    answer.word(folk.place(eid, spot_in(words)));
}

/// Changes what an entity is, and says whether there is one.
fn set_kind(folk: &mut Folk, words: &mut Words<'_>, answer: &mut Answer) {
    let eid = words.number();
    let Some(kind) = kind_in(words) else {
        return words.fail();
    };
    if may_become(folk, eid, &kind) {
        answer.word(folk.set_kind(eid, kind));
    } else {
        words.fail();
    }
}

/// Whether the entity of a number, where there is one, may become of a kind.
fn may_become(folk: &Folk, eid: i32, kind: &EntityKind) -> bool
    ensures { IsTrue result →
        IfSome (entity_of eid folk.now.state) (λ e. are_alike e.kind kind.now ≡ true) }
{
    match folk.get(eid) {
        Some(entity) => are_alike(&entity.kind, kind),
        None => true,
    }
}

/// Whether both are players, both dropped items, or both mobs.
fn are_alike(one: &EntityKind, other: &EntityKind) -> bool
    ensures { result ≡ are_alike one.now other.now }
{
    match (one, other) {
        (EntityKind::Player { .. }, EntityKind::Player { .. }) => true,
        (EntityKind::Dropped { .. }, EntityKind::Dropped { .. }) => true,
        (EntityKind::Mob, EntityKind::Mob) => true,
        _ => false,
    }
}

/// Moves an entity, and says whether there is one.
fn shift(folk: &mut Folk, words: &mut Words<'_>, answer: &mut Answer) {
    let eid = words.number();
    let by = Move {
        dx: words.number(),
        dy: words.number(),
        dz: words.number(),
    };
    answer.word(folk.shift(eid, by));
}

/// Puts an entity, where there is one.
fn put_found(found: Option<&Entity>, answer: &mut Answer) {
    match found {
        Some(entity) => {
            put_kind(&entity.kind, answer);
            put_spot(&entity.spot, answer);
        }
        None => answer.word("none"),
    }
}

/// Puts what an entity is.
fn put_kind(kind: &EntityKind, answer: &mut Answer) {
    match kind {
        EntityKind::Player { uuid, held } => {
            answer.word("player");
            answer.word(*uuid);
            answer.word(Shown { pile: *held });
        }
        EntityKind::Dropped { item, born } => {
            answer.word("dropped");
            answer.word(Shown {
                pile: Pile::Full(*item),
            });
            answer.word(*born);
        }
        EntityKind::Mob => answer.word("mob"),
    }
}

/// Puts the spot where an entity was at the last settling, where it was there then.
fn put_told(told: Option<&Spot>, answer: &mut Answer) {
    match told {
        Some(spot) => put_spot(spot, answer),
        None => answer.word("none"),
    }
}

/// Puts the numbers of entities.
fn put_all(entities: &[Entity], answer: &mut Answer) {
    answer.word('[');
    for entity in entities {
        answer.word(entity.eid);
    }
    answer.put(']');
}
