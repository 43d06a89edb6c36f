//! An entity as clients are shown it.

ghost use Rattle.std.specs.Prelude.{◌≡◌, ◌↔◌, IsTrue};
ghost use Rattle.mc_slots.specs.declared.pile.Pile.TheVariants.{Full};
ghost use Rattle.mc_slots.specs.Pile.{IsPile};
ghost use Rattle.mc_entities.specs.Kinds.{IsKind};
ghost use Rattle.mc_told.specs.Telling.{entity_row, is_in, kind_of, pile_of};

use mc_entities::{Entity, EntityKind};
use mc_fields::Spot;
use mc_model::SeenKind;
use mc_slots::{Item, Pile};
use mc_view::Area;

/// An entity as clients are shown it.
#[derive(Clone, Copy, PartialEq, Eq)]
pub struct Row {
    /// Its number.
    pub eid: i32,
    /// What it is.
    pub kind: SeenKind,
    /// Where it is and looks.
    pub spot: Spot,
    /// The pile that it holds or is, empty of a mob.
    pub pile: Pile,
}

/// What an entity is, as clients are shown it.
fn kind_of(kind: &EntityKind) -> SeenKind
    ensures { result ≡ kind_of kind.now }
{
    match kind {
        EntityKind::Player { uuid, .. } => SeenKind::Player(*uuid),
        EntityKind::Dropped { .. } => SeenKind::Dropped,
        EntityKind::Mob => SeenKind::Mob,
    }
}

/// The pile that an entity holds or is, empty of a mob.
pub fn pile_of(kind: &EntityKind) -> Pile
    ensures pile { result ≡ pile_of kind.now }
    ensures range { IsKind kind.now → IsPile result }
{
    match kind {
        EntityKind::Player { held, .. } => *held,
        EntityKind::Dropped { item, .. } => Pile::Full(*item),
        EntityKind::Mob => Pile::Empty,
    }
}

/// Whether a pile is the one that an entity holds or is.
pub fn holds(kind: &EntityKind, pile: &Pile) -> bool
    ensures { IsTrue result ↔ (pile.now ≡ pile_of kind.now) }
{
    match kind {
        EntityKind::Player { held, .. } => *pile == *held,
        EntityKind::Dropped { item, .. } => is_full(pile, item),
        EntityKind::Mob => matches!(pile, Pile::Empty),
    }
}

/// Whether a pile is that of an item.
fn is_full(pile: &Pile, item: &Item) -> bool
    ensures { IsTrue result ↔ (pile.now ≡ Full item.now) }
{
    match pile {
        Pile::Full(held) => *held == *item,
        Pile::Empty => false,
    }
}

/// An entity as clients are shown it.
pub fn entity_row(entity: &Entity) -> Row
    ensures row { result ≡ entity_row entity.now }
    ensures range { IsKind entity.now.kind → IsPile result.pile }
{
    Row {
        eid: entity.eid,
        kind: kind_of(&entity.kind),
        spot: entity.spot,
        pile: pile_of(&entity.kind),
    }
}

/// Whether an entity stands in the area of a view.
pub fn is_in(area: &Area, entity: &Entity) -> bool
    ensures { result ≡ is_in area.now entity.now }
{
    area.has(&entity.spot)
}
