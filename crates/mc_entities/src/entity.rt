ghost use Rattle.std.specs.Prelude.{◌≡◌};
ghost use Rattle.mc_entities.specs.Kinds.{is_dropped, is_mob};

use mc_fields::Spot;
use mc_slots::{Item, Pile};

/// How many dropped items lie at most.
pub const DROPPED_MAX: u32 = 4_096;

/// The highest number of an entity.
pub const EID_MAX: u32 = 2_147_483_647;

/// What an entity is.
#[derive(Clone, Copy, Debug, PartialEq, Eq)]
pub enum EntityKind {
    /// A player.
    Player {
        /// Who it is.
        uuid: u128,
        /// What it holds in its hand.
        held: Pile,
    },
    /// Items that were dropped.
    Dropped {
        /// What lies there.
        item: Item,
        /// The age of the world when they were dropped, in ticks.
        born: u64,
    },
    /// What a mind moves.
    Mob,
}

impl EntityKind {
    /// Whether it is a dropped item.
    pub(crate) fn is_dropped(&self) -> bool
        ensures { result ≡ is_dropped self.now }
    {
        match self {
            EntityKind::Dropped { .. } => true,
            _ => false,
        }
    }

    /// Whether it is a mob.
    pub(crate) fn is_mob(&self) -> bool
        ensures { result ≡ is_mob self.now }
    {
        match self {
            EntityKind::Mob => true,
            _ => false,
        }
    }
}

/// A player, a dropped item or a mob.
#[derive(Clone, Copy, Debug, PartialEq, Eq)]
pub struct Entity {
    /// Its number, which no other entity ever has: 1 to 2,147,483,647.
    pub eid: i32,
    /// What it is.
    pub kind: EntityKind,
    /// Where it is, and where it looks.
    pub spot: Spot,
}
