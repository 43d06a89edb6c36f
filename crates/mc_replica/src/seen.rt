ghost use Rattle.std.specs.Prelude.{◌≡◌, OnOk};
ghost use Rattle.mc_slots.specs.declared.slot.Slot.TheVariants as slots;
ghost use Rattle.mc_model.specs.Replica.{looking, onward, put_at, wearing, with_metas, with_value};
ghost use Rattle.mc_replica.specs.Changes.{changed};
ghost use Rattle.mc_replica.specs.Places.{sum_within, within};

use mc_bytes::NoMemory;
use mc_fields::Spot;
use mc_model::SeenKind;
use mc_packets::{Down, MetaEntry, MetaValue};
use mc_slots::Slot;
use std::marker::Model;

/// The index of the slot in a dropped item's metadata.
const ITEM_INDEX: u8 = 10;

/// What a client sees of an entity. Contracts see it as the definitions' record.
#[derive(Drop)]
pub(crate) struct Looks {
    pub(crate) kind: SeenKind,
    pub(crate) spot: Spot,
    /// Where its head looks, in 1/256 turns.
    pub(crate) head: u8,
    /// What it holds or is.
    pub(crate) pile: Slot,
}

/// An entity that a client sees. Contracts see it as its number with what is seen of it.
#[derive(Drop)]
pub struct Seen {
    pub(crate) eid: i32,
    pub(crate) looks: Looks,
}

impl Model for Looks {
    ghost use Rattle.std.specs.Coded.{codes};
    ghost use Rattle.mc_nbt.specs.TreeCode.{coded_tree};
    ghost use Rattle.mc_model.specs.Sight as sight;

    ghost Value = { sight.Seen };

    ghost coded = { Prim.hlevel (codes, coded_tree) };

    ghost view = { λ looks. record {
      kind = looks.kind;
      spot = looks.spot;
      head = looks.head;
      pile = looks.pile;
    } };
}

impl Model for Seen {
    ghost use Rattle.std.specs.Prelude.{ℤ};
    ghost use Rattle.std.specs.Coded.{codes};
    ghost use Rattle.mc_nbt.specs.TreeCode.{coded_tree};
    ghost use Rattle.mc_model.specs.Sight as sight;

    ghost Value = { ℤ × sight.Seen };

    ghost coded = { Prim.hlevel (codes, coded_tree) };

    ghost view = { λ seen. (seen.eid, seen.looks) };
}

impl Seen {
    /// What is seen of the entity of a number.
    pub(crate) fn new(eid: &i32, looks: Looks) -> Seen
        ensures { result ≡ (eid.now, looks) }
    {
        Seen { eid: *eid, looks }
    }

    /// Its number.
    pub fn eid(&self) -> i32
        ensures { result ≡ self.now.0 }
    {
        self.eid
    }

    /// What it is.
    pub fn kind(&self) -> SeenKind
        ensures { result ≡ self.now.1.kind }
    {
        self.looks.kind
    }

    /// Where it is and looks.
    pub fn spot(&self) -> Spot
        ensures { result ≡ self.now.1.spot }
    {
        self.looks.spot
    }

    /// Where its head looks, in 1/256 turns.
    pub fn head(&self) -> u8
        ensures { result ≡ self.now.1.head }
    {
        self.looks.head
    }

    /// The pile that it holds, where it is a player.
    pub fn held(&self) -> &Slot
        ensures { result.now ≡ self.now.1.pile }
    {
        &self.looks.pile
    }

    /// The pile that it is, where it is a dropped item.
    pub fn item(&self) -> &Slot
        ensures { result.now ≡ self.now.1.pile }
    {
        &self.looks.pile
    }
}

impl Looks {
    /// One that comes, of which nothing is known that it holds or is.
    pub(crate) fn new(kind: SeenKind, spot: Spot, head: u8) -> Looks
        ensures { result ≡ record {
          kind = kind;
          spot = spot;
          head = head;
          pile = slots.Empty;
        } }
    {
        Looks {
            kind,
            spot,
            head,
            pile: Slot::Empty,
        }
    }

    /// Changes as a packet about it says. Without memory it has taken some first ones of its
    /// metadata.
    pub(crate) fn change(&mut self, packet: &Down) -> Result<(), NoMemory>
        ensures { OnOk result (self.new ≡ changed packet.now self.old) }
    {
        match packet {
            Down::Step { dx, dy, dz, .. } => self.step(dx, dy, dz),
            Down::StepLook {
                dx,
                dy,
                dz,
                yaw,
                pitch,
                ..
            } => self.step_look(dx, dy, dz, *yaw, *pitch),
            Down::Look { yaw, pitch, .. } => self.look(*yaw, *pitch),
            Down::Teleport {
                x,
                y,
                z,
                yaw,
                pitch,
                ..
            } => self.teleport(*x, *y, *z, *yaw, *pitch),
            Down::HeadLook(_, head) => self.head = *head,
            Down::Equipment(_, worn, pile) => self.wear(*worn, pile)?,
            Down::Meta(_, metas) => self.take_metas(metas.as_slice())?,
            _ => {}
        }
        Ok(())
    }

    /// Goes so far on, if its place stays within 32 bits.
    fn step(&mut self, dx: &i8, dy: &i8, dz: &i8)
        ensures { self.new ≡ put_at (onward dx.now dy.now dz.now self.old.spot) self.old }
    {
        if let Some(spot) = onward(&self.spot, dx, dy, dz) {
            self.spot = spot;
        }
    }

    /// Goes so far on and looks there, if its place stays within 32 bits.
    fn step_look(&mut self, dx: &i8, dy: &i8, dz: &i8, yaw: u8, pitch: u8)
        ensures { self.new ≡ put_at
            (looking yaw pitch (onward dx.now dy.now dz.now self.old.spot)) self.old }
    {
        if let Some(spot) = onward(&self.spot, dx, dy, dz) {
            self.spot = spot;
            self.look(yaw, pitch);
        }
    }

    /// Looks there.
    fn look(&mut self, yaw: u8, pitch: u8)
        ensures { self.new ≡ record self.old { spot = looking yaw pitch self.old.spot } }
    {
        self.spot.yaw = yaw;
        self.spot.pitch = pitch;
    }

    /// Is there and looks there.
    fn teleport(&mut self, x: i32, y: i32, z: i32, yaw: u8, pitch: u8)
        ensures { self.new ≡ put_at (record {
          x = x;
          y = y;
          z = z;
          yaw = yaw;
          pitch = pitch;
        }) self.old }
    {
        self.spot = Spot {
            x,
            y,
            z,
            yaw,
            pitch,
        };
    }

    /// Takes what it wears in a slot: a player's slot 0 is what it holds.
    fn wear(&mut self, worn: i16, pile: &Slot) -> Result<(), NoMemory>
        ensures { OnOk result (self.new ≡ wearing worn pile.now self.old) }
    {
        if worn != 0 {
            return Ok(());
        }
        if let SeenKind::Player(_) = self.kind {
            self.pile = pile.copy()?;
        }
        Ok(())
    }

    /// Takes an entry of its metadata: a dropped item's slot is what lies there.
    fn take_meta(&mut self, index: u8, value: &MetaValue) -> Result<(), NoMemory>
        ensures { OnOk result (self.new ≡ with_value index value.now self.old) }
    {
        if index != ITEM_INDEX {
            return Ok(());
        }
        let SeenKind::Dropped = self.kind else {
            return Ok(());
        };
        if let MetaValue::Slot(pile) = value {
            self.pile = pile.copy()?;
        }
        Ok(())
    }

    /// Takes its metadata, an entry after another. Without memory it has taken some first ones.
    fn take_metas(&mut self, metas: &[MetaEntry]) -> Result<(), NoMemory>
        ensures { OnOk result (self.new ≡ with_metas metas.now self.old) }
    {
        for entry in metas {
            self.take_meta(entry.index, &entry.value)?;
        }
        Ok(())
    }
}

/// A sum, if it is within 32 bits.
fn sum_within(a: &i32, d: &i8) -> Option<i32>
    ensures { result ≡ sum_within a.now d.now }
{
    a.checked_add(i32::from(*d))
}

/// A spot so far on, if its place is within 32 bits.
fn onward(spot: &Spot, dx: &i8, dy: &i8, dz: &i8) -> Option<Spot>
    ensures { result ≡ within (onward dx.now dy.now dz.now spot.now) }
{
    let x = sum_within(&spot.x, dx)?;
    let y = sum_within(&spot.y, dy)?;
    let z = sum_within(&spot.z, dz)?;
    Some(Spot { x, y, z, ..*spot })
}
