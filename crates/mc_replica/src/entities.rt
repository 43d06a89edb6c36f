ghost use Rattle.std.specs.Prelude.{◌≡◌, IfOk, IfErr, OnOk, OnErr};
ghost use Rattle.std.specs.FinMap.{empty, entries, get, insert, remove};
ghost use Rattle.std.specs.Option.{option_copied, option_map};
ghost use Rattle.std.specs.Ordering.{int_cmp};
ghost use Rattle.mc_model.specs.Replica.{altered, with_object, without_eids};
ghost use Rattle.mc_model.specs.Sight.{Seen as SeenValue};
ghost use Rattle.mc_replica.specs.Changes.{changed, entities_after, spawned};
ghost use Rattle.mc_replica.specs.KeptRows.{IsAt, IsGap, IsRising};

use crate::seen::{Looks, Seen};
use mc_bytes::NoMemory;
use mc_fields::Spot;
use mc_model::SeenKind;
use mc_packets::Down;
use std::alloc::Global;
use std::marker::Model;
use std::mem;

/// The kind of an object that is a dropped item.
const ITEM_KIND: i8 = 2;

/// The entities that a client sees. Contracts see them as a finite map from their numbers.
#[derive(Drop)]
pub(crate) struct Entities {
    /// By rising number.
    rows: Vec<Seen>,
}

impl Model for Entities {
    ghost use Rattle.std.specs.Coded.{codes, coded_ℤ};
    ghost use Rattle.std.specs.FinMap.{code, from_sorted};
    ghost use Rattle.std.specs.Ordering.{int_cmp};
    ghost use Rattle.mc_nbt.specs.TreeCode.{coded_tree};
    ghost use Rattle.mc_model.specs.Replica as replica;
    ghost use Rattle.mc_replica.specs.Changes.{changed, entities_after, spawned};
    ghost use Rattle.mc_replica.specs.KeptRows.{IsRising};

    ghost Value = { replica.Entities };

    ghost coded = { code coded_ℤ (Prim.hlevel (codes, coded_tree)) };

    ghost view = { λ entities. from_sorted entities.rows.items };

    ghost invariant = { λ entities. IsRising int_cmp entities.rows.items };
}

impl Entities {
    /// None.
    pub(crate) fn new(alloc: Global) -> Entities
        ensures { result ≡ empty }
    {
        Entities {
            rows: Vec::new(alloc),
        }
    }

    /// All of them, by rising number.
    pub(crate) fn all(&self) -> &[Seen]
        ensures { result.now ≡ entries self.now }
    {
        self.rows.as_slice()
    }

    /// The entity of a number, if it is known.
    pub(crate) fn find(&self, eid: &i32) -> Option<&Seen>
        ensures { option_copied result
            ≡ option_map (λ (e : SeenValue). (eid.now, e)) (get self.now eid.now) }
    {
        match place_of(self.rows.as_slice(), eid) {
            Ok(at) => Some(&self.rows[at]),
            Err(_) => None,
        }
    }

    /// Takes an entity that comes.
    pub(crate) fn take_new(&mut self, packet: &Down) -> Result<(), NoMemory>
        ensures { OnOk result (self.new ≡ spawned packet.now self.old) }
    {
        match packet {
            Down::SpawnPlayer {
                eid,
                uuid,
                x,
                y,
                z,
                yaw,
                pitch,
                ..
            } => {
                let spot = spot_at(x, y, z, yaw, pitch);
                self.put(eid, Looks::new(SeenKind::Player(*uuid), spot, *yaw))?;
            }
            Down::SpawnObject {
                eid,
                kind,
                x,
                y,
                z,
                pitch,
                yaw,
                ..
            } => self.put_object(eid, kind, spot_at(x, y, z, yaw, pitch))?,
            Down::SpawnMob {
                eid,
                x,
                y,
                z,
                yaw,
                pitch,
                head,
                ..
            } => {
                let spot = spot_at(x, y, z, yaw, pitch);
                self.put(eid, Looks::new(SeenKind::Mob, spot, *head))?;
            }
            _ => {}
        }
        Ok(())
    }

    /// Takes what goes or changes. Without memory it has taken some first metadata of one.
    pub(crate) fn take(&mut self, packet: &Down) -> Result<(), NoMemory>
        ensures { OnOk result (self.new ≡ entities_after packet.now self.old) }
    {
        match packet {
            Down::Destroy(eids) => self.remove_all(eids.as_slice()),
            Down::Step { eid, .. }
            | Down::StepLook { eid, .. }
            | Down::Look { eid, .. }
            | Down::Teleport { eid, .. }
            | Down::HeadLook(eid, _)
            | Down::Equipment(eid, _, _)
            | Down::Meta(eid, _) => self.change(eid, packet)?,
            _ => {}
        }
        Ok(())
    }

    /// Puts an object, if it is a dropped item.
    fn put_object(&mut self, eid: &i32, kind: &i8, spot: Spot) -> Result<(), NoMemory>
        ensures { OnOk result (self.new ≡ with_object self.old eid.now kind.now spot) }
    {
        if *kind != ITEM_KIND {
            return Ok(());
        }
        self.put(eid, Looks::new(SeenKind::Dropped, spot, spot.yaw))?;
        Ok(())
    }

    /// Puts an entity, in the place of one of its number. Without memory all is as before.
    fn put(&mut self, eid: &i32, looks: Looks) -> Result<(), NoMemory>
        ensures ok { OnOk result (self.new ≡ insert self.old eid.now looks) }
        ensures err { OnErr result (self.new ≡ self.old) }
    {
        match place_of(self.rows.as_slice(), eid) {
            Ok(at) => {
                drop(mem::replace(&mut self.rows[at], Seen::new(eid, looks)));
                Ok(())
            }
            Err(at) => {
                self.rows.insert(at, Seen::new(eid, looks))?;
                Ok(())
            }
        }
    }

    /// Takes the entity of a number away, if it is known.
    fn remove(&mut self, eid: &i32)
        ensures { self.new ≡ remove self.old eid.now }
    {
        if let Ok(at) = place_of(self.rows.as_slice(), eid) {
            drop(self.rows.remove(at));
        }
    }

    /// Takes the entities of these numbers away.
    fn remove_all(&mut self, eids: &[i32])
        ensures { self.new ≡ without_eids self.old eids.now }
    {
        for eid in eids {
            self.remove(eid);
        }
    }

    /// Changes the entity of a number as a packet says, if it is known. Without memory it has taken
    /// some first ones of its metadata.
    fn change(&mut self, eid: &i32, packet: &Down) -> Result<(), NoMemory>
        ensures { OnOk result (self.new ≡ altered self.old eid.now (changed packet.now)) }
    {
        if let Ok(at) = place_of(self.rows.as_slice(), eid) {
            self.rows[at].looks.change(packet)?;
        }
        Ok(())
    }
}

/// A spot there, that looks there.
fn spot_at(x: &i32, y: &i32, z: &i32, yaw: &u8, pitch: &u8) -> Spot
    ensures { result ≡ record {
      x = x.now;
      y = y.now;
      z = z.now;
      yaw = yaw.now;
      pitch = pitch.now;
    } }
{
    Spot {
        x: *x,
        y: *y,
        z: *z,
        yaw: *yaw,
        pitch: *pitch,
    }
}

/// Where a number stands, or else where it would go.
fn place_of(rows: &[Seen], eid: &i32) -> Result<usize, usize>
    requires rising { IsRising int_cmp rows.now }
    ensures found { IfOk result (IsAt rows.now eid.now) }
    ensures absent { IfErr result (IsGap int_cmp rows.now eid.now) }
{
    rows.binary_search_by_key(eid, |seen| seen.eid)
}
