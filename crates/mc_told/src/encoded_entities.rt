ghost use Rattle.std.specs.Prelude.{◌≡◌, OnOk};
ghost use Rattle.std.specs.Option.{option_copied};
ghost use Rattle.std.specs.FinMap as map;
ghost use Rattle.mc_entities.specs.Kinds.{IsKind};
ghost use Rattle.mc_told.specs.EntityFrames.{AreEncoded, found_spawn, no_entities};
ghost use Rattle.mc_told.specs.EntityFrames.{has_crossed, with_frames_of, with_known, with_move};
ghost use Rattle.mc_told.specs.EntityFrames.{with_spawn};

mod fields;

use crate::encoded_moves::EncodedMoves;
use crate::moved::Moved;
use crate::moves::{is_still, moves_piece};
use crate::numbered::{place_of, put_row};
use crate::row::{Row, entity_row};
use crate::spawned::Spawned;
use crate::spawns::spawn_piece;
use bytes::Bytes;
use mc_bytes::NoMemory;
use mc_entities::{Entity, Folk};
use mc_fields::Spot;
use mc_view::{column_of_spot, form};
use std::alloc::Global;
use std::marker::Model;

/// What differs of entities since the last settling, each encoded once for all clients of a tick:
/// by number the move of one that was told then, and by number what shows one that some client may
/// not know.
#[derive(Drop)]
pub struct EncodedEntities {
    /// By number, the move of an entity.
    moves: EncodedMoves,
    /// By rising number, what shows an entity that is new, or new to some.
    spawns: Vec<(i32, Spawned)>,
}

/// Whether an entity that was at one spot and is at another stands in another column.
fn has_crossed(from: &Spot, to: &Spot) -> bool
    ensures { result ≡ has_crossed from.now to.now }
{
    let (old_x, old_z) = column_of_spot(from);
    let (x, z) = column_of_spot(to);
    old_x != x || old_z != z
}

impl Model for EncodedEntities {
    ghost use Rattle.std.specs.FinMap.{from_sorted};
    ghost use Rattle.mc_told.specs.EntityFrames.{EntitiesValue, coded_entities};
    ghost use Rattle.mc_told.specs.KeptRows.{IsRising};

    ghost Value = { EntitiesValue };

    ghost coded = { coded_entities };

    ghost view = { λ e. record {
      moves = e.moves;
      spawns = from_sorted e.spawns.items;
    } };

    ghost invariant = { λ e. IsRising e.spawns.items };
}

impl EncodedEntities {
    /// Nothing was encoded.
    pub fn new(alloc: Global) -> EncodedEntities
        ensures is { result ≡ no_entities }
        ensures frames { AreEncoded result }
    {
        EncodedEntities {
            moves: EncodedMoves::new(alloc),
            spawns: Vec::new(alloc),
        }
    }

    /// Adds the frames of an entity's move since the last settling, if it moved, and those that show
    /// it, if some client may not know it: it came since, or stands in another column than then, or
    /// its column comes into the view of a client. Without memory they are those of some.
    pub fn add_entity(
        &mut self,
        alloc: Global,
        folk: &Folk,
        entity: &Entity,
        comes: bool,
    ) -> Result<(), NoMemory>
        requires { IsKind entity.now.kind }
        ensures ok { OnOk result (self.new
            ≡ with_frames_of folk.now.state comes self.old entity.now) }
        ensures frames { AreEncoded self.old → AreEncoded self.new }
    {
        match folk.told(entity.eid) {
            Some(from) => self.add_known(alloc, from, entity, comes),
            None => self.add_spawn(alloc, entity),
        }
    }

    /// Adds the frames of the move from a spot of an entity that was there at the last settling, if
    /// it moved, and those that show it, if its column or that of the spot is new to some client.
    /// Without memory they are those of some.
    fn add_known(
        &mut self,
        alloc: Global,
        from: &Spot,
        entity: &Entity,
        comes: bool,
    ) -> Result<(), NoMemory>
        requires { IsKind entity.now.kind }
        ensures ok { OnOk result (self.new ≡ with_known from.now comes self.old entity.now) }
        ensures frames { AreEncoded self.old → AreEncoded self.new }
    {
        self.add_move(alloc, from, entity)?;
        if comes || has_crossed(from, &entity.spot) {
            self.add_spawn(alloc, entity)?;
        }
        Ok(())
    }

    /// Adds the frames of an entity's move from a spot, unless it is there still. Without memory
    /// all is as before.
    fn add_move(&mut self, alloc: Global, from: &Spot, entity: &Entity) -> Result<(), NoMemory>
        ensures ok { OnOk result (self.new ≡ with_move self.old from.now entity.now) }
        ensures frames { AreEncoded self.old → AreEncoded self.new }
    {
        if is_still(&form(*from, entity.spot).form) {
            return Ok(());
        }
        let moved = Moved {
            from: *from,
            to: entity.spot,
            frames: moves_piece(alloc, entity.eid, from, &entity.spot)?,
        };
        self.moves.put(entity.eid, moved)?;
        Ok(())
    }

    /// Adds the frames that show an entity. Without memory all is as before.
    fn add_spawn(&mut self, alloc: Global, entity: &Entity) -> Result<(), NoMemory>
        requires { IsKind entity.now.kind }
        ensures ok { OnOk result (self.new ≡ with_spawn self.old entity.now) }
        ensures frames { AreEncoded self.old → AreEncoded self.new }
    {
        let row = entity_row(entity);
        let spawned = Spawned {
            row,
            frames: spawn_piece(alloc, &row)?,
        };
        put_row(&mut self.spawns, entity.eid, spawned)?;
        Ok(())
    }

    /// Joins the frames of all moves, so that those of moves that stand side by side are appended
    /// by one copy.
    pub fn join(&mut self, alloc: Global) -> Result<(), NoMemory>
        ensures { self.new ≡ self.old }
    {
        self.moves.join(alloc)?;
        Ok(())
    }

    /// The moves.
    pub(crate) fn moves(&self) -> &EncodedMoves
        ensures { result.now ≡ self.now.moves }
    {
        &self.moves
    }

    /// What was encoded to show the entity of a number.
    fn spawn_of(&self, eid: i32) -> Option<&Spawned>
        ensures { option_copied result ≡ map.get self.now.spawns eid }
    {
        match place_of(self.spawns.as_slice(), eid) {
            Ok(at) => Some(&self.spawns[at].1),
            Err(_) => None,
        }
    }

    /// The frames that show an entity as it is to be shown, None exactly where those of it were not
    /// encoded.
    pub(crate) fn spawned(&self, row: &Row) -> Option<&Bytes>
        ensures { option_copied result ≡ found_spawn self.now row.now }
    {
        let spawned = self.spawn_of(row.eid)?;
        if spawned.is(row) {
            Some(&spawned.frames)
        } else {
            None
        }
    }
}
