ghost use Rattle.std.specs.Prelude.{◌≡◌, ◌+◌, ◌≤◌, OnOk, OnErr};
ghost use Rattle.std.specs.Option.{option_copied};
ghost use Rattle.std.specs.List.{AllByRecursion, fold};
ghost use Rattle.std.specs.FinMap as map;
ghost use Rattle.mc_land.specs.Places.{IsPlace};
ghost use Rattle.mc_land.specs.Land.{LandValue};
ghost use Rattle.mc_flush.specs.Lists.{ListValue};
ghost use Rattle.mc_flush.specs.Seeing.{IsNamed};
ghost use Rattle.mc_loads.specs.Columns.{IsReady};
ghost use Rattle.mc_told.specs.EntityFrames.{AreEncoded};
ghost use Rattle.mc_flush.specs.Encoding.{AreFrames, change_cost, columns_in, load_cost};
ghost use Rattle.mc_flush.specs.Encoding.{nothing_encoded, with_changes, with_entity_frames};
ghost use Rattle.mc_flush.specs.Encoding.{with_frames_beside, with_lines, with_load, with_players};
ghost use Rattle.mc_flush.specs.LineFrames.{IsLine};

mod fields;

use crate::PlayerList;
use crate::encoded_lines::EncodedLines;
use bytes::Bytes;
use mc_bytes::{NoMemory, Text};
use mc_entities::Folk;
use mc_land::{Land, Steps};
use mc_loads::EncodedColumns;
use mc_told::EncodedEntities;
use mc_view::column_of_spot;
use std::alloc::Global;
use std::marker::Model;
use std::sync::ledger::Ledger;

/// What is the same for all clients of a tick, encoded once, in pieces that each of them shares:
/// the frames of who left and of who came since the last settling, by place that of a column's
/// load, by place those of its cells that changed since the last settling, by number those of an
/// entity's move since then and those that show one that some client may not know, and in their
/// order those of what was said.
#[derive(Drop)]
pub struct Encoded {
    /// The frames about players, where they were encoded.
    players: Option<Bytes>,
    /// The loads and the changed cells of columns.
    columns: EncodedColumns,
    /// What differs of entities.
    entities: EncodedEntities,
    /// What was said.
    lines: EncodedLines,
}

impl Model for Encoded {
    ghost use Rattle.mc_flush.specs.Encoding.{EncodedValue, coded_encoded};

    ghost Value = { EncodedValue };

    ghost coded = { coded_encoded };

    ghost view = { λ e. record {
      players = e.players;
      loads = e.columns.loads;
      changes = e.columns.changes;
      entities = e.entities;
      lines = e.lines;
    } };
}

/// Adds the frames of each entity's move since the last settling, and those that show each that
/// some client may not know: one that came since, one that stands in another column than then, and
/// one whose column's load was encoded. Without memory they are those of some.
fn add_all(
    alloc: Global,
    folk: &Folk,
    columns: &EncodedColumns,
    entities: &mut EncodedEntities,
) -> Result<(), NoMemory>
    ensures ok { OnOk result (entities.new ≡ fold
        (with_frames_beside columns.now folk.now.state) entities.old folk.now.state.entities) }
    ensures frames { AreEncoded entities.old → AreEncoded entities.new }
{
    for entity in folk.all() {
        let comes = columns.load(&column_of_spot(&entity.spot)).is_some();
        entities.add_entity(alloc, folk, entity, comes)?;
    }
    entities.join(alloc)
}

impl Encoded {
    /// Nothing was encoded.
    pub fn new(alloc: Global) -> Encoded
        ensures is { result ≡ nothing_encoded }
        ensures frames { (land : LandValue) (list : ListValue) → AreFrames land list result }
    {
        Encoded {
            players: None,
            columns: EncodedColumns::new(alloc),
            entities: EncodedEntities::new(alloc),
            lines: EncodedLines::new(alloc),
        }
    }

    /// Adds the frames of who left and of who came since the last settling. Without memory all is
    /// as before.
    pub fn add_players(&mut self, alloc: Global, list: &PlayerList) -> Result<(), NoMemory>
        requires few { map.len list.now.present ≤ 50 }
        requires few_before { map.len list.now.last ≤ 50 }
        requires named { AllByRecursion IsNamed (map.entries list.now.present) }
        ensures ok { OnOk result (self.new ≡ with_players self.old list.now) }
        ensures err { OnErr result (self.new ≡ self.old) }
        ensures frames { (land : LandValue) → AreFrames land list.now self.old
            → AreFrames land list.now self.new }
    {
        let piece = list.changes(alloc)?;
        self.players = Some(piece);
        Ok(())
    }

    /// Adds the frame that loads the column of a place, and looks at its cells, unless it is there.
    /// Without memory all is as before.
    pub fn add_load<L: Ledger>(
        &mut self,
        alloc: Global,
        land: &Land,
        place: &(i32, i32),
        steps: &mut Steps<L>,
    ) -> Result<(), NoMemory>
        requires { IsReady land.now place.now }
        ensures ok { OnOk result (self.new ≡ with_load self.old land.now place.now) }
        ensures err { OnErr result (self.new ≡ self.old) }
        ensures frames { (list : ListValue) → AreFrames land.now list self.old
            → AreFrames land.now list self.new }
        ensures cost { OnOk result (steps.new ≡ steps.old + load_cost self.old place.now) }
        ensures bounded { steps.new ≤ steps.old + load_cost self.old place.now }
    {
        self.columns.add_load(alloc, land, place, steps)?;
        Ok(())
    }

    /// Adds the frames of the cells of a column that changed since the last settling, and looks at
    /// those, unless they are there or none changed. Without memory all is as before.
    pub fn add_changes<L: Ledger>(
        &mut self,
        alloc: Global,
        land: &Land,
        place: &(i32, i32),
        steps: &mut Steps<L>,
    ) -> Result<(), NoMemory>
        requires { IsPlace place.now }
        ensures ok { OnOk result (self.new ≡ with_changes self.old land.now place.now) }
        ensures err { OnErr result (self.new ≡ self.old) }
        ensures frames { (list : ListValue) → AreFrames land.now list self.old
            → AreFrames land.now list self.new }
        ensures cost { OnOk result (steps.new
            ≡ steps.old + change_cost self.old land.now place.now) }
        ensures bounded { steps.new ≤ steps.old + change_cost self.old land.now place.now }
    {
        self.columns.add_changes(alloc, land, place, steps)?;
        Ok(())
    }

    /// Adds the frames of each entity's move since the last settling, and those that show each that
    /// some client may not know: one that came since, one that stands in another column than then,
    /// and one whose column's load was encoded. Without memory they are those of some.
    pub fn add_entities(&mut self, alloc: Global, folk: &Folk) -> Result<(), NoMemory>
        ensures ok { OnOk result (self.new ≡ with_entity_frames self.old folk.now.state) }
        ensures frames { (land : LandValue) (list : ListValue) → AreFrames land list self.old
            → AreFrames land list self.new }
    {
        add_all(alloc, folk, &self.columns, &mut self.entities)
    }

    /// Adds the frames of what was said since the last tick, in the order in which it was said.
    /// Without memory they are those of some.
    pub fn add_lines(&mut self, alloc: Global, texts: &[Text]) -> Result<(), NoMemory>
        requires { AllByRecursion IsLine texts.now }
        ensures ok { OnOk result (self.new ≡ with_lines self.old texts.now) }
        ensures frames { (land : LandValue) (list : ListValue) → AreFrames land list self.old
            → AreFrames land list self.new }
    {
        self.lines.add_lines(alloc, texts)
    }

    /// The loads and the changed cells that were encoded.
    pub(crate) fn columns(&self) -> &EncodedColumns
        ensures { result.now ≡ columns_in self.now }
    {
        &self.columns
    }

    /// What was encoded of entities.
    pub(crate) fn entities(&self) -> &EncodedEntities
        ensures { result.now ≡ self.now.entities }
    {
        &self.entities
    }

    /// What was encoded of what was said.
    pub(crate) fn lines(&self) -> &EncodedLines
        ensures { result.now ≡ self.now.lines }
    {
        &self.lines
    }

    /// The frames about players, None where they were not encoded.
    pub(crate) fn players(&self) -> Option<&Bytes>
        ensures { option_copied result ≡ self.now.players }
    {
        self.players.as_ref()
    }
}
