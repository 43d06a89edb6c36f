ghost use Rattle.std.specs.Prelude.{◌≡◌, ◌≤◌, [], List, Some, IsTrue, length, true};
ghost use Rattle.std.specs.Prelude.{if◌then◌else◌};
ghost use Rattle.std.specs.Ordering.{eq_by_cmp};
ghost use Rattle.std.specs.List.{list_any};
ghost use Rattle.std.specs.FinMap.{find};
ghost use Rattle.mc_land.specs.KeptLand.{IsIndexed, placed};
ghost use Rattle.mc_land.specs.Places.{Place, place_cmp};
ghost use Rattle.mc_land.specs.Ready.{ReadyValue};
ghost use Rattle.mc_land.specs.ShedCode.{AreKept};
ghost use Rattle.mc_land.specs.Upkeep.{IsUpkeep, IsWhole, has, is_touched};

use crate::land::ready_at;
use crate::places::Place;
use crate::ready::Ready;
use mc_bytes::NoMemory;
use std::alloc::Global;
use std::collections::{BTreeMap, BTreeSet};

/// For how many views there is room: more than there are players.
const VIEWS_KEPT: usize = 64;

/// What a land keeps for speed alone: in which columns a cell is dirty, and which of them need not
/// be looked at where columns are shed.
#[derive(Drop)]
pub(crate) struct Upkeep {
    /// The columns in which a cell is dirty.
    pub(crate) touched: BTreeSet<Place>,
    /// The views by which columns were shed last.
    pub(crate) seen: Vec<(i32, i32, u8)>,
    /// So many columns, from the first on, stay as long as these are the views.
    pub(crate) staying: usize,
}

impl Upkeep {
    /// That of no column.
    pub(crate) fn new(alloc: Global) -> Upkeep
        ensures touched { result.touched.keys ≡ [] }
        ensures staying { result.staying ≡ 0 }
    {
        Upkeep {
            touched: BTreeSet::new(alloc),
            seen: Vec::new(alloc),
            staying: 0,
        }
    }

    /// How many columns, from the first on, stay by these views, as far as that is known.
    pub(crate) fn known_to_stay(&self, views: &[(i32, i32, u8)]) -> usize
        ensures { (columns : List ReadyValue) → IsUpkeep columns self.now →
            (result ≤ length columns) × AreKept views.now columns result }
    {
        if are_same(self.seen.as_slice(), views) {
            self.staying
        } else {
            0
        }
    }

    /// Makes room for the views of a shedding, unless there is some.
    pub(crate) fn make_room(&mut self) -> Result<(), NoMemory>
        ensures { (columns : List ReadyValue) → IsUpkeep columns self.old →
            IsUpkeep columns self.new }
    {
        if self.seen.capacity() < VIEWS_KEPT {
            self.seen.reserve(VIEWS_KEPT)?;
        }
        Ok(())
    }

    /// Keeps that so many columns, from the first on, stay by these views. Where there is no room
    /// for the views it keeps that none is known to stay. It takes no memory.
    pub(crate) fn keep_staying(&mut self, staying: usize, views: &[(i32, i32, u8)])
        ensures touched { self.new.touched.keys ≡ self.old.touched.keys }
        ensures fewer { self.new.staying ≤ staying }
        ensures stay { (columns : List ReadyValue) → AreKept views.now columns staying →
            AreKept self.new.seen.items columns self.new.staying }
    {
        self.seen.clear();
        self.staying = 0;
        if views.len() <= self.seen.capacity() && self.seen.extend_from_slice(views).is_ok() {
            self.staying = staying;
        }
    }
}

/// Whether two lists of views are the same.
fn are_same(old: &[(i32, i32, u8)], new: &[(i32, i32, u8)]) -> bool
    ensures { IsTrue result → old.now ≡ new.now }
{
    old == new
}

/// Lets the column of a place be among the touched exactly where a cell of it is dirty.
pub(crate) fn keep_touched(
    columns: &Vec<Ready>,
    index: &BTreeMap<Place, usize>,
    touched: &mut BTreeSet<Place>,
    place: &Place,
)
    requires indexed { IsIndexed columns.now.items index.now.entries }
    requires there { has place.now touched.old.keys ≡ true }
    ensures touched { (q : Place) → has q touched.new.keys ≡
        (if eq_by_cmp place_cmp q place.now then
        is_touched (find place_cmp place.now (placed columns.now.items)) else
        has q touched.old.keys) }
    ensures whole { (ready : ReadyValue) → find place_cmp place.now (placed columns.now.items) ≡
        Some ready → IsWhole ready }
{
    if !is_touched(columns, index, place) {
        let _was_there = touched.remove(place);
    }
}

/// Whether a cell of the column of a place is dirty.
fn is_touched(columns: &Vec<Ready>, index: &BTreeMap<Place, usize>, place: &Place) -> bool
    requires { IsIndexed columns.now.items index.now.entries }
    ensures is { result ≡ is_touched (find place_cmp place.now (placed columns.now.items)) }
    ensures whole { (ready : ReadyValue) → find place_cmp place.now (placed columns.now.items) ≡
        Some ready → IsWhole ready }
{
    match ready_at(columns, index, place) {
        Some(ready) => ready.is_touched(),
        None => false,
    }
}
