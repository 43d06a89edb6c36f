ghost use Rattle.std.specs.Prelude.{◌≡◌, ◌<◌, false, true, IfOk, IfErr, OnOk, OnErr, slice_get};
ghost use Rattle.std.specs.FinMap.{empty, entries, get, insert, keys, len, remove};
ghost use Rattle.std.specs.Option.{option_copied, option_copied_mut};
ghost use Rattle.mc_column.specs.Cells.{ColumnValue, cell_index, empty_column, with_state};
ghost use Rattle.mc_column.specs.Body.{put_body};
ghost use Rattle.mc_land.specs.Places.{place_cmp};
ghost use Rattle.mc_model.specs.Replica.{altered, with_records};
ghost use Rattle.mc_replica.specs.Cells.{recorded};
ghost use Rattle.mc_replica.specs.KeptRows.{IsAt, IsGap, IsRising};

use crate::places::{Place, low_state};
use mc_bytes::NoMemory;
use mc_column::{Body, Column};
use mc_packets::Record;
use std::alloc::Global;
use std::marker::Model;
use std::mem;

/// The columns that a client has. Contracts see them as a finite map from their places.
#[derive(Drop)]
pub(crate) struct Columns {
    /// By rising place.
    rows: Vec<(Place, Column)>,
}

impl Model for Columns {
    ghost use Rattle.std.specs.Coded.{codes, coded×, coded_ℤ};
    ghost use Rattle.std.specs.FinMap.{code, from_sorted};
    ghost use Rattle.mc_land.specs.Places.{place_cmp};
    ghost use Rattle.mc_model.specs.Replica as replica;
    ghost use Rattle.mc_replica.specs.KeptRows.{IsRising};

    ghost Value = { replica.Columns };

    ghost coded = { code (coded× coded_ℤ coded_ℤ) (Prim.hlevel codes) };

    ghost view = { λ columns. from_sorted columns.rows.items };

    ghost invariant = { λ columns. IsRising place_cmp columns.rows.items };
}

impl Columns {
    ghost use Rattle.std.specs.Borrow.{LendsIf, sem};
    ghost use Rattle.mc_column.specs.contracts.column.Column.{the_row as column_row};
    ghost use Rattle.mc_replica.specs.contracts.columns.Columns.{the_row};

    /// None.
    pub(crate) fn new(alloc: Global) -> Columns
        ensures { result ≡ empty }
    {
        Columns {
            rows: Vec::new(alloc),
        }
    }

    /// How many there are.
    pub(crate) fn len(&self) -> usize
        ensures { result ≡ len self.now }
    {
        self.rows.as_slice().len()
    }

    /// All of them with their places, by rising place.
    pub(crate) fn all(&self) -> &[(Place, Column)]
        ensures { result.now ≡ entries self.now }
    {
        self.rows.as_slice()
    }

    /// The place that has `i` places of others below it.
    pub(crate) fn place(&self, i: usize) -> Option<Place>
        ensures { result ≡ slice_get (keys self.now) i }
    {
        if i >= self.rows.as_slice().len() {
            return None;
        }
        Some(self.rows[i].0)
    }

    /// The column at a place, if it is there.
    pub(crate) fn find(&self, place: &Place) -> Option<&Column>
        ensures { option_copied result ≡ get self.now place.now }
    {
        match place_of(self.rows.as_slice(), place) {
            Ok(at) => Some(&self.rows[at].1),
            Err(_) => None,
        }
    }

    /// The column at a place to write into, if it is there; nothing else changes.
    fn find_mut(&mut self, place: &Place) -> Option<&mut Column>
        ensures* lends { sem 𝓛 (LendsIf the_row column_row self.entry result
            (insert self.old place.now) self.old) }
        ensures is { option_copied_mut result ≡ get self.old place.now }
    {
        match place_of(self.rows.as_slice(), place) {
            Ok(at) => Some(&mut self.rows[at].1),
            Err(_) => None,
        }
    }

    /// Puts a column at a place, instead of one that is there. Without memory all is as before.
    fn put(&mut self, place: &Place, column: Column) -> Result<(), NoMemory>
        ensures ok { OnOk result (self.new ≡ insert self.old place.now column) }
        ensures err { OnErr result (self.new ≡ self.old) }
    {
        match place_of(self.rows.as_slice(), place) {
            Ok(at) => {
                drop(mem::replace(&mut self.rows[at].1, column));
                Ok(())
            }
            Err(at) => {
                self.rows.insert(at, (*place, column))?;
                Ok(())
            }
        }
    }

    /// Takes the column at a place away, if it is there.
    pub(crate) fn remove(&mut self, place: &Place)
        ensures { self.new ≡ remove self.old place.now }
    {
        if let Ok(at) = place_of(self.rows.as_slice(), place) {
            drop(self.rows.remove(at));
        }
    }

    /// Puts a column of a body at a place. Without memory all is as before.
    pub(crate) fn load(
        &mut self,
        alloc: Global,
        place: &Place,
        body: &Body,
        mask: u16,
    ) -> Result<(), NoMemory>
        requires mask { body.now.mask ≡ mask }
        requires whole { body.now.ground_up ≡ true }
        ensures ok { OnOk result
            (self.new ≡ insert self.old place.now (put_body (empty_column 0) body.now)) }
        ensures err { OnErr result (self.new ≡ self.old) }
    {
        let mut column = Column::empty(alloc, 0)?;
        column.put(body, mask, true)?;
        self.put(place, column)
    }

    /// Puts some sections into the column at a place, if it is there.
    pub(crate) fn lay(&mut self, place: &Place, body: &Body, mask: u16) -> Result<(), NoMemory>
        requires mask { body.now.mask ≡ mask }
        requires part { body.now.ground_up ≡ false }
        ensures ok { OnOk result (self.new ≡ altered self.old place.now
            (λ (column : ColumnValue). put_body column body.now)) }
    {
        if let Some(column) = self.find_mut(place) {
            column.put(body, mask, false)?;
        }
        Ok(())
    }

    /// Puts a state into a cell of the column at a place, if it is there.
    pub(crate) fn set(
        &mut self,
        place: &Place,
        x: u8,
        y: u8,
        z: u8,
        state: u16,
    ) -> Result<(), NoMemory>
        requires x_inside { x < 16 }
        requires z_inside { z < 16 }
        ensures ok { OnOk result (self.new ≡ altered self.old place.now
            (λ (column : ColumnValue). with_state column (cell_index x y z) state)) }
    {
        if let Some(column) = self.find_mut(place) {
            let _old = column.set(x, y, z, state)?;
        }
        Ok(())
    }

    /// Puts states into cells of the column at a place, if it is there. Without memory it has put
    /// some first ones of them.
    pub(crate) fn set_all(&mut self, place: &Place, records: &[Record]) -> Result<(), NoMemory>
        ensures ok { OnOk result (self.new ≡ with_records self.old place.now records.now) }
    {
        if let Some(column) = self.find_mut(place) {
            set_all(column, records)?;
        }
        Ok(())
    }
}

/// Where a place stands, or else where it would go.
fn place_of(rows: &[(Place, Column)], place: &Place) -> Result<usize, usize>
    requires rising { IsRising place_cmp rows.now }
    ensures found { IfOk result (IsAt rows.now place.now) }
    ensures absent { IfErr result (IsGap place_cmp rows.now place.now) }
{
    rows.binary_search_by_key(place, |row| row.0)
}

/// Puts states into cells of a column. Without memory it has put some first ones of them.
fn set_all(column: &mut Column, records: &[Record]) -> Result<(), NoMemory>
    ensures { OnOk result (column.new ≡ recorded records.now column.old) }
{
    for record in records {
        let _old = column.set(
            record.place / 16,
            record.y,
            record.place % 16,
            low_state(record.state),
        )?;
    }
    Ok(())
}
