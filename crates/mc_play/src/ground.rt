ghost use Rattle.std.specs.Prelude.{◌≡◌, ◌≢◌, ◌⊎◌, ◌<◌, ◌≤◌, ◌^◌, ℕ, true, Some, is_some, OnErr};
ghost use Rattle.std.specs.Prelude.{OnOk, unsigned_abs};
ghost use Rattle.std.specs.Option.{option_copied};
ghost use Rattle.std.specs.FinMap.{get, len};
ghost use Rattle.mc_slots.specs.Chest.{IsChest};
ghost use Rattle.mc_slots.specs.Pile.{count_of};
ghost use Rattle.mc_land.specs.Land.{block, new_land, settled_land, terrain_at, with_block};
ghost use Rattle.mc_land.specs.Land.{with_ready};
ghost use Rattle.mc_land.specs.Places.{IsPlace, Key, is_inside, key_of};
ghost use Rattle.mc_land.specs.Shed.{IsSettled, shed_land};
ghost use Rattle.mc_model.specs.Things.{chest_of_cell, chest_put};
ghost use Rattle.mc_play.specs.Census.{chests_items};

mod fields;

use mc_bytes::NoMemory;
use mc_fields::Cell;
use mc_land::{Land, Steps, Terrain};
use mc_slots::Chest;
use std::alloc::Global;
use std::marker::{Brand, Model};
use std::sync::ledger::{Blank, Ledger};

/// A land of which each cell that was changed is air or a block with an id, and each chest stands
/// in a column of the world. It knows its terrain.
#[derive(Drop)]
pub struct Ground {
    terrain: Terrain,
    land: Land,
}

impl Model for Ground {
    ghost use Rattle.std.specs.Prelude.{◌≡◌};
    ghost use Rattle.mc_land.specs.Land.{LandValue};
    ghost use Rattle.mc_land.specs.LandCode.{coded_land};
    ghost use Rattle.mc_play.specs.Kept.{AreStates, AreStocked};

    ghost Value = { LandValue };

    ghost coded = { coded_land };

    ghost view = { λ ground. ground.land };

    ghost invariant = { λ ground.
        (ground.land.terrain ≡ ground.terrain) × AreStates ground.land.edits
        × AreStocked ground.land.chests };
}

/// The state of a cell of a land. The look is not counted.
fn state_of<L: Ledger>(land: &Land, cell: &Cell, blank: Blank) -> u16
    requires name { blank.name ≡ L.name }
    requires parts { blank.parts ≡ L.parts }
    requires some { 0 < blank.parts }
    requires inside { is_inside cell.now.x cell.now.y cell.now.z ≡ true }
    ensures { result ≡ block land.now cell.now.x cell.now.y cell.now.z }
{
    let mut steps = Steps::<L>::new(blank);
    land.block(*cell, &mut steps)
}

/// Lets other piles lie in the chest at a cell of a land, where there is one.
fn restock(land: &mut Land, cell: &Cell, chest: &Chest)
    requires { is_some (chest_of_cell land.old.chests cell.now.x cell.now.y cell.now.z) ≡ true }
    ensures is { land.new ≡ record land.old {
      chests = chest_put land.old.chests cell.now.x cell.now.y cell.now.z chest.now;
    } }
    // Its piles are ones that the world holds.
    ensures chest { IsChest chest.now }
{
    let _piles = chest.as_slice();
    if let Some(kept) = land.chest_mut(*cell) {
        *kept = *chest;
    }
}

impl Ground {
    /// The terrain alone.
    pub fn new(alloc: Global, terrain: Terrain) -> Ground
        ensures { result ≡ new_land terrain }
    {
        Ground {
            terrain,
            land: Land::new(alloc, terrain),
        }
    }

    /// What it is where nothing was changed.
    pub fn terrain(&self) -> &Terrain
        ensures { result.now ≡ self.now.terrain }
    {
        &self.terrain
    }

    /// The land.
    pub fn land(&self) -> &Land
        ensures { result.now ≡ self.now }
    {
        &self.land
    }

    /// The state of a cell of the world.
    pub fn state(&self, cell: &Cell) -> u16
        requires { is_inside cell.now.x cell.now.y cell.now.z ≡ true }
        ensures is { result ≡ block self.now cell.now.x cell.now.y cell.now.z }
        ensures small { result < 4096 }
        ensures whole { (result ≡ 0) ⊎ (16 ≤ result) }
    {
        state_of::<Brand>(&self.land, cell, Blank::new(1))
    }

    /// The chest at a cell, None where there is none.
    pub fn chest(&self, cell: &Cell) -> Option<&Chest>
        ensures { option_copied result
            ≡ chest_of_cell self.now.chests cell.now.x cell.now.y cell.now.z }
    {
        self.land.chest(*cell)
    }

    /// Lets other piles lie in the chest at a cell, where there is one. It takes no memory.
    pub fn restock(&mut self, cell: &Cell, chest: &Chest)
        requires { is_some (chest_of_cell self.old.chests cell.now.x cell.now.y cell.now.z)
            ≡ true }
        ensures { self.new ≡ record self.old {
          chests = chest_put self.old.chests cell.now.x cell.now.y cell.now.z chest.now;
        } }
    {
        restock(&mut self.land, cell, chest);
    }

    /// Sets a cell of the world to air or to a state of a block. Without memory all is as before.
    pub fn set(&mut self, cell: Cell, state: u16) -> Result<(), NoMemory>
        requires inside { is_inside cell.x cell.y cell.z ≡ true }
        requires small { state < 4096 }
        requires whole { (state ≡ 0) ⊎ (16 ≤ state) }
        ensures ok { OnOk result (self.new
            ≡ with_block self.old (key_of cell.x (unsigned_abs cell.y) cell.z) state) }
        ensures err { OnErr result (self.new ≡ self.old) }
    {
        match self.land.set(cell, state) {
            Ok(_) => Ok(()),
            Err(_) => Err(NoMemory),
        }
    }

    // ---- sums

    /// How many cells have a state that is not the terrain's.
    pub fn edited(&self) -> u128
        ensures count { result ≡ len self.now.edits }
        // Each edit is one.
        ensures differ { (key : Key) (state : ℕ) → get self.now.edits key ≡ Some state →
            state ≢ terrain_at self.now.terrain key }
    {
        self.land.edited()
    }

    /// How many items lie in all chests.
    pub fn stored(&self) -> u128
        ensures items { result ≡ chests_items count_of self.now.chests }
        ensures few { result ≤ 2 ^ 80 }
    {
        self.land.stored()
    }

    // ---- a tick

    /// Makes a column ready to be looked at. Without memory all is as before.
    pub fn ready(&mut self, place: &(i32, i32)) -> Result<(), NoMemory>
        requires { IsPlace place.now }
        ensures ok { OnOk result (self.new ≡ with_ready self.old place.now) }
        ensures err { OnErr result (self.new ≡ self.old) }
    {
        self.land.ready(place.0, place.1)
    }

    /// Keeps the cells as they are, as what everyone who sees them was shown. It takes no memory.
    pub fn settle(&mut self)
        ensures { self.new ≡ settled_land self.old }
    {
        self.land.settle();
    }

    /// Gives up those ready columns all of whose cells are as the terrain has them and that no view
    /// reaches.
    pub fn shed(&mut self, views: &[(i32, i32, u8)])
        requires { IsSettled self.old }
        ensures { self.new ≡ shed_land self.old views.now }
    {
        self.land.shed(views);
    }
}
