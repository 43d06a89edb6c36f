ghost use Rattle.std.specs.Prelude.{◌≡◌, ◌<◌, ◌↔◌, false, IsNone};
ghost use Rattle.std.specs.Option.{is_some, option_copied, option_copied_mut};
ghost use Rattle.std.specs.FinMap.{get};
ghost use Rattle.mc_column.specs.Sizes.{cells};
ghost use Rattle.mc_land.specs.Land.{block, is_chest, state_at};

use super::Land;
use crate::places::{Place, key_of};
use mc_fields::Cell;
use mc_slots::Chest;

impl Land {
    ghost use Rattle.std.specs.Borrow.{LendsIf, sem};
    ghost use Rattle.mc_land.specs.contracts.land.Land.{the_row};
    ghost use Rattle.mc_slots.specs.contracts.chest.Chest.{the_row as chest_row};
    ghost use Rattle.mc_land.specs.Chests.{chest_in, chest_put, with_chest};

    /// The chest at a cell, None exactly where the cell is not one.
    pub fn chest(&self, cell: Cell) -> Option<&Chest>
        ensures none { IsNone result ↔ is_chest (block self.now cell.x cell.y cell.z) ≡ false }
        ensures piles { option_copied result ≡ chest_in self.now cell.x cell.y cell.z }
    {
        if cell.y < 0 || 255 < cell.y {
            return None;
        }
        self.chest_at(&key_of(&cell))
    }

    /// The chest at a cell's key.
    fn chest_at(&self, key: &(Place, u16)) -> Option<&Chest>
        ensures piles { option_copied result ≡ get self.now.chests key.now }
        ensures there { key.now.1 < cells → is_some (get self.now.chests key.now) ≡
            is_chest (state_at self.now.terrain self.now.edits key.now) }
    {
        self.chests.get(key)
    }

    /// The chest at a cell to write into, None exactly where the cell is not one. What is left in
    /// it is what the land has there, and nothing else changes.
    pub fn chest_mut(&mut self, cell: Cell) -> Option<&mut Chest>
        ensures* lends { sem 𝓛 (LendsIf the_row chest_row self.entry result
            (chest_put self.old cell.x cell.y cell.z) self.old) }
        ensures none { IsNone result ↔ is_chest (block self.old cell.x cell.y cell.z) ≡ false }
        ensures piles { option_copied_mut result ≡ chest_in self.old cell.x cell.y cell.z }
    {
        if cell.y < 0 || 255 < cell.y {
            return None;
        }
        self.chest_at_mut(&key_of(&cell))
    }

    /// The chest at a cell's key, to write into.
    fn chest_at_mut(&mut self, key: &(Place, u16)) -> Option<&mut Chest>
        ensures* lends { sem 𝓛 (LendsIf the_row chest_row self.entry result
            (with_chest self.old key.now) self.old) }
        ensures piles { option_copied_mut result ≡ get self.old.chests key.now }
        ensures there { key.now.1 < cells → is_some (get self.old.chests key.now) ≡
            is_chest (state_at self.old.terrain self.old.edits key.now) }
    {
        self.chests.get_mut(key)
    }
}
