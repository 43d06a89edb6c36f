ghost use Rattle.std.specs.Prelude.{◌≡◌, ◌≤◌, ◌*◌, ◌^◌, OnErr, OnOk, unwrap_or};
ghost use Rattle.std.specs.List.{IsDistinct, sum_by};
ghost use Rattle.std.specs.Map.{keys_of};
ghost use Rattle.std.specs.Option.{option_copied};
ghost use Rattle.std.specs.FinMap.{empty, get, insert, len};
ghost use Rattle.std.specs.String.{string_eq};
ghost use Rattle.mc_slots.specs.Pile.{count_of};
ghost use Rattle.mc_windows.specs.Pack.{PackValue, kit_pack};
ghost use Rattle.mc_model.specs.Maps.{modify};
ghost use Rattle.mc_play.specs.Census.{pack_items, packs_items};

mod fields;

use crate::census::pack_items;
use indexmap::IndexMap;
use mc_bytes::{NoMemory, Text};
use mc_windows::{Pack, kit};
use std::alloc::Global;
use std::marker::Model;

/// What each name carries that was ever in play, also while it is not. Contracts see it as the map
/// of the names and their packs.
#[derive(Drop)]
pub struct Packs {
    by_name: IndexMap<String, Pack>,
}

impl Model for Packs {
    ghost use Rattle.std.specs.Coded.{codes, coded_list, coded_ℕ};
    ghost use Rattle.std.specs.FinMap.{FinMap, code};
    ghost use Rattle.mc_windows.specs.Pack.{PackValue};
    ghost use Rattle.mc_model.specs.Maps.{name_cmp};
    ghost use Rattle.mc_play.specs.Named.{packs_of};

    ghost Value = { FinMap name_cmp PackValue };

    ghost coded = { code (coded_list coded_ℕ) (Prim.hlevel codes) };

    ghost view = { λ packs. packs_of packs.by_name.entries };
}

impl Packs {
    /// No name was in play.
    pub fn new(alloc: Global) -> Packs
        ensures { result ≡ empty }
    {
        Packs {
            by_name: IndexMap::new(alloc),
        }
    }

    /// How many names there are.
    pub fn len(&self) -> usize
        ensures { result ≡ len self.now }
    {
        self.by_name.len()
    }

    /// How many items all of them hold, with what hangs on cursors.
    pub fn items(&self) -> u128
        ensures is { result ≡ packs_items count_of self.now }
        ensures few { result ≤ 9435 * 2 ^ 63 }
    {
        items_in(&self.by_name)
    }

    /// What a name carries, None where it never was in play.
    pub fn get(&self, name: &Text) -> Option<&Pack>
        ensures { option_copied result ≡ get self.now name.now }
    {
        self.by_name.get(name.as_str())
    }

    /// Gives a name the kit, unless it was in play before. Without memory all is as before.
    pub fn admit(&mut self, name: &Text) -> Result<(), NoMemory>
        ensures ok { OnOk result (self.new
            ≡ insert self.old name.now (unwrap_or (get self.old name.now) kit_pack)) }
        ensures err { OnErr result (self.new ≡ self.old) }
    {
        if self.get(name).is_some() {
            return Ok(());
        }
        let alloc = *self.by_name.allocator();
        let name = String::from_str(alloc, name.as_str())?;
        self.by_name.insert(name, kit())?;
        Ok(())
    }

    /// Gives a name another pack, if it was ever in play. It takes no memory.
    pub fn put(&mut self, name: &Text, pack: Pack)
        ensures { self.new ≡ modify name.now (λ (old : PackValue). pack) self.old }
    {
        if let Some(kept) = self.by_name.get_mut(name.as_str()) {
            *kept = pack;
        }
    }
}

/// How many items the packs of a map hold.
fn items_in(packs: &IndexMap<String, Pack>) -> u128
    ensures is { result ≡ sum_by (λ e. pack_items count_of e.1) packs.now.entries }
    ensures few { result ≤ 9435 * 2 ^ 63 }
    // No name stands twice.
    ensures unique { IsDistinct string_eq (keys_of packs.now.entries) }
{
    let mut total: u128 = 0;
    for (_name, pack) in packs.iter() {
        total += u128::from(pack_items(pack));
    }
    total
}
