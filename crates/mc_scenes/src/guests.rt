ghost use Rattle.std.specs.Prelude.{◌≡◌, ◌≤◌, ◌<◌, length};
ghost use Rattle.std.specs.List.{AllByRecursion};
ghost use Rattle.std.specs.FinMap as map;
ghost use Rattle.mc_flush.specs.Seeing.{IsNamed};

use mc_bytes::{NoMemory, Text};
use mc_flush::PlayerList;
use std::alloc::Global;
use std::marker::Model;

/// A list of players that a client can be sent: at most 50 now and before, with short names.
#[derive(Drop)]
pub struct Guests {
    list: PlayerList,
}

impl Model for Guests {
    ghost use Rattle.mc_flush.specs.Lists.{ListValue, coded_list_value};
    ghost use Rattle.mc_showing.specs.Rosters.{IsRoster};

    ghost Value = { ListValue };

    ghost coded = { coded_list_value };

    ghost view = { λ guests. guests.list };

    ghost invariant = { λ guests. IsRoster guests.list };
}

impl Guests {
    /// Nobody.
    pub fn new(alloc: Global) -> Guests {
        Guests {
            list: PlayerList::new(alloc),
        }
    }

    /// The list.
    pub fn list(&self) -> &PlayerList
        ensures is { result.now ≡ self.now }
        ensures few { map.len result.now.present ≤ 50 }
        ensures few_before { map.len result.now.last ≤ 50 }
        ensures named { AllByRecursion IsNamed (map.entries result.now.present) }
    {
        &self.list
    }

    /// How many players are there.
    fn len(&self) -> usize
        ensures { result ≡ map.len self.now.present }
    {
        self.list.len()
    }

    /// A player enters, unless it is there.
    fn add(&mut self, uuid: u128, name: Text) -> Result<(), NoMemory>
        requires room { map.len self.old.present < 50 }
        requires short { length name ≤ 64 }
    {
        if self.list.has(uuid) {
            return Ok(());
        }
        self.list.add(uuid, name)?;
        Ok(())
    }

    /// A player enters, unless it is there, or there is no room, or its name is long.
    pub fn enter(&mut self, uuid: u128, name: Text) -> Result<(), NoMemory> {
        if self.len() < 50 && name.as_str().len() <= 64 {
            self.add(uuid, name)?;
        }
        Ok(())
    }

    /// Those who are there become those who were.
    pub fn settle(&mut self) -> Result<(), NoMemory> {
        self.list.settle()?;
        Ok(())
    }

    /// Nobody is there now.
    pub fn clear(&mut self) {
        self.list.clear();
    }
}
