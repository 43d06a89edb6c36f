ghost use Rattle.std.specs.Prelude.{◌≡◌, ◌≤◌, ◌<◌, false, OnErr, OnOk};
ghost use Rattle.std.specs.List.{AllByRecursion};
ghost use Rattle.std.specs.FinMap as map;
ghost use Rattle.mc_flush.specs.Lists.{new_list, settled_list, with_name, without_name};
ghost use Rattle.mc_flush.specs.Seeing.{IsNamed};

mod fields;

use mc_bytes::NoMemory;
use mc_flush::PlayerList;
use mc_model::Name;
use std::alloc::Global;
use std::marker::Model;

/// How many players a list may have.
pub const LISTED_MAX: usize = 50;

/// The players in play that clients are shown, and those that they were shown last: at most 50
/// each, with names that a packet can carry.
#[derive(Drop)]
pub struct Roster {
    list: PlayerList,
}

impl Model for Roster {
    ghost use Rattle.mc_flush.specs.Lists.{ListValue, coded_list_value};
    ghost use Rattle.mc_showing.specs.Rosters.{IsRoster};

    ghost Value = { ListValue };

    ghost coded = { coded_list_value };

    ghost view = { λ r. r.list };

    ghost invariant = { λ r. IsRoster r.list };
}

impl Roster {
    /// Nobody.
    pub fn new(alloc: Global) -> Roster
        ensures { result ≡ new_list }
    {
        Roster {
            list: PlayerList::new(alloc),
        }
    }

    /// The list, which a client can be sent.
    pub fn list(&self) -> &PlayerList
        ensures is { result.now ≡ self.now }
        ensures few { map.len self.now.present ≤ 50 }
        ensures few_before { map.len self.now.last ≤ 50 }
        ensures named { AllByRecursion IsNamed (map.entries self.now.present) }
    {
        &self.list
    }

    /// A player enters who is not there. Without memory all is as before.
    pub fn add(&mut self, uuid: u128, name: &Name) -> Result<(), NoMemory>
        requires room { map.len self.old.present < 50 }
        requires other { map.contains_key self.old.present uuid ≡ false }
        ensures ok { OnOk result (self.new ≡ with_name self.old uuid name.now) }
        ensures err { OnErr result (self.new ≡ self.old) }
    {
        let name = name.text().copy()?;
        self.list.add(uuid, name)?;
        Ok(())
    }

    /// A player goes, if it is there.
    pub fn remove(&mut self, uuid: u128)
        ensures { self.new ≡ without_name self.old uuid }
    {
        let _was_there = self.list.remove(uuid);
    }

    /// Those who are there become those who were shown last. Without memory all is as before.
    pub fn settle(&mut self) -> Result<(), NoMemory>
        ensures ok { OnOk result (self.new ≡ settled_list self.old) }
        ensures err { OnErr result (self.new ≡ self.old) }
    {
        self.list.settle()
    }
}
