ghost use Rattle.std.specs.Prelude.{◌≡◌, ◌≤◌, nat_eq, false, OnOk, OnErr, IfOk};
ghost use Rattle.std.specs.List.{AllByRecursion};
ghost use Rattle.std.specs.Option.{option_copied};
ghost use Rattle.std.specs.FinMap as map;
ghost use Rattle.indexmap.specs.IndexMap.{insert_entry};
ghost use Rattle.mc_model.specs.Delta.{missing};
ghost use Rattle.mc_flush.specs.Lists.{new_list, with_name, without_name, settled_list};
ghost use Rattle.mc_flush.specs.Seeing.{IsNamed, player_packets};
ghost use Rattle.mc_sending.specs.Sending.{play_bytes};
ghost use Rattle.mc_flush.specs.Encoding.{player_bytes};

use crate::names::Names;
use bytes::Bytes;
use indexmap::IndexMap;
use mc_bytes::{NoMemory, Text};
use std::alloc::Global;
use std::marker::Model;

/// The players in play, by their identifiers, and the names of those who were there at the last
/// settling. Contracts see it as two finite maps.
#[derive(Drop)]
pub struct PlayerList {
    /// In the order in which they joined.
    present: IndexMap<u128, Text>,
    /// As they were at the last settling.
    last: IndexMap<u128, Text>,
}

impl Model for PlayerList {
    ghost use Rattle.mc_flush.specs.Lists.{ListValue, coded_list_value, kept_list};

    ghost Value = { ListValue };

    ghost coded = { coded_list_value };

    ghost view = { λ list. kept_list list.present.entries list.last.entries };
}

/// Puts a copy of an entry.
fn put_copy(copies: &mut IndexMap<u128, Text>, uuid: &u128, name: &Text) -> Result<(), NoMemory>
    ensures { OnOk result (copies.new.entries
        ≡ insert_entry nat_eq copies.old.entries uuid.now name.now) }
{
    copies.insert(*uuid, name.copy()?)?;
    Ok(())
}

/// Copies entries, in their order.
fn copies(players: &IndexMap<u128, Text>) -> Result<IndexMap<u128, Text>, NoMemory>
    ensures { IfOk result (λ copies. copies.entries ≡ players.now.entries) }
{
    let mut copies = IndexMap::new(*players.allocator());
    for (uuid, name) in players.iter() {
        put_copy(&mut copies, uuid, name)?;
    }
    Ok(copies)
}

impl PlayerList {
    /// Nobody.
    pub fn new(alloc: Global) -> PlayerList
        ensures { result ≡ new_list }
    {
        PlayerList {
            present: IndexMap::new(alloc),
            last: IndexMap::new(alloc),
        }
    }

    /// How many players are there.
    pub fn len(&self) -> usize
        ensures { result ≡ map.len self.now.present }
    {
        self.present.len()
    }

    /// How many players were there at the last settling.
    pub fn settled(&self) -> usize
        ensures { result ≡ map.len self.now.last }
    {
        self.last.len()
    }

    /// Whether a player is there.
    pub fn has(&self, uuid: u128) -> bool
        ensures { result ≡ map.contains_key self.now.present uuid }
    {
        self.present.contains_key(&uuid)
    }

    /// The name of a player.
    pub fn get(&self, uuid: u128) -> Option<&Text>
        ensures { option_copied result ≡ map.get self.now.present uuid }
    {
        self.present.get(&uuid)
    }

    /// A player enters who is not there. Without memory the list is as before.
    pub fn add(&mut self, uuid: u128, name: Text) -> Result<(), NoMemory>
        requires { map.contains_key self.old.present uuid ≡ false }
        ensures ok { OnOk result (self.new ≡ with_name self.old uuid name) }
        ensures err { OnErr result (self.new ≡ self.old) }
    {
        self.present.insert(uuid, name)?;
        Ok(())
    }

    /// A player goes. False exactly where it is not there.
    pub fn remove(&mut self, uuid: u128) -> bool
        ensures had { result ≡ map.contains_key self.old.present uuid }
        ensures gone { self.new ≡ without_name self.old uuid }
    {
        self.present.shift_remove(&uuid).is_some()
    }

    /// Nobody is there now. Those of the last settling stay. It takes no memory.
    pub fn clear(&mut self)
        ensures { self.new ≡ record self.old { present = map.empty } }
    {
        self.present = IndexMap::new(*self.present.allocator());
    }

    /// Makes the players of now those of the last settling. Without memory the list is as before.
    pub fn settle(&mut self) -> Result<(), NoMemory>
        ensures ok { OnOk result (self.new ≡ settled_list self.old) }
        ensures err { OnErr result (self.new ≡ self.old) }
    {
        self.last = copies(&self.present)?;
        Ok(())
    }

    /// Those who were there at the last settling and are no more, or have another name.
    fn left(&self, alloc: Global) -> Result<Names, NoMemory>
        ensures { IfOk result (λ names. names.found.entries
            ≡ missing self.now.last self.now.present) }
    {
        Names::missing(alloc, &self.last, &self.present)
    }

    /// Those who came since then, or have another name.
    fn came(&self, alloc: Global) -> Result<Names, NoMemory>
        ensures { IfOk result (λ names. names.found.entries
            ≡ missing self.now.present self.now.last) }
    {
        Names::missing(alloc, &self.present, &self.last)
    }

    /// All of them.
    fn all(&self, alloc: Global) -> Result<Names, NoMemory>
        ensures { IfOk result (λ names. names.found.entries
            ≡ missing self.now.present map.empty) }
    {
        Names::missing(alloc, &self.present, &IndexMap::new(alloc))
    }

    /// The frames of who left and of who came since the last settling, as one piece.
    pub(crate) fn changes(&self, alloc: Global) -> Result<Bytes, NoMemory>
        requires few { map.len self.now.present ≤ 50 }
        requires few_before { map.len self.now.last ≤ 50 }
        requires named { AllByRecursion IsNamed (map.entries self.now.present) }
        ensures { IfOk result (λ piece. piece ≡ player_bytes self.now) }
    {
        // Two sets of names and the bytes are alive at its last exits, and die there.
        let mut bytes = Vec::new(alloc);
        let left = self.left(alloc)?;
        left.put_left(alloc, &mut bytes)?;
        let came = self.came(alloc)?;
        came.put_came(alloc, &mut bytes)?;
        Ok(Bytes::from_vec(bytes)?)
    }

    /// The frame of all players, as one piece.
    pub(crate) fn everybody(&self, alloc: Global) -> Result<Bytes, NoMemory>
        requires few { map.len self.now.present ≤ 50 }
        requires named { AllByRecursion IsNamed (map.entries self.now.present) }
        ensures { IfOk result (λ piece. piece
            ≡ play_bytes (player_packets map.empty self.now.present)) }
    {
        let mut bytes = Vec::new(alloc);
        let all = self.all(alloc)?;
        all.put_came(alloc, &mut bytes)?;
        Ok(Bytes::from_vec(bytes)?)
    }
}
