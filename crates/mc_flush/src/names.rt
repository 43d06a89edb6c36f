ghost use Rattle.std.specs.Prelude.{◌≡◌, ◌≤◌, ◌++◌, ℕ, List, OnOk, IfOk, length, map};
ghost use Rattle.std.specs.List.{AllByRecursion};
ghost use Rattle.std.specs.FinMap.{from_entries, find};
ghost use Rattle.std.specs.Ordering.{nat_cmp};
ghost use Rattle.std.specs.BTreeMap.{IsOrdered};
ghost use lib.IntN.{pos};
ghost use Rattle.mc_model.specs.Delta.{leaver, joiner, about, is_named, missing};
ghost use Rattle.mc_flush.specs.Carried.{IsCarried};
ghost use Rattle.mc_flush.specs.Players.{with_other};
ghost use Rattle.mc_sending.specs.Sending.{play_bytes, AreClear};
ghost use Rattle.mc_flush.specs.Seeing.{IsNamed};

use indexmap::IndexMap;
use mc_bytes::{NoMemory, Text};
use mc_packets::{Down, Player, PlayerChange, Players, Properties};
use mc_sending::put_made;
use std::alloc::Global;
use std::collections::BTreeMap;

/// Some players: their names, in rising order of their identifiers.
#[derive(Drop)]
pub struct Names {
    /// By identifier.
    found: BTreeMap<u128, Text>,
}

/// Whether some players have one of this identifier and this name.
fn is_named(players: &IndexMap<u128, Text>, uuid: &u128, name: &Text) -> bool
    ensures { result ≡ is_named (find nat_cmp uuid.now players.now.entries) name.now }
{
    match players.get(uuid) {
        Some(other) => other.as_str() == name.as_str(),
        None => false,
    }
}

/// Keeps a player that others have not.
fn keep_other(
    others: &IndexMap<u128, Text>,
    uuid: &u128,
    name: &Text,
    found: &mut BTreeMap<u128, Text>,
) -> Result<(), NoMemory>
    requires { IsOrdered nat_cmp found.old }
    ensures found { OnOk result ((q : ℕ) → find nat_cmp q found.new.entries
        ≡ with_other others.now.entries uuid.now name.now (find nat_cmp q found.old.entries) q) }
    ensures ordered { OnOk result (IsOrdered nat_cmp found.new) }
{
    if !is_named(others, uuid, name) {
        found.insert(*uuid, name.copy()?)?;
    }
    Ok(())
}

/// A player that leaves.
fn leaver(uuid: &u128) -> Player
    ensures value { (name : List ℕ) → result ≡ leaver (uuid.now, name) }
    ensures carried { IsCarried (pos 4) result }
{
    Player {
        uuid: *uuid,
        change: PlayerChange::Leave,
    }
}

/// A player that joins.
fn joiner(alloc: Global, uuid: &u128, name: &Text) -> Result<Player, NoMemory>
    requires { length name.now ≤ 64 }
    ensures value { IfOk result (λ player. player ≡ joiner (uuid.now, name.now)) }
    ensures carried { IfOk result (IsCarried (pos 0)) }
{
    let name = Text::from_str(alloc, name.as_str())?;
    Ok(Player {
        uuid: *uuid,
        change: PlayerChange::Join {
            name,
            properties: Properties::new(alloc),
            mode: 0,
            ping: 0,
            is_shown: false,
            shown: None,
        },
    })
}

/// Appends the frame about players that leave, and none about nobody.
fn put_leavers(players: Players, out: &mut Vec<u8>) -> Result<(), NoMemory>
    requires { AreClear (about (pos 4) players) }
    ensures { OnOk result (out.new.items
        ≡ out.old.items ++ play_bytes (about (pos 4) players)) }
{
    if players.as_slice().is_empty() {
        return Ok(());
    }
    put_made(Down::List(4, players), out)
}

/// Appends the frame about players that join, and none about nobody.
fn put_joiners(players: Players, out: &mut Vec<u8>) -> Result<(), NoMemory>
    requires { AreClear (about (pos 0) players) }
    ensures { OnOk result (out.new.items
        ≡ out.old.items ++ play_bytes (about (pos 0) players)) }
{
    if players.as_slice().is_empty() {
        return Ok(());
    }
    put_made(Down::List(0, players), out)
}

impl Names {
    /// The players that others have not.
    pub fn missing(
        alloc: Global,
        players: &IndexMap<u128, Text>,
        others: &IndexMap<u128, Text>,
    ) -> Result<Names, NoMemory>
        ensures { IfOk result (λ names. names.found.entries
            ≡ missing (from_entries players.now.entries) (from_entries others.now.entries)) }
    {
        let mut found = BTreeMap::new(alloc);
        for (uuid, name) in players.iter() {
            keep_other(others, uuid, name, &mut found)?;
        }
        Ok(Names { found })
    }

    /// Players that leave.
    fn leavers(&self, alloc: Global) -> Result<Players, NoMemory>
        ensures value { IfOk result (λ players. players ≡ map leaver self.now.found.entries) }
        ensures carried { IfOk result (AllByRecursion (IsCarried (pos 4))) }
    {
        let mut players = Players::new(alloc);
        for (uuid, name) in &self.found {
            let _name = name;
            players.push(leaver(uuid))?;
        }
        Ok(players)
    }

    /// Players that join.
    fn joiners(&self, alloc: Global) -> Result<Players, NoMemory>
        requires { AllByRecursion IsNamed self.now.found.entries }
        ensures value { IfOk result (λ players. players ≡ map joiner self.now.found.entries) }
        ensures carried { IfOk result (AllByRecursion (IsCarried (pos 0))) }
    {
        let mut players = Players::new(alloc);
        for (uuid, name) in &self.found {
            let player = joiner(alloc, uuid, name)?;
            players.push(player)?;
        }
        Ok(players)
    }

    /// Appends what is sent of them as those who left.
    pub fn put_left(&self, alloc: Global, out: &mut Vec<u8>) -> Result<(), NoMemory>
        requires { length self.now.found.entries ≤ 50 }
        ensures { OnOk result (out.new.items ≡ out.old.items
            ++ play_bytes (about (pos 4) (map leaver self.now.found.entries))) }
    {
        let players = self.leavers(alloc)?;
        put_leavers(players, out)
    }

    /// Appends what is sent of them as those who came.
    pub fn put_came(&self, alloc: Global, out: &mut Vec<u8>) -> Result<(), NoMemory>
        requires few { length self.now.found.entries ≤ 50 }
        requires named { AllByRecursion IsNamed self.now.found.entries }
        ensures { OnOk result (out.new.items ≡ out.old.items
            ++ play_bytes (about (pos 0) (map joiner self.now.found.entries))) }
    {
        let players = self.joiners(alloc)?;
        put_joiners(players, out)
    }
}
