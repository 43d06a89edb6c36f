ghost use Rattle.std.specs.Prelude.{◌≡◌, IfOk, IfErr, OnOk, OnErr};
ghost use Rattle.std.specs.FinMap.{empty, entries, insert, remove};
ghost use Rattle.std.specs.Ordering.{nat_cmp};
ghost use Rattle.mc_model.specs.Replica.{with_change, with_players};
ghost use Rattle.mc_replica.specs.KeptPlayers.{rows_of};
ghost use Rattle.mc_replica.specs.KeptRows.{IsAt, IsGap, IsRising};

use mc_bytes::{NoMemory, Text};
use mc_packets::{Player, PlayerChange};
use std::alloc::Global;
use std::marker::Model;
use std::mem;

/// A player of the list of players.
#[derive(Drop)]
pub struct Listed {
    /// The player's identifier.
    pub uuid: u128,
    /// Its name.
    pub name: Text,
}

/// The list of players that a client has. Contracts see it as a finite map from identifiers to
/// names.
#[derive(Drop)]
pub(crate) struct PlayerList {
    /// By rising identifier.
    rows: Vec<Listed>,
}

impl Model for PlayerList {
    ghost use Rattle.std.specs.Prelude.{List, ℕ};
    ghost use Rattle.std.specs.Coded.{coded_list, coded_ℕ};
    ghost use Rattle.std.specs.FinMap.{FinMap, code, from_sorted};
    ghost use Rattle.std.specs.Ordering.{nat_cmp};
    ghost use Rattle.mc_replica.specs.KeptPlayers.{rows_of};
    ghost use Rattle.mc_replica.specs.KeptRows.{IsRising};

    ghost Value = { FinMap nat_cmp (List ℕ) };

    ghost coded = { code coded_ℕ (coded_list coded_ℕ) };

    ghost view = { λ list. from_sorted (rows_of list.rows.items) };

    ghost invariant = { λ list. IsRising nat_cmp (rows_of list.rows.items) };
}

impl PlayerList {
    /// Nobody.
    pub(crate) fn new(alloc: Global) -> PlayerList
        ensures { result ≡ empty }
    {
        PlayerList {
            rows: Vec::new(alloc),
        }
    }

    /// All of them, by rising identifier.
    pub(crate) fn all(&self) -> &[Listed]
        ensures { rows_of result.now ≡ entries self.now }
    {
        self.rows.as_slice()
    }

    /// Puts a name, in the place of the one of that identifier. Without memory all is as before.
    fn put(&mut self, uuid: &u128, name: Text) -> Result<(), NoMemory>
        ensures ok { OnOk result (self.new ≡ insert self.old uuid.now name) }
        ensures err { OnErr result (self.new ≡ self.old) }
    {
        match place_of(self.rows.as_slice(), uuid) {
            Ok(at) => {
                drop(mem::replace(&mut self.rows[at].name, name));
                Ok(())
            }
            Err(at) => {
                self.rows.insert(at, Listed { uuid: *uuid, name })?;
                Ok(())
            }
        }
    }

    /// Takes the name of an identifier away, if it is there.
    fn remove(&mut self, uuid: &u128)
        ensures { self.new ≡ remove self.old uuid.now }
    {
        if let Ok(at) = place_of(self.rows.as_slice(), uuid) {
            drop(self.rows.remove(at));
        }
    }

    /// Takes what changes of a player.
    fn take(&mut self, player: &Player) -> Result<(), NoMemory>
        ensures ok { OnOk result
            (self.new ≡ with_change self.old player.now.uuid player.now.change) }
    {
        match &player.change {
            PlayerChange::Join { name, .. } => self.put(&player.uuid, name.copy()?)?,
            PlayerChange::Leave => self.remove(&player.uuid),
            _ => {}
        }
        Ok(())
    }

    /// Takes what changes of players, one after another. Without memory it has taken some first
    /// ones.
    pub(crate) fn take_all(&mut self, players: &[Player]) -> Result<(), NoMemory>
        ensures { OnOk result (self.new ≡ with_players self.old players.now) }
    {
        for player in players {
            self.take(player)?;
        }
        Ok(())
    }
}

/// Where an identifier stands, or else where it would go.
fn place_of(rows: &[Listed], uuid: &u128) -> Result<usize, usize>
    requires rising { IsRising nat_cmp (rows_of rows.now) }
    ensures found { IfOk result (IsAt (rows_of rows.now) uuid.now) }
    ensures absent { IfErr result (IsGap nat_cmp (rows_of rows.now) uuid.now) }
{
    rows.binary_search_by_key(uuid, |listed| listed.uuid)
}
