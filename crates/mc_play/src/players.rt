ghost use Rattle.std.specs.Prelude.{◌≡◌, ◌==◌, ◌∷◌, ℕ, [], OnErr, OnOk, if◌then◌else◌};
ghost use Rattle.std.specs.List.{list_any};
ghost use Rattle.std.specs.Option.{option_copied, option_copied_mut};
ghost use Rattle.std.specs.BTreeMap as tree;
ghost use Rattle.std.specs.Map.Iter.{ShowsInOrder, deref};
ghost use Rattle.std.specs.FinMap.{empty, entries, get, insert, len, remove, values};
ghost use Rattle.std.specs.Ordering.{int_eq};
ghost use lib.IntN.{pos};
ghost use Rattle.mc_model.specs.Notes.{again, with_answer, with_cells};
ghost use Rattle.mc_model.specs.Placing.{placing_refused};
ghost use Rattle.mc_model.specs.Maps.{map_keyed, modify};
ghost use Rattle.mc_model.specs.Movement.{placed_again};
ghost use Rattle.mc_model.specs.Pickups.{playing_as};
ghost use Rattle.mc_model.specs.Tick.{told_player};
ghost use Rattle.mc_model.specs.declared.player.Player as declared;

mod fields;

use mc_bytes::NoMemory;
use mc_fields::Cell;
use mc_model::{Answered, Notes, Player};
use std::alloc::Global;
use std::collections::BTreeMap;
use std::collections::btree_map::Values;
use std::marker::Model;

/// The players in play, by the numbers of their connections. Contracts see them as that map.
#[derive(Drop)]
pub struct Players {
    by_connection: BTreeMap<u32, Player>,
}

impl Model for Players {
    ghost use Rattle.std.specs.Coded.{codes, coded_ℕ};
    ghost use Rattle.std.specs.FinMap.{FinMap, code, from_entries};
    ghost use Rattle.std.specs.Ordering.{nat_cmp};
    ghost use Rattle.mc_model.specs.declared.player.Player as declared;

    ghost Value = { FinMap nat_cmp declared.Player };

    ghost coded = { code coded_ℕ (Prim.hlevel codes) };

    ghost view = { λ players. from_entries players.by_connection.entries };
}

/// Whether one of these players has an identifier.
fn is_among(players: &BTreeMap<u32, Player>, uuid: u128) -> bool
    ensures { result
        ≡ list_any (λ (p : declared.Player). p.uuid == uuid) (tree.values players.now) }
{
    players.values().any(|player| player.uuid == uuid)
}

/// Whether a player's entity has a number.
fn is_numbered(player: &Player, eid: &i32) -> bool
    ensures { result ≡ int_eq (pos player.now.eid) eid.now }
{
    player.eid.number() == *eid
}

/// The first of these connections whose player's entity has a number, if there is one.
fn playing_among(players: &BTreeMap<u32, Player>, eid: &i32) -> Option<u32>
    ensures { result ≡ playing_as eid.now players.now.entries }
{
    for (connection, player) in players {
        if is_numbered(player, eid) {
            return Some(*connection);
        }
    }
    None
}

impl Players {
    ghost use Rattle.std.specs.Borrow.{LendsIf, sem};
    ghost use Rattle.mc_model.specs.contracts.player.Player.{the_row as player_row};
    ghost use Rattle.mc_play.specs.contracts.players.Players.{the_row};

    /// Nobody is in play.
    pub fn new(alloc: Global) -> Players
        ensures { result ≡ empty }
    {
        Players {
            by_connection: BTreeMap::new(alloc),
        }
    }

    /// Those in play, in the order of their connections.
    pub fn all(&self) -> Values<'_, u32, Player>
        ensures are { result ≡ values self.now }
        ensures runs { ShowsInOrder (deref {X = declared.Player}) }
    {
        self.by_connection.values()
    }

    /// The player of a connection, if it has one.
    pub fn find(&self, connection: u32) -> Option<&Player>
        ensures { option_copied result ≡ get self.now connection }
    {
        self.by_connection.get(&connection)
    }

    /// The player of a connection to write into, if it has one; nothing else changes.
    fn find_mut(&mut self, connection: u32) -> Option<&mut Player>
        ensures* lends { sem 𝓛 (LendsIf the_row player_row self.entry result
            (insert self.old connection) self.old) }
        ensures is { option_copied_mut result ≡ get self.old connection }
    {
        self.by_connection.get_mut(&connection)
    }

    /// How many there are.
    pub fn len(&self) -> usize
        ensures { result ≡ len self.now }
    {
        self.by_connection.len()
    }

    /// The connection whose player's entity has a number, if there is one.
    pub(crate) fn playing_as(&self, eid: &i32) -> Option<u32>
        ensures { result ≡ playing_as eid.now (entries self.now) }
    {
        // The numbers rise.
        let _many = self.by_connection.len();
        playing_among(&self.by_connection, eid)
    }

    /// Whether one of them has an identifier.
    pub fn has(&self, uuid: u128) -> bool
        ensures { result ≡ list_any (λ (p : declared.Player). p.uuid == uuid) (values self.now) }
    {
        // The numbers rise.
        let _many = self.by_connection.len();
        is_among(&self.by_connection, uuid)
    }

    // ---- coming and going

    /// A connection has a player. Without memory all is as before.
    pub fn add(&mut self, connection: u32, player: Player) -> Result<(), NoMemory>
        ensures ok { OnOk result (self.new ≡ insert self.old connection player) }
        ensures err { OnErr result (self.new ≡ self.old) }
    {
        drop(self.by_connection.insert(connection, player)?);
        Ok(())
    }

    /// A connection has none any more, and the one that it had is answered.
    pub fn remove(&mut self, connection: u32) -> Option<Player>
        ensures was { result ≡ get self.old connection }
        ensures is { self.new ≡ remove self.old connection }
    {
        self.by_connection.remove(&connection)
    }

    // ---- what one asks for, and what is noted for its client

    /// The player of a connection asks for a view of a size, if it has one.
    pub fn ask_view(&mut self, connection: u32, view_byte: i8)
        ensures { self.new ≡ modify connection
            (λ (p : declared.Player). record p { view_byte = view_byte }) self.old }
    {
        if let Some(player) = self.find_mut(connection) {
            player.view_byte = view_byte;
        }
    }

    /// Puts the hand of the player of a connection on a place of the hotbar, if it has one.
    pub fn put_hand(&mut self, connection: u32, hand: u8)
        ensures { self.new ≡ modify connection
            (λ (p : declared.Player). record p { hand = hand }) self.old }
    {
        if let Some(player) = self.find_mut(connection) {
            player.hand = hand;
        }
    }

    /// The player of a connection is shown the window of the chest at a cell, or its own, if it has
    /// one.
    pub fn watch(&mut self, connection: u32, chest: Option<Cell>)
        ensures { self.new ≡ modify connection
            (λ (p : declared.Player). record p { chest = chest }) self.old }
    {
        if let Some(player) = self.find_mut(connection) {
            player.chest = chest;
        }
    }

    /// Notes that the client of a connection is to be told where its player is, if it has one.
    pub fn note_place(&mut self, connection: u32)
        ensures { self.new ≡ modify connection (λ (p : declared.Player). record p {
          notes = placed_again p.notes;
        }) self.old }
    {
        if let Some(player) = self.find_mut(connection) {
            player.notes.placing = true;
        }
    }

    /// Notes that the client of a connection is to be sent its window again, if it has a player.
    pub fn note_window(&mut self, connection: u32)
        ensures { self.new ≡ modify connection (λ (p : declared.Player). record p {
          notes = again p.notes;
        }) self.old }
    {
        if let Some(player) = self.find_mut(connection) {
            player.notes.resend = true;
        }
    }

    /// Notes a cell that the client of a connection is to be sent, if it has a player. Without
    /// memory all is as before.
    pub fn note_cell(&mut self, connection: u32, cell: Cell) -> Result<(), NoMemory>
        ensures ok { OnOk result (self.new ≡ modify connection (λ (p : declared.Player). record p {
          notes = with_cells (cell ∷ []) p.notes;
        }) self.old) }
        ensures err { OnErr result (self.new ≡ self.old) }
    {
        if let Some(player) = self.find_mut(connection) {
            player.notes.cells.push(cell)?;
        }
        Ok(())
    }

    /// Notes the answer to a click of the client of a connection, and where `resend` says so that
    /// it is to be sent its window again, if it has a player. Without memory all is as before.
    pub fn note_answer(
        &mut self,
        connection: u32,
        answered: Answered,
        resend: bool,
    ) -> Result<(), NoMemory>
        ensures ok { OnOk result (self.new ≡ modify connection (λ (p : declared.Player). record p {
          notes = if resend then again (with_answer answered p.notes)
              else with_answer answered p.notes;
        }) self.old) }
        ensures err { OnErr result (self.new ≡ self.old) }
    {
        if let Some(player) = self.find_mut(connection) {
            player.notes.confirms.push(answered)?;
            player.notes.resend |= resend;
        }
        Ok(())
    }

    /// Notes two cells that the client of a connection is to be sent, and that it is to be sent its
    /// window again, if it has a player.
    pub fn refuse_placing(
        &mut self,
        connection: u32,
        cell: Cell,
        target: Cell,
    ) -> Result<(), NoMemory>
        ensures { OnOk result (self.new ≡ modify connection (λ (p : declared.Player). record p {
          notes = placing_refused cell target p.notes;
        }) self.old) }
    {
        if let Some(player) = self.find_mut(connection) {
            player.notes.cells.push(cell)?;
            player.notes.cells.push(target)?;
            player.notes.resend = true;
        }
        Ok(())
    }

    // ---- a tick

    /// Every client was shown the game: nothing is noted for it, and it knows all that was said.
    pub fn told(&mut self, alloc: Global)
        ensures { self.new
            ≡ map_keyed (λ (k : ℕ) (p : declared.Player). told_player p) self.old }
    {
        self.by_connection.retain(|_connection, player| {
            player.notes = Notes::new(alloc);
            player.since = 0;
            true
        });
    }
}
