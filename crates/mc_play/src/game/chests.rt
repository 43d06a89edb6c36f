//! Chests whose windows players are shown.

ghost use Rattle.std.specs.Prelude.{◌≡◌, ◌≤◌, Some, is_some, length, IfOk, OnErr, OnOk};
ghost use Rattle.std.specs.List.{filter};
ghost use Rattle.std.specs.Option.{option_and_then, option_copied};
ghost use Rattle.std.specs.FinMap.{get};
ghost use Rattle.mc_model.specs.Deeds.{watching};
ghost use Rattle.mc_model.specs.Game.{chest_at, chest_of};
ghost use Rattle.mc_model.specs.Windows.{is_cell, is_of, open_chest, opened, restocking, shut_all};
ghost use Rattle.mc_model.specs.Windows.{viewers, views};
ghost use Rattle.mc_play.specs.Kept.{by_player, played};

use crate::Players;
use crate::game::Game;
use mc_bytes::NoMemory;
use mc_fields::Cell;
use mc_model::Player;
use mc_slots::Chest;
use mc_windows::begin;

/// Whether two cells are one.
fn is_cell(a: &Cell, b: &Cell) -> bool
    ensures { result ≡ is_cell a.now b.now }
{
    if a.x != b.x {
        return false;
    }
    a.y == b.y && a.z == b.z
}

/// Whether a cell is that of a chest which is shown.
fn is_of(cell: &Cell, shown: &Option<Cell>) -> bool
    ensures { result ≡ is_of cell.now shown.now }
{
    match shown {
        Some(other) => is_cell(cell, other),
        None => false,
    }
}

/// Whether the player of a connection is shown the chest at a cell.
fn views(players: &Players, connection: u32, cell: &Cell) -> bool
    ensures { result ≡ views cell.now (get players.now connection) }
{
    match players.find(connection) {
        Some(player) => is_of(cell, &player.chest),
        None => false,
    }
}

/// Those of connections whose players are shown the chest at a cell.
fn viewers_among(players: &Players, connections: Vec<u32>, cell: &Cell) -> Vec<u32>
    ensures { result.items ≡ filter (λ k. views cell.now (get players.now k)) connections.items }
{
    let mut connections = connections;
    connections.retain(|connection| views(players, *connection, cell));
    connections
}

impl Game {
    // ---- what lies in it

    /// The chest whose window a player is shown; None where it is shown none.
    pub fn chest_of(&self, player: &Player) -> Option<Chest>
        ensures { result ≡ chest_of self.now.game player.now }
    {
        let cell = player.chest?;
        self.ground.chest(&cell).copied()
    }

    /// The chest whose window a player is shown, which is lent; None where it is shown none.
    pub fn chest(&self, player: &Player) -> Option<&Chest>
        ensures { option_copied result ≡ chest_of self.now.game player.now }
    {
        let cell = player.chest.as_ref()?;
        self.ground.chest(cell)
    }

    /// Lets other piles lie in the chest that is shown, if one is.
    pub(super) fn restock(&mut self, shown: Option<Cell>, chest: Option<Chest>)
        requires { is_some chest ≡ is_some (option_and_then (chest_at self.old.game) shown) }
        ensures { self.new
            ≡ played self.old (restocking shown chest self.old.game) self.old.aside }
    {
        if let Some((cell, chest)) = shown.zip(chest) {
            self.ground.restock(&cell, &chest);
        }
    }

    // ---- opening

    /// The player of a connection is shown the window of the chest at a cell, or its own, if it has
    /// one.
    pub(super) fn watch(&mut self, connection: u32, chest: Option<Cell>)
        ensures { self.new
            ≡ played self.old (watching chest connection self.old.game) self.old.aside }
    {
        self.players.watch(connection, chest);
    }

    /// Shows the player of a connection, if it has one, the next window, that of the chest at a
    /// cell.
    fn show_chest(&mut self, connection: u32, cell: Cell)
        ensures { self.new ≡ played self.old (by_player connection
            (λ p. opened connection p cell) self.old.game) self.new.aside }
    {
        let Some(player) = self.players.find(connection) else {
            return;
        };
        let mut pack = self.pack_of(player);
        let _number = begin(&mut pack);
        self.repack(connection, pack);
        self.watch(connection, Some(cell));
    }

    /// Opens the chest at a cell for the player of a connection, if it has one; the window of
    /// another closes first. Without memory all is as before.
    pub(super) fn open_chest(&mut self, connection: u32, cell: Cell) -> Result<(), NoMemory>
        ensures ok { OnOk result (self.new ≡ played self.old (by_player connection
            (λ p. open_chest connection p cell) self.old.game) self.new.aside) }
        ensures err { OnErr result (self.new
            ≡ played self.old self.old.game self.new.aside) }
    {
        let Some(player) = self.players.find(connection) else {
            return Ok(());
        };
        if player.chest.is_none() {
            self.show_chest(connection, cell);
            return Ok(());
        }
        self.reserve(1)?;
        self.shut(connection);
        self.show_chest(connection, cell);
        Ok(())
    }

    // ---- who is shown one

    /// The connections whose players are shown the chest at a cell, in rising number of their
    /// entities.
    pub(super) fn viewers(&self, cell: &Cell) -> Result<Vec<u32>, NoMemory>
        ensures { IfOk result (λ connections.
            connections.items ≡ viewers cell.now self.now.game) }
    {
        let connections = self.pickers()?;
        Ok(viewers_among(&self.players, connections, cell))
    }

    /// Closes the windows of the players of connections, one after another. There are places for
    /// what hangs on their cursors.
    pub(super) fn shut_all(&mut self, connections: &[u32])
        requires { length connections.now ≤ self.old.aside.reserve }
        ensures { self.new ≡ played self.old
            (shut_all connections.now self.old.game) self.new.aside }
    {
        for connection in connections {
            self.shut(*connection);
        }
    }
}
