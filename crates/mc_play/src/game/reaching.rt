//! Cells that players can dig and place on.

ghost use Rattle.std.specs.Prelude.{◌≡◌, ◌⊎◌, ◌<◌, ◌≤◌, ◌&&◌, ◌==◌, IfSome, None, OnErr, OnOk};
ghost use Rattle.std.specs.Prelude.{Some, if◌then◌else◌, true};
ghost use Rattle.mc_land.specs.Places.{is_inside};
ghost use Rattle.mc_model.specs.Deeds.{with_state};
ghost use Rattle.mc_model.specs.Game.{state_in};
ghost use Rattle.mc_model.specs.Placing.{is_free};
ghost use Rattle.mc_model.specs.Reach.{is_in_reach};
ghost use Rattle.mc_play.specs.Kept.{played};

use crate::game::Game;
use crate::reach::is_near;
use mc_bytes::NoMemory;
use mc_fields::Cell;
use mc_land::is_inside;
use mc_model::Player;

impl Game {
    /// The state of a cell that is in reach of a player; None of another.
    pub(super) fn reach(&self, player: &Player, cell: &Cell) -> Option<u16>
        ensures is { result ≡ (if is_in_reach self.now.game player.now cell.now
            then Some (state_in self.now.game cell.now) else None) }
        ensures inside { IfSome result (λ state.
            is_inside cell.now.x cell.now.y cell.now.z ≡ true) }
        ensures small { IfSome result (λ state. state < 4096) }
        ensures whole { IfSome result (λ state. (state ≡ 0) ⊎ (16 ≤ state)) }
    {
        if !is_inside(cell) || !is_near(&self.spot_of(player), cell) {
            return None;
        }
        Some(self.ground.state(cell))
    }

    /// Whether a cell is air in the world.
    pub(super) fn is_free(&self, cell: &Cell) -> bool
        ensures { result ≡ is_free self.now.game cell.now }
    {
        is_inside(cell) && self.ground.state(cell) == 0
    }

    /// Sets a cell of the world to air or to a state of a block. Without memory all is as before.
    #[tactic(auto, using(crate::proofs::States::inside_state))]
    pub(super) fn set_state(&mut self, cell: Cell, state: u16) -> Result<(), NoMemory>
        requires inside { is_inside cell.x cell.y cell.z ≡ true }
        requires small { state < 4096 }
        requires whole { (state ≡ 0) ⊎ (16 ≤ state) }
        ensures ok { OnOk result (self.new
            ≡ played self.old (with_state cell state self.old.game) self.new.aside) }
        ensures err { OnErr result (self.new ≡ self.old) }
        ensures places { self.new.aside.reserve ≡ self.old.aside.reserve }
    {
        self.ground.set(cell, state)
    }
}
