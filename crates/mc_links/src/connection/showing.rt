//! What a tick does with a connection: columns are made ready for its client, and it is shown the
//! game.

ghost use Rattle.std.specs.Prelude.{◌≡◌, ◌+◌, ◌≤◌, OnOk};
ghost use Rattle.std.specs.FinMap.{get};
ghost use Rattle.mc_flush.specs.Encoding.{AreFrames};
ghost use Rattle.mc_flush.specs.Lists.{ListValue};
ghost use Rattle.mc_flush.specs.Seeing.{present_parts, settled_parts};
ghost use Rattle.mc_play.specs.Kept.{land_of};
ghost use Rattle.mc_showing.specs.Ahead.{prepared};
ghost use Rattle.mc_showing.specs.Looking.{rest_looks, view_looks};
ghost use Rattle.mc_showing.specs.Preparing.{IsReadyFor, Prepares};
ghost use Rattle.mc_showing.specs.Scenes.{IsScene};
ghost use Rattle.mc_showing.specs.Shown.{IsListed};
ghost use Rattle.mc_links.specs.Showing.{IsShown};

use super::Connection;
use mc_bytes::NoMemory;
use mc_flush::Encoded;
use mc_land::Steps;
use mc_play::Game;
use mc_showing::{Scene, prepare_one};
use std::alloc::Global;
use std::sync::ledger::Ledger;

impl Connection {
    /// Makes the columns ready that its client is to be shown and was not, and encodes their loads
    /// and the changed cells of the others, if it has a player. What was ready stays so. Each of
    /// these cells is looked at once at most.
    pub fn prepare<L: Ledger>(
        &self,
        alloc: Global,
        game: &mut Game,
        encoded: &mut Encoded,
        steps: &mut Steps<L>,
    ) -> Result<(), NoMemory>
        ensures ready { OnOk result (IsReadyFor game.new self.now.id self.now.mark) }
        ensures same { Prepares game.old game.new }
        ensures frames { (list : ListValue) → AreFrames (land_of game.old) list encoded.old
            → AreFrames (land_of game.new) list encoded.new }
        ensures prepared { OnOk result (encoded.new ≡ prepared game.old.settled game.old.game
            self.now.mark (get game.old.game.players self.now.id) encoded.old) }
        ensures bounded { steps.new ≤ steps.old + view_looks game.old.settled game.old.game
            self.now.mark (get game.old.game.players self.now.id) }
    {
        prepare_one(alloc, game, encoded, self.id, &self.mark, steps)
    }

    /// Shows its client the game of a scene, if it has a player and the list has just the players
    /// in play: what is due is handed out to it, and its mark stands for what it was shown. Nothing
    /// else of it changes. Of cells only those are looked at whose frames were not encoded, and
    /// those that were noted.
    pub fn show<L: Ledger>(
        &mut self,
        alloc: Global,
        scene: &Scene<'_>,
        steps: &mut Steps<L>,
    ) -> Result<(), NoMemory>
        requires scene { IsScene scene.now }
        requires ready { IsReadyFor scene.now.game.now self.old.id self.old.mark }
        ensures shown { IsListed scene.now.list.now scene.now.game.now.game →
            OnOk result (IsShown scene.now.game.now
            (settled_parts (land_of scene.now.game.now) scene.now.list.now)
            (present_parts (land_of scene.now.game.now) scene.now.list.now) self.old self.new) }
        ensures only { self.new
            ≡ record self.old { link = self.new.link; mark = self.new.mark } }
        ensures cost { OnOk result (steps.new ≡ steps.old + rest_looks scene.now.encoded.now
            scene.now.game.now.settled scene.now.game.now.game self.old.mark
            (get scene.now.game.now.game.players self.old.id)) }
        ensures bounded { steps.new ≤ steps.old + rest_looks scene.now.encoded.now
            scene.now.game.now.settled scene.now.game.now.game self.old.mark
            (get scene.now.game.now.game.players self.old.id) }
    {
        let Some(player) = scene.game.players().find(self.id) else {
            return Ok(());
        };
        let mut pieces = Vec::new(alloc);
        scene.push_for(alloc, player, &mut self.mark, &mut pieces, steps)?;
        self.hand_all(pieces)
    }
}
