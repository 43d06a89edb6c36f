ghost use Rattle.std.specs.Prelude.{◌≡◌, ◌≤◌, ◌+◌, ◌++◌, [], Option, Some, OnOk};
ghost use Rattle.std.specs.Prelude.{if◌then◌else◌};
ghost use Rattle.std.specs.List.{AllByRecursion};
ghost use lib.IntN.{pos};
ghost use Rattle.mc_frame.specs.Kept.{joined};
ghost use Rattle.mc_model.specs.Sight.{Sight};
ghost use Rattle.mc_model.specs.Opening.{opening_of};
ghost use Rattle.mc_model.specs.Game.{chest_of, pack_of, spot_of};
ghost use Rattle.mc_model.specs.Showing.{due, sight_of};
ghost use Rattle.mc_play.specs.Kept.{land_of};
ghost use Rattle.mc_sending.specs.Sending.{play_bytes};
ghost use Rattle.mc_loads.specs.Columns.{IsReady};
ghost use Rattle.mc_flush.specs.Seeing.{is_shown, present_parts, settled_parts};
ghost use Rattle.mc_showing.specs.Around.{new_columns};
ghost use Rattle.mc_showing.specs.Looking.{rest_looks};
ghost use Rattle.mc_showing.specs.Shown.{IsListed, Shows};
ghost use Rattle.mc_showing.specs.Scenes.{IsScene};

use crate::client::view_for;
use crate::opening::push_opening;
use bytes::Bytes;
use mc_bytes::NoMemory;
use mc_flush::{Encoded, Mark, PlayerList, flush_with};
use mc_land::Steps;
use mc_model::Player;
use mc_play::Game;
use std::alloc::Global;
use std::sync::ledger::Ledger;

/// All that clients are shown a part of at a tick, and what was encoded of it for all of them.
#[derive(Drop)]
pub struct Scene<'w> {
    /// The game.
    pub game: &'w Game,
    /// The players in play, and those who were at the last tick.
    pub list: &'w PlayerList,
    /// The frames that more than one client may be sent.
    pub encoded: &'w Encoded,
}

impl Scene<'_> {
    /// Appends the opening, unless a client was shown something.
    fn push_opening(
        &self,
        alloc: Global,
        player: &Player,
        mark: &Mark,
        out: &mut Vec<Bytes>,
    ) -> Result<(), NoMemory>
        ensures { OnOk result (joined out.new.items ≡ joined out.old.items ++ play_bytes
            (if is_shown mark.now then [] else
            opening_of self.now.game.now.game.settings.terrain
            self.now.game.now.game.settings.players (pos player.now.eid)
            (spot_of self.now.game.now.game player.now))) }
    {
        let spot = self.game.spot_of(player);
        let most = self.game.most();
        let eid = player.eid.number();
        push_opening(alloc, self.game.terrain(), most, eid, &spot, mark, out)
    }

    /// Appends what is due to a client at a tick, where the list has just the players in play. Its
    /// mark then stands for what it is shown, once list and game are settled.
    /// Of cells only those are looked at whose frames were not encoded, and those that were noted.
    pub fn push_for<L: Ledger>(
        &self,
        alloc: Global,
        player: &Player,
        mark: &mut Mark,
        out: &mut Vec<Bytes>,
        steps: &mut Steps<L>,
    ) -> Result<(), NoMemory>
        requires scene { IsScene self.now }
        requires ready { AllByRecursion (IsReady (land_of self.now.game.now))
            (new_columns self.now.game.now.game player.now mark.old) }
        ensures sent { (shown : Option Sight) → IsListed self.now.list.now self.now.game.now.game →
            Shows (settled_parts (land_of self.now.game.now) self.now.list.now) mark.old shown →
            OnOk result (joined out.new.items ≡ joined out.old.items
            ++ play_bytes (due self.now.game.now.game shown player.now)) }
        ensures shows { (last : Sight) → IsListed self.now.list.now self.now.game.now.game →
            OnOk result (Shows (present_parts (land_of self.now.game.now) self.now.list.now)
            mark.new (Some (sight_of self.now.game.now.game player.now last))) }
        ensures cost { OnOk result (steps.new ≡ steps.old + rest_looks self.now.encoded.now
            self.now.game.now.settled self.now.game.now.game mark.old (Some player.now)) }
        ensures bounded { steps.new ≤ steps.old + rest_looks self.now.encoded.now
            self.now.game.now.settled self.now.game.now.game mark.old (Some player.now) }
    {
        self.push_opening(alloc, player, mark, out)?;
        let pack = self.game.pack_of(player);
        let chest = self.game.chest_of(player);
        let part = view_for(self.game, self.list, player, &pack, chest.as_ref());
        flush_with(alloc, &part, self.encoded, mark, &player.notes, out, steps)?;
        Ok(())
    }
}
