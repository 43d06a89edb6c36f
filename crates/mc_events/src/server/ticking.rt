//! A tick: the beat comes to all connections, mobs move, players pick up what lies near them, and
//! then each client in play is shown the game.

ghost use Rattle.std.specs.Prelude.{◌≡◌, ◌+◌, ◌<◌, ◌≤◌, ◌∷◌, [], ℕ, Err, OnErr, OnOk, map};
ghost use Rattle.std.specs.FinMap.{keys};
ghost use Rattle.mc_flush.specs.Encoding.{AreFrames};
ghost use Rattle.mc_flush.specs.Lists.{ListValue};
ghost use Rattle.mc_model.specs.Step.{ticked, step};
ghost use Rattle.mc_model.specs.Tick.{at_tick, flushed};
ghost use Rattle.mc_model.specs.World.{World};
ghost use Rattle.mc_links.specs.Beating.{IsBeaten};
ghost use Rattle.mc_play.specs.Kept.{land_of, played};
ghost use Rattle.mc_showing.specs.Looking.{rest_looks, view_looks};
ghost use Rattle.mc_showing.specs.Preparing.{Prepares};
ghost use Rattle.mc_showing.specs.Scenes.{IsScene};
ghost use Rattle.mc_events.specs.Looks.{AreMarked, AreShownSame, all_prepared, over_clients};
ghost use Rattle.mc_events.specs.Looks.{IsIdle, tick_looks};
ghost use Rattle.mc_events.specs.ReadyColumns.{Sheds};
ghost use Rattle.mc_events.specs.Served.{Each, age_of};
ghost use Rattle.mc_events.specs.Stands.{HasFailed, Stands};
ghost use Rattle.mc_events.specs.Ticking.{AreReady, AreShown, IsEnded, StandsAmid, StaysListed};
ghost use Rattle.mc_events.specs.Ticking.{dismissed};

use crate::connections::Connections;
use crate::server::Server;
use mc_bytes::NoMemory;
use mc_entities::Mind;
use mc_flush::Encoded;
use mc_land::Steps;
use mc_links::beat;
use mc_play::Game;
use mc_showing::{Roster, Scene, start, views_of};
use std::alloc::Global;
use std::sync::ledger::{Blank, Ledger};

/// The beat of a game comes to all connections, which have these numbers.
fn beat_all(ids: &[u32], game: &Game, connections: &mut Connections) -> Result<(), NoMemory>
    requires young { game.now.game.age ≤ 1000000000 }
    requires all { ids.now ≡ keys connections.old }
    ensures beaten { OnOk result (Each (λ (k : ℕ). IsBeaten game.now.game)
        connections.old connections.new) }
    ensures same { keys connections.new ≡ keys connections.old }
{
    for id in ids {
        if let Some(connection) = connections.find_mut(*id) {
            beat(game, connection)?;
        }
    }
    Ok(())
}

/// The player of a connection leaves, if it has one, and if it is there and closed.
fn dismiss_one(
    k: u32,
    connections: &Connections,
    list: &mut Roster,
    game: &mut Game,
) -> Result<(), NoMemory>
    ensures game { OnOk result (game.new ≡ played game.old
        (dismissed connections.now (k ∷ []) game.old.game) game.new.aside) }
    ensures ready { OnOk result (game.new.aside.ready ≡ game.old.aside.ready) }
    ensures listed { OnOk result (StaysListed list.old list.new game.old.game game.new.game) }
    ensures last { list.new.last ≡ list.old.last }
{
    let Some(connection) = connections.find(k) else {
        return Ok(());
    };
    if !connection.is_closed() {
        return Ok(());
    }
    let Some(player) = game.players().find(k) else {
        return Ok(());
    };
    list.remove(player.uuid);
    game.leave(k)?;
    Ok(())
}

/// The players of those of the connections leave that are there and closed.
fn dismiss(
    ids: &[u32],
    connections: &Connections,
    list: &mut Roster,
    game: &mut Game,
) -> Result<(), NoMemory>
    ensures game { OnOk result (game.new ≡ played game.old
        (dismissed connections.now ids.now game.old.game) game.new.aside) }
    ensures ready { OnOk result (game.new.aside.ready ≡ game.old.aside.ready) }
    ensures listed { OnOk result (StaysListed list.old list.new game.old.game game.new.game) }
    ensures last { list.new.last ≡ list.old.last }
{
    for id in ids {
        dismiss_one(*id, connections, list, game)?;
    }
    Ok(())
}

/// Makes the columns ready that clients are to be shown and were not, and encodes what they are
/// sent of columns, of all connections, which have these numbers.
fn prepare_all<L: Ledger>(
    alloc: Global,
    ids: &[u32],
    connections: &Connections,
    game: &mut Game,
    encoded: &mut Encoded,
    steps: &mut Steps<L>,
) -> Result<(), NoMemory>
    requires all { ids.now ≡ keys connections.now }
    ensures ready { OnOk result (AreReady game.new connections.now) }
    ensures same { Prepares game.old game.new }
    ensures frames { (list : ListValue) → AreFrames (land_of game.old) list encoded.old
        → AreFrames (land_of game.new) list encoded.new }
    ensures prepared { OnOk result (encoded.new ≡ all_prepared game.old.settled game.old.game
        connections.now ids.now encoded.old) }
    ensures bounded { steps.new ≤ steps.old + over_clients
        (view_looks game.old.settled game.old.game) game.old.game connections.now }
{
    for id in ids {
        if let Some(connection) = connections.find(*id) {
            connection.prepare(alloc, game, encoded, steps)?;
        }
    }
    Ok(())
}

/// Shows the client of each connection the game of a scene. The connections have these numbers.
fn show_all<L: Ledger>(
    alloc: Global,
    ids: &[u32],
    scene: &Scene<'_>,
    connections: &mut Connections,
    steps: &mut Steps<L>,
) -> Result<(), NoMemory>
    requires all { ids.now ≡ keys connections.old }
    requires scene { IsScene scene.now }
    requires ready { AreReady scene.now.game.now connections.old }
    ensures shown { OnOk result (AreShown scene.now.game.now scene.now.list.now
        connections.old connections.new) }
    ensures same { keys connections.new ≡ keys connections.old }
    ensures only { AreMarked connections.old connections.new }
    ensures bounded { steps.new ≤ steps.old + over_clients (rest_looks scene.now.encoded.now
        scene.now.game.now.settled scene.now.game.now.game) scene.now.game.now.game
        connections.old }
{
    for id in ids {
        if let Some(connection) = connections.find_mut(*id) {
            connection.show(alloc, scene, steps)?;
        }
    }
    Ok(())
}

impl Server {
    /// Lets a tick come: the game is a tick older, those that were silent for too long leave, mobs
    /// move, players pick up what they can, and each client in play is shown the game. All cells
    /// that are looked at for that are counted, also where memory runs out: of each client no more
    /// than those of the columns that come into its view, those that changed of the columns that
    /// stay, and those that were noted; so none where nothing changed. After an error each later
    /// call answers with it.
    pub fn tick<M: Mind, L: Ledger>(
        &mut self,
        minds: &mut [M],
        steps: &mut Steps<L>,
    ) -> Result<(), NoMemory>
        requires young { age_of self.old < 1000000000 }
        ensures follows { (w : World) → Stands self.old w →
            w.plans ≡ map (λ mind. M.plan mind) minds.old →
            OnOk result (Stands self.new (step w ticked).world) }
        ensures plans { (w : World) → Stands self.old w →
            w.plans ≡ map (λ mind. M.plan mind) minds.old → OnOk result
            ((step w ticked).world.plans ≡ map (λ mind. M.plan mind) minds.new) }
        ensures age { OnOk result (age_of self.new ≡ age_of self.old + 1) }
        ensures sheds { OnOk result (Sheds self.old.game self.new.game) }
        ensures looks { (w : World) → Stands self.old w →
            w.plans ≡ map (λ mind. M.plan mind) minds.old → steps.new ≤ steps.old
            + tick_looks self.old.game.settled (at_tick w).game self.old.connections }
        ensures idle { (w : World) → Stands self.old w →
            w.plans ≡ map (λ mind. M.plan mind) minds.old →
            IsIdle self.old.game.settled (at_tick w).game self.old.connections →
            steps.new ≤ steps.old }
        ensures fails { OnErr result (HasFailed self.new) }
        ensures failed { HasFailed self.old → result ≡ Err (record {}) }
    {
        if self.failed {
            return Err(NoMemory);
        }
        let done = self.try_tick(minds, steps);
        if done.is_err() {
            self.failed = true;
        }
        done
    }

    /// Lets a tick come, and counts its looks at cells by themselves.
    pub(super) fn count_tick<M: Mind, L: Ledger>(
        &mut self,
        minds: &mut [M],
        blank: Blank,
    ) -> Result<(), NoMemory>
        requires young { age_of self.old < 1000000000 }
        requires name { blank.name ≡ L.name }
        requires parts { blank.parts ≡ L.parts }
        requires some { 0 < blank.parts }
        ensures follows { (w : World) → Stands self.old w →
            w.plans ≡ map (λ mind. M.plan mind) minds.old →
            OnOk result (Stands self.new (step w ticked).world) }
        ensures plans { (w : World) → Stands self.old w →
            w.plans ≡ map (λ mind. M.plan mind) minds.old → OnOk result
            ((step w ticked).world.plans ≡ map (λ mind. M.plan mind) minds.new) }
        ensures age { OnOk result (age_of self.new ≡ age_of self.old + 1) }
        ensures sheds { OnOk result (Sheds self.old.game self.new.game) }
    {
        let mut steps = Steps::<L>::new(blank);
        self.tick(minds, &mut steps)
    }

    /// Lets a tick come, as long as there is memory.
    fn try_tick<M: Mind, L: Ledger>(
        &mut self,
        minds: &mut [M],
        steps: &mut Steps<L>,
    ) -> Result<(), NoMemory>
        requires young { age_of self.old < 1000000000 }
        ensures follows { (w : World) → Stands self.old w →
            w.plans ≡ map (λ mind. M.plan mind) minds.old →
            OnOk result (Stands self.new (step w ticked).world) }
        ensures plans { (w : World) → Stands self.old w →
            w.plans ≡ map (λ mind. M.plan mind) minds.old → OnOk result
            ((step w ticked).world.plans ≡ map (λ mind. M.plan mind) minds.new) }
        ensures age { OnOk result (age_of self.new ≡ age_of self.old + 1) }
        ensures sheds { OnOk result (Sheds self.old.game self.new.game) }
        ensures looks { (w : World) → Stands self.old w →
            w.plans ≡ map (λ mind. M.plan mind) minds.old → steps.new ≤ steps.old
            + tick_looks self.old.game.settled (at_tick w).game self.old.connections }
    {
        self.beat(minds)?;
        self.show(steps)
    }

    /// Makes the game a tick older, with its beat: those that were silent for too long leave, mobs
    /// move, and players pick up what they can.
    fn beat<M: Mind>(&mut self, minds: &mut [M]) -> Result<(), NoMemory>
        requires young { age_of self.old < 1000000000 }
        ensures follows { (w : World) → StandsAmid self.old w →
            w.plans ≡ map (λ mind. M.plan mind) minds.old →
            OnOk result (StandsAmid self.new (at_tick w)) }
        ensures plans { (w : World) → StandsAmid self.old w →
            w.plans ≡ map (λ mind. M.plan mind) minds.old →
            OnOk result ((at_tick w).plans ≡ map (λ mind. M.plan mind) minds.new) }
        ensures age { OnOk result (age_of self.new ≡ age_of self.old + 1) }
        ensures ready { OnOk result
            (self.new.game.aside.ready ≡ self.old.game.aside.ready) }
        ensures settled { OnOk result (self.new.game.settled ≡ self.old.game.settled) }
        ensures marks { OnOk result (AreShownSame self.old.connections self.new.connections) }
    {
        self.game.grow();
        beat_all(self.ids.as_slice(), &self.game, &mut self.connections)?;
        dismiss(
            self.ids.as_slice(),
            &self.connections,
            &mut self.list,
            &mut self.game,
        )?;
        self.game.move_mobs(minds);
        self.game.pick_up_all()
    }

    /// Shows each client in play the game. Those that are owed too much leave, and columns that
    /// none of the others sees are given up.
    fn show<L: Ledger>(&mut self, steps: &mut Steps<L>) -> Result<(), NoMemory>
        requires young { age_of self.old ≤ 1000000000 }
        ensures follows { (w : World) → StandsAmid self.old w →
            OnOk result (StandsAmid self.new (flushed w)) }
        ensures age { OnOk result (age_of self.new ≡ age_of self.old) }
        ensures sheds { OnOk result (Sheds self.old.game self.new.game) }
        ensures looks { steps.new ≤ steps.old + tick_looks self.old.game.settled
            self.old.game.game self.old.connections }
    {
        let mut encoded = start(self.alloc, &self.list)?;
        let done = self.show_clients(&mut encoded, steps);
        drop(encoded);
        done?;
        self.end_tick()
    }

    /// Makes columns ready and shows each client the game. Nothing else changes of the game, the
    /// list and the connections but marks and what connections are owed.
    fn show_clients<L: Ledger>(
        &mut self,
        encoded: &mut Encoded,
        steps: &mut Steps<L>,
    ) -> Result<(), NoMemory>
        requires young { age_of self.old ≤ 1000000000 }
        requires frames { AreFrames (land_of self.old.game) self.old.list encoded.old }
        ensures prepares { Prepares self.old.game self.new.game }
        ensures shown { OnOk result (AreShown self.new.game self.old.list
            self.old.connections self.new.connections) }
        ensures same { keys self.new.connections ≡ keys self.old.connections }
        ensures rest { self.new ≡ record self.old {
          game = self.new.game;
          connections = self.new.connections;
        } }
        ensures only { AreMarked self.old.connections self.new.connections }
        ensures looks { steps.new ≤ steps.old + tick_looks self.old.game.settled
            self.old.game.game self.old.connections }
    {
        prepare_all(
            self.alloc,
            self.ids.as_slice(),
            &self.connections,
            &mut self.game,
            encoded,
            steps,
        )?;
        encoded.add_entities(self.alloc, self.game.folk())?;
        encoded.add_lines(self.alloc, self.game.lines())?;
        let scene = Scene {
            game: &self.game,
            list: self.list.list(),
            encoded,
        };
        show_all(
            self.alloc,
            self.ids.as_slice(),
            &scene,
            &mut self.connections,
            steps,
        )
    }

    /// Keeps the game and the list as they were shown, lets those leave that are closed, and gives
    /// up the columns that no other sees.
    fn end_tick(&mut self) -> Result<(), NoMemory>
        ensures ended { OnOk result (IsEnded self.old self.new) }
        ensures age { OnOk result (age_of self.new ≡ age_of self.old) }
        ensures sheds { OnOk result (Sheds self.old.game self.new.game) }
    {
        self.list.settle()?;
        self.game.told();
        dismiss(
            self.ids.as_slice(),
            &self.connections,
            &mut self.list,
            &mut self.game,
        )?;
        let views = views_of(self.alloc, &self.game)?;
        self.game.shed(views.as_slice());
        Ok(())
    }
}
