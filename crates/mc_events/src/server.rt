ghost use Rattle.std.specs.Prelude.{◌≡◌, ◌≢◌, ◌↔◌, ◌<◌, ◌≤◌, ℕ, [], Err, IfOk, OnErr, OnOk, Some};
ghost use Rattle.std.specs.Prelude.{length, map, take};
ghost use Rattle.std.specs.FinMap.{get, keys};
ghost use Rattle.std.specs.Option.{option_copied};
ghost use Rattle.mc_land.specs.Land.{terrain_at};
ghost use Rattle.mc_land.specs.Places.{Key};
ghost use Rattle.mc_model.specs.Game.{AreSettings};
ghost use Rattle.mc_model.specs.declared.mobs.TheConstants.{MOBS_MAX};
ghost use Rattle.mc_model.specs.Minds.{Plans};
ghost use Rattle.mc_model.specs.World.{World, new_world};
ghost use Rattle.mc_model.specs.Run.{cause_in, owed_in};
ghost use Rattle.mc_model.specs.Step.{step};
ghost use Rattle.mc_play.specs.Census.{census_of};
ghost use Rattle.mc_events.specs.Asking.{is_done_in, ours_there, pending_in};
ghost use Rattle.mc_events.specs.Inputs.{age_after, event_of};
ghost use Rattle.mc_events.specs.ReadyColumns.{ShedsAt};
ghost use Rattle.mc_events.specs.Served.{age_of};
ghost use Rattle.mc_events.specs.Stands.{HasFailed, Stands, owes};

mod fields;
mod joining;
mod looks;
mod sitting;
mod ticking;

use crate::Input;
use crate::connections::Connections;
use mc_bytes::NoMemory;
use mc_entities::Mind;
use mc_model::{Cause, Settings};
use mc_play::{Census, Game};
use mc_showing::Roster;
use std::alloc::Global;
use std::marker::{Brand, Model};
use std::sync::ledger::Blank;

/// A server: what is played, who is connected, and what each was shown and is owed.
#[derive(Drop)]
pub struct Server {
    /// Where its memory comes from.
    alloc: Global,
    game: Game,
    /// The number of the last join.
    last: Option<u32>,
    /// The numbers of the connections, in rising order.
    ids: Vec<u32>,
    /// The connections, by these numbers.
    connections: Connections,
    /// The players in play, and those that were shown at the last tick.
    list: Roster,
    /// Memory ran out before.
    failed: bool,
}

impl Model for Server {
    ghost use Rattle.std.specs.Coded.{codes};
    ghost use Rattle.mc_play.specs.contracts.game.Game.{the_row as game_row};
    ghost use Rattle.mc_showing.specs.contracts.roster.Roster.{the_row as list_row};
    ghost use Rattle.mc_events.specs.contracts.connections.Connections.{the_row as row};
    ghost use Rattle.mc_events.specs.Served.{AreNumbers, ServerValue};

    ghost Value = { ServerValue };

    ghost coded = { Prim.hlevel (
      codes,
      game_row.coded,
      row.coded,
      list_row.coded,
    ) };

    ghost view = { λ s. record {
      game = s.game;
      connections = s.connections;
      last = s.last;
      list = s.list;
      failed = s.failed;
    } };

    ghost invariant = { λ s. AreNumbers s.ids.items s.connections s.last };
}

impl Server {
    /// A server where nobody came yet, with so many mobs.
    pub fn new(alloc: Global, settings: Settings, mobs: u32) -> Result<Server, NoMemory>
        requires settings { AreSettings settings.players settings.cap }
        requires mobs { mobs ≤ MOBS_MAX }
        ensures { (plans : Plans) → length plans ≡ mobs → IfOk result (λ server.
            Stands server (new_world (record { settings = settings; plans = plans }))) }
    {
        let game = Game::new(alloc, settings, mobs)?;
        Ok(Server {
            alloc,
            game,
            last: None,
            ids: Vec::new(alloc),
            connections: Connections::new(alloc),
            list: Roster::new(alloc),
            failed: false,
        })
    }

    /// Something happens. At a tick mind i moves the i-th mob; nothing else asks a mind. After an
    /// error each later call answers with it.
    pub fn event<M: Mind>(&mut self, input: Input<'_>, minds: &mut [M]) -> Result<(), NoMemory>
        requires young { input ≡ Input.Tick → age_of self.old < 1000000000 }
        ensures follows { (w : World) → Stands self.old w →
            (input.entry ≡ Input.Tick → w.plans ≡ map (λ mind. M.plan mind) minds.old) →
            OnOk result (Stands self.new (step w (event_of input.entry)).world) }
        ensures plans { (w : World) → Stands self.old w →
            w.plans ≡ map (λ mind. M.plan mind) minds.old → OnOk result
            ((step w (event_of input.entry)).world.plans ≡ map (λ mind. M.plan mind) minds.new) }
        ensures age { OnOk result (age_of self.new ≡ age_after input.entry (age_of self.old)) }
        ensures sheds { OnOk result (ShedsAt input.entry self.old self.new) }
        ensures fails { OnErr result (HasFailed self.new) }
        ensures failed { HasFailed self.old → result ≡ Err (record {}) }
    {
        if self.failed {
            return Err(NoMemory);
        }
        let done = self.perform(input, minds);
        if done.is_err() {
            self.failed = true;
        }
        done
    }

    /// Does what an event comes to.
    fn perform<M: Mind>(&mut self, input: Input<'_>, minds: &mut [M]) -> Result<(), NoMemory>
        requires young { input ≡ Input.Tick → age_of self.old < 1000000000 }
        ensures follows { (w : World) → Stands self.old w →
            (input.entry ≡ Input.Tick → w.plans ≡ map (λ mind. M.plan mind) minds.old) →
            OnOk result (Stands self.new (step w (event_of input.entry)).world) }
        ensures plans { (w : World) → Stands self.old w →
            w.plans ≡ map (λ mind. M.plan mind) minds.old → OnOk result
            ((step w (event_of input.entry)).world.plans ≡ map (λ mind. M.plan mind) minds.new) }
        ensures age { OnOk result (age_of self.new ≡ age_after input.entry (age_of self.old)) }
        ensures sheds { OnOk result (ShedsAt input.entry self.old self.new) }
    {
        match input {
            Input::Join(k) => self.join(k),
            Input::Bytes(k, bytes) => self.bytes(k, bytes),
            Input::Gone(k) => self.leave(k, Cause::Gone),
            Input::Broke(k) => self.leave(k, Cause::Broke),
            Input::Tick => self.count_tick::<M, Brand>(minds, Blank::new(1)),
        }
    }

    // ---- what connections are owed

    /// The first bytes that a connection is owed, without copying them.
    pub fn front(&self, k: u32) -> &[u8]
        ensures first { (w : World) → Stands self.now w →
            take (length result.now) (owed_in k w) ≡ result.now }
        ensures empty { (w : World) → Stands self.now w →
            (result.now ≡ []) ↔ (owed_in k w ≡ []) }
        ensures within { length result.now ≤ owes k self.now }
    {
        match self.connections.find(k) {
            Some(connection) => connection.front(),
            None => &[],
        }
    }

    /// Whether a connection is closed and owed nothing.
    pub fn done(&self, k: u32) -> bool
        ensures { (w : World) → Stands self.now w → result ≡ is_done_in k w }
    {
        match self.connections.find(k) {
            Some(connection) => connection.is_done(),
            None => false,
        }
    }

    /// The numbers of the connections that are owed bytes or closed, in the order in which they
    /// joined.
    pub fn pending(&self) -> Result<Vec<u32>, NoMemory>
        ensures { (w : World) → Stands self.now w →
            IfOk result (λ numbers. numbers.items ≡ pending_in w) }
    {
        self.connections.pending(self.alloc)
    }

    // ---- what is asked of a server

    /// Where its memory comes from.
    pub fn allocator(&self) -> Global {
        self.alloc
    }

    /// The numbers of the connections, in the order in which they joined.
    pub fn connections(&self) -> &[u32]
        ensures { (w : World) → Stands self.now w → result.now ≡ keys w.links }
    {
        self.ids.as_slice()
    }

    /// Why a connection was closed.
    pub fn cause(&self, k: u32) -> Option<&Cause>
        ensures { (w : World) → Stands self.now w → option_copied result ≡ cause_in k w }
    {
        match self.connections.find(k) {
            Some(connection) => connection.cause(),
            None => None,
        }
    }

    /// How many connections that are there were closed, and not since they left, a write to them
    /// broke, or they were done.
    pub fn ours(&self) -> usize
        ensures { (w : World) → Stands self.now w → result ≡ ours_there w }
    {
        self.connections.ours()
    }

    /// How many ticks came.
    pub fn age(&self) -> u64
        ensures is { result ≡ age_of self.now }
        ensures world { (w : World) → Stands self.now w → result ≡ w.game.age }
    {
        self.game.age()
    }

    /// Counts the cells whose state is not the terrain's, and all items. It takes no memory.
    pub fn census(&self) -> Census
        ensures is { (w : World) → Stands self.now w → result ≡ census_of w.game }
        // Each edit is such a cell.
        ensures differ { (w : World) (key : Key) (state : ℕ) → Stands self.now w →
            get w.game.edits key ≡ Some state →
            state ≢ terrain_at w.game.settings.terrain key }
    {
        self.game.census()
    }
}
