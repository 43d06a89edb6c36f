ghost use Rattle.std.specs.Prelude.{◌≡◌, ◌≢◌, ◌↔◌, ◌<◌, ◌≤◌, ℕ, [], Err, IfOk, OnErr, OnOk, length};
ghost use Rattle.std.specs.Prelude.{IfSome, Some, is_some, map, take};
ghost use Rattle.std.specs.FinMap.{get, keys};
ghost use Rattle.std.specs.Option.{option_copied};
ghost use Rattle.mc_land.specs.Land.{terrain_at};
ghost use Rattle.mc_land.specs.Places.{Key};
ghost use Rattle.mc_model.specs.Game.{AreSettings};
ghost use Rattle.mc_model.specs.Good.{in_play};
ghost use Rattle.mc_model.specs.declared.player.Player.{Player};
ghost use Rattle.mc_model.specs.Run.{cause_in, owed_in};
ghost use Rattle.mc_model.specs.Step.{forgot, step, took};
ghost use Rattle.mc_model.specs.World.{World, new_world};
ghost use Rattle.mc_play.specs.Census.{census_of};
ghost use Rattle.mc_showing.specs.Scenes.{IsPartOf};
ghost use Rattle.mc_events.specs.Asking.{is_done_in};
ghost use Rattle.mc_events.specs.Inputs.{age_after, event_of};
ghost use Rattle.mc_events.specs.ReadyColumns.{ShedsAt};
ghost use Rattle.mc_events.specs.Served.{age_of};
ghost use Rattle.mc_events.specs.Stands.{HasFailed, owes};
ghost use Rattle.mc_server.specs.Minded.{StandsFor};

use mc_bytes::NoMemory;
use mc_entities::Mind;
use mc_events::{Census, Input};
use mc_flush::ClientView;
use mc_model::{Cause, MOBS_MAX, Settings};
use std::alloc::Global;

/// A server, and the minds that move its mobs: each moves the mob whose place it has among them.
#[derive(Drop)]
pub struct Server<M> {
    /// The server, which is lent the minds at each event.
    pub inner: mc_events::Server,
    /// The minds, no more than there may be mobs.
    pub minds: Vec<M>,
}

/// What contracts see of a server and its minds.
pub trait Serving {
    ghost use Rattle.mc_server.specs.Minded.{ServedValue};

    ghost value: { Self → ServedValue };
}

impl<M: Mind> Serving for Server<M> {
    ghost use Rattle.std.specs.Prelude.{map};

    ghost value = { λ server. record {
      server = server.inner;
      plans = map (λ mind. M.plan mind) server.minds.items;
    } };
}

impl<M: Mind> Server<M> {
    /// A server where nobody came yet, with a mob for each of these minds. Those past the most mobs
    /// that there may be are dropped.
    pub fn new(alloc: Global, settings: Settings, mut minds: Vec<M>) -> Result<Server<M>, NoMemory>
        requires { AreSettings settings.players settings.cap }
        ensures stands { IfOk result (λ server. StandsFor (⟦<Server<M> as Serving>⟧.value server)
            (new_world (record {
              settings = settings;
              plans = map (λ mind. M.plan mind) minds.items;
            }))) }
        ensures age { IfOk result (λ server. age_of server.inner ≡ 0) }
    {
        minds.truncate(MOBS_MAX);
        let inner = mc_events::Server::new(alloc, settings, minds.len() as u32)?;
        Ok(Server { inner, minds })
    }

    /// Something happens. At a tick each mind is asked for the next move of its mob. After an error
    /// each later call answers with it.
    pub fn event(&mut self, input: Input<'_>) -> Result<(), NoMemory>
        requires young { input ≡ Input.Tick → age_of self.old.inner < 1000000000 }
        ensures follows { (w : World) → StandsFor (⟦<Server<M> as Serving>⟧.value self.old) w →
            OnOk result (StandsFor (⟦<Server<M> as Serving>⟧.value self.new)
            (step w (event_of input.entry)).world) }
        ensures age { OnOk result
            (age_of self.new.inner ≡ age_after input.entry (age_of self.old.inner)) }
        ensures sheds { OnOk result (ShedsAt input.entry self.old.inner self.new.inner) }
        ensures fails { OnErr result (HasFailed self.new.inner) }
        ensures failed { HasFailed self.old.inner → result ≡ Err (record {}) }
    {
        self.inner.event(input, self.minds.as_mut_slice())
    }

    /// The first bytes that a connection is owed, without copying them.
    pub fn front(&self, k: u32) -> &[u8]
        ensures first { (w : World) → StandsFor (⟦<Server<M> as Serving>⟧.value self.now) w →
            take (length result.now) (owed_in k w) ≡ result.now }
        ensures empty { (w : World) → StandsFor (⟦<Server<M> as Serving>⟧.value self.now) w →
            (result.now ≡ []) ↔ (owed_in k w ≡ []) }
        ensures within { length result.now ≤ owes k self.now.inner }
    {
        self.inner.front(k)
    }

    /// A connection took so many of the first bytes that it is owed.
    pub fn took(&mut self, k: u32, n: usize)
        ensures follows { (w : World) → StandsFor (⟦<Server<M> as Serving>⟧.value self.old) w →
            StandsFor (⟦<Server<M> as Serving>⟧.value self.new) (step w (took k n)).world }
        ensures falls { 0 < n → n ≤ owes k self.old.inner →
            owes k self.new.inner < owes k self.old.inner }
        ensures age { age_of self.new.inner ≡ age_of self.old.inner }
        ensures failed { HasFailed self.old.inner → HasFailed self.new.inner }
    {
        self.inner.took(k, n);
    }

    /// Whether a connection is closed and owed nothing.
    pub fn done(&self, k: u32) -> bool
        ensures { (w : World) → StandsFor (⟦<Server<M> as Serving>⟧.value self.now) w →
            result ≡ is_done_in k w }
    {
        self.inner.done(k)
    }

    /// A connection goes, if it is closed and owed nothing.
    pub fn forget(&mut self, k: u32)
        ensures follows { (w : World) → StandsFor (⟦<Server<M> as Serving>⟧.value self.old) w →
            StandsFor (⟦<Server<M> as Serving>⟧.value self.new) (step w (forgot k)).world }
        ensures age { age_of self.new.inner ≡ age_of self.old.inner }
        ensures failed { HasFailed self.old.inner → HasFailed self.new.inner }
    {
        self.inner.forget(k);
    }

    /// What the client of a connection is shown a part of, as it is now; None where it is not in
    /// play. It takes no memory.
    pub fn client(&self, k: u32) -> Option<ClientView<'_>>
        ensures some { (w : World) → StandsFor (⟦<Server<M> as Serving>⟧.value self.now) w →
            is_some result ≡ in_play (get w.links k) }
        ensures part { (w : World) (p : Player) →
            StandsFor (⟦<Server<M> as Serving>⟧.value self.now) w →
            get w.game.players k ≡ Some p → IfSome result (IsPartOf w.game p) }
    {
        self.inner.client(k)
    }

    /// The numbers of the connections, in the order in which they joined.
    pub fn connections(&self) -> &[u32]
        ensures { (w : World) → StandsFor (⟦<Server<M> as Serving>⟧.value self.now) w →
            result.now ≡ keys w.links }
    {
        self.inner.connections()
    }

    /// Why a connection was closed.
    pub fn cause(&self, k: u32) -> Option<&Cause>
        ensures { (w : World) → StandsFor (⟦<Server<M> as Serving>⟧.value self.now) w →
            option_copied result ≡ cause_in k w }
    {
        self.inner.cause(k)
    }

    /// How many ticks came.
    pub fn age(&self) -> u64
        ensures is { result ≡ age_of self.now.inner }
        ensures world { (w : World) → StandsFor (⟦<Server<M> as Serving>⟧.value self.now) w →
            result ≡ w.game.age }
    {
        self.inner.age()
    }

    /// Counts the cells whose state is not the terrain's, and all items. It takes no memory.
    pub fn census(&self) -> Census
        ensures is { (w : World) → StandsFor (⟦<Server<M> as Serving>⟧.value self.now) w →
            result ≡ census_of w.game }
        // Each edit is such a cell.
        ensures differ { (w : World) (key : Key) (state : ℕ) →
            StandsFor (⟦<Server<M> as Serving>⟧.value self.now) w →
            get w.game.edits key ≡ Some state →
            state ≢ terrain_at w.game.settings.terrain key }
    {
        self.inner.census()
    }
}
