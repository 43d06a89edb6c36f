//! Joining, and being forgotten.

ghost use Rattle.std.specs.Prelude.{◌≡◌, ◌+◌, OnOk, if◌then◌else◌, length, nat_le};
ghost use Rattle.std.specs.List.{filter};
ghost use Rattle.std.specs.FinMap.{get, values};
ghost use Rattle.mc_model.specs.Step.{forgot, is_new, joined, step};
ghost use Rattle.mc_model.specs.Link.{is_kept, mark_closed, new_link};
ghost use Rattle.mc_model.specs.World.{World};
ghost use Rattle.mc_links.specs.Kept.{ConnectionValue, new_connection};
ghost use Rattle.mc_events.specs.Served.{age_of};
ghost use Rattle.mc_events.specs.Stands.{HasFailed, Stands};

use crate::server::Server;
use mc_bytes::NoMemory;
use mc_links::Connection;
use mc_model::Cause;

impl Server {
    /// Whether a number is above those of all that joined.
    fn is_new(&self, k: u32) -> bool
        ensures { result ≡ is_new k self.now.last }
    {
        match self.last {
            Some(last) => last < k,
            None => true,
        }
    }

    /// Whether too many connections are there.
    fn is_crowded(&self) -> bool
        ensures { result ≡ nat_le (self.now.game.game.settings.players + 16)
            (length (filter (λ (c : ConnectionValue). is_kept c.link)
            (values self.now.connections))) }
    {
        u64::from(self.game.most()) + 16 <= self.connections.kept() as u64
    }

    /// A connection as it joins.
    fn joining(&self, k: u32) -> Connection
        ensures { result ≡ record (new_connection k) {
          link = if nat_le (self.now.game.game.settings.players + 16)
              (length (filter (λ (c : ConnectionValue). is_kept c.link)
              (values self.now.connections)))
              then mark_closed new_link Cause.Crowded else new_link;
        } }
    {
        let mut connection = Connection::new(self.alloc, k);
        if self.is_crowded() {
            connection.mark_closed(Cause::Crowded);
        }
        connection
    }

    /// Lets a connection join.
    pub(super) fn join(&mut self, k: u32) -> Result<(), NoMemory>
        ensures follows { (w : World) → Stands self.old w →
            OnOk result (Stands self.new (step w (joined k)).world) }
        ensures age { OnOk result (age_of self.new ≡ age_of self.old) }
    {
        if !self.is_new(k) {
            return Ok(());
        }
        let connection = self.joining(k);
        self.ids.reserve(1)?;
        self.connections.add(k, connection)?;
        self.ids.push(k).unwrap();
        self.last = Some(k);
        Ok(())
    }

    /// A connection that is closed and owed nothing goes.
    pub fn forget(&mut self, k: u32)
        ensures follows { (w : World) → Stands self.old w →
            Stands self.new (step w (forgot k)).world }
        ensures age { age_of self.new ≡ age_of self.old }
        ensures failed { HasFailed self.old → HasFailed self.new }
    {
        let Some(connection) = self.connections.find(k) else {
            return;
        };
        if connection.is_done() {
            self.connections.remove(k);
            self.ids.retain(|id| *id != k);
        }
    }
}
