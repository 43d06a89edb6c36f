//! What a load comes to.

ghost use Rattle.std.specs.Prelude.{◌≡◌, ◌≤◌, IfOk, OnOk};
ghost use Rattle.mc_events.specs.Served.{age_of};
ghost use Rattle.mc_server.specs.Minded.{StandsFor};
ghost use Rattle.mc_measure.specs.LoadText.{KeepsAll, before_load, load_bytes, load_census};

use crate::playing::play_load;
use mc_bytes::NoMemory;
use mc_entities::Planned;
use mc_land::Terrain;
use mc_server::{Census, Server, Serving, Settings};
use std::alloc::Global;

/// What a load comes to.
#[derive(Clone, Copy, Debug, PartialEq, Eq)]
pub struct Measured {
    /// The cells that were changed, and the items that there are.
    pub census: Census,
    /// How many bytes the clients took.
    pub bytes: u128,
}

/// A server of a flat world without mobs, for so many players.
fn new_server(alloc: Global, clients: u32) -> Result<Server<Planned>, NoMemory>
    requires some { 1 ≤ clients }
    requires few { clients ≤ 50 }
    ensures stands { IfOk result (λ server. StandsFor (⟦<Server<Planned> as Serving>⟧.value server)
        (before_load clients)) }
    ensures age { IfOk result (λ server. age_of server.inner ≡ 0) }
{
    let settings = Settings {
        players: clients,
        cap: 2,
        terrain: Terrain::Flat,
    };
    Server::new(alloc, settings, Vec::new(alloc))
}

/// Plays a load of so many clients and ticks on a server of a new world, and answers what it comes
/// to.
pub fn measure(alloc: Global, clients: u32, ticks: u32) -> Result<Measured, NoMemory>
    requires some { 1 ≤ clients }
    requires few { clients ≤ 50 }
    requires ticks { ticks ≤ 10000 }
    ensures census { IfOk result (λ measured. measured.census ≡ load_census clients ticks) }
    ensures bytes { IfOk result (λ measured. measured.bytes ≡ load_bytes clients ticks) }
    ensures keeps { OnOk result (KeepsAll clients ticks) }
{
    let mut server = new_server(alloc, clients)?;
    let played = play_load(alloc, &mut server, clients, ticks);
    let census = server.census();
    drop(server);
    Ok(Measured {
        census,
        bytes: played?,
    })
}
