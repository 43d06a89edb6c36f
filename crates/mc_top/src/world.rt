ghost use Rattle.std.specs.Prelude.{◌≡◌, IfOk, map};
ghost use Rattle.mc_model.specs.Game.{AreSettings};
ghost use Rattle.mc_model.specs.World.{new_world};
ghost use Rattle.mc_events.specs.Served.{age_of};
ghost use Rattle.mc_server.specs.Minded.{StandsFor};
ghost use Rattle.mc_top.specs.ReplayPromise.{start_of};

use mc_bytes::NoMemory;
use mc_entities::Mind;
use mc_server::{Server, Serving, Settings};
use mc_words::WorldOptions;
use std::alloc::Global;

/// A server of a new world, in which the first minds move as many mobs as there are to be.
pub fn new_server<M: Mind>(
    alloc: Global,
    options: WorldOptions,
    mut minds: Vec<M>,
) -> Result<Server<M>, NoMemory>
    requires { AreSettings options.players options.view }
    ensures stands { IfOk result (λ server. StandsFor (⟦<Server<M> as Serving>⟧.value server)
        (new_world (start_of (map (λ mind. M.plan mind) minds.items) options))) }
    ensures age { IfOk result (λ server. age_of server.inner ≡ 0) }
{
    minds.truncate(options.mobs as usize);
    let settings = Settings {
        players: options.players,
        cap: options.view as u8,
        terrain: options.terrain,
    };
    Server::new(alloc, settings, minds)
}
