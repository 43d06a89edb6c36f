//! The columns around players.

ghost use Rattle.std.specs.Prelude.{◌≡◌, IfOk, map};
ghost use Rattle.mc_model.specs.Game.{players_of};
ghost use Rattle.mc_showing.specs.Around.{IsAround, reach_of};

use mc_bytes::NoMemory;
use mc_model::Player;
use mc_play::Game;
use mc_view::{ViewSet, column_of_spot, view_size};
use std::alloc::Global;

/// The columns that a player's client is to be shown.
pub fn view_of(game: &Game, player: &Player) -> ViewSet
    ensures { IsAround game.now.game player.now result }
{
    let spot = game.spot_of(player);
    let (cx, cz) = column_of_spot(&spot);
    ViewSet::of(cx, cz, view_size(game.cap(), player.view_byte))
}

/// The numbers of the middle column of a player's view, and how many columns it reaches on each
/// axis.
fn reach_of(game: &Game, player: &Player) -> (i32, i32, u8)
    ensures { result ≡ reach_of game.now.game player.now }
{
    let view = view_of(game, player);
    (view.cx, view.cz, view.d)
}

/// Those of all in play, in the order of their connections.
pub fn views_of(alloc: Global, game: &Game) -> Result<Vec<(i32, i32, u8)>, NoMemory>
    ensures { IfOk result (λ views. views.items
        ≡ map (reach_of game.now.game) (players_of game.now.game)) }
{
    let mut views = Vec::new(alloc);
    for player in game.players().all() {
        views.push(reach_of(game, player))?;
    }
    Ok(views)
}
