//! What one client is shown a part of, as it is borrowed.

ghost use Rattle.std.specs.Prelude.{◌≡◌, IfSome, drop, is_some};
ghost use Rattle.std.specs.FinMap.{get};
ghost use Rattle.std.specs.List.{AllByRecursion};
ghost use Rattle.std.specs.Option.{option_copied};
ghost use Rattle.mc_model.specs.Game.{chest_of, pack_of};
ghost use Rattle.mc_flush.specs.LineFrames.{IsLine};
ghost use Rattle.mc_showing.specs.Scenes.{IsPart};

use crate::views::view_of;
use mc_bytes::Text;
use mc_flush::{ClientView, PlayerList};
use mc_model::Player;
use mc_play::Game;
use mc_slots::Chest;
use mc_windows::Pack;

/// The lines behind so many.
fn new_lines(lines: &[Text], since: usize) -> &[Text]
    ensures { result.now ≡ drop since lines.now }
{
    lines.split_at(since.min(lines.len())).1
}

/// The parts of a game and of a list that a player is shown, which carries a pack and may be shown
/// a chest. It takes no memory.
pub fn view_for<'w>(
    game: &'w Game,
    list: &'w PlayerList,
    player: &Player,
    pack: &'w Pack,
    chest: Option<&'w Chest>,
) -> ClientView<'w>
    requires pack { pack.now ≡ pack_of game.now.game player.now }
    requires chest { option_copied chest ≡ chest_of game.now.game player.now }
    ensures is { IsPart game.now list.now player.now result }
    ensures clear { AllByRecursion IsLine result.lines.now }
{
    ClientView {
        land: game.land(),
        folk: game.folk(),
        pack,
        chest,
        list,
        lines: new_lines(game.lines(), player.since),
        age: game.age(),
        me: player.eid.number(),
        view: view_of(game, player),
    }
}

/// The parts of a game and of a list that a player is shown, all of them lent; None where its name
/// never was in play. It takes no memory.
pub fn client_of<'w>(
    game: &'w Game,
    list: &'w PlayerList,
    player: &Player,
) -> Option<ClientView<'w>>
    ensures some { is_some result ≡ is_some (get game.now.game.packs player.now.name) }
    ensures part { IfSome result (IsPart game.now list.now player.now) }
{
    match game.pack(player) {
        Some(pack) => Some(view_for(game, list, player, pack, game.chest(player))),
        None => None,
    }
}
