//! What more than one client may be sent at a tick, encoded once, and the columns that clients are
//! to be shown.

ghost use Rattle.std.specs.Prelude.{◌≡◌, ◌≤◌, ◌<◌, ◌+◌, ◌*◌, ◌∷◌, [], IfOk, OnOk, length};
ghost use Rattle.std.specs.List.{AllByRecursion, filter, sum_by};
ghost use Rattle.std.specs.FinMap.{get};
ghost use Rattle.mc_column.specs.Sizes.{cells};
ghost use Rattle.mc_land.specs.Land.{LandValue};
ghost use Rattle.mc_land.specs.Places.{IsPlace};
ghost use Rattle.mc_view.specs.Sets.{all_of, is_within};
ghost use Rattle.mc_loads.specs.Columns.{IsReady, staying, stays};
ghost use Rattle.mc_flush.specs.Encoding.{AreFrames, with_load};
ghost use Rattle.mc_flush.specs.Lists.{ListValue};
ghost use Rattle.mc_flush.specs.Seeing.{loaded};
ghost use Rattle.mc_play.specs.Kept.{land_of};
ghost use Rattle.mc_showing.specs.Ahead.{begun, prepared, with_all_changes, with_loads};
ghost use Rattle.mc_showing.specs.Ahead.{with_stayed_changes};
ghost use Rattle.mc_showing.specs.Looking.{cells_of, changed_in, view_looks};
ghost use Rattle.mc_showing.specs.Preparing.{IsReadyFor, Prepares};

use crate::roster::Roster;
use crate::views::view_of;
use mc_bytes::NoMemory;
use mc_flush::{Encoded, Mark};
use mc_land::{Land, Steps};
use mc_play::Game;
use mc_view::{Columns, ViewSet};
use std::alloc::Global;
use std::sync::ledger::Ledger;

/// Encodes who left and who came since the last settling.
pub fn start(alloc: Global, roster: &Roster) -> Result<Encoded, NoMemory>
    ensures is { IfOk result (λ encoded. encoded ≡ begun roster.now) }
    ensures frames { (land : LandValue) → IfOk result (AreFrames land roster.now) }
{
    let mut encoded = Encoded::new(alloc);
    if let Err(fault) = encoded.add_players(alloc, roster.list()) {
        drop(encoded);
        return Err(fault);
    }
    Ok(encoded)
}

/// Makes a column ready, and encodes its load.
fn prepare_place<L: Ledger>(
    alloc: Global,
    game: &mut Game,
    encoded: &mut Encoded,
    place: &(i32, i32),
    steps: &mut Steps<L>,
) -> Result<(), NoMemory>
    requires { IsPlace place.now }
    ensures ready { OnOk result (IsReady (land_of game.new) place.now) }
    ensures same { Prepares game.old game.new }
    ensures frames { (list : ListValue) → AreFrames (land_of game.old) list encoded.old
        → AreFrames (land_of game.new) list encoded.new }
    ensures loaded { OnOk result (encoded.new
        ≡ with_load encoded.old (cells_of game.old.settled game.old.game) place.now) }
    ensures bounded { steps.new ≤ steps.old + cells }
{
    game.ready(place)?;
    encoded.add_load(alloc, game.land(), place, steps)?;
    Ok(())
}

/// Makes columns ready, and encodes their loads.
fn prepare_columns<L: Ledger>(
    alloc: Global,
    game: &mut Game,
    encoded: &mut Encoded,
    columns: Columns,
    steps: &mut Steps<L>,
) -> Result<(), NoMemory>
    requires { AllByRecursion IsPlace columns }
    ensures ready { OnOk result (AllByRecursion (IsReady (land_of game.new)) columns) }
    ensures same { Prepares game.old game.new }
    ensures frames { (list : ListValue) → AreFrames (land_of game.old) list encoded.old
        → AreFrames (land_of game.new) list encoded.new }
    ensures loaded { OnOk result (encoded.new
        ≡ with_loads (cells_of game.old.settled game.old.game) encoded.old columns) }
    ensures bounded { steps.new ≤ steps.old + cells * length columns }
{
    for place in columns {
        prepare_place(alloc, game, encoded, &place, steps)?;
    }
    Ok(())
}

/// Whether a client was shown a column.
fn was_shown(mark: &Mark, place: &(i32, i32)) -> bool
    ensures { result ≡ is_within mark.now.view place.now }
{
    match mark.view() {
        Some(view) => view.has(place.0, place.1),
        None => false,
    }
}

/// Whether a column is in view and a client was shown it.
fn stays(mark: &Mark, view: &ViewSet, place: &(i32, i32)) -> bool
    ensures { result ≡ stays mark.now.view view.now place.now }
{
    view.has(place.0, place.1) && was_shown(mark, place)
}

/// Encodes the changed cells of a column, if it is in view and a client was shown it before.
fn prepare_change<L: Ledger>(
    alloc: Global,
    land: &Land,
    encoded: &mut Encoded,
    view: &ViewSet,
    mark: &Mark,
    place: &(i32, i32),
    steps: &mut Steps<L>,
) -> Result<(), NoMemory>
    requires { IsPlace place.now }
    ensures frames { (list : ListValue) → AreFrames land.now list encoded.old
        → AreFrames land.now list encoded.new }
    ensures changed { OnOk result (encoded.new ≡ with_stayed_changes land.now
        mark.now.view view.now encoded.old (place.now ∷ [])) }
    ensures bounded { steps.new ≤ steps.old
        + sum_by (changed_in land.now) (staying mark.now.view view.now (place.now ∷ [])) }
{
    if !stays(mark, view, place) {
        return Ok(());
    }
    encoded.add_changes(alloc, land, place, steps)
}

/// Encodes the changed cells of those columns of a view that a client was shown before. It goes
/// through those columns alone of which a cell changed.
fn prepare_changes<L: Ledger>(
    alloc: Global,
    land: &Land,
    encoded: &mut Encoded,
    view: &ViewSet,
    mark: &Mark,
    steps: &mut Steps<L>,
) -> Result<(), NoMemory>
    ensures frames { (list : ListValue) → AreFrames land.now list encoded.old
        → AreFrames land.now list encoded.new }
    ensures changed { OnOk result (encoded.new ≡ with_all_changes land.now encoded.old
        (filter (is_within mark.now.view) (all_of view.now))) }
    ensures bounded { steps.new ≤ steps.old
        + sum_by (changed_in land.now) (filter (is_within mark.now.view) (all_of view.now)) }
{
    for place in land.touched() {
        prepare_change(alloc, land, encoded, view, mark, place, steps)?;
    }
    Ok(())
}

/// Makes the columns of a view ready that a client was not shown, and encodes their loads and the
/// changed cells of the others.
fn prepare_view<L: Ledger>(
    alloc: Global,
    game: &mut Game,
    encoded: &mut Encoded,
    view: &ViewSet,
    mark: &Mark,
    steps: &mut Steps<L>,
) -> Result<(), NoMemory>
    ensures ready { OnOk result
        (AllByRecursion (IsReady (land_of game.new)) (loaded mark.now view.now)) }
    ensures same { Prepares game.old game.new }
    ensures frames { (list : ListValue) → AreFrames (land_of game.old) list encoded.old
        → AreFrames (land_of game.new) list encoded.new }
    ensures prepared { OnOk result (encoded.new ≡
        with_all_changes (cells_of game.old.settled game.old.game)
        (with_loads (cells_of game.old.settled game.old.game) encoded.old
        (loaded mark.now view.now)) (filter (is_within mark.now.view) (all_of view.now))) }
    ensures bounded { steps.new ≤ steps.old + (cells * length (loaded mark.now view.now)
        + sum_by (changed_in (cells_of game.old.settled game.old.game))
        (filter (is_within mark.now.view) (all_of view.now))) }
{
    prepare_columns(alloc, game, encoded, mark.entered(view), steps)?;
    prepare_changes(alloc, game.land(), encoded, view, mark, steps)
}

/// Makes the columns ready that the client of a connection is to be shown and was not, and encodes
/// their loads and the changed cells of the others, if it has a player. What was ready stays so.
/// Each of these cells is looked at once at most, and none whose frame is there.
pub fn prepare_one<L: Ledger>(
    alloc: Global,
    game: &mut Game,
    encoded: &mut Encoded,
    connection: u32,
    mark: &Mark,
    steps: &mut Steps<L>,
) -> Result<(), NoMemory>
    ensures ready { OnOk result (IsReadyFor game.new connection mark.now) }
    ensures same { Prepares game.old game.new }
    ensures frames { (list : ListValue) → AreFrames (land_of game.old) list encoded.old
        → AreFrames (land_of game.new) list encoded.new }
    ensures prepared { OnOk result (encoded.new ≡ prepared game.old.settled game.old.game
        mark.now (get game.old.game.players connection) encoded.old) }
    ensures bounded { steps.new ≤ steps.old + view_looks game.old.settled game.old.game
        mark.now (get game.old.game.players connection) }
{
    let Some(player) = game.players().find(connection) else {
        return Ok(());
    };
    let view = view_of(game, player);
    prepare_view(alloc, game, encoded, &view, mark, steps)
}
