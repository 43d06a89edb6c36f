ghost use Rattle.std.specs.Prelude.{◌≡◌, ◌+◌, ◌*◌, ◌<◌, ◌≤◌, ◌==◌, ℕ, [], IfOk, IfSome, OnOk};
ghost use Rattle.std.specs.Prelude.{length, slice_index, if◌then◌else◌};
ghost use lib.IntN.{pos, neg_ℤ, ◌+ℤ◌, ◌*ℤ◌};
ghost use lib.Signed.{◌≤ℤ◌};
ghost use Rattle.mc_land.specs.declared.terrain.Terrain.TheVariants.{Flat, Hills, Isle};
ghost use Rattle.mc_column.specs.Sizes.{squares};
ghost use Rattle.mc_column.specs.Kept.{block_of, blocks_in};
ghost use Rattle.mc_land.specs.Terrain.{height, hills_biome, hills_id, isle_id};
ghost use Rattle.mc_land.specs.Places.{IsPlace};
ghost use Rattle.mc_land.specs.declared.places.TheConstants.{COLUMN_BORDER};
ghost use Rattle.mc_land.specs.Land.{terrain_at, biomes_of};
ghost use Rattle.mc_land.specs.Grown.{own_column, x_at, z_at};
ghost use Rattle.mc_land.specs.GrownCode.{AppendsLayer, AreTops, IsGrown, fills, low_of};
ghost use Rattle.mc_land.specs.GrownCode.{own_section, reach_in};

use crate::places::Place;
use crate::sizes::{cells_of_layer, cells_of_section, sections_of_column};
use crate::terrain::{PLAINS, Terrain, flat_id, height, hills_biome, hills_id, isle_id};
use mc_bytes::NoMemory;
use mc_column::Column;
use std::alloc::Global;

/// The lowest grass of the hills.
const LOWEST_TOP: u8 = 40;

/// The highest grass of the hills.
const HIGHEST_TOP: u8 = 54;

/// The height of the grass of flat land.
const FLAT_TOP: u16 = 3;

/// The height of the isle's stone.
const ISLE_TOP: u16 = 63;

/// Makes a column of the terrain's own cells.
pub(crate) fn grow(alloc: Global, terrain: &Terrain, place: &Place) -> Result<Column, NoMemory>
    requires { IsPlace place.now }
    ensures { IfOk result (λ column. column ≡ own_column terrain.now place.now) }
{
    let tops = tops_of(alloc, terrain, place)?;
    let biomes = biomes_of(alloc, terrain, place, &tops)?;
    let mut column = Column::with_biomes(biomes)?;
    let mut states = Vec::with_capacity(alloc, cells_of_section())?;
    for i in 0..sections_of_column() {
        grow_section(terrain, place, &tops, i as u8, &mut states, &mut column)?;
    }
    Ok(column)
}

/// Makes section `i` of a column the terrain's own, where all sections below it are. A section of
/// air stays as it is. Its states are written into a list that is made anew.
fn grow_section(
    terrain: &Terrain,
    place: &Place,
    tops: &[u16],
    i: u8,
    states: &mut Vec<u16>,
    column: &mut Column,
) -> Result<(), NoMemory>
    requires inside { i < 16 }
    requires place { IsPlace place.now }
    requires tops { AreTops terrain.now place.now tops.now }
    ensures { OnOk result (IsGrown terrain.now place.now column.old i →
        IsGrown terrain.now place.now column.new (i + 1)) }
{
    let filled = filled_in(terrain, place, tops, i);
    if filled == 0 {
        return Ok(());
    }
    states.clear();
    push_section(terrain, place, tops, i, states)?;
    column.put_section(i, states, filled)?;
    Ok(())
}

/// How many blocks section `i` of a column of the terrain has, from the tops of its places.
fn filled_in(terrain: &Terrain, place: &Place, tops: &[u16], i: u8) -> u16
    requires inside { i < 16 }
    requires tops { AreTops terrain.now place.now tops.now }
    ensures { result ≡ blocks_in (own_section terrain.now place.now i) }
{
    // Only the prover needs this line: which column it is.
    let _place = place;
    let low = low_of(terrain, i);
    let high = 16 * u16::from(i) + 16;
    let mut total = 0;
    for top in tops {
        total += reach_in(low, high, *top);
    }
    total
}

/// Where the blocks of section `i` may begin.
fn low_of(terrain: &Terrain, i: u8) -> u16
    requires { i < 16 }
    ensures { result ≡ low_of terrain.now i }
{
    let lowest = match terrain {
        Terrain::Isle => ISLE_TOP,
        _ => 0,
    };
    lowest.max(16 * u16::from(i))
}

/// How many blocks stand from one height up to below another, where they reach from the first to
/// the top.
fn reach_in(low: u16, high: u16, top: u16) -> u16
    requires small { top < 256 }
    requires thin { high ≤ low + 16 }
    ensures is { result ≡ reach_in low high top }
    ensures few { result ≤ 16 }
{
    let end = if top < high { top + 1 } else { high };
    end.saturating_sub(low)
}

/// Appends the states of section `i` of a column, from the lowest layer up.
fn push_section(
    terrain: &Terrain,
    place: &Place,
    tops: &[u16],
    i: u8,
    states: &mut Vec<u16>,
) -> Result<(), NoMemory>
    requires inside { i < 16 }
    requires none { states.old.items ≡ [] }
    requires place { IsPlace place.now }
    requires tops { AreTops terrain.now place.now tops.now }
    ensures { OnOk result (states.new.items ≡ own_section terrain.now place.now i) }
{
    for y in 0..16 {
        push_layer(terrain, tops, place, 16 * i + y, states)?;
    }
    Ok(())
}

/// The block that place `at` of sixteen along an axis is at, in column `c` of that axis.
pub(crate) fn block_at(c: i32, at: usize) -> i32
    requires low { neg_ℤ (pos COLUMN_BORDER) ≤ℤ c }
    requires high { c ≤ℤ pos COLUMN_BORDER }
    requires inside { at < 16 }
    ensures { result ≡ c *ℤ pos 16 +ℤ pos at }
{
    c * 16 + at as i32
}

/// How high the blocks of the terrain reach at place `i` of a column.
fn top_at(terrain: &Terrain, place: &Place, i: usize) -> u16
    requires place { IsPlace place.now }
    requires inside { i < squares }
    ensures at { (seed : ℕ) → terrain.now ≡ Hills seed →
        result ≡ height seed (x_at place.now i) (z_at place.now i) }
    ensures reach { (y : ℕ) → block_of (terrain_at terrain.now (place.now, y * squares + i)) ≡
        fills terrain.now result y }
    ensures small { result < 256 }
    ensures low { (seed : ℕ) → terrain.now ≡ Hills seed → 40 ≤ result }
    ensures high { (seed : ℕ) → terrain.now ≡ Hills seed → result ≤ 54 }
{
    match terrain {
        Terrain::Flat => FLAT_TOP,
        Terrain::Hills(seed) => height(*seed, block_at(place.0, i % 16), block_at(place.1, i / 16)),
        Terrain::Isle => isle_top(place),
    }
}

/// How high the blocks of the isle reach in a column: below the stone where there is none.
fn isle_top(place: &Place) -> u16
    requires { IsPlace place.now }
    ensures { result ≡
        (if isle_id (place.now.0 *ℤ pos 16 +ℤ pos 0) 63 (place.now.1 *ℤ pos 16 +ℤ pos 0) == 0 then
        62 else 63) }
{
    if isle_id(block_at(place.0, 0), 63, block_at(place.1, 0)) == 0 {
        ISLE_TOP - 1
    } else {
        ISLE_TOP
    }
}

/// How high the blocks of the terrain reach at each place of a column.
fn tops_of(alloc: Global, terrain: &Terrain, place: &Place) -> Result<Vec<u16>, NoMemory>
    requires { IsPlace place.now }
    ensures { IfOk result (λ tops. AreTops terrain.now place.now tops.items) }
{
    let count = cells_of_layer();
    let mut tops = Vec::with_capacity(alloc, count)?;
    for i in 0..count {
        tops.push(top_at(terrain, place, i))?;
    }
    Ok(tops)
}

/// Appends a layer of one state.
fn push_alike(state: u16, out: &mut Vec<u16>) -> Result<(), NoMemory>
    ensures { OnOk result (AppendsLayer out.old.items out.new.items (λ _. state)) }
{
    let size = out.len() + cells_of_layer();
    out.resize(size, state)?;
    Ok(())
}

/// The state of a layer of the hills that is alike everywhere, whatever their heights.
fn hills_alike(y: u8) -> Option<u16>
    ensures { IfSome result (λ state. (top : ℕ) → 40 ≤ top → top ≤ 54 →
        hills_id top y * 16 ≡ state) }
{
    if y <= LOWEST_TOP - 4 {
        return Some(hills_id(u16::from(LOWEST_TOP), y) * 16);
    }
    if HIGHEST_TOP < y {
        return Some(0);
    }
    None
}

/// Appends a layer of the hills of these heights.
fn push_hills(tops: &[u16], y: u8, out: &mut Vec<u16>) -> Result<(), NoMemory>
    requires sized { length tops.now ≡ squares }
    requires low { (i : ℕ) → i < squares → 40 ≤ slice_index tops.now i }
    requires high { (i : ℕ) → i < squares → slice_index tops.now i ≤ 54 }
    ensures { OnOk result (AppendsLayer out.old.items out.new.items
        (λ i. hills_id (slice_index tops.now i) y * 16)) }
{
    match hills_alike(y) {
        Some(state) => push_alike(state, out),
        None => push_tops(tops, y, out),
    }
}

/// Appends a layer of the hills, cell by cell.
fn push_tops(tops: &[u16], y: u8, out: &mut Vec<u16>) -> Result<(), NoMemory>
    requires { length tops.now ≡ squares }
    ensures { OnOk result (AppendsLayer out.old.items out.new.items
        (λ i. hills_id (slice_index tops.now i) y * 16)) }
{
    for top in tops {
        out.push(hills_id(*top, y) * 16)?;
    }
    Ok(())
}

/// The state of layer `y` of a column of the isle, which is alike everywhere.
fn isle_state(place: &Place, y: u8) -> u16
    requires { IsPlace place.now }
    ensures { result ≡ isle_id (place.now.0 *ℤ pos 16 +ℤ pos 0) y (place.now.1 *ℤ pos 16 +ℤ pos 0) *
        16 }
{
    isle_id(block_at(place.0, 0), y, block_at(place.1, 0)) * 16
}

/// Appends layer `y` of a column.
fn push_layer(
    terrain: &Terrain,
    tops: &[u16],
    place: &Place,
    y: u8,
    out: &mut Vec<u16>,
) -> Result<(), NoMemory>
    requires place { IsPlace place.now }
    requires tops { AreTops terrain.now place.now tops.now }
    ensures { OnOk result (AppendsLayer out.old.items out.new.items (λ i. terrain_at terrain.now
        (place.now, y * squares + i))) }
{
    match terrain {
        Terrain::Flat => push_alike(flat_id(y) * 16, out)?,
        Terrain::Hills(_) => push_hills(tops, y, out)?,
        Terrain::Isle => push_alike(isle_state(place, y), out)?,
    }
    Ok(())
}

/// The biome at a place of the terrain, whose blocks reach up to a top there.
fn biome_of(terrain: &Terrain, top: u16) -> u8
    ensures hills { (seed : ℕ) → terrain.now ≡ Hills seed → result ≡ hills_biome top }
    ensures flat { terrain.now ≡ Flat → result ≡ 1 }
    ensures isle { terrain.now ≡ Isle → result ≡ 1 }
{
    match terrain {
        Terrain::Hills(_) => hills_biome(top),
        _ => PLAINS,
    }
}

/// The biomes of a column, by the tops of its places.
fn biomes_of(
    alloc: Global,
    terrain: &Terrain,
    place: &Place,
    tops: &[u16],
) -> Result<Vec<u8>, NoMemory>
    requires tops { AreTops terrain.now place.now tops.now }
    ensures { IfOk result (λ biomes. biomes.items ≡ biomes_of terrain.now place.now) }
{
    // Only the prover needs this line: which column it is.
    let _place = place;
    let mut biomes = Vec::with_capacity(alloc, tops.len())?;
    for top in tops {
        biomes.push(biome_of(terrain, *top))?;
    }
    Ok(biomes)
}
