ghost use Rattle.std.specs.Prelude.{◌≡◌, ◌<◌, ◌≤◌, length};
ghost use Rattle.mc_column.specs.Cells.{HasSizes, section_of};
ghost use Rattle.mc_column.specs.Kept.{block_of, blocks_in};
ghost use Rattle.mc_column.specs.Sizes.{section_cells};

use mc_column::{Column, Section};

/// How many sections a column has.
const SECTIONS: u8 = 16;

/// How many cells a section has.
const CELLS: u16 = 4_096;

/// One for a state that is not air.
fn block(state: u16) -> u32
    ensures { result ≡ block_of state }
{
    if state == 0 { 0 } else { 1 }
}

/// How many cells of a section are not air.
fn blocks_of(section: &Section) -> u32
    requires { length section.now ≡ section_cells }
    ensures value { result ≡ blocks_in section.now }
    ensures few { result ≤ 4096 }
{
    let mut count = 0;
    for i in 0..CELLS {
        count += block(section.get(i));
    }
    count
}

/// How many cells of section `i` of a column are not air. It looks at the cells of no section that
/// is all air.
fn blocks_at(column: &Column, i: u8) -> u32
    requires inside { i < 16 }
    requires sized { HasSizes column.now }
    ensures value { result ≡ blocks_in (section_of column.now.states i) }
    ensures few { result ≤ 4096 }
{
    match column.section(i) {
        Some(section) => blocks_of(section),
        None => 0,
    }
}

/// How many cells of a column are not air.
pub(crate) fn blocks_in(column: &Column) -> u32
    ensures { result ≡ blocks_in column.now.states }
{
    // Only the prover needs this line: how many cells a column has.
    let _mask = column.sent_mask();
    let mut count = 0;
    for i in 0..SECTIONS {
        count += blocks_at(column, i);
    }
    count
}
