ghost use Rattle.std.specs.Prelude.{◌≡◌};
ghost use Rattle.mc_column.specs.Sizes as sizes;

/// How many cells a layer of a column has, and how many biomes a column.
#[inline(always)]
pub(crate) fn cells_of_layer() -> usize
    ensures { result ≡ sizes.squares }
{
    256
}

/// How many cells a column has.
#[inline(always)]
pub(crate) fn cells_of_column() -> usize
    ensures { result ≡ sizes.cells }
{
    65_536
}

/// How many cells a section has.
#[inline(always)]
pub(crate) fn cells_of_section() -> usize
    ensures { result ≡ sizes.section_cells }
{
    4096
}

/// How many sections a column has.
#[inline(always)]
pub(crate) fn sections_of_column() -> usize
    ensures { result ≡ sizes.section_count }
{
    16
}
