ghost use Rattle.std.specs.Prelude.{◌≡◌, ◌*◌};
ghost use Rattle.mc_column.specs.Sizes as sizes;

/// How many cells a section has.
#[inline(always)]
pub(crate) fn cells_of_section() -> usize
    ensures { result ≡ sizes.section_cells }
{
    4096
}

/// How many bytes a section's states are.
#[inline(always)]
pub(crate) fn bytes_of_section() -> usize
    ensures { result ≡ 2 * sizes.section_cells }
{
    8192
}

/// How many sections a column has.
#[inline(always)]
pub(crate) fn sections_of_column() -> usize
    ensures { result ≡ sizes.section_count }
{
    16
}

/// How many biomes a column has.
#[inline(always)]
pub(crate) fn biomes_of_column() -> usize
    ensures { result ≡ sizes.squares }
{
    256
}

/// How many layers a section has.
#[inline(always)]
pub(crate) fn layers_of_section() -> usize
    ensures { result ≡ sizes.layer_count }
{
    16
}

/// How many bytes the states of a layer are.
#[inline(always)]
pub(crate) fn bytes_of_layer() -> usize
    ensures { result ≡ 2 * sizes.squares }
{
    512
}

/// How many bytes the light of a layer is.
#[inline(always)]
pub(crate) fn bytes_of_row() -> usize
    ensures { result ≡ sizes.row_bytes }
{
    128
}

/// How many bytes the light of a section is.
#[inline(always)]
pub(crate) fn light_of_section() -> usize
    ensures { result ≡ sizes.light_bytes }
{
    2048
}
