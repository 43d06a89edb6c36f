ghost use Rattle.std.specs.Prelude.{◌≡◌, ◌+◌, ◌*◌, ◌<◌, ◌↔◌, ◌++◌, IsTrue, drop, length, replicate};
ghost use Rattle.std.specs.Prelude.{slice_index};
ghost use Rattle.mc_column.specs.Sizes.{layer_count, light_bytes, row_bytes, squares};
ghost use Rattle.std.specs.List.{All};
ghost use Rattle.mc_column.specs.Cells.{paired};
ghost use Rattle.mc_column.specs.LightCode as spec;

use crate::section::state_at;
use crate::sizes::bytes_of_row;

/// The light of a layer above which all is air: each of its 256 cells is lit with 15.
pub(crate) fn full_light() -> [u8; 128]
    ensures { result ≡ replicate row_bytes 255 }
{
    [255; 128]
}

/// A byte of light under two cells, from the byte above them.
fn dimmed_byte(above: u8, low: u16, high: u16) -> u8
    ensures { result ≡ spec.dimmed_byte above low high }
{
    let low_half = if low == 0 { above % 16 } else { 0 };
    let high_half = if high == 0 { above / 16 * 16 } else { 0 };
    low_half + high_half
}

/// Byte `j` of the light of a layer, from that above it. There is no branch, so that the cells of a
/// layer are taken many at a time.
fn dimmed_at(above: u8, layer: &[u8], j: usize) -> u8
    requires { 4 * j + 3 < length layer.now }
    ensures { result ≡ spec.dimmed_byte above (slice_index (paired layer.now) (2 * j))
        (slice_index (paired layer.now) (2 * j + 1)) }
{
    dimmed_byte(above, state_at(layer, 2 * j), state_at(layer, 2 * j + 1))
}

/// Whether all bytes are 0.
fn are_zero(bytes: &[u8]) -> bool
    ensures { IsTrue result ↔ All (λ byte. byte ≡ 0) bytes.now }
{
    let mut any = 0;
    for byte in bytes {
        any |= *byte;
    }
    any == 0
}

/// Makes the light of the layer above that of this layer, whose states' bytes these are. Where all
/// is dark already, or the layer is all air, it stays.
pub(crate) fn dim(light: &mut [u8], layer: &[u8])
    requires light_is { length light.old ≡ row_bytes }
    requires layer_is { length layer.now ≡ 2 * squares }
    ensures { light.new ≡ spec.dimmed light.old (paired layer.now) }
{
    if are_zero(light) {
        return;
    }
    if are_zero(layer) {
        return;
    }
    dim_cells(light, layer);
}

/// Makes the light of the layer above that of this layer, two cells at a time.
fn dim_cells(light: &mut [u8], layer: &[u8])
    requires light_is { length light.old ≡ row_bytes }
    requires layer_is { length layer.now ≡ 2 * squares }
    ensures { light.new ≡ spec.dimmed light.old (paired layer.now) }
{
    for j in 0..light.len() {
        light[j] = dimmed_at(light[j], layer, j);
    }
}

/// Writes the light of a layer to its place in that of its section.
pub(crate) fn put_row(sky: &mut [u8], y: usize, light: &[u8])
    requires inside { y < layer_count }
    requires sky_is { length sky.old ≡ light_bytes }
    requires light_is { length light.now ≡ row_bytes }
    ensures len { length sky.new ≡ light_bytes }
    ensures from { drop (y * row_bytes) sky.new ≡ light.now ++ drop (y * row_bytes + row_bytes)
        sky.old }
{
    let size = bytes_of_row();
    let from = y * size;
    sky[from..from + size].copy_from_slice(light);
}
