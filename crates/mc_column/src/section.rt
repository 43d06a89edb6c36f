ghost use Rattle.std.specs.Prelude.{◌≡◌, ◌+◌, ◌*◌, ◌<◌, ◌↔◌, IsTrue, IfOk, List, ℕ, not, length};
ghost use Rattle.std.specs.Prelude.{slice_index, slice_set, replicate};
ghost use Rattle.mc_column.specs.Sizes.{layer_count, light_bytes, row_bytes, section_cells};
ghost use Rattle.mc_column.specs.Sizes.{squares};
ghost use Rattle.mc_column.specs.Cells.{IsAir, paired, section_of, wire};
ghost use Rattle.mc_column.specs.Light.{section_sky, sky_bytes};
ghost use Rattle.mc_column.specs.Kept.{block_of, blocks_in};
ghost use Rattle.mc_column.specs.Sent.{has_block};

use crate::light::{dim, put_row};
use crate::sizes::{bytes_of_layer, bytes_of_section, layers_of_section};
use mc_bytes::NoMemory;
use std::alloc::Global;
use std::marker::Model;

/// Sixteen layers of sixteen by sixteen cells. Contracts see it as the list of its 4,096 states,
/// that of the cell (x, y, z) inside it at `y * 256 + z * 16 + x`.
#[derive(Drop)]
pub struct Section {
    /// The states as they are sent: two bytes each, the least significant first.
    bytes: Vec<u8>,
    /// How many of them are not air.
    filled: u16,
}

impl Model for Section {
    ghost use Rattle.std.specs.Prelude.{List, ℕ};

    ghost Value = { List ℕ };

    ghost use Rattle.mc_column.specs.Cells.{paired};
    ghost use Rattle.mc_column.specs.Kept.{IsKept};

    ghost view = { λ section. paired section.bytes.items };

    ghost invariant = { λ section. IsKept section.bytes.items section.filled };
}

/// So many bytes of 0.
fn zeros(alloc: Global, n: usize) -> Result<Vec<u8>, NoMemory>
    ensures { IfOk result (λ bytes. bytes.items ≡ replicate n 0) }
{
    let mut bytes = Vec::new(alloc);
    bytes.resize(n, 0)?;
    Ok(bytes)
}

/// One for a state that is not air.
fn block(state: u16) -> u16
    ensures { result ≡ block_of state }
{
    if state == 0 { 0 } else { 1 }
}

/// How many states of a section's bytes are not air.
pub(crate) fn blocks(bytes: &[u8]) -> u16
    requires { length bytes.now ≡ 2 * section_cells }
    ensures { result ≡ blocks_in (paired bytes.now) }
{
    let mut count = 0;
    for i in 0..bytes.len() / 2 {
        count += block(state_at(bytes, i));
    }
    count
}

/// The bytes of layer `y` of a section's bytes.
fn layer(bytes: &[u8], y: usize) -> &[u8]
    requires inside { y < layer_count }
    requires whole { length bytes.now ≡ 2 * section_cells }
    ensures len { length result.now ≡ 2 * squares }
    ensures states { (t : ℕ) → t < squares → slice_index (paired result.now) t ≡
        slice_index (paired bytes.now) (y * squares + t) }
{
    let size = bytes_of_layer();
    let from = y * size;
    &bytes[from..from + size]
}

/// State `i` of some bytes.
pub(crate) fn state_at(bytes: &[u8], i: usize) -> u16
    requires { 2 * i + 1 < length bytes.now }
    ensures { result ≡ slice_index (paired bytes.now) i }
{
    u16::from(bytes[2 * i]) + 256 * u16::from(bytes[2 * i + 1])
}

/// Writes states as they are sent, over as many bytes.
fn put_states(bytes: &mut [u8], states: &[u16])
    requires { length bytes.old ≡ 2 * length states.now }
    ensures { bytes.new ≡ wire states.now }
{
    for i in 0..states.len() {
        bytes[2 * i] = (states[i] % 256) as u8;
        bytes[2 * i + 1] = (states[i] / 256) as u8;
    }
}

impl Section {
    /// A section of air.
    pub(crate) fn air(alloc: Global) -> Result<Section, NoMemory>
        ensures { IfOk result (λ section. section ≡ replicate section_cells 0) }
    {
        let bytes = zeros(alloc, bytes_of_section())?;
        Ok(Section { bytes, filled: 0 })
    }

    /// The state at a cell's index in the section.
    pub fn get(&self, index: u16) -> u16
        requires { index < 4096 }
        ensures { result ≡ slice_index self.now index }
    {
        state_at(&self.bytes, index as usize)
    }

    /// Puts a state at a cell's index and answers the one that was there.
    pub(crate) fn set(&mut self, index: u16, state: u16) -> u16
        requires { index < 4096 }
        ensures old { result ≡ slice_index self.old index }
        ensures new { self.new ≡ slice_set self.old index state }
    {
        let old = self.get(index);
        let at = 2 * index as usize;
        self.bytes[at] = (state % 256) as u8;
        self.bytes[at + 1] = (state / 256) as u8;
        self.filled = self.filled + block(state) - block(old);
        old
    }

    /// The section whose states are these bytes, so many of which are not air.
    pub(crate) fn from_bytes(alloc: Global, bytes: &[u8], filled: u16) -> Result<Section, NoMemory>
        requires sized { length bytes.now ≡ 2 * section_cells }
        requires counted { filled ≡ blocks_in (paired bytes.now) }
        ensures { IfOk result (λ section. section ≡ paired bytes.now) }
    {
        Ok(Section {
            bytes: Vec::from_slice(alloc, bytes)?,
            filled,
        })
    }

    /// The section of these states, so many of which are not air.
    pub(crate) fn from_states(
        alloc: Global,
        states: &[u16],
        filled: u16,
    ) -> Result<Section, NoMemory>
        requires sized { length states.now ≡ section_cells }
        requires counted { filled ≡ blocks_in states.now }
        ensures { IfOk result (λ section. section ≡ states.now) }
    {
        let mut bytes = zeros(alloc, bytes_of_section())?;
        put_states(&mut bytes, states);
        Ok(Section { bytes, filled })
    }

    /// Whether all its cells are air.
    pub(crate) fn is_air(&self) -> bool
        ensures value { IsTrue result ↔ IsAir self.now }
        ensures test { result ≡ not (has_block self.now) }
    {
        self.filled == 0
    }

    /// Its states as they are sent.
    pub(crate) fn bytes(&self) -> &[u8]
        ensures states { result.now ≡ wire self.now }
        ensures len { length self.now ≡ section_cells }
    {
        self.bytes.as_slice()
    }

    /// Makes the light of the layer above the section that of its lowest layer, and writes the
    /// light of its layers.
    pub(crate) fn shade(&self, light: &mut [u8], sky: &mut [u8])
        requires light_is { length light.old ≡ row_bytes }
        requires sky_is { length sky.old ≡ light_bytes }
        ensures lowest { (states : List ℕ) (i : ℕ) → self.now ≡ section_of states i →
            light.old ≡ sky_bytes states (i * section_cells + section_cells) row_bytes →
            light.new ≡ sky_bytes states (i * section_cells) row_bytes }
        ensures all { (states : List ℕ) (i : ℕ) → self.now ≡ section_of states i →
            light.old ≡ sky_bytes states (i * section_cells + section_cells) row_bytes →
            sky.new ≡ section_sky states i }
    {
        for y in (0..layers_of_section()).rev() {
            dim(light, layer(&self.bytes, y));
            put_row(sky, y, light);
        }
    }

    /// An equal section.
    pub(crate) fn copy(&self) -> Result<Section, NoMemory>
        ensures { IfOk result (λ section. section ≡ self.now) }
    {
        let alloc = *self.bytes.allocator();
        Ok(Section {
            bytes: Vec::from_slice(alloc, self.bytes.as_slice())?,
            filled: self.filled,
        })
    }
}
