ghost use Rattle.std.specs.Prelude.{◌≡◌, ◌+◌, ◌*◌, ◌<◌, ◌≤◌, ◌↔◌, ◌++◌, List, ℕ, IsNone, IsTrue};
ghost use Rattle.std.specs.Prelude.{IfOk, IfSome, OnOk, OnErr, not, length, replicate, slice_index};
ghost use Rattle.std.specs.Prelude.{slice_set, vec_len, vec_capacity};
ghost use Rattle.mc_column.specs.Sizes.{light_bytes, row_bytes, section_cells};
ghost use Rattle.mc_column.specs.Cells.{IsAir, paired, section_of, wire};
ghost use Rattle.mc_column.specs.Light.{section_sky, sky_bytes};
ghost use Rattle.mc_column.specs.Kept.{blocks_in};
ghost use Rattle.mc_column.specs.KeptSparse.{states_in, IsSparse};
ghost use Rattle.mc_column.specs.Sent.{has_block};

use crate::light::put_row;
use crate::section::{Section, blocks};
use crate::sizes::{bytes_of_section, layers_of_section};
use crate::write::{append, append_zeros};
use mc_bytes::NoMemory;
use std::alloc::Global;
use std::marker::Model;

/// A place for a section in a column, where one is kept unless all its cells are air. Contracts see
/// it as the list of its 4,096 states.
#[derive(Drop)]
pub(crate) struct SparseSection {
    section: Option<Section>,
}

impl Model for SparseSection {
    ghost use Rattle.std.specs.Prelude.{List, ℕ};

    ghost Value = { List ℕ };

    ghost use Rattle.mc_column.specs.KeptSparse.{states_in, IsSparse};

    ghost view = { λ sparse. states_in sparse.section };

    ghost invariant = { λ sparse. IsSparse sparse.section };
}

/// A section, unless all its cells are air.
fn kept(section: Section) -> Option<Section>
    requires { length section ≡ section_cells }
    ensures states { states_in result ≡ section }
    ensures sparse { IsSparse result }
{
    if section.is_air() {
        None
    } else {
        Some(section)
    }
}

/// A section of air with a block at one cell.
fn with_one(alloc: Global, index: u16, state: u16) -> Result<Section, NoMemory>
    requires { index < 4096 }
    ensures { IfOk result (λ section. section ≡ slice_set (replicate section_cells 0) index state) }
{
    let mut section = Section::air(alloc)?;
    let _old = section.set(index, state);
    Ok(section)
}

impl SparseSection {
    /// All air. It takes no memory.
    pub(crate) fn air() -> SparseSection
        ensures { result ≡ replicate section_cells 0 }
    {
        SparseSection { section: None }
    }

    /// The section whose states are so many bytes, two a state.
    pub(crate) fn from_bytes(alloc: Global, bytes: &[u8]) -> Result<SparseSection, NoMemory>
        requires { length bytes.now ≡ 2 * section_cells }
        ensures { IfOk result (λ sparse. sparse ≡ paired bytes.now) }
    {
        let filled = blocks(bytes);
        if filled == 0 {
            return Ok(SparseSection::air());
        }
        Ok(SparseSection {
            section: Some(Section::from_bytes(alloc, bytes, filled)?),
        })
    }

    /// The section of these states, so many of which are not air.
    pub(crate) fn from_states(
        alloc: Global,
        states: &[u16],
        filled: u16,
    ) -> Result<SparseSection, NoMemory>
        requires sized { length states.now ≡ section_cells }
        requires counted { filled ≡ blocks_in states.now }
        ensures { IfOk result (λ sparse. sparse ≡ states.now) }
    {
        if filled == 0 {
            return Ok(SparseSection::air());
        }
        Ok(SparseSection {
            section: Some(Section::from_states(alloc, states, filled)?),
        })
    }

    /// The section, None exactly where all its cells are air.
    pub(crate) fn section(&self) -> Option<&Section>
        ensures none { IsNone result ↔ IsAir self.now }
        ensures some { IfSome result (λ section. section.now ≡ self.now) }
    {
        self.section.as_ref()
    }

    /// The state at a cell's index in the section.
    pub(crate) fn get(&self, index: u16) -> u16
        requires { index < 4096 }
        ensures { result ≡ slice_index self.now index }
    {
        match &self.section {
            Some(section) => section.get(index),
            None => 0,
        }
    }

    /// Puts a state at a cell's index and answers the one that was there. It takes memory only for
    /// the first block of a section.
    pub(crate) fn set(&mut self, alloc: Global, index: u16, state: u16) -> Result<u16, NoMemory>
        requires { index < 4096 }
        ensures old { IfOk result (λ old. old ≡ slice_index self.old index) }
        ensures new { OnOk result (self.new ≡ slice_set self.old index state) }
        ensures err { OnErr result (self.new ≡ self.old) }
    {
        match self.section.take() {
            Some(mut section) => {
                let old = section.set(index, state);
                self.section = kept(section);
                Ok(old)
            }
            None => {
                if state != 0 {
                    self.section = kept(with_one(alloc, index, state)?);
                }
                Ok(0)
            }
        }
    }

    /// Whether all its cells are air.
    pub(crate) fn is_air(&self) -> bool
        ensures value { IsTrue result ↔ IsAir self.now }
        ensures test { result ≡ not (has_block self.now) }
    {
        self.section.is_none()
    }

    /// Appends its states as they are sent, for which there is room.
    pub(crate) fn append_to(&self, out: &mut Vec<u8>)
        requires { vec_len out.old + 2 * section_cells ≤ vec_capacity out.old }
        ensures items { out.new.items ≡ out.old.items ++ wire self.now }
        ensures room { vec_capacity out.old ≤ vec_capacity out.new }
    {
        match &self.section {
            Some(section) => append(out, section.bytes()),
            None => append_zeros(out, bytes_of_section()),
        }
    }

    /// Makes the light of the layer above the section that of its lowest layer, and writes the
    /// light of its layers.
    pub(crate) fn shade(&self, light: &mut [u8], sky: &mut [u8])
        requires light_is { length light.old ≡ row_bytes }
        requires sky_is { length sky.old ≡ light_bytes }
        ensures lowest { (states : List ℕ) (i : ℕ) → self.now ≡ section_of states i →
            light.old ≡ sky_bytes states (i * section_cells + section_cells) row_bytes →
            light.new ≡ sky_bytes states (i * section_cells) row_bytes }
        ensures all { (states : List ℕ) (i : ℕ) → self.now ≡ section_of states i →
            light.old ≡ sky_bytes states (i * section_cells + section_cells) row_bytes →
            sky.new ≡ section_sky states i }
    {
        match &self.section {
            Some(section) => section.shade(light, sky),
            None => shade_air(light, sky),
        }
    }

    /// An equal section.
    pub(crate) fn copy(&self) -> Result<SparseSection, NoMemory>
        ensures { IfOk result (λ sparse. sparse ≡ self.now) }
    {
        match &self.section {
            Some(section) => Ok(SparseSection {
                section: Some(section.copy()?),
            }),
            None => Ok(SparseSection::air()),
        }
    }
}

/// Writes the light of the layers of a section of air, which is that above it.
fn shade_air(light: &[u8], sky: &mut [u8])
    requires light_is { length light.now ≡ row_bytes }
    requires sky_is { length sky.old ≡ light_bytes }
    ensures { (states : List ℕ) (i : ℕ) → replicate section_cells 0 ≡ section_of states i →
        light.now ≡ sky_bytes states (i * section_cells + section_cells) row_bytes →
        sky.new ≡ section_sky states i }
{
    for y in (0..layers_of_section()).rev() {
        put_row(sky, y, light);
    }
}
