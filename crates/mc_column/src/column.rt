ghost use Rattle.std.specs.Prelude.{◌≡◌, ◌+◌, ◌*◌, ◌/◌, ◌%◌, ◌<◌, ◌↔◌, ◌++◌, IsNone, IsTrue, IfOk};
ghost use Rattle.std.specs.Prelude.{IfSome, OnOk, OnErr, slice_index, replicate, length};
ghost use Rattle.std.specs.Prelude.{if◌then◌else◌};
ghost use Rattle.mc_column.specs.Sizes.{cells, section_cells, squares};
ghost use Rattle.mc_column.specs.Body.{put_body};
ghost use Rattle.mc_column.specs.Sent.{IsColumnMask, SpellsColumn, column_bytes, column_mask};
ghost use Rattle.mc_column.specs.Cells.{HasSizes, IsAir, cell_index, square_index, empty_column};
ghost use Rattle.mc_column.specs.Cells.{with_section, with_state, section_of};
ghost use Rattle.mc_column.specs.Kept.{blocks_in};

use crate::body::{Body, body_size};
use crate::mask::sent_mask;
use crate::put::{lay_all, made_all};
use crate::section::Section;
use crate::sizes::{biomes_of_column, sections_of_column};
use crate::sparse::SparseSection;
use crate::write::append_body;
use mc_bytes::NoMemory;
use std::alloc::Global;
use std::marker::Model;

/// A column of 16 by 256 by 16 cells with their states, and 16 by 16 biomes. Contracts see it as
/// the list of its 65,536 states, that of the cell (x, y, z) at `y * 256 + z * 16 + x`, and the
/// list of its 256 biomes, that of (x, z) at `z * 16 + x`.
#[derive(Drop)]
pub struct Column {
    /// Sixteen, from the bottom up.
    sections: Vec<SparseSection>,
    biomes: Vec<u8>,
}

impl Model for Column {
    ghost use Rattle.mc_column.specs.Cells.{ColumnValue};

    ghost Value = { ColumnValue };

    ghost use Rattle.mc_column.specs.KeptColumn.{kept_column, IsKeptColumn};

    ghost view = { λ column. kept_column column.sections.items column.biomes.items };

    ghost invariant = { λ column. IsKeptColumn column.sections.items column.biomes.items };
}

impl Column {
    /// Makes a column of air with one biome everywhere.
    pub fn empty(alloc: Global, biome: u8) -> Result<Column, NoMemory>
        ensures { IfOk result (λ column. column ≡ empty_column biome) }
    {
        Column::with_biomes(copies(alloc, biomes_of_column(), biome)?)
    }

    /// Makes a column of air with these 256 biomes.
    pub fn with_biomes(biomes: Vec<u8>) -> Result<Column, NoMemory>
        requires { length biomes.items ≡ squares }
        ensures { IfOk result (λ column. column ≡ record {
          states = replicate cells 0;
          biomes = biomes.items;
        }) }
    {
        Ok(Column {
            sections: sections_of_air(*biomes.allocator(), sections_of_column())?,
            biomes,
        })
    }

    /// Puts the 4,096 states of section `i` from the bottom, so many of which are not air. Where
    /// that number is 0 it looks at no state, and takes no memory.
    pub fn put_section(&mut self, i: u8, states: &[u16], filled: u16) -> Result<(), NoMemory>
        requires inside { i < 16 }
        requires sized { length states.now ≡ section_cells }
        requires counted { filled ≡ blocks_in states.now }
        ensures ok { OnOk result (self.new ≡ with_section self.old i states.now) }
        ensures err { OnErr result (self.new ≡ self.old) }
    {
        let section = SparseSection::from_states(*self.biomes.allocator(), states, filled)?;
        self.sections[usize::from(i)] = section;
        Ok(())
    }

    /// The state of a cell.
    pub fn get(&self, x: u8, y: u8, z: u8) -> u16
        requires x_inside { x < 16 }
        requires z_inside { z < 16 }
        ensures { result ≡ slice_index self.now.states (cell_index x y z) }
    {
        let section = &self.sections[section_at(y)];
        section.get(index_inside(x, y, z))
    }

    /// Puts a state into a cell and answers the one that was there. Only the first block of a
    /// section takes memory. Without memory the column is as before.
    pub fn set(&mut self, x: u8, y: u8, z: u8, state: u16) -> Result<u16, NoMemory>
        requires x_inside { x < 16 }
        requires z_inside { z < 16 }
        ensures old { IfOk result (λ old. old ≡ slice_index self.old.states (cell_index x y z)) }
        ensures new { OnOk result (self.new ≡ with_state self.old (cell_index x y z) state) }
        ensures err { OnErr result (self.new ≡ self.old) }
    {
        let alloc = *self.biomes.allocator();
        let section = &mut self.sections[section_at(y)];
        let old = section.set(alloc, index_inside(x, y, z), state)?;
        Ok(old)
    }

    /// The biome at a place.
    pub fn biome(&self, x: u8, z: u8) -> u8
        requires x_inside { x < 16 }
        requires z_inside { z < 16 }
        ensures { result ≡ slice_index self.now.biomes (square_index x z) }
    {
        self.biomes[usize::from(z) * 16 + usize::from(x)]
    }

    /// Section `i` from the bottom, unless all its cells are air.
    pub fn section(&self, i: u8) -> Option<&Section>
        requires { i < 16 }
        ensures none { IsNone result ↔ IsAir (section_of self.now.states i) }
        ensures some { IfSome result (λ section. section.now ≡ section_of self.now.states i) }
    {
        self.sections[usize::from(i)].section()
    }

    /// Puts the states of a body into the sections of its mask. A ground-up body makes the other
    /// sections air and sets the biomes. The body is one that was read for that mask and that
    /// `ground_up`. Without memory the column is as before.
    pub fn put(&mut self, body: &Body, mask: u16, ground_up: bool) -> Result<(), NoMemory>
        requires for_mask { body.now.mask ≡ mask }
        requires for_ground { body.now.ground_up ≡ ground_up }
        ensures ok { OnOk result (self.new ≡ put_body self.old body.now) }
        ensures err { OnErr result (self.new ≡ self.old) }
    {
        let mut made = made_all(*self.biomes.allocator(), body.blocks(), mask)?;
        lay_all(&mut self.sections, &mut made, mask, ground_up);
        put_biomes(&mut self.biomes, body.biomes(), ground_up);
        Ok(())
    }

    /// Appends the column's body with sky light and biomes, and answers its mask: the sections that
    /// are not all air, or the lowest alone where no cell has a block. Block light is 0, and sky
    /// light is 15 where a cell and all cells above it are air, else 0.
    pub fn write_body(&self, out: &mut Vec<u8>) -> Result<u16, NoMemory>
        ensures mask { IfOk result (λ mask. mask ≡ column_mask self.now) }
        ensures ok { OnOk result (out.new.items ≡ out.old.items ++ column_bytes self.now) }
        ensures err { OnErr result (out.new.items ≡ out.old.items) }

        // The mask and the bytes, said section by section and cell by cell.
        ensures names { IsColumnMask self.now (column_mask self.now) }
        ensures spelled { SpellsColumn self.now (column_mask self.now) (column_bytes self.now) }
        ensures sizes { HasSizes self.now }
    {
        let mask = sent_mask(&self.sections);
        out.reserve(body_size(mask, true, true))?;
        append_body(&self.sections, &self.biomes, mask, out);
        Ok(mask)
    }

    /// The mask that `write_body` answers.
    pub fn sent_mask(&self) -> u16
        ensures mask { result ≡ column_mask self.now }
        ensures sizes { HasSizes self.now }
    {
        sent_mask(&self.sections)
    }

    /// How many bytes `write_body` appends, where this is its mask.
    pub fn sent_size(&self, mask: u16) -> usize
        requires { mask ≡ column_mask self.now }
        ensures { result ≡ length (column_bytes self.now) }
    {
        // Only the prover needs this line: what the column is.
        let _ = &self.sections;
        body_size(mask, true, true)
    }

    /// An equal column.
    pub fn copy(&self) -> Result<Column, NoMemory>
        ensures equal { IfOk result (λ column. column ≡ self.now) }
        ensures sizes { HasSizes self.now }
    {
        Ok(Column {
            sections: copies_of(&self.sections)?,
            biomes: Vec::from_slice(*self.biomes.allocator(), self.biomes.as_slice())?,
        })
    }
}

/// The number of the section that a layer is in.
fn section_at(y: u8) -> usize
    ensures { result ≡ y / 16 }
{
    usize::from(y / 16)
}

/// The index of a cell in its section.
fn index_inside(x: u8, y: u8, z: u8) -> u16
    requires x_inside { x < 16 }
    requires z_inside { z < 16 }
    ensures value { result ≡ y % 16 * 256 + z * 16 + x }
    ensures inside { result < 4096 }
{
    u16::from(y % 16) * 256 + u16::from(z) * 16 + u16::from(x)
}

/// Takes the biomes of a body that is ground-up.
fn put_biomes(biomes: &mut Vec<u8>, new: &[u8], ground_up: bool)
    requires { IsTrue ground_up → length new.now ≡ length biomes.old.items }
    ensures { biomes.new.items ≡ (if ground_up then new.now else biomes.old.items) }
{
    if ground_up {
        biomes.copy_from_slice(new);
    }
}

/// So many bytes of one value.
fn copies(alloc: Global, n: usize, byte: u8) -> Result<Vec<u8>, NoMemory>
    ensures { IfOk result (λ bytes. bytes.items ≡ replicate n byte) }
{
    let mut bytes = Vec::new(alloc);
    bytes.resize(n, byte)?;
    Ok(bytes)
}

/// So many sections of air.
fn sections_of_air(alloc: Global, n: usize) -> Result<Vec<SparseSection>, NoMemory>
    ensures { IfOk result (λ sections. sections.items ≡ replicate n (replicate section_cells 0)) }
{
    let mut sections = Vec::with_capacity(alloc, n)?;
    for _ in 0..n {
        sections.push(SparseSection::air())?;
    }
    Ok(sections)
}

/// Equal sections.
fn copies_of(sections: &Vec<SparseSection>) -> Result<Vec<SparseSection>, NoMemory>
    ensures { IfOk result (λ copies. copies.items ≡ sections.now.items) }
{
    let mut copies = Vec::with_capacity(*sections.allocator(), sections.len())?;
    for section in sections {
        copies.push(section.copy()?)?;
    }
    Ok(copies)
}
