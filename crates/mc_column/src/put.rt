ghost use Rattle.std.specs.Prelude.{◌≡◌, ◌*◌, ◌<◌, ◌||◌, ℕ, [], true, IsTrue, IfOk, length};
ghost use Rattle.std.specs.Prelude.{if◌then◌else◌};
ghost use Rattle.mc_column.specs.Sizes.{section_cells, section_count};
ghost use Rattle.mc_column.specs.Cells.{paired, section_of};
ghost use Rattle.mc_column.specs.Cells as cells;
ghost use Rattle.mc_column.specs.Body.{block_light_at, is_named, put_section};
ghost use Rattle.mc_column.specs.KeptColumn.{nth_section};

use crate::mask::{names, rank};
use crate::sizes::{bytes_of_section, sections_of_column};
use crate::sparse::SparseSection;
use mc_bytes::NoMemory;
use std::alloc::Global;
use std::mem::swap;

/// The bytes of the section `i` that the mask names.
fn piece(blocks: &[u8], mask: u16, i: usize) -> &[u8]
    requires inside { i < section_count }
    requires whole { length blocks.now ≡ block_light_at mask }
    requires named { IsTrue (is_named mask i) }
    ensures len { length result.now ≡ 2 * section_cells }
    ensures states { paired result.now ≡ section_of (paired blocks.now) (cells.rank (is_named mask)
        i) }
{
    let size = bytes_of_section();
    let from = rank(mask, i) * size;
    &blocks[from..from + size]
}

/// Section `i` of a body where the mask names it, else air.
fn made(alloc: Global, blocks: &[u8], mask: u16, i: usize) -> Result<SparseSection, NoMemory>
    requires inside { i < section_count }
    requires whole { length blocks.now ≡ block_light_at mask }
    ensures { IfOk result (λ section. section ≡ put_section mask true (paired blocks.now) i []) }
{
    if names(mask, i) {
        SparseSection::from_bytes(alloc, piece(blocks, mask, i))
    } else {
        Ok(SparseSection::air())
    }
}

/// The sections of a body, air where the mask names none.
pub(crate) fn made_all(
    alloc: Global,
    blocks: &[u8],
    mask: u16,
) -> Result<Vec<SparseSection>, NoMemory>
    requires whole { length blocks.now ≡ block_light_at mask }
    ensures len { IfOk result (λ sections. length sections.items ≡ section_count) }
    ensures each { IfOk result (λ sections. (k : ℕ) → k < section_count →
        nth_section sections.items k ≡ put_section mask true (paired blocks.now) k []) }
{
    let count = sections_of_column();
    let mut sections = Vec::with_capacity(alloc, count)?;
    for i in 0..count {
        sections.push(made(alloc, blocks, mask, i)?)?;
    }
    Ok(sections)
}

/// Whether a body puts section `i`: its mask names it, or it puts all.
fn is_put(mask: u16, i: usize, ground_up: bool) -> bool
    requires { i < section_count }
    ensures { result ≡ (ground_up || is_named mask i) }
{
    ground_up || names(mask, i)
}

/// Exchanges two sections where that is asked for.
fn swap_if(section: &mut SparseSection, made: &mut SparseSection, puts: bool)
    ensures { section.new ≡ (if puts then made.old else section.old) }
{
    if puts {
        swap(section, made);
    }
}

/// Puts the sections that were made for a body into a column's: those that the mask names, and with
/// `ground_up` all. It takes no memory.
pub(crate) fn lay_all(
    sections: &mut Vec<SparseSection>,
    made: &mut Vec<SparseSection>,
    mask: u16,
    ground_up: bool,
)
    requires all_there { length sections.old.items ≡ section_count }
    requires all_made { length made.old.items ≡ section_count }
    ensures len { length sections.new.items ≡ section_count }
    ensures each { (k : ℕ) → k < section_count → nth_section sections.new.items k ≡
        (if ground_up || is_named mask k then nth_section made.old.items k else
        nth_section sections.old.items k) }
{
    for i in 0..sections.len() {
        swap_if(&mut sections[i], &mut made[i], is_put(mask, i, ground_up));
    }
}
