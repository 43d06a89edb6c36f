ghost use Rattle.std.specs.Prelude.{◌≡◌, ◌<◌, ◌≤◌, length};
ghost use Rattle.mc_column.specs.Sizes.{section_count};
ghost use Rattle.mc_column.specs.Cells as cells;
ghost use Rattle.mc_column.specs.Body.{is_named};
ghost use Rattle.mc_column.specs.KeptColumn.{nth_section};
ghost use Rattle.mc_column.specs.Sent.{bits, has_block, with_one};

use crate::sparse::SparseSection;

/// Whether the mask names section `i`: bit `i` is set.
#[inline(always)]
pub(crate) fn names(mask: u16, i: usize) -> bool
    requires { i < section_count }
    ensures { result ≡ is_named mask i }
{
    (mask >> i) % 2 == 1
}

/// How many sections below section `n` the mask names.
pub(crate) fn rank(mask: u16, n: usize) -> usize
    requires { n ≤ section_count }
    ensures value { result ≡ cells.rank (is_named mask) n }
    ensures most { result ≤ n }
{
    let mut count = 0;
    for i in 0..n {
        count += usize::from(names(mask, i));
    }
    count
}

/// The mask of the sections that are not all air: bit `i` for section `i`.
fn filled_mask(sections: &Vec<SparseSection>) -> u16
    requires { length sections.now.items ≡ section_count }
    ensures { result ≡ bits (λ i. has_block (nth_section sections.now.items i)) 0 section_count }
{
    let mut mask = 0;
    for i in (0..sections.len()).rev() {
        let section = &sections[i];
        mask = mask * 2 + u16::from(!section.is_air());
    }
    mask
}

/// The mask that a column with these sections is sent with: a column with no block names its
/// lowest section, since a ground-up body for mask 0 would be an unload.
pub(crate) fn sent_mask(sections: &Vec<SparseSection>) -> u16
    requires { length sections.now.items ≡ section_count }
    ensures { result ≡ with_one (bits (λ i. has_block (nth_section sections.now.items i)) 0
        section_count) }
{
    let mask = filled_mask(sections);
    if mask == 0 { 1 } else { mask }
}
