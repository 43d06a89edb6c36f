ghost use Rattle.std.specs.Prelude.{◌≡◌, ◌+◌, ◌*◌, ◌<◌, ◌≤◌, ◌++◌, ℕ, List, [], Bool, false, true};
ghost use Rattle.std.specs.Prelude.{IsTrue, length, drop, replicate, vec_len, vec_capacity};
ghost use Rattle.std.specs.Prelude.{if◌then◌else◌};
ghost use Rattle.mc_column.specs.Sizes.{light_bytes, row_bytes, section_cells, section_count};
ghost use Rattle.mc_column.specs.Cells.{IsAir, joined, picked, section_of, wire};
ghost use Rattle.mc_column.specs.Light.{section_sky, sky_bytes};
ghost use Rattle.mc_column.specs.Body.{block_light_at, body_size, is_named, named_count};
ghost use Rattle.mc_column.specs.KeptColumn.{nth_section, kept_column, IsKeptColumn};
ghost use Rattle.mc_column.specs.Sent.{body_bytes};

use crate::body::light_size;
use crate::light::full_light;
use crate::mask::{names, rank};
use crate::sizes::light_of_section;
use crate::sparse::SparseSection;

/// Appends bytes for which there is room.
pub(crate) fn append(out: &mut Vec<u8>, bytes: &[u8])
    requires { vec_len out.old + length bytes.now ≤ vec_capacity out.old }
    ensures items { out.new.items ≡ out.old.items ++ bytes.now }
    ensures room { vec_capacity out.old ≤ vec_capacity out.new }
{
    out.extend_from_slice(bytes).unwrap();
}

/// Appends bytes of 0 for which there is room.
pub(crate) fn append_zeros(out: &mut Vec<u8>, n: usize)
    requires { vec_len out.old + n ≤ vec_capacity out.old }
    ensures items { out.new.items ≡ out.old.items ++ replicate n 0 }
    ensures len { vec_len out.new ≡ vec_len out.old + n }
    ensures room { vec_capacity out.old ≤ vec_capacity out.new }
{
    let len = out.len() + n;
    out.resize(len, 0).unwrap();
}

/// Appends the states of a section that the mask names.
fn append_states(section: &SparseSection, named: bool, out: &mut Vec<u8>)
    requires { IsTrue named → vec_len out.old + 2 * section_cells ≤ vec_capacity out.old }
    ensures items { out.new.items ≡ out.old.items ++ wire (if named then section.now else []) }
    ensures room { vec_capacity out.old ≤ vec_capacity out.new }
{
    if named {
        section.append_to(out);
    }
}

/// Appends the states of the sections that the mask names, from the lowest up.
pub(crate) fn append_blocks(sections: &Vec<SparseSection>, mask: u16, out: &mut Vec<u8>)
    requires all_there { length sections.now.items ≡ section_count }
    requires sized { (i : ℕ) → i < section_count → length (nth_section sections.now.items i) ≡
        section_cells }
    requires room { vec_len out.old + block_light_at mask ≤ vec_capacity out.old }
    ensures items { out.new.items ≡ out.old.items ++
        wire (joined (picked (is_named mask) (nth_section sections.now.items)) section_count) }
    ensures len { vec_len out.new ≡ vec_len out.old + block_light_at mask }
    ensures room { vec_capacity out.old ≤ vec_capacity out.new }
{
    for i in 0..sections.len() {
        let section = &sections[i];
        append_states(section, names(mask, i), out);
    }
}

/// Makes the light above a section that of its lowest layer. Where the mask names the section, its
/// light is written at a place of the sky light; otherwise it is air and takes no light away.
fn shade_at(section: &SparseSection, named: bool, from: usize, light: &mut [u8], sky: &mut [u8])
    requires light_is { length light.old ≡ row_bytes }
    requires air { named ≡ false → IsAir section.now }
    requires room { IsTrue named → from + light_bytes ≤ length sky.old }
    ensures lowest { (states : List ℕ) (i : ℕ) → section.now ≡ section_of states i →
        light.old ≡ sky_bytes states (i * section_cells + section_cells) row_bytes →
        light.new ≡ sky_bytes states (i * section_cells) row_bytes }
    ensures written { (states : List ℕ) (i : ℕ) → section.now ≡ section_of states i →
        light.old ≡ sky_bytes states (i * section_cells + section_cells) row_bytes → IsTrue named →
        drop from sky.new ≡ section_sky states i ++ drop (from + light_bytes) sky.old }
    ensures left_out { named ≡ false → sky.new ≡ sky.old }
{
    if named {
        let size = light_of_section();
        section.shade(light, &mut sky[from..from + size]);
    }
}

/// Writes the sky light of the sections that the mask names, from the lowest up. It goes down from
/// the top, with the light of one layer.
fn write_sky(sections: &Vec<SparseSection>, mask: u16, sky: &mut [u8])
    requires all_there { length sections.now.items ≡ section_count }
    requires sized { (i : ℕ) → i < section_count → length (nth_section sections.now.items i) ≡
        section_cells }
    requires air { (i : ℕ) → i < section_count → is_named mask i ≡ false →
        IsAir (nth_section sections.now.items i) }
    requires room { length sky.old ≡ named_count mask * light_bytes }
    ensures { sky.new ≡
        joined (picked (is_named mask) (section_sky (joined (nth_section sections.now.items)
        section_count))) section_count }
{
    let mut light = full_light();
    for i in (0..sections.len()).rev() {
        let section = &sections[i];
        let from = rank(mask, i) * light_of_section();
        shade_at(section, names(mask, i), from, &mut light, sky);
    }
}

/// Appends the sky light of the sections that the mask names.
pub(crate) fn append_sky(sections: &Vec<SparseSection>, mask: u16, light: usize, out: &mut Vec<u8>)
    requires all_there { length sections.now.items ≡ section_count }
    requires sized { (i : ℕ) → i < section_count → length (nth_section sections.now.items i) ≡
        section_cells }
    requires air { (i : ℕ) → i < section_count → is_named mask i ≡ false →
        IsAir (nth_section sections.now.items i) }
    requires light_is { light ≡ named_count mask * light_bytes }
    requires room { vec_len out.old + light ≤ vec_capacity out.old }
    ensures items { out.new.items ≡ out.old.items ++
        joined (picked (is_named mask) (section_sky (joined (nth_section sections.now.items)
        section_count))) section_count }
    ensures len { vec_len out.new ≡ vec_len out.old + light }
    ensures room { vec_capacity out.old ≤ vec_capacity out.new }
{
    let from = out.len();
    append_zeros(out, light);
    write_sky(sections, mask, &mut out[from..]);
}

/// Appends a body with sky light and biomes for a mask, for which there is room.
#[tactic(auto, unfolding(crate::specs::Sent::body_bytes))]
pub(crate) fn append_body(
    sections: &Vec<SparseSection>,
    biomes: &[u8],
    mask: u16,
    out: &mut Vec<u8>,
)
    requires kept { IsKeptColumn sections.now.items biomes.now }
    requires air { (i : ℕ) → i < section_count → is_named mask i ≡ false →
        IsAir (nth_section sections.now.items i) }
    requires room { vec_len out.old + body_size mask true true ≤ vec_capacity out.old }
    ensures { out.new.items ≡ out.old.items ++
        body_bytes (kept_column sections.now.items biomes.now) mask }
{
    let light = light_size(mask);
    append_blocks(sections, mask, out);
    append_zeros(out, light);
    append_sky(sections, mask, light, out);
    append(out, biomes);
}
