ghost use Rattle.std.specs.Prelude.{◌≡◌, ◌*◌, ◌<◌, ◌≤◌, ◌↔◌, Ok, IfOk, IsErrOf, length, take, drop};
ghost use Rattle.mc_bytes.specs.declared.fault.Kind.TheVariants.{Short, BadLength};
ghost use Rattle.mc_bytes.specs.declared.fault.ReadFault.TheVariants as faults;
ghost use Rattle.mc_bytes.specs.Placed.{PlacedGives, fault_at};
ghost use Rattle.mc_column.specs.Sizes.{light_bytes};
ghost use Rattle.mc_column.specs.Cells.{paired};
ghost use Rattle.mc_column.specs.Body as spec;

use crate::mask::rank;
use crate::sizes::sections_of_column;
use mc_bytes::{FieldFault, Kind, NoMemory, ReadFault};
use std::alloc::Global;
use std::marker::Model;

/// A chunk body that was read: the states of the sections in its mask, and biomes where it is
/// ground-up. Light is not kept.
#[derive(Drop)]
pub struct Body {
    mask: u16,
    ground_up: bool,
    /// The states as they came: two bytes each, the least significant first.
    blocks: Vec<u8>,
    biomes: Vec<u8>,
}

impl Model for Body {
    ghost use Rattle.mc_column.specs.Body.{BodyValue};

    ghost Value = { BodyValue };

    ghost use Rattle.mc_column.specs.KeptBody.{kept_body, IsKeptBody};

    ghost view = { λ body. kept_body body.mask body.ground_up body.blocks.items body.biomes.items };

    ghost invariant = { λ body. IsKeptBody body.mask body.ground_up body.blocks.items
        body.biomes.items };
}

impl Body {
    /// The states as they came, two bytes each.
    pub(crate) fn blocks(&self) -> &[u8]
        ensures states { paired result.now ≡ self.now.states }
        ensures len { length result.now ≡ spec.block_light_at self.now.mask }
    {
        self.blocks.as_slice()
    }

    /// The biomes, none where the body is not ground-up.
    pub(crate) fn biomes(&self) -> &[u8]
        ensures value { result.now ≡ self.now.biomes }
        ensures len { length result.now ≡ spec.biome_count self.now.ground_up }
    {
        self.biomes.as_slice()
    }
}

/// How many sections a mask names.
fn named_count(mask: u16) -> usize
    ensures value { result ≡ spec.named_count mask }
    ensures most { result ≤ 16 }
{
    rank(mask, sections_of_column())
}

/// How many bytes the states of the sections in a mask are.
pub(crate) fn block_bytes(mask: u16) -> usize
    ensures { result ≡ spec.block_light_at mask }
{
    named_count(mask) * 8192
}

/// How many bytes the block light of the sections in a mask is, and their sky light.
pub(crate) fn light_size(mask: u16) -> usize
    ensures { result ≡ spec.named_count mask * light_bytes }
{
    named_count(mask) * 2048
}

/// Where the biomes of a body begin.
fn biomes_at(mask: u16, sky: bool) -> usize
    ensures value { result ≡ spec.biomes_at mask sky }
    ensures most { result ≤ 196608 }
{
    let count = named_count(mask);
    if sky { count * 12288 } else { count * 10240 }
}

/// How many biomes a body has.
fn biome_count(ground_up: bool) -> usize
    ensures value { result ≡ spec.biome_count ground_up }
    ensures most { result ≤ 256 }
{
    if ground_up { 256 } else { 0 }
}

/// How many bytes a body has.
pub(crate) fn body_size(mask: u16, sky: bool, ground_up: bool) -> usize
    ensures { result ≡ spec.body_size mask sky ground_up }
{
    biomes_at(mask, sky) + biome_count(ground_up)
}

/// Reads a chunk body whose size must be exactly what its mask, the sky light and the biomes
/// make. `Short` at the length of the bytes where there are fewer, `BadLength` at that size where
/// there are more. Light may have any value and is not kept.
pub fn read_body(
    alloc: Global,
    bytes: &[u8],
    mask: u16,
    sky: bool,
    ground_up: bool,
) -> Result<Body, ReadFault>
    ensures found { IfOk result (λ body. spec.SpellsBody body mask sky ground_up bytes.now) }
    ensures only { (body : spec.BodyValue) → spec.SpellsBody body mask sky ground_up bytes.now →
        PlacedGives (λ body. body) result (Ok body) }
    ensures short { IsErrOf result (faults.Field (fault_at Short (length bytes.now))) ↔
        (length bytes.now < spec.body_size mask sky ground_up) }
    ensures long { IsErrOf result
        (faults.Field (fault_at BadLength (spec.body_size mask sky ground_up))) ↔
        (spec.body_size mask sky ground_up < length bytes.now) }
    ensures reads { PlacedGives (λ body. body) result
        (spec.body_read mask sky ground_up bytes.now) }
{
    read_exactly(alloc, bytes, mask, sky, ground_up)
}

/// Reads a body, as the function on lists that reading is says.
#[tactic(auto, unfolding(crate::specs::Body::body_read))]
fn read_exactly(
    alloc: Global,
    bytes: &[u8],
    mask: u16,
    sky: bool,
    ground_up: bool,
) -> Result<Body, ReadFault>
    ensures reads { PlacedGives (λ body. body) result
        (spec.body_read mask sky ground_up bytes.now) }
    ensures memory { IsErrOf result faults.NoMemory → length bytes.now ≡
        spec.body_size mask sky ground_up }
{
    let size = body_size(mask, sky, ground_up);
    if bytes.len() < size {
        return Err(ReadFault::Field(FieldFault {
            kind: Kind::Short,
            at: bytes.len(),
        }));
    }
    if size < bytes.len() {
        return Err(ReadFault::Field(FieldFault {
            kind: Kind::BadLength,
            at: size,
        }));
    }
    let blocks = copied(alloc, &bytes[..block_bytes(mask)])?;
    let biomes = copied(alloc, &bytes[biomes_at(mask, sky)..])?;
    Ok(Body {
        mask,
        ground_up,
        blocks,
        biomes,
    })
}

/// A copy of some bytes.
fn copied(alloc: Global, bytes: &[u8]) -> Result<Vec<u8>, NoMemory>
    ensures { IfOk result (λ copy. copy.items ≡ bytes.now) }
{
    Ok(Vec::from_slice(alloc, bytes)?)
}
