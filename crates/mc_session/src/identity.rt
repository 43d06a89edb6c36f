ghost use Rattle.std.specs.Prelude.{◌≡◌, ◌++◌, IfOk, codes};
ghost use Rattle.md5.specs.Md5.{md5};
ghost use Rattle.mc_model.specs.Names.{offline_uuid, uuid_text};

use mc_bytes::{NoMemory, Text};
use mc_model::Name;
use md5::{Digest, Md5};
use std::alloc::Global;
use uuid::{Builder, Uuid, Variant, Version};

/// The digest that the identifier of a player is made of.
fn digest(name: &[u8]) -> [u8; 16]
    ensures { result ≡ md5 (codes "OfflinePlayer:" ++ name.now) }
{
    let mut hasher = Md5::new();
    hasher.update("OfflinePlayer:".as_bytes());
    hasher.update(name);
    hasher.finalize()
}

/// The identifier of a player whose account nobody asked about.
#[tactic(auto, unfolding(mc_model::specs::Names::offline_uuid))]
pub fn offline_uuid(name: &Name) -> u128
    ensures { result ≡ offline_uuid name.now }
{
    let digest = digest(name.text().as_str().as_bytes());
    let marked = Builder::from_bytes(digest)
        .with_version(Version::Md5)
        .with_variant(Variant::RFC4122);
    marked.into_uuid().as_u128()
}

/// An identifier as a text, with hyphens.
#[tactic(auto, unfolding(mc_model::specs::Names::uuid_text))]
pub fn uuid_text(alloc: Global, uuid: u128) -> Result<Text, NoMemory>
    ensures { IfOk result (λ text. text ≡ uuid_text uuid) }
{
    let mut buffer = Uuid::encode_buffer();
    let hyphenated = Uuid::from_u128(uuid).hyphenated();
    let text = hyphenated.encode_lower(&mut buffer);
    Text::from_str(alloc, text)
}
