ghost use Rattle.std.specs.Prelude.{◌≡◌, false, Ok, None, Some, IfOk, IsTrue};
ghost use Rattle.std.specs.List.{list_all};
ghost use Rattle.mc_model.specs.Names.{is_name, is_name_byte};

use mc_bytes::{NoMemory, Text};
use std::alloc::Global;
use std::marker::Model;

/// A player's name: 1 to 16 letters from A to Z and a to z, digits and `_`.
#[derive(Drop)]
pub struct Name {
    text: Text,
}

impl Model for Name {
    ghost use Rattle.std.specs.Prelude.{List, ℕ, IsTrue};
    ghost use Rattle.std.specs.List.{list_all};
    ghost use Rattle.mc_model.specs.Names.{is_name};

    ghost Value = { List ℕ };

    ghost view = { λ name. name.text };

    ghost invariant = { λ name. IsTrue (is_name name.text) };
}

/// Whether a name may have this byte.
fn is_name_byte(byte: u8) -> bool
    ensures { result ≡ is_name_byte byte }
{
    byte.is_ascii_alphanumeric() || byte == b'_'
}

/// Whether each byte is one that a name may have.
fn are_name_bytes(text: &[u8]) -> bool
    ensures { result ≡ list_all is_name_byte text.now }
{
    text.iter().all(|byte| is_name_byte(*byte))
}

/// Whether a text is a name.
#[tactic(auto, unfolding(crate::specs::Names::is_name))]
fn is_name(text: &[u8]) -> bool
    ensures { result ≡ is_name text.now }
{
    if text.is_empty() {
        return false;
    }
    if text.len() > 16 {
        return false;
    }
    are_name_bytes(text)
}

impl Name {
    /// The name that a text is, None exactly where it is none.
    pub fn read(alloc: Global, text: &Text) -> Result<Option<Name>, NoMemory>
        ensures none { is_name text.now ≡ false → result ≡ Ok None }
        ensures some { IsTrue (is_name text.now) → IfOk result (λ name. name ≡ Some text.now) }
    {
        if !is_name(text.as_str().as_bytes()) {
            return Ok(None);
        }
        Ok(Some(Name {
            text: Text::from_str(alloc, text.as_str())?,
        }))
    }

    /// The text that was read.
    pub fn text(&self) -> &Text
        ensures value { result.now ≡ self.now }
        ensures name { IsTrue (is_name self.now) }
    {
        &self.text
    }
}
