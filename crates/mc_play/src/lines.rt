ghost use Rattle.std.specs.Prelude.{◌≡◌, ◌≤◌, ◌++◌, ◌∷◌, [], IfOk, OnErr, OnOk, length};
ghost use Rattle.std.specs.List.{AllByRecursion};
ghost use Rattle.mc_model.specs.Chat.{line_of};
ghost use Rattle.mc_play.specs.Kept.{IsClearLine};

mod fields;

use mc_bytes::{NoMemory, Text};
use mc_model::Name;
use mc_session::chat_json;
use std::alloc::Global;
use std::marker::Model;

/// What was said since the last tick, as all are shown it: texts that packets can carry, in the
/// order in which they were said.
#[derive(Drop)]
pub struct Lines {
    texts: Vec<Text>,
}

impl Model for Lines {
    ghost use Rattle.std.specs.Prelude.{List, ℕ};
    ghost use Rattle.std.specs.List.{AllByRecursion};
    ghost use Rattle.mc_play.specs.Kept.{IsClearLine};

    ghost Value = { List (List ℕ) };

    ghost view = { λ lines. lines.texts.items };

    ghost invariant = { λ lines. AllByRecursion IsClearLine lines.texts.items };
}

/// What a player of a name says, as all are shown it.
fn line_by(alloc: Global, name: &Name, text: &Text) -> Result<Text, NoMemory>
    requires { length text.now ≤ 400 }
    ensures is { IfOk result (λ line. line ≡ line_of name.now text.now) }
    ensures clear { IfOk result IsClearLine }
{
    let name = name.text().as_str();
    let text = text.as_str();
    let said = format!(in alloc; "<{name}> {text}")?;
    let json = chat_json(alloc, said.as_str())?;
    Ok(json)
}

impl Lines {
    /// Nothing was said.
    pub fn new(alloc: Global) -> Lines
        ensures { result ≡ [] }
    {
        Lines {
            texts: Vec::new(alloc),
        }
    }

    /// How many there are.
    pub fn len(&self) -> usize
        ensures { result ≡ length self.now }
    {
        self.texts.len()
    }

    /// Adds what a player of a name says behind all others. Without memory all is as before.
    pub fn add(&mut self, alloc: Global, name: &Name, text: &Text) -> Result<(), NoMemory>
        requires { length text.now ≤ 400 }
        ensures ok { OnOk result (self.new ≡ self.old ++ (line_of name.now text.now ∷ [])) }
        ensures err { OnErr result (self.new ≡ self.old) }
    {
        let line = line_by(alloc, name, text)?;
        self.texts.push(line)?;
        Ok(())
    }

    /// Lets all of them go.
    pub fn clear(&mut self)
        ensures { self.new ≡ [] }
    {
        self.texts.clear();
    }

    /// The texts.
    pub fn as_slice(&self) -> &[Text]
        ensures is { result.now ≡ self.now }
        ensures clear { AllByRecursion IsClearLine self.now }
    {
        self.texts.as_slice()
    }
}
