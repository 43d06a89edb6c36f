ghost use Rattle.std.specs.Prelude.{◌≡◌, true, IfOk};
ghost use Rattle.mc_status.specs.StatusText.{hex_line};

use mc_bytes::{NoMemory, Octets};
use std::alloc::Global;
use std::marker::Model;

/// The line of a frame, as it was made. Contracts see the frame.
#[derive(Drop)]
pub struct KeptLine {
    frame: Octets,
    /// The frame as a line of hex.
    line: Octets,
}

impl Model for KeptLine {
    ghost use Rattle.std.specs.Prelude.{◌≡◌, ℕ, List};
    ghost use Rattle.mc_status.specs.StatusText.{hex_line};

    ghost Value = { List ℕ };

    ghost view = { λ kept. kept.frame };

    ghost invariant = { λ kept. kept.line ≡ hex_line kept.frame };
}

impl KeptLine {
    /// Makes the line of a frame.
    pub fn new(alloc: Global, frame: &[u8]) -> Result<KeptLine, NoMemory>
        ensures { IfOk result (λ made. made ≡ frame.now) }
    {
        let mut line = hex::encode(alloc, frame)?.into_bytes();
        line.push(b'\n')?;
        Ok(KeptLine {
            frame: Octets::from_slice(alloc, frame)?,
            line: Octets::from_vec(line),
        })
    }

    /// Whether it is the line of this frame.
    pub fn is_of(&self, frame: &[u8]) -> bool
        ensures { result ≡ true → self.now ≡ frame.now }
    {
        self.frame.as_slice() == frame
    }

    /// The line.
    pub fn line(&self) -> &[u8]
        ensures { result.now ≡ hex_line self.now }
    {
        self.line.as_slice()
    }
}
