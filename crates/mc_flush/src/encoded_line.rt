//! What was said, as all clients are told it.

ghost use Rattle.std.specs.Prelude.{◌≡◌, ◌++◌, IfOk, OnOk, true};
ghost use Rattle.mc_flush.specs.LineFrames.{IsLine, all_frames, framed, line_bytes, texts_of};

use bytes::Bytes;
use mc_bytes::{NoMemory, Text};
use mc_packets::Down;
use mc_sending::put_made;
use std::alloc::Global;

/// What was said, and the frame that tells it to a client.
#[derive(Drop)]
pub struct EncodedLine {
    /// The text.
    pub text: Text,
    /// The frame.
    pub frame: Bytes,
}

impl EncodedLine {
    /// Encodes a text.
    pub fn of(alloc: Global, text: &Text) -> Result<EncodedLine, NoMemory>
        requires { IsLine text.now }
        ensures { IfOk result (λ line. line ≡ framed text.now) }
    {
        let mut bytes = Vec::new(alloc);
        put_line(text, &mut bytes)?;
        Ok(EncodedLine {
            text: text.copy()?,
            frame: Bytes::from_vec(bytes)?,
        })
    }

    /// Whether this is its text.
    pub fn has(&self, text: &Text) -> bool
        ensures { result ≡ true → self.now.text ≡ text.now }
    {
        self.text.as_str() == text.as_str()
    }
}

/// Appends the frame that tells a text.
pub fn put_line(text: &Text, out: &mut Vec<u8>) -> Result<(), NoMemory>
    requires { IsLine text.now }
    ensures { OnOk result (out.new.items ≡ out.old.items ++ line_bytes text.now) }
{
    put_made(Down::Chat(text.copy()?, 0), out)
}

/// The frames of lines, one behind the other, as one piece.
pub fn joined_frames(alloc: Global, lines: &[EncodedLine]) -> Result<Bytes, NoMemory>
    ensures { IfOk result (λ piece. piece ≡ all_frames lines.now) }
{
    let mut bytes = Vec::new(alloc);
    for line in lines {
        bytes.extend_from_slice(line.frame.as_slice())?;
    }
    Ok(Bytes::from_vec(bytes)?)
}

/// Whether lines have these texts, no other and in this order.
pub fn have_texts(lines: &[EncodedLine], texts: &[Text]) -> bool
    ensures { result ≡ true → texts_of lines.now ≡ texts.now }
{
    let mut rest = texts;
    for line in lines {
        let Some((text, later)) = rest.split_first() else {
            return false;
        };
        if !line.has(text) {
            return false;
        }
        rest = later;
    }
    rest.is_empty()
}
