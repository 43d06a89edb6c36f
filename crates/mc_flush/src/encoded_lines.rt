ghost use Rattle.std.specs.Prelude.{◌≡◌, ◌++◌, ◌∷◌, [], IfOk, IfSome, OnErr, OnOk};
ghost use Rattle.std.specs.List.{AllByRecursion};
ghost use Rattle.std.specs.Option.{option_copied};
ghost use Rattle.mc_frame.specs.Kept.{joined};
ghost use Rattle.mc_sending.specs.Sending.{play_bytes};
ghost use Rattle.mc_flush.specs.LineFrames.{AreLines, IsLine, framed, line_bytes, with_texts};
ghost use Rattle.mc_flush.specs.Seeing.{line_packets};

mod fields;

use crate::encoded_line::{EncodedLine, have_texts, joined_frames, put_line};
use bytes::Bytes;
use mc_bytes::{NoMemory, Text};
use mc_loads::push_piece;
use std::alloc::Global;
use std::marker::Model;

/// What was said since the last tick, each text encoded once for all clients, in the order in which
/// they were said.
#[derive(Drop)]
pub struct EncodedLines {
    /// Each text with its frame. Contracts see these.
    lines: Vec<EncodedLine>,
    /// The frames of all of them, once they were joined.
    piece: Option<Bytes>,
}

impl Model for EncodedLines {
    ghost use Rattle.std.specs.Prelude.{◌≡◌, List, IfSome};
    ghost use Rattle.mc_flush.specs.declared.encoded_line.EncodedLine.{EncodedLine};
    ghost use Rattle.mc_flush.specs.LineFrames.{all_frames, coded_lines};

    ghost Value = { List EncodedLine };

    ghost coded = { coded_lines };

    ghost view = { λ all. all.lines.items };

    ghost invariant = { λ all. IfSome all.piece (λ piece. piece ≡ all_frames all.lines.items) };
}

impl EncodedLines {
    /// Nothing was said.
    pub fn new(alloc: Global) -> EncodedLines
        ensures { result ≡ [] }
    {
        EncodedLines {
            lines: Vec::new(alloc),
            piece: None,
        }
    }

    /// Adds a text and its frame behind all others. Without memory all is as before.
    fn add_line(&mut self, alloc: Global, text: &Text) -> Result<(), NoMemory>
        requires { IsLine text.now }
        ensures ok { OnOk result (self.new ≡ self.old ++ (framed text.now ∷ [])) }
        ensures err { OnErr result (self.new ≡ self.old) }
    {
        let line = EncodedLine::of(alloc, text)?;
        self.piece = None;
        self.lines.push(line)?;
        Ok(())
    }

    /// Joins the frames of all texts, if there are any.
    fn join(&mut self, alloc: Global) -> Result<(), NoMemory>
        ensures { self.new ≡ self.old }
    {
        if self.lines.is_empty() {
            return Ok(());
        }
        self.piece = Some(joined_frames(alloc, self.lines.as_slice())?);
        Ok(())
    }

    /// Adds texts and their frames behind all others. Without memory they are some of them.
    pub fn add_lines(&mut self, alloc: Global, texts: &[Text]) -> Result<(), NoMemory>
        requires { AllByRecursion IsLine texts.now }
        ensures ok { OnOk result (self.new ≡ with_texts self.old texts.now) }
        ensures frames { AreLines self.old → AreLines self.new }
    {
        for text in texts {
            self.add_line(alloc, text)?;
        }
        self.join(alloc)
    }

    /// The frame of the text that stands so many places before the end, None where that is another
    /// text or none.
    fn frame(&self, text: &Text, back: usize) -> Option<&Bytes>
        ensures { AreLines self.now →
            IfSome (option_copied result) (λ frame. frame ≡ line_bytes text.now) }
    {
        let at = self.lines.len().checked_sub(back)?;
        let line = self.lines.as_slice().get(at)?;
        if line.text.as_str() == text.as_str() {
            Some(&line.frame)
        } else {
            None
        }
    }

    /// Appends the frame of a text. It was encoded where that stands so many places before the end.
    fn put_line(&self, text: &Text, back: usize, out: &mut Vec<u8>) -> Result<(), NoMemory>
        requires clear { IsLine text.now }
        requires frames { AreLines self.now }
        ensures { OnOk result (out.new.items ≡ out.old.items ++ line_bytes text.now) }
    {
        match self.frame(text, back) {
            Some(frame) => Ok(out.extend_from_slice(frame.as_slice())?),
            None => put_line(text, out),
        }
    }

    /// Appends the frames of texts, one behind the other.
    fn put_lines(&self, texts: &[Text], out: &mut Vec<u8>) -> Result<(), NoMemory>
        requires clear { AllByRecursion IsLine texts.now }
        requires frames { AreLines self.now }
        ensures { OnOk result (out.new.items
            ≡ out.old.items ++ play_bytes (line_packets texts.now)) }
    {
        for i in 0..texts.len() {
            self.put_line(&texts[i], texts.len() - i, out)?;
        }
        Ok(())
    }

    /// The frames of texts as one piece, where they are all that was encoded.
    fn whole(&self, texts: &[Text]) -> Option<&Bytes>
        ensures { AreLines self.now → IfSome (option_copied result)
            (λ piece. piece ≡ play_bytes (line_packets texts.now)) }
    {
        if !have_texts(self.lines.as_slice(), texts) {
            return None;
        }
        self.piece.as_ref()
    }

    /// Appends the frames of texts, as one piece. It is shared where they are all that was encoded;
    /// those of them that end what was encoded are not encoded again.
    pub fn push_lines(
        &self,
        alloc: Global,
        texts: &[Text],
        out: &mut Vec<Bytes>,
    ) -> Result<(), NoMemory>
        requires clear { AllByRecursion IsLine texts.now }
        requires frames { AreLines self.now }
        ensures { OnOk result (joined out.new.items
            ≡ joined out.old.items ++ play_bytes (line_packets texts.now)) }
    {
        if texts.is_empty() {
            return Ok(());
        }
        if let Some(piece) = self.whole(texts) {
            return push_piece(piece.clone()?, out);
        }
        let mut bytes = Vec::new(alloc);
        self.put_lines(texts, &mut bytes)?;
        push_piece(Bytes::from_vec(bytes)?, out)
    }
}
