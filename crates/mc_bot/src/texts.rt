ghost use Rattle.std.specs.Prelude.{◌≡◌, length};
ghost use Rattle.std.specs.Str.{chars};
ghost use Rattle.mc_bot.specs.ScriptRead.{IsRead};
ghost use Rattle.mc_bot.specs.Words.{text_said};

use crate::ScriptKind;
use crate::act::Unread;
use mc_bytes::Text;
use std::alloc::Global;

/// How many code points a text has.
#[tactic(auto, using(std::proofs::lemmas::Str::chars_from_encodes))]
fn code_points(text: &str) -> usize
    ensures { result ≡ length (chars text.now) }
{
    text.chars().count()
}

/// Bytes as a text of 1 to `most` code points.
pub fn text_to(alloc: Global, bytes: &[u8], most: usize) -> Result<Text, Unread>
    ensures { IsRead (text_said most bytes.now) result }
{
    let Ok(text) = str::from_utf8(bytes) else {
        return Err(Unread::Fault(ScriptKind::Word));
    };
    let points = code_points(text);
    if points == 0 || points > most {
        return Err(Unread::Fault(ScriptKind::Word));
    }
    Ok(Text::from_str(alloc, text)?)
}
