ghost use Rattle.std.specs.Prelude.{◌≡◌, ◌∷◌, MatchOption, true, false, drop};
ghost use Rattle.mc_text.specs.Words.{number_of, words_of};
ghost use Rattle.mc_bot.specs.declared.act.Act.TheVariants as acts;
ghost use Rattle.mc_bot.specs.ScriptRead.{IsRead};
ghost use Rattle.mc_bot.specs.Words.{byte_of, by_one, by_three, by_two, cell_of, five_words};
ghost use Rattle.mc_bot.specs.Words.{four_words, int_of, is_saying, join_said, line_said, numbered};
ghost use Rattle.mc_bot.specs.Words.{one_word, say_said, short_of, state_of, three_words, turn_of};
ghost use Rattle.mc_bot.specs.Words.{two_words, words_said};

use crate::ScriptKind;
use crate::act::{Act, Said, Unread};
use crate::numbers::{byte, cell, int, short, state, turn};
use crate::texts::text_to;
use mc_fields::Cell;
use mc_text::{cut_word, is_text, number};
use std::alloc::Global;

// ---- what is done with numbers

/// The views that are asked for.
fn view(n: &[u8]) -> Option<Act>
    ensures { result ≡ by_one (byte_of n.now) acts.View }
{
    Some(Act::View(byte(n)?))
}

/// The slot of the hotbar that is held.
fn held(n: &[u8]) -> Option<Act>
    ensures { result ≡ by_one (short_of n.now) acts.Held }
{
    Some(Act::Held(short(n)?))
}

/// How many packets are waited for.
fn wait(n: &[u8]) -> Option<Act>
    ensures { result ≡ by_one (number_of 1 1000000000 n.now) acts.Wait }
{
    Some(Act::Wait(number(n, 1, 1_000_000_000)?))
}

/// Where the player looks.
fn look(yaw: &[u8], pitch: &[u8]) -> Option<Act>
    ensures { result ≡ by_two (turn_of yaw.now) (turn_of pitch.now) acts.Look }
{
    Some(Act::Look(turn(yaw)?, turn(pitch)?))
}

/// Where the player moves.
fn move_to(x: &[u8], y: &[u8], z: &[u8]) -> Option<Act>
    ensures { result ≡ by_three (int_of x.now) (int_of y.now) (int_of z.now) acts.Move }
{
    Some(Act::Move(int(x)?, int(y)?, int(z)?))
}

/// The slot that is clicked, with a button, in a mode.
fn click(slot: &[u8], button: &[u8], mode: &[u8]) -> Option<Act>
    ensures { result ≡
        by_three (short_of slot.now) (byte_of button.now) (byte_of mode.now) acts.Click }
{
    Some(Act::Click(short(slot)?, byte(button)?, byte(mode)?))
}

/// The cell that is dug, from a face.
fn dig(place: Option<Cell>, face: &[u8]) -> Option<Act>
    ensures { result ≡ by_two place (byte_of face.now) acts.Dig }
{
    Some(Act::Dig(place?, byte(face)?))
}

/// The cell and the face that something is placed at.
fn put_at(place: Option<Cell>, face: &[u8]) -> Option<Act>
    ensures { result ≡ by_two place (byte_of face.now) acts.Place }
{
    Some(Act::Place(place?, byte(face)?))
}

/// The cell that is waited for, and its state.
fn until(place: Option<Cell>, n: &[u8]) -> Option<Act>
    ensures { result ≡ by_two place (state_of n.now) acts.Until }
{
    Some(Act::Until(place?, state(n)?))
}

/// The cell that is compared, and its state.
fn expect(place: Option<Cell>, n: &[u8]) -> Option<Act>
    ensures { result ≡ by_two place (state_of n.now) acts.Expect }
{
    Some(Act::Expect(place?, state(n)?))
}

// ---- lines by their words

/// The name that joins.
fn join(alloc: Global, name: &[u8]) -> Result<Said, Unread>
    ensures { IsRead (join_said name.now) result }
{
    Ok(Said::Join(text_to(alloc, name, 16)?))
}

/// The text that is said.
fn say(alloc: Global, text: &[u8]) -> Result<Said, Unread>
    ensures { IsRead (say_said text.now) result }
{
    Ok(Said::Does(Act::Say(text_to(alloc, text, 100)?)))
}

/// What is done with numbers, where all are such.
fn numbered(act: Option<Act>) -> Result<Said, Unread>
    ensures { IsRead (numbered act) result }
{
    match act {
        Some(act) => Ok(Said::Does(act)),
        None => Err(Unread::Fault(ScriptKind::Number)),
    }
}

/// What a line of one word says.
fn one_word(verb: &[u8]) -> Result<Said, Unread>
    ensures { IsRead (one_word verb.now) result }
{
    if verb == b"drop".as_slice() {
        Ok(Said::Does(Act::Drop))
    } else if verb == b"dropall".as_slice() {
        Ok(Said::Does(Act::DropAll))
    } else if verb == b"close".as_slice() {
        Ok(Said::Does(Act::Close))
    } else if verb == b"leave".as_slice() {
        Ok(Said::Does(Act::Leave))
    } else {
        Err(Unread::Fault(ScriptKind::Word))
    }
}

/// What a line of two words says.
fn two_words(alloc: Global, verb: &[u8], a: &[u8]) -> Result<Said, Unread>
    ensures { IsRead (two_words verb.now a.now) result }
{
    if verb == b"join".as_slice() {
        join(alloc, a)
    } else if verb == b"view".as_slice() {
        numbered(view(a))
    } else if verb == b"held".as_slice() {
        numbered(held(a))
    } else if verb == b"wait".as_slice() {
        numbered(wait(a))
    } else {
        Err(Unread::Fault(ScriptKind::Word))
    }
}

/// What a line of three words says.
fn three_words(verb: &[u8], a: &[u8], b: &[u8]) -> Result<Said, Unread>
    ensures { IsRead (three_words verb.now a.now b.now) result }
{
    if verb == b"look".as_slice() {
        numbered(look(a, b))
    } else {
        Err(Unread::Fault(ScriptKind::Word))
    }
}

/// What a line of four words says.
fn four_words(verb: &[u8], a: &[u8], b: &[u8], c: &[u8]) -> Result<Said, Unread>
    ensures { IsRead (four_words verb.now a.now b.now c.now) result }
{
    if verb == b"move".as_slice() {
        numbered(move_to(a, b, c))
    } else if verb == b"click".as_slice() {
        numbered(click(a, b, c))
    } else {
        Err(Unread::Fault(ScriptKind::Word))
    }
}

/// What a line of five words says, three of which are a cell's place.
fn five_words(verb: &[u8], place: Option<Cell>, n: &[u8]) -> Result<Said, Unread>
    ensures { IsRead (five_words verb.now place n.now) result }
{
    if verb == b"dig".as_slice() {
        numbered(dig(place, n))
    } else if verb == b"place".as_slice() {
        numbered(put_at(place, n))
    } else if verb == b"until".as_slice() {
        numbered(until(place, n))
    } else if verb == b"expect".as_slice() {
        numbered(expect(place, n))
    } else {
        Err(Unread::Fault(ScriptKind::Word))
    }
}

/// What a line says by its words.
fn words_said(alloc: Global, line: &[u8]) -> Result<Said, Unread>
    ensures { IsRead (words_said (words_of line.now)) result }
{
    let (verb, rest) = cut_word(line);
    let Some(more) = rest else {
        return one_word(verb);
    };
    let (a, rest) = cut_word(more);
    match rest {
        Some(more) => more_said(verb, a, more),
        None => two_words(alloc, verb, a),
    }
}

/// What a line says by its first two words and what follows them.
fn more_said(verb: &[u8], a: &[u8], more: &[u8]) -> Result<Said, Unread>
    ensures { IsRead (words_said (verb.now ∷ a.now ∷ words_of more.now)) result }
{
    let (b, rest) = cut_word(more);
    let Some(more) = rest else {
        return three_words(verb, a, b);
    };
    let (c, rest) = cut_word(more);
    match rest {
        Some(more) => last_said(verb, a, b, c, more),
        None => four_words(verb, a, b, c),
    }
}

/// What a line says by its first four words and what follows them.
fn last_said(verb: &[u8], a: &[u8], b: &[u8], c: &[u8], more: &[u8]) -> Result<Said, Unread>
    ensures { IsRead (words_said
        (verb.now ∷ a.now ∷ b.now ∷ c.now ∷ words_of more.now)) result }
{
    let (d, rest) = cut_word(more);
    if rest.is_some() {
        return Err(Unread::Fault(ScriptKind::Word));
    }
    five_words(verb, cell(a, b, c), d)
}

/// The text that a line says, where it says one.
fn saying(line: &[u8]) -> Option<&[u8]>
    ensures { MatchOption result (is_saying line.now ≡ false)
        (λ text. (is_saying line.now ≡ true) × (text.now ≡ drop 4 line.now)) }
{
    line.strip_prefix(b"say ".as_slice())
}

/// What a line says.
#[tactic(auto, unfolding(crate::specs::Words::line_said))]
pub fn line_said(alloc: Global, line: &[u8]) -> Result<Said, Unread>
    ensures { IsRead (line_said line.now) result }
{
    if !is_text(line) {
        return Err(Unread::Fault(ScriptKind::Word));
    }
    match saying(line) {
        Some(text) => say(alloc, text),
        None => words_said(alloc, line),
    }
}
