ghost use Rattle.std.specs.Prelude.{◌≡◌, List, ℕ, IfOk, string_bytes};
ghost use Rattle.mc_model.specs.Names.{uuid_text};
ghost use Rattle.mc_replica.specs.Dump.{kind_word, pile_words, place_words, spot_words};
ghost use Rattle.mc_replica.specs.Dump.{stack_words};
ghost use Rattle.mc_replica.specs.Dump.{text_of, times_lines, told_number};

use crate::counting::blocks_in;
use crate::places::Place;
use crate::player_list::Listed;
use crate::seen::Seen;
use mc_bytes::{NoMemory, Text};
use mc_column::Column;
use mc_fields::Spot;
use mc_model::SeenKind;
use mc_slots::{Slot, Stack};
use std::alloc::Global;
use uuid::Uuid;

/// What a dump has a line for.
pub(crate) trait Dumped {
    // Its line, without its end.
    ghost line: { Self → List ℕ };

    /// Its line, without its end.
    fn to_line(&self, alloc: Global) -> Result<String, NoMemory>
        ensures { IfOk result (λ text. string_bytes text ≡ line self.now) };
}

impl Dumped for Listed {
    ghost use Rattle.mc_replica.specs.Dump.{player_line};
    ghost use Rattle.mc_replica.specs.KeptPlayers.{row_of};

    ghost line = { λ listed. player_line (row_of listed) };

    fn to_line(&self, alloc: Global) -> Result<String, NoMemory> {
        let uuid = uuid_words(alloc, self.uuid)?;
        let (uuid, name) = (uuid.as_str(), self.name.as_str());
        Ok(format!(in alloc; "player {uuid} {name}")?)
    }
}

impl Dumped for (Place, Column) {
    ghost use Rattle.mc_replica.specs.Dump.{column_line};

    ghost line = { column_line };

    fn to_line(&self, alloc: Global) -> Result<String, NoMemory> {
        let (cx, cz) = self.0;
        let blocks = blocks_in(&self.1);
        Ok(format!(in alloc; "column {cx} {cz} {blocks}")?)
    }
}

impl Dumped for Seen {
    ghost use Rattle.mc_replica.specs.Dump.{entity_line};

    ghost line = { entity_line };

    fn to_line(&self, alloc: Global) -> Result<String, NoMemory> {
        let eid = self.eid();
        let kind = kind_word(self.kind());
        let spot = spot_words(alloc, &self.spot())?;
        let head = self.head();
        let pile = pile_words(alloc, self.held())?;
        let (spot, pile) = (spot.as_str(), pile.as_str());
        Ok(format!(in alloc; "entity {eid} {kind} {spot} {head}{pile}")?)
    }
}

impl Dumped for Text {
    ghost use Rattle.mc_replica.specs.Dump.{chat_line};

    ghost line = { chat_line };

    fn to_line(&self, alloc: Global) -> Result<String, NoMemory> {
        let text = self.as_str();
        Ok(format!(in alloc; "chat {text}")?)
    }
}

/// The word of what an entity is.
fn kind_word(kind: SeenKind) -> &'static str
    ensures { result.now ≡ kind_word kind }
{
    match kind {
        SeenKind::Player(_) => "player",
        SeenKind::Dropped => "item",
        SeenKind::Mob => "mob",
    }
}

/// A place as words.
fn place_words(alloc: Global, spot: &Spot) -> Result<String, NoMemory>
    ensures { IfOk result (λ text. string_bytes text ≡ place_words spot.now) }
{
    let (x, y, z) = (spot.x, spot.y, spot.z);
    Ok(format!(in alloc; "{x} {y} {z}")?)
}

/// A place and a look as words.
fn spot_words(alloc: Global, spot: &Spot) -> Result<String, NoMemory>
    ensures { IfOk result (λ text. string_bytes text ≡ spot_words spot.now) }
{
    let (yaw, pitch) = (spot.yaw, spot.pitch);
    let place = place_words(alloc, spot)?;
    let place = place.as_str();
    Ok(format!(in alloc; "{place} {yaw} {pitch}")?)
}

/// An identifier as a text, with hyphens.
#[tactic(auto, unfolding(mc_model::specs::Names::uuid_text))]
fn uuid_words(alloc: Global, uuid: u128) -> Result<String, NoMemory>
    ensures { IfOk result (λ text. string_bytes text ≡ uuid_text uuid) }
{
    let mut buffer = Uuid::encode_buffer();
    let hyphenated = Uuid::from_u128(uuid).hyphenated();
    let text = hyphenated.encode_lower(&mut buffer);
    Ok(String::from_str(alloc, text)?)
}

/// What is in a stack, how many and how worn, each behind a blank.
pub(crate) fn stack_words(alloc: Global, stack: &Stack) -> Result<String, NoMemory>
    ensures { IfOk result (λ text. string_bytes text ≡ stack_words stack.now) }
{
    let (id, count, damage) = (stack.id, stack.count, stack.damage);
    Ok(format!(in alloc; " {id} {count} {damage}")?)
}

/// The words of the stack in a slot, none where it is empty.
fn pile_words(alloc: Global, slot: &Slot) -> Result<String, NoMemory>
    ensures { IfOk result (λ text. string_bytes text ≡ pile_words slot.now) }
{
    match slot {
        Slot::Empty => Ok(String::new(alloc)),
        Slot::Full(stack) => stack_words(alloc, stack),
    }
}

/// A number that was told, if one was.
fn told_number(alloc: Global, number: Option<i64>) -> Result<String, NoMemory>
    ensures { IfOk result (λ text. string_bytes text ≡ told_number number) }
{
    match number {
        Some(n) => Ok(format!(in alloc; "{n}")?),
        None => Ok(String::from_str(alloc, "none")?),
    }
}

/// The lines of the age and the beat that were told last.
pub(crate) fn times_text(
    alloc: Global,
    age: Option<i64>,
    beat: Option<i32>,
) -> Result<String, NoMemory>
    ensures { IfOk result (λ text. string_bytes text ≡ text_of (times_lines age beat)) }
{
    let age = told_number(alloc, age)?;
    let beat = told_number(alloc, beat.map(i64::from))?;
    let (age, beat) = (age.as_str(), beat.as_str());
    Ok(format!(in alloc; "age {age}\nbeat {beat}\n")?)
}
