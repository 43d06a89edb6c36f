//! Fields of packets, put behind what an answer has.

use crate::slots::put_slot;
use mc_bytes::{Octets, Text};
use mc_fields::Cell;
use mc_packets::{
    MetaEntry, MetaValue, Metas, Player, PlayerChange, Players, Properties, Property, Record,
    Records, Slots, Speed, Texts, Varints,
};
use mc_rows::Answer;
use mc_slots::Slot;
use mc_up::Hit;

/// A field, or several in their order.
pub trait Put: Copy + Drop {
    /// Puts it behind what an answer has.
    fn put(self, answer: &mut Answer);
}

/// Puts a name, and fields behind it.
pub fn put_named<F: Put>(name: &str, fields: F, answer: &mut Answer) {
    answer.word(name);
    fields.put(answer);
}

impl<A: Put, B: Put> Put for (A, B) {
    fn put(self, answer: &mut Answer) {
        self.0.put(answer);
        self.1.put(answer);
    }
}

impl<A: Put, B: Put, C: Put> Put for (A, B, C) {
    fn put(self, answer: &mut Answer) {
        self.0.put(answer);
        self.1.put(answer);
        self.2.put(answer);
    }
}

impl<A: Put, B: Put, C: Put, D: Put> Put for (A, B, C, D) {
    fn put(self, answer: &mut Answer) {
        self.0.put(answer);
        self.1.put(answer);
        self.2.put(answer);
        self.3.put(answer);
    }
}

impl Put for &bool {
    fn put(self, answer: &mut Answer) {
        answer.word(*self);
    }
}

impl Put for &i8 {
    fn put(self, answer: &mut Answer) {
        answer.word(*self);
    }
}

impl Put for &u8 {
    fn put(self, answer: &mut Answer) {
        answer.word(*self);
    }
}

impl Put for &i16 {
    fn put(self, answer: &mut Answer) {
        answer.word(*self);
    }
}

impl Put for &u16 {
    fn put(self, answer: &mut Answer) {
        answer.word(*self);
    }
}

impl Put for &i32 {
    fn put(self, answer: &mut Answer) {
        answer.word(*self);
    }
}

impl Put for &i64 {
    fn put(self, answer: &mut Answer) {
        answer.word(*self);
    }
}

/// The pattern of a binary32 number.
impl Put for &u32 {
    fn put(self, answer: &mut Answer) {
        answer.bytes(&self.to_be_bytes());
    }
}

/// The pattern of a binary64 number.
impl Put for &u64 {
    fn put(self, answer: &mut Answer) {
        answer.bytes(&self.to_be_bytes());
    }
}

/// A UUID.
impl Put for &u128 {
    fn put(self, answer: &mut Answer) {
        answer.bytes(&self.to_be_bytes());
    }
}

impl Put for &Text {
    fn put(self, answer: &mut Answer) {
        answer.text(self.as_str());
    }
}

impl Put for &Octets {
    fn put(self, answer: &mut Answer) {
        answer.bytes(self.as_slice());
    }
}

impl Put for &Cell {
    fn put(self, answer: &mut Answer) {
        (&self.x, &self.y, &self.z).put(answer);
    }
}

impl Put for &Slot {
    fn put(self, answer: &mut Answer) {
        put_slot(self, answer);
    }
}

/// Puts what is there only sometimes.
fn put_maybe<'a, T>(value: &'a Option<T>, answer: &mut Answer)
where
    &'a T: Put,
{
    match value {
        Some(value) => value.put(answer),
        None => answer.word("none"),
    }
}

impl Put for &Option<i32> {
    fn put(self, answer: &mut Answer) {
        put_maybe(self, answer);
    }
}

impl Put for &Option<Text> {
    fn put(self, answer: &mut Answer) {
        put_maybe(self, answer);
    }
}

impl Put for &Option<Cell> {
    fn put(self, answer: &mut Answer) {
        put_maybe(self, answer);
    }
}

impl Put for &Option<Hit> {
    fn put(self, answer: &mut Answer) {
        put_maybe(self, answer);
    }
}

impl Put for &Option<Speed> {
    fn put(self, answer: &mut Answer) {
        put_maybe(self, answer);
    }
}

/// Where an entity was hit.
impl Put for &Hit {
    fn put(self, answer: &mut Answer) {
        (&self.x, &self.y, &self.z).put(answer);
    }
}

/// How fast an object moves.
impl Put for &Speed {
    fn put(self, answer: &mut Answer) {
        (&self.x, &self.y, &self.z).put(answer);
    }
}

/// A change of a cell.
impl Put for &Record {
    fn put(self, answer: &mut Answer) {
        (&self.place, &self.y, &self.state).put(answer);
    }
}

impl Put for &Varints {
    fn put(self, answer: &mut Answer) {
        answer.word('[');
        for value in self.as_slice() {
            answer.word(*value);
        }
        answer.put(']');
    }
}

impl Put for &Texts {
    fn put(self, answer: &mut Answer) {
        answer.word('[');
        for value in self.as_slice() {
            answer.text(value.as_str());
        }
        answer.put(']');
    }
}

/// Puts a list, with commas between its elements.
fn put_all<'a, T>(list: &'a [T], answer: &mut Answer)
where
    &'a T: Put,
{
    answer.word('[');
    for value in list {
        answer.comma();
        value.put(answer);
    }
    answer.put(']');
}

impl Put for &Slots {
    fn put(self, answer: &mut Answer) {
        put_all(self.as_slice(), answer);
    }
}

impl Put for &Records {
    fn put(self, answer: &mut Answer) {
        put_all(self.as_slice(), answer);
    }
}

impl Put for &Metas {
    fn put(self, answer: &mut Answer) {
        put_all(self.as_slice(), answer);
    }
}

impl Put for &Players {
    fn put(self, answer: &mut Answer) {
        put_all(self.as_slice(), answer);
    }
}

impl Put for &Properties {
    fn put(self, answer: &mut Answer) {
        put_all(self.as_slice(), answer);
    }
}

impl Put for &MetaEntry {
    fn put(self, answer: &mut Answer) {
        (&self.index, &self.value).put(answer);
    }
}

impl Put for &MetaValue {
    fn put(self, answer: &mut Answer) {
        match self {
            MetaValue::Byte(value) => put_named("byte", value, answer),
            MetaValue::Short(value) => put_named("short", value, answer),
            MetaValue::Int(value) => put_named("int", value, answer),
            MetaValue::Float(value) => put_named("float", value, answer),
            MetaValue::Text(value) => put_named("text", value, answer),
            MetaValue::Slot(value) => put_named("slot", value, answer),
            MetaValue::Ints([x, y, z]) => put_named("ints", (x, y, z), answer),
            MetaValue::Floats([x, y, z]) => put_named("floats", (x, y, z), answer),
        }
    }
}

impl Put for &Player {
    fn put(self, answer: &mut Answer) {
        (&self.uuid, &self.change).put(answer);
    }
}

impl Put for &PlayerChange {
    fn put(self, answer: &mut Answer) {
        match self {
            PlayerChange::Join {
                name,
                properties,
                mode,
                ping,
                is_shown,
                shown,
            } => put_named(
                "joins",
                ((name, properties), (mode, ping), (is_shown, shown)),
                answer,
            ),
            PlayerChange::Number(value) => put_named("has", value, answer),
            PlayerChange::Shown(is_shown, shown) => put_named("shows", (is_shown, shown), answer),
            PlayerChange::Leave => answer.word("leaves"),
        }
    }
}

impl Put for &Property {
    fn put(self, answer: &mut Answer) {
        let name = (&self.name, &self.value);
        (name, &self.is_signed, &self.signature).put(answer);
    }
}
