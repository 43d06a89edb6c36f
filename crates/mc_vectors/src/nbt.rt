//! Named compounds: `nbt BYTES` reads one and writes a copy of it, `same BYTES BYTES` compares two,
//! and `make NAME STEP ..` makes one.

use mc_bytes::{NoMemory, Octets};
use mc_nbt::{Entries, Ints, Nbt, Tag, Tags, read_nbt, same, write_nbt};
use mc_rows::{Answer, Marked, Words};

/// Reads a named compound, and writes a copy of it.
pub fn read(words: &mut Words<'_>, answer: &mut Answer) {
    let input = words.marked();
    match read_nbt(words.alloc, &input.bytes, input.at) {
        Ok((value, end)) => {
            answer.at(end);
            again(&input, end, &value, answer);
            drop(value);
        }
        Err(fault) => answer.read_fault(fault),
    }
}

/// Writes a copy of a named compound behind the bytes that stood before it.
fn again(input: &Marked, end: usize, value: &Nbt, answer: &mut Answer) {
    let mut out = input.front();
    match value.copy() {
        Ok(copy) => {
            answer.needs(write_nbt(&copy, &mut out));
            drop(copy);
        }
        Err(NoMemory) => answer.lose(),
    }
    answer.again(input, end, &out);
}

/// Says whether two named compounds are equal.
pub fn compare(words: &mut Words<'_>, answer: &mut Answer) {
    let one = words.bytes();
    match read_nbt(words.alloc, &one, 0) {
        Ok((one, _)) => {
            compare_with(&one, words, answer);
            drop(one);
        }
        Err(_) => words.fail(),
    }
}

/// Says whether the next named compound is equal to one.
fn compare_with(one: &Nbt, words: &mut Words<'_>, answer: &mut Answer) {
    let other = words.bytes();
    match read_nbt(words.alloc, &other, 0) {
        Ok((other, _)) => {
            answer.word(same(one, &other));
            drop(other);
        }
        Err(_) => words.fail(),
    }
}

/// A list or a compound that is being made.
#[derive(Drop)]
enum Open {
    Compound(Entries),
    List(u8, Tags),
}

impl Open {
    /// Puts a value into it, in a compound under a name.
    fn put(&mut self, name: Octets, tag: Tag) -> Result<(), NoMemory> {
        match self {
            Open::Compound(entries) => entries.push((name, tag)),
            Open::List(_, tags) => tags.push(tag),
        }
    }

    /// The compound under a name, None where it is a list or has no spelling.
    fn named(self, name: Octets) -> Option<Nbt> {
        match self {
            Open::Compound(entries) => Nbt::new(name, entries),
            Open::List(_, _) => None,
        }
    }

    /// A copy of it as a value.
    fn tag(&self) -> Result<Tag, NoMemory> {
        match self {
            Open::Compound(entries) => Ok(Tag::Compound(entries.copy()?)),
            Open::List(kind, tags) => Ok(Tag::List(*kind, tags.copy()?)),
        }
    }
}

/// What is being made: the lists and compounds that are open and the names of the inner ones, the
/// outermost first.
#[derive(Drop)]
struct Maker {
    open: Vec<Open>,
    names: Vec<Octets>,
}

impl Maker {
    /// Opens a list or a compound.
    fn begin(&mut self, name: Octets, open: Open, answer: &mut Answer) {
        answer.needs(self.names.push(name));
        answer.needs(self.open.push(open));
    }

    /// Puts a value under a name into what is open; a list takes no name.
    fn put(&mut self, name: Octets, tag: Tag, answer: &mut Answer) {
        match self.open.last_mut() {
            Some(open) => answer.needs(open.put(name, tag)),
            None => {
                drop(tag);
                drop(name);
            }
        }
    }

    /// Closes what was opened last.
    fn end(&mut self, answer: &mut Answer) {
        if let Some(open) = self.open.pop() {
            self.close(&open, answer);
            drop(open);
        }
    }

    /// Puts a copy of what was closed into what is open then, under its name.
    fn close(&mut self, closed: &Open, answer: &mut Answer) {
        let name = self.names.pop().unwrap_or(Octets::new(answer.alloc()));
        match closed.tag() {
            Ok(tag) => self.put(name, tag, answer),
            Err(NoMemory) => {
                drop(name);
                answer.lose();
            }
        }
    }
}

/// Makes a named compound.
pub fn make(words: &mut Words<'_>, answer: &mut Answer) {
    let name = words.octets();
    let mut maker = Maker {
        open: Vec::new(words.alloc),
        names: Vec::new(words.alloc),
    };
    answer.needs(maker.open.push(Open::Compound(Entries::new(words.alloc))));
    for _ in 0..64 {
        if words.is_more() {
            step(&mut maker, words, answer);
        }
    }
    let open = maker.open.pop();
    drop(maker);
    match open {
        Some(open) => made(open.named(name), answer),
        None => {
            drop(name);
            words.fail();
        }
    }
}

/// Puts what was made.
fn made(made: Option<Nbt>, answer: &mut Answer) {
    match made {
        Some(value) => {
            let mut out = Vec::new(answer.alloc());
            answer.needs(write_nbt(&value, &mut out));
            drop(value);
            answer.bytes(&out);
        }
        None => answer.word("none"),
    }
}

/// Makes the next value, or opens or closes a list or a compound.
fn step(maker: &mut Maker, words: &mut Words<'_>, answer: &mut Answer) {
    match words.word() {
        "}" | "]" => maker.end(answer),
        "{" => {
            let open = Open::Compound(Entries::new(words.alloc));
            maker.begin(words.octets(), open, answer);
        }
        "[" => {
            let name = words.octets();
            let open = Open::List(words.number(), Tags::new(words.alloc));
            maker.begin(name, open, answer);
        }
        "inside" => nest(maker, words, answer),
        kind => {
            let name = words.octets();
            let tag = leaf(kind, words, answer);
            maker.put(name, tag, answer);
        }
    }
}

/// Makes compounds in one another, so many, with an empty name each.
fn nest(maker: &mut Maker, words: &mut Words<'_>, answer: &mut Answer) {
    let depth = words.number::<u16>();
    for _ in 0..depth {
        let open = Open::Compound(Entries::new(words.alloc));
        maker.begin(Octets::new(words.alloc), open, answer);
    }
    for _ in 0..depth {
        maker.end(answer);
    }
}

/// Makes a value that is no list and no compound.
/// Dear to prove: nine words, and a value of many forms for each.
fn leaf(kind: &str, words: &mut Words<'_>, answer: &mut Answer) -> Tag {
    match kind {
        "byte" => Tag::Byte(words.number()),
        "short" => Tag::Short(words.number()),
        "int" => Tag::Int(words.number()),
        "long" => Tag::Long(words.number()),
        "float" => Tag::Float(words.number()),
        "double" => Tag::Double(words.number()),
        "bytes" => Tag::ByteArray(words.octets()),
        "string" => Tag::Str(words.octets()),
        "ints" => Tag::IntArray(ints(words, answer)),
        _ => {
            words.fail();
            Tag::Byte(0)
        }
    }
}

/// Makes a list of two numbers, and copies it.
fn ints(words: &mut Words<'_>, answer: &mut Answer) -> Ints {
    let mut numbers = Ints::new(words.alloc);
    answer.needs(numbers.push(words.number()));
    answer.needs(numbers.push(words.number()));
    match numbers.copy() {
        Ok(copy) => copy,
        Err(NoMemory) => {
            answer.lose();
            numbers
        }
    }
}
