ghost use Rattle.std.specs.Prelude.{◌≡◌, ◌++◌, ◌∷◌, [], map, OnOk, IfOk, OnErr};
ghost use Rattle.mc_nbt.specs.TagView.{tree_of, member_of};
ghost use Rattle.std.specs.Int.{w32};
ghost use Rattle.mc_nbt.specs.Nbt.{AllFitSigned};

mod comparing;
mod document;
mod fitting;
mod limits;
mod reading;
mod writing;

pub use document::{Nbt, read_nbt, same, write_nbt};
pub use limits::DEPTH_MAX;
use mc_bytes::{NoMemory, Octets};
use std::alloc::Global;
use std::marker::Model;

/// A value of NBT.
#[cycle(tag)]
#[derive(Drop)]
pub enum Tag {
    /// A number of one byte.
    Byte(i8),
    /// A number of two bytes.
    Short(i16),
    /// A number of four bytes.
    Int(i32),
    /// A number of eight bytes.
    Long(i64),
    /// The bit pattern of a binary32 number.
    Float(u32),
    /// The bit pattern of a binary64 number.
    Double(u64),
    /// Bytes.
    ByteArray(Octets),
    /// A text, kept as its bytes.
    Str(Octets),
    /// The tag byte of the items, and the items.
    List(u8, Tags),
    /// Names, each with a value.
    Compound(Entries),
    /// Numbers of four bytes.
    IntArray(Ints),
}

/// The items of a list. Contracts see it as the list of their trees.
#[cycle(tag)]
#[derive(Drop)]
pub struct Tags {
    items: Vec<Tag>,
}

/// The names and values of a compound, in order. Contracts see it as the list of names and trees.
#[cycle(tag)]
#[derive(Drop)]
pub struct Entries {
    items: Vec<(Octets, Tag)>,
}

/// A list of numbers of four bytes. Contracts see it as that list.
#[derive(Drop)]
pub struct Ints {
    items: Vec<i32>,
}

impl Model for Tags {
    ghost use Rattle.std.specs.Prelude.{List, map};
    ghost use Rattle.std.specs.Coded.{coded_list};
    ghost use Rattle.mc_nbt.specs.Tree.{Tree, trees_of, trees_depth};
    ghost use Rattle.mc_nbt.specs.TreeCode.{coded_tree};

    ghost Value = { List Tree };

    ghost coded = { coded_list coded_tree };

    ghost use Rattle.mc_nbt.specs.TagView.{tree_of};

    ghost view = { λ tags. map tree_of tags.items.items };

    ghost size = { λ trees. trees_depth (trees_of trees) };

    ghost use Rattle.mc_nbt.specs.TagFallsLaws.{at_least, tags_fall};

    ghost size_decreases = { λ a h. at_least _ _ (tags_fall a.items.items) };
}

impl Model for Entries {
    ghost use Rattle.std.specs.Prelude.{ℕ, List, map};
    ghost use Rattle.std.specs.Coded.{coded_list, coded×, coded_ℕ};
    ghost use Rattle.mc_nbt.specs.Tree.{Tree, members_of, members_depth};
    ghost use Rattle.mc_nbt.specs.TreeCode.{coded_tree};

    ghost Value = { List (List ℕ × Tree) };

    ghost coded = { coded_list (coded× (coded_list coded_ℕ) coded_tree) };

    ghost use Rattle.mc_nbt.specs.TagView.{member_of};

    ghost view = { λ entries. map member_of entries.items.items };

    ghost size = { λ members. members_depth (members_of members) };

    ghost use Rattle.mc_nbt.specs.TagFallsLaws.{at_least, entries_fall};

    ghost size_decreases = { λ a h. at_least _ _ (entries_fall a.items.items) };
}

impl Model for Ints {
    ghost use Rattle.std.specs.Prelude.{ℤ, List};
    ghost use Rattle.std.specs.Int.{w32};
    ghost use Rattle.mc_nbt.specs.Nbt.{AllFitSigned};

    ghost Value = { List ℤ };

    ghost view = { λ ints. ints.items.items };

    ghost invariant = { λ ints. AllFitSigned w32 ints.items.items };
}

impl Tag {
    /// An equal value.
    #[cycle(copying)]
    pub fn copy(&self) -> Result<Tag, NoMemory>
        ensures { IfOk result (λ tag. tag ≡ self.now) }
    {
        match self {
            Tag::Byte(number) => Ok(Tag::Byte(*number)),
            Tag::Short(number) => Ok(Tag::Short(*number)),
            Tag::Int(number) => Ok(Tag::Int(*number)),
            Tag::Long(number) => Ok(Tag::Long(*number)),
            Tag::Float(pattern) => Ok(Tag::Float(*pattern)),
            Tag::Double(pattern) => Ok(Tag::Double(*pattern)),
            Tag::ByteArray(bytes) => Ok(Tag::ByteArray(bytes.copy()?)),
            Tag::Str(bytes) => Ok(Tag::Str(bytes.copy()?)),
            Tag::List(kind, tags) => Ok(Tag::List(*kind, tags.copy()?)),
            Tag::Compound(entries) => Ok(Tag::Compound(entries.copy()?)),
            Tag::IntArray(numbers) => Ok(Tag::IntArray(numbers.copy()?)),
        }
    }
}

impl Tags {
    /// The empty list, which takes no memory.
    pub fn new(alloc: Global) -> Tags
        ensures { result ≡ [] }
    {
        Tags {
            items: Vec::new(alloc),
        }
    }

    /// One more item at the end. On `NoMemory` the list is as before, and the tag is dropped.
    pub fn push(&mut self, tag: Tag) -> Result<(), NoMemory>
        ensures ok { OnOk result (self.new ≡ self.old ++ tree_of tag ∷ []) }
        ensures err { OnErr result (self.new ≡ self.old) }
    {
        self.items.push(tag)?;
        Ok(())
    }

    /// The items.
    pub fn as_slice(&self) -> &[Tag]
        ensures { map tree_of result.now ≡ self.now }
    {
        self.items.as_slice()
    }

    /// An equal list.
    #[cycle(copying)]
    pub fn copy(&self) -> Result<Tags, NoMemory>
        ensures { IfOk result (λ tags. tags ≡ self.now) }
    {
        let mut copies = Vec::new(*self.items.allocator());
        for tag in &self.items {
            copies.push(tag.copy()?)?;
        }
        Ok(Tags { items: copies })
    }
}

impl Entries {
    /// The empty compound, which takes no memory.
    pub fn new(alloc: Global) -> Entries
        ensures { result ≡ [] }
    {
        Entries {
            items: Vec::new(alloc),
        }
    }

    /// One more name and value at the end. On `NoMemory` the list is as before, and the entry is
    /// dropped.
    pub fn push(&mut self, entry: (Octets, Tag)) -> Result<(), NoMemory>
        ensures ok { OnOk result (self.new ≡ self.old ++ member_of entry ∷ []) }
        ensures err { OnErr result (self.new ≡ self.old) }
    {
        self.items.push(entry)?;
        Ok(())
    }

    /// The names and values.
    pub fn as_slice(&self) -> &[(Octets, Tag)]
        ensures { map member_of result.now ≡ self.now }
    {
        self.items.as_slice()
    }

    /// An equal list.
    #[cycle(copying)]
    pub fn copy(&self) -> Result<Entries, NoMemory>
        ensures { IfOk result (λ entries. entries ≡ self.now) }
    {
        let mut copies = Vec::new(*self.items.allocator());
        for (name, tag) in &self.items {
            copies.push((name.copy()?, tag.copy()?))?;
        }
        Ok(Entries { items: copies })
    }
}

impl Ints {
    /// The empty list, which takes no memory.
    pub fn new(alloc: Global) -> Ints
        ensures { result ≡ [] }
    {
        Ints {
            items: Vec::new(alloc),
        }
    }

    /// One more number at the end. On `NoMemory` the list is as before.
    pub fn push(&mut self, item: i32) -> Result<(), NoMemory>
        ensures ok { OnOk result (self.new ≡ self.old ++ item ∷ []) }
        ensures err { OnErr result (self.new ≡ self.old) }
    {
        self.items.push(item)?;
        Ok(())
    }

    /// The numbers.
    pub fn as_slice(&self) -> &[i32]
        ensures value { result.now ≡ self.now }
        ensures fit { AllFitSigned w32 self.now }
    {
        self.items.as_slice()
    }

    /// An equal list.
    pub fn copy(&self) -> Result<Ints, NoMemory>
        ensures { IfOk result (λ ints. ints ≡ self.now) }
    {
        Ok(Ints {
            items: Vec::from_slice(*self.items.allocator(), self.items.as_slice())?,
        })
    }
}
