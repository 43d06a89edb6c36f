ghost use Rattle.std.specs.Prelude.{◌≡◌, ◌++◌, ◌∷◌, [], OnOk, OnErr};

use mc_bytes::{NoMemory, Text};
use mc_slots::Slot;
use std::alloc::Global;
use std::marker::Model;

/// What an entry of an entity's metadata holds.
#[derive(Drop)]
pub enum MetaValue {
    /// Type 0.
    Byte(i8),
    /// Type 1.
    Short(i16),
    /// Type 2.
    Int(i32),
    /// Type 3: the bit pattern of a binary32 number.
    Float(u32),
    /// Type 4.
    Text(Text),
    /// Type 5.
    Slot(Slot),
    /// Type 6.
    Ints([i32; 3]),
    /// Type 7: bit patterns of binary32 numbers.
    Floats([u32; 3]),
}

/// An entry of an entity's metadata.
#[derive(Drop)]
pub struct MetaEntry {
    /// What it is of the entity, from 0 to 31.
    pub index: u8,
    /// What it holds.
    pub value: MetaValue,
}

/// An entity's metadata: entries, in order. Contracts see it as that list.
#[derive(Drop)]
pub struct Metas {
    items: Vec<MetaEntry>,
}

impl Model for Metas {
    ghost use Rattle.std.specs.Prelude.{List};
    ghost use Rattle.mc_packets.specs.declared.meta.MetaEntry.{MetaEntry};
    ghost use Rattle.std.specs.Coded.{codes};
    ghost use Rattle.mc_nbt.specs.TreeCode.{coded_tree};

    ghost Value = { List MetaEntry };

    ghost coded = { Prim.hlevel (codes, coded_tree) };

    ghost view = { λ list. list.items.items };
}

impl Metas {
    /// The empty list, which takes no memory.
    pub fn new(alloc: Global) -> Metas
        ensures { result ≡ [] }
    {
        Metas {
            items: Vec::new(alloc),
        }
    }

    /// One more entry at the end. On `NoMemory` the list is as before.
    pub fn push(&mut self, item: MetaEntry) -> Result<(), NoMemory>
        ensures ok { OnOk result (self.new ≡ self.old ++ item ∷ []) }
        ensures err { OnErr result (self.new ≡ self.old) }
    {
        self.items.push(item)?;
        Ok(())
    }

    /// The entries.
    pub fn as_slice(&self) -> &[MetaEntry]
        ensures { result.now ≡ self.now }
    {
        self.items.as_slice()
    }
}
