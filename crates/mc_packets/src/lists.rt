ghost use Rattle.std.specs.Prelude.{◌≡◌, ◌++◌, ◌∷◌, [], OnOk, OnErr};

use crate::{Player, Property, Record};
use mc_bytes::{NoMemory, Text};
use mc_fields::Listed;
use mc_slots::Slot;
use std::alloc::Global;
use std::marker::Model;

/// Numbers that are each sent as a VarInt. Contracts see it as that list.
#[derive(Drop)]
pub struct Varints {
    items: Vec<i32>,
}

impl Model for Varints {
    ghost use Rattle.std.specs.Prelude.{List, ℤ};

    ghost Value = { List ℤ };

    ghost view = { λ list. list.items.items };
}

impl Varints {
    /// The empty list, which takes no memory.
    pub fn new(alloc: Global) -> Varints
        ensures { result ≡ [] }
    {
        Varints {
            items: Vec::new(alloc),
        }
    }

    /// One more number at the end. On `NoMemory` the list is as before.
    pub fn push(&mut self, item: i32) -> Result<(), NoMemory>
        ensures ok { OnOk result (self.new ≡ self.old ++ item ∷ []) }
        ensures err { OnErr result (self.new ≡ self.old) }
    {
        self.items.push(item)?;
        Ok(())
    }

    /// The list.
    pub fn as_slice(&self) -> &[i32]
        ensures { result.now ≡ self.now }
    {
        self.items.as_slice()
    }
}

/// Texts. Contracts see it as that list.
pub type Texts = Listed<Text>;

/// Slots of a window. Contracts see it as that list.
#[derive(Drop)]
pub struct Slots {
    items: Listed<Slot>,
}

impl Model for Slots {
    ghost use Rattle.std.specs.Prelude.{List};
    ghost use Rattle.mc_slots.specs.declared.slot.Slot.{Slot};
    ghost use Rattle.std.specs.Coded.{codes};
    ghost use Rattle.mc_nbt.specs.TreeCode.{coded_tree};

    ghost Value = { List Slot };

    ghost coded = { Prim.hlevel (codes, coded_tree) };

    ghost view = { λ list. list.items };
}

impl Slots {
    /// The empty list, which takes no memory.
    pub fn new(alloc: Global) -> Slots
        ensures { result ≡ [] }
    {
        Slots {
            items: Listed::new(alloc),
        }
    }

    /// The slots of a list, without copying them.
    pub(crate) fn of(items: Listed<Slot>) -> Slots
        ensures { result ≡ items }
    {
        Slots { items }
    }

    /// One more slot at the end. On `NoMemory` the list is as before.
    pub fn push(&mut self, item: Slot) -> Result<(), NoMemory>
        ensures ok { OnOk result (self.new ≡ self.old ++ item ∷ []) }
        ensures err { OnErr result (self.new ≡ self.old) }
    {
        self.items.push(item)
    }

    /// The list.
    pub fn as_slice(&self) -> &[Slot]
        ensures { result.now ≡ self.now }
    {
        self.items.as_slice()
    }
}

/// Changes of one column. Contracts see it as that list.
pub type Records = Listed<Record>;

/// Properties of a player. Contracts see it as that list.
pub type Properties = Listed<Property>;

/// Players, each with what changes of it. Contracts see it as that list.
#[derive(Drop)]
pub struct Players {
    items: Vec<Player>,
}

impl Model for Players {
    ghost use Rattle.std.specs.Prelude.{List};
    ghost use Rattle.mc_packets.specs.declared.player.Player.{Player};

    ghost Value = { List Player };

    ghost view = { λ list. list.items.items };
}

impl Players {
    /// The empty list, which takes no memory.
    pub fn new(alloc: Global) -> Players
        ensures { result ≡ [] }
    {
        Players {
            items: Vec::new(alloc),
        }
    }

    /// One more player at the end. On `NoMemory` the list is as before.
    pub fn push(&mut self, item: Player) -> Result<(), NoMemory>
        ensures ok { OnOk result (self.new ≡ self.old ++ item ∷ []) }
        ensures err { OnErr result (self.new ≡ self.old) }
    {
        self.items.push(item)?;
        Ok(())
    }

    /// The list.
    pub fn as_slice(&self) -> &[Player]
        ensures { result.now ≡ self.now }
    {
        self.items.as_slice()
    }
}
