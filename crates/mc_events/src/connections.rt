ghost use Rattle.std.specs.Prelude.{◌≡◌, ◌++◌, ◌∷◌, [], IfOk, OnErr, OnOk, length};
ghost use Rattle.std.specs.List.{filter};
ghost use Rattle.std.specs.Option.{option_copied, option_copied_mut};
ghost use Rattle.std.specs.BTreeMap as tree;
ghost use Rattle.std.specs.FinMap.{empty, entries, get, insert, remove, values};
ghost use Rattle.mc_model.specs.Link.{is_kept};
ghost use Rattle.mc_links.specs.Kept.{ConnectionValue, is_ours};
ghost use Rattle.mc_events.specs.Asking.{pending_of};

mod fields;

use mc_bytes::NoMemory;
use mc_links::Connection;
use std::alloc::Global;
use std::collections::BTreeMap;
use std::marker::Model;

/// The connections by their numbers. Contracts see them as that map.
#[derive(Drop)]
pub struct Connections {
    by_number: BTreeMap<u32, Connection>,
}

impl Model for Connections {
    ghost use Rattle.std.specs.Coded.{coded_ℕ, codes};
    ghost use Rattle.std.specs.FinMap.{FinMap, code, from_entries};
    ghost use Rattle.std.specs.Ordering.{nat_cmp};
    ghost use Rattle.mc_view.specs.ToldCode.{coded_told};
    ghost use Rattle.mc_links.specs.Kept.{ConnectionValue};

    ghost Value = { FinMap nat_cmp ConnectionValue };

    ghost coded = { code coded_ℕ (Prim.hlevel (codes, coded_told)) };

    ghost view = { λ c. from_entries c.by_number.entries };
}

impl Connections {
    ghost use Rattle.std.specs.Borrow.{LendsIf, sem};
    ghost use Rattle.mc_links.specs.contracts.connection.Connection.{the_row as connection_row};
    ghost use Rattle.mc_events.specs.contracts.connections.Connections.{the_row};

    /// Nobody.
    pub fn new(alloc: Global) -> Connections
        ensures { result ≡ empty }
    {
        Connections {
            by_number: BTreeMap::new(alloc),
        }
    }

    /// The one of a number, if it is there.
    pub fn find(&self, k: u32) -> Option<&Connection>
        ensures { option_copied result ≡ get self.now k }
    {
        self.by_number.get(&k)
    }

    /// The one of a number to write into, if it is there; nothing else changes.
    pub fn find_mut(&mut self, k: u32) -> Option<&mut Connection>
        ensures* lends { sem 𝓛 (LendsIf the_row connection_row self.entry result
            (insert self.old k) self.old) }
        ensures is { option_copied_mut result ≡ get self.old k }
    {
        self.by_number.get_mut(&k)
    }

    /// Adds one of a number, in the place of one that had it. Without memory all is as before.
    pub fn add(&mut self, k: u32, connection: Connection) -> Result<(), NoMemory>
        ensures ok { OnOk result (self.new ≡ insert self.old k connection) }
        ensures err { OnErr result (self.new ≡ self.old) }
    {
        let _before = self.by_number.insert(k, connection)?;
        Ok(())
    }

    /// Takes the one of a number out.
    pub fn remove(&mut self, k: u32)
        ensures { self.new ≡ remove self.old k }
    {
        let _connection = self.by_number.remove(&k);
    }

    // ---- which

    /// The numbers of those that are owed bytes or closed, which rise.
    pub fn pending(&self, alloc: Global) -> Result<Vec<u32>, NoMemory>
        ensures { IfOk result (λ numbers. numbers.items ≡ pending_of (entries self.now)) }
    {
        // The numbers rise.
        let _many = self.by_number.len();
        pending_among(alloc, &self.by_number)
    }

    // ---- how many

    /// How many are open, or owed bytes still.
    pub fn kept(&self) -> usize
        ensures { result ≡ length (filter (λ (c : ConnectionValue). is_kept c.link)
            (values self.now)) }
    {
        // The numbers rise.
        let _many = self.by_number.len();
        kept_among(&self.by_number)
    }

    /// How many were closed, and not since they left, a write to them broke, or they were done.
    pub fn ours(&self) -> usize
        ensures { result ≡ length (filter (λ (c : ConnectionValue). is_ours c.link.cause)
            (values self.now)) }
    {
        // The numbers rise.
        let _many = self.by_number.len();
        ours_among(&self.by_number)
    }
}

/// Puts the number of a connection behind others, where it is owed bytes or closed.
fn put_pending(number: u32, connection: &Connection, numbers: &mut Vec<u32>) -> Result<(), NoMemory>
    ensures { OnOk result (numbers.new.items
        ≡ numbers.old.items ++ pending_of ((number, connection.now) ∷ [])) }
{
    if connection.is_pending() {
        numbers.push(number)?;
    }
    Ok(())
}

/// The numbers of those of these that are owed bytes or closed.
fn pending_among(
    alloc: Global,
    connections: &BTreeMap<u32, Connection>,
) -> Result<Vec<u32>, NoMemory>
    ensures { IfOk result (λ numbers. numbers.items ≡ pending_of connections.now.entries) }
{
    let mut numbers = Vec::new(alloc);
    for (number, connection) in connections {
        put_pending(*number, connection, &mut numbers)?;
    }
    Ok(numbers)
}

/// How many of these are open, or owed bytes still.
fn kept_among(connections: &BTreeMap<u32, Connection>) -> usize
    ensures { result ≡ length (filter (λ (c : ConnectionValue). is_kept c.link)
        (tree.values connections.now)) }
{
    connections.values().filter(|c| c.is_kept()).count()
}

/// How many of these were closed, and not since they left, a write to them broke, or they were
/// done.
fn ours_among(connections: &BTreeMap<u32, Connection>) -> usize
    ensures { result ≡ length (filter (λ (c : ConnectionValue). is_ours c.link.cause)
        (tree.values connections.now)) }
{
    connections.values().filter(|c| c.is_ours()).count()
}
