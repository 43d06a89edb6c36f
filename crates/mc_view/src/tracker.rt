ghost use Rattle.std.specs.Prelude.{◌≡◌, ◌<◌, ◌≤◌, ◌↔◌, ◌++◌, ◌∷◌, [], IfOk, IfErr, IfSome};
ghost use Rattle.std.specs.Prelude.{IsTrue, IsFalse, OnOk, OnErr, true, false, length, not};
ghost use Rattle.std.specs.Prelude.{slice_get};
ghost use Rattle.std.specs.List.{filter};
ghost use lib.IntN.{ℤ};
ghost use Rattle.std.specs.FinMap as map;
ghost use Rattle.mc_view.specs.Forms.{moves_of};
ghost use Rattle.mc_view.specs.KeptTold.{IsAbove, IsAt, IsBelow, IsGap, IsRising, numbers_of};
ghost use Rattle.mc_view.specs.KeptTold.{told_of};

use crate::forms::Moves;
use crate::looks::Looks;
use crate::spots::form;
use crate::told_rest::ToldRest;
use mc_bytes::NoMemory;
use mc_fields::Spot;
use mc_slots::Pile;
use std::alloc::Global;
use std::marker::Model;

/// What a client was told of one entity.
#[derive(Clone, Copy)]
pub(crate) struct Entry {
    pub(crate) eid: i32,
    pub(crate) spot: Spot,
    pub(crate) pile: Pile,
}

/// What one client was told of entities: where each is and looks, and the pile that it holds or is.
/// Contracts see it as a finite map from the entity's number.
#[derive(Drop)]
pub struct Tracker {
    /// By rising number.
    entries: Vec<Entry>,
}

impl Model for Tracker {
    ghost use Rattle.mc_view.specs.Told.{Told};
    ghost use Rattle.mc_view.specs.ToldCode.{coded_told};
    ghost use Rattle.mc_view.specs.KeptTold.{IsRising, told_of};

    ghost Value = { Told };

    ghost coded = { coded_told };

    ghost view = { λ tracker. told_of tracker.entries.items };

    ghost invariant = { λ tracker. IsRising tracker.entries.items };
}

impl Tracker {
    /// Knows nobody.
    pub fn new(alloc: Global) -> Tracker
        ensures { result ≡ map.empty }
    {
        Tracker {
            entries: Vec::new(alloc),
        }
    }

    /// Knows nobody, and has memory for as many as this one knows.
    pub fn anew(&self) -> Result<Tracker, NoMemory>
        ensures { IfOk result (λ tracker. tracker ≡ map.empty) }
    {
        Ok(Tracker {
            entries: Vec::with_capacity(*self.entries.allocator(), self.entries.len())?,
        })
    }

    /// Whether the client was told of an entity.
    pub fn knows(&self, eid: i32) -> bool
        ensures { result ≡ map.contains_key self.now eid }
    {
        place_of(self.entries.as_slice(), eid).is_ok()
    }

    /// The number of a known entity that has `i` known ones below it; None where `i` or fewer are
    /// known. Where there is one, the next can be asked for.
    pub fn known(&self, i: usize) -> Option<i32>
        ensures eid { result ≡ slice_get (map.keys self.now) i }
        ensures next { IfSome result (λ _. i < 18446744073709551615) }
    {
        if i >= self.entries.len() {
            return None;
        }
        Some(self.entries[i].eid)
    }

    /// Keeps what the client is told of an entity that it did not know. Out of memory, the tracker
    /// is as before.
    pub fn meet(&mut self, eid: i32, spot: Spot, pile: Pile) -> Result<(), NoMemory>
        requires new { map.contains_key self.old eid ≡ false }
        ensures ok { OnOk result (self.new ≡ map.insert self.old eid (spot, pile)) }
        ensures err { OnErr result (self.new ≡ self.old) }
    {
        let at = gap_for(self.entries.as_slice(), eid);
        self.entries.insert(at, Entry { eid, spot, pile })?;
        Ok(())
    }

    /// Keeps what the client is told of an entity, in the place of what was kept of it. Where its
    /// number is above all others it is put at the end, with no search. Out of memory, the tracker
    /// is as before.
    #[inline]
    pub fn put(&mut self, eid: i32, spot: &Spot, pile: &Pile) -> Result<(), NoMemory>
        ensures ok { OnOk result (self.new ≡ map.insert self.old eid (spot.now, pile.now)) }
        ensures err { OnErr result (self.new ≡ self.old) }
    {
        if is_above(self.entries.as_slice(), self.entries.len(), eid) {
            self.entries.push(Entry {
                eid,
                spot: *spot,
                pile: *pile,
            })?;
            return Ok(());
        }
        self.put_among(eid, spot, pile)
    }

    /// Keeps what the client is told of an entity in the place of what was kept of it, or else among
    /// the others. Out of memory, the tracker is as before.
    #[inline(never)]
    fn put_among(&mut self, eid: i32, spot: &Spot, pile: &Pile) -> Result<(), NoMemory>
        ensures ok { OnOk result (self.new ≡ map.insert self.old eid (spot.now, pile.now)) }
        ensures err { OnErr result (self.new ≡ self.old) }
    {
        self.put_entry(Entry {
            eid,
            spot: *spot,
            pile: *pile,
        })
    }

    /// Keeps an entry in the place of that of its number, or else among the others. Out of memory,
    /// the tracker is as before.
    fn put_entry(&mut self, entry: Entry) -> Result<(), NoMemory>
        ensures ok { OnOk result
            (self.new ≡ map.insert self.old entry.eid (entry.spot, entry.pile)) }
        ensures err { OnErr result (self.new ≡ self.old) }
    {
        match place_of(self.entries.as_slice(), entry.eid) {
            Ok(at) => {
                self.entries[at] = entry;
                Ok(())
            }
            Err(at) => {
                self.entries.insert(at, entry)?;
                Ok(())
            }
        }
    }

    /// Looks at what was told, of which the next is best that of a higher number.
    pub fn looks(&self) -> Looks<'_>
        ensures { result ≡ self.now }
    {
        Looks::new(self.entries.as_slice())
    }

    /// What was told, to be gone through by rising number.
    pub fn rest(&self) -> ToldRest<'_>
        ensures { result ≡ map.entries self.now }
    {
        ToldRest::new(self.entries.as_slice())
    }

    /// The numbers of those that this tracker knows and another does not. Each of the two is gone
    /// through once. Where both know the same numbers, nothing but these is looked at.
    pub fn lost(&self, alloc: Global, now: &Tracker) -> Result<Vec<i32>, NoMemory>
        ensures { IfOk result (λ eids. eids.items
            ≡ filter (λ (eid : ℤ). not (map.contains_key now.now eid)) (map.keys self.now)) }
    {
        if are_same_numbers(self.entries.as_slice(), now.entries.as_slice()) {
            return Ok(Vec::new(alloc));
        }
        self.lost_among(alloc, now)
    }

    /// The numbers of those that this tracker knows and another does not, looked up one by one.
    fn lost_among(&self, alloc: Global, now: &Tracker) -> Result<Vec<i32>, NoMemory>
        ensures { IfOk result (λ eids. eids.items
            ≡ filter (λ (eid : ℤ). not (map.contains_key now.now eid)) (map.keys self.now)) }
    {
        let mut looks = now.looks();
        let mut lost = Vec::new(alloc);
        for entry in &self.entries {
            push_unknown(entry, &mut looks, &mut lost)?;
        }
        Ok(lost)
    }

    /// How the client is told that a known entity is and looks there now. Keeps that. It compares
    /// with what was kept and nothing else, so two moves between two calls are told as one. It
    /// takes no memory.
    pub fn moves(&mut self, eid: i32, spot: Spot) -> Moves
        requires known { map.contains_key self.old eid ≡ true }
        ensures moves { IfSome (map.get self.old eid) (λ told. result ≡ moves_of told.0 spot) }
        ensures keeps { IfSome (map.get self.old eid)
            (λ told. self.new ≡ map.insert self.old eid (spot, told.1)) }
    {
        let at = place_in(self.entries.as_slice(), eid);
        let moves = form(self.entries[at].spot, spot);
        self.entries[at].spot = spot;
        moves
    }

    /// Whether a known entity's pile differs from the one that the client was told. Keeps the new
    /// one. It takes no memory.
    pub fn pile(&mut self, eid: i32, pile: Pile) -> bool
        requires known { map.contains_key self.old eid ≡ true }
        ensures differs { IfSome (map.get self.old eid) (λ told. IsFalse result ↔ (told.1 ≡ pile)) }
        ensures keeps { IfSome (map.get self.old eid)
            (λ told. self.new ≡ map.insert self.old eid (told.0, pile)) }
    {
        let at = place_in(self.entries.as_slice(), eid);
        let differs = self.entries[at].pile != pile;
        self.entries[at].pile = pile;
        differs
    }

    /// Forgets an entity. False exactly where it was not known. It takes no memory.
    pub fn lose(&mut self, eid: i32) -> bool
        ensures knew { result ≡ map.contains_key self.old eid }
        ensures gone { self.new ≡ map.remove self.old eid }
    {
        match place_of(self.entries.as_slice(), eid) {
            Ok(at) => {
                self.entries.remove(at);
                true
            }
            Err(_) => false,
        }
    }
}

/// Whether two lists of entries have the same numbers.
fn are_same_numbers(entries: &[Entry], others: &[Entry]) -> bool
    ensures { IsTrue result → numbers_of entries.now ≡ numbers_of others.now }
{
    if entries.len() != others.len() {
        return false;
    }
    for i in 0..entries.len() {
        if entries[i].eid != others[i].eid {
            return false;
        }
    }
    true
}

/// Where a number stands, or else where it would go.
#[inline(never)]
fn place_of(entries: &[Entry], eid: i32) -> Result<usize, usize>
    requires rising { IsRising entries.now }
    ensures found { IfOk result (IsAt entries.now eid) }
    ensures absent { IfErr result (IsGap entries.now eid) }
{
    entries.binary_search_by_key(&eid, |entry| entry.eid)
}

/// Whether the number before a place is lower, if there is one.
fn is_above(entries: &[Entry], at: usize, eid: i32) -> bool
    requires within { at ≤ length entries.now }
    ensures { IsTrue result → IsAbove entries.now eid at }
{
    if at == 0 {
        return true;
    }
    entries[at - 1].eid < eid
}

/// Whether the number at a place is higher, if there is one.
fn is_below(entries: &[Entry], at: usize, eid: i32) -> bool
    requires within { at ≤ length entries.now }
    ensures { IsTrue result → IsBelow entries.now eid at }
{
    if at == entries.len() {
        return true;
    }
    entries[at].eid > eid
}

/// Whether a number would go there.
fn is_gap(entries: &[Entry], at: usize, eid: i32) -> bool
    requires rising { IsRising entries.now }
    requires within { at ≤ length entries.now }
    ensures { IsTrue result → IsGap entries.now eid at }
{
    if !is_above(entries, at, eid) {
        return false;
    }
    is_below(entries, at, eid)
}

/// Where a number stands, or else where it would go; that is looked for at one place first.
#[inline]
pub(crate) fn place_near(entries: &[Entry], near: usize, eid: i32) -> Result<usize, usize>
    requires rising { IsRising entries.now }
    ensures found { IfOk result (IsAt entries.now eid) }
    ensures absent { IfErr result (IsGap entries.now eid) }
{
    if near < entries.len() && entries[near].eid == eid {
        return Ok(near);
    }
    if near <= entries.len() && is_gap(entries, near, eid) {
        return Err(near);
    }
    place_of(entries, eid)
}

/// Puts the number of an entry at the end, unless it is known there.
fn push_unknown(entry: &Entry, looks: &mut Looks<'_>, eids: &mut Vec<i32>) -> Result<(), NoMemory>
    ensures same { looks.new ≡ looks.old }
    ensures put { OnOk result (eids.new.items ≡ eids.old.items
        ++ filter (λ (k : ℤ). not (map.contains_key looks.old k)) (entry.now.eid ∷ [])) }
{
    let eid = entry.eid;
    if looks.find(eid).is_some() {
        return Ok(());
    }
    eids.push(eid)?;
    Ok(())
}

/// Where a number that is known stands.
fn place_in(entries: &[Entry], eid: i32) -> usize
    requires rising { IsRising entries.now }
    requires known { map.contains_key (told_of entries.now) eid ≡ true }
    ensures { IsAt entries.now eid result }
{
    match place_of(entries, eid) {
        Ok(at) | Err(at) => at,
    }
}

/// Where a number that is not known would go.
fn gap_for(entries: &[Entry], eid: i32) -> usize
    requires rising { IsRising entries.now }
    requires new { map.contains_key (told_of entries.now) eid ≡ false }
    ensures { IsGap entries.now eid result }
{
    match place_of(entries, eid) {
        Ok(at) | Err(at) => at,
    }
}
