ghost use Rattle.std.specs.Prelude.{◌≡◌, ℕ, ◌<◌, ◌↔◌, None, List, [], ◌∷◌, ◌++◌, length, min};
ghost use Rattle.std.specs.Prelude.{IsTrue, IsSome, IfSome, IfNone};
ghost use Rattle.mc_wire.specs.declared.log.LogEntry.{LogEntry as Entry};
ghost use Rattle.mc_wire.specs.LobbyAnswers.{IsInBuffer, RaisesLeast};
ghost use Rattle.mc_wire.specs.Events.{AreEvents, IsNextEvent, least_after};
ghost use Rattle.mc_wire.specs.Upcoming.{part_entries};

use crate::part::Part;
use crate::{Event, LogEntry, Source, SteadySource};
use std::marker::Model;

/// The events that a lobby in memory has still to give.
#[derive(Drop)]
pub struct Upcoming {
    part: Option<Part>,
    behind: Vec<LogEntry>,
    least: u64,
}

impl Model for Upcoming {
    ghost use Rattle.mc_wire.specs.LobbyState.{EventsState};
    ghost use Rattle.mc_wire.specs.Events.{AreEvents};
    ghost use Rattle.mc_wire.specs.Upcoming.{upcoming_entries};

    ghost Value = { EventsState };

    ghost view = { λ upcoming. record {
      left = upcoming_entries upcoming.part upcoming.behind.items;
      least = upcoming.least;
    } };

    ghost invariant = { λ upcoming.
        AreEvents upcoming.least (upcoming_entries upcoming.part upcoming.behind.items) };
}

impl Upcoming {
    /// All of the entries, or `None` where they are no events.
    pub fn new(entries: Vec<LogEntry>) -> Option<Upcoming>
        ensures some { IsSome result ↔ AreEvents 0 entries.items }
        ensures all { IfSome result
            (λ upcoming. upcoming ≡ record { left = entries.items; least = 0 }) }
    {
        if !are_events(entries.as_slice()) {
            return None;
        }
        let mut behind = entries;
        behind.reverse();
        Some(Upcoming {
            part: None,
            behind,
            least: 0,
        })
    }

    /// Takes the next event; bytes that came go to the front of the buffer, as many as it can hold.
    pub fn take(&mut self, buf: &mut [u8]) -> Event
        requires room { 0 < length buf.old }
        ensures next { IsNextEvent result buf.old buf.new self.old.left self.new.left }
        ensures least { self.new.least ≡ least_after result self.old.least }
        ensures raises { RaisesLeast result self.old.least self.new.least }
        ensures within { IsInBuffer result buf.new }
    {
        if let Some(part) = self.part.take() {
            return give(part, &mut self.part, buf);
        }
        let Some(entry) = self.behind.pop() else {
            return Event::End;
        };
        begin(entry, &mut self.part, &mut self.least, buf)
    }
}

/// Gives bytes that came, as many as the buffer can hold, and keeps the rest where there is one.
fn give(part: Part, kept: &mut Option<Part>, buf: &mut [u8]) -> Event
    requires room { 0 < length buf.old }
    requires some { 0 < length part.rest }
    ensures next { (later : List Entry) → IsNextEvent result buf.old buf.new
        (Entry.Came part.from part.rest ∷ later) (part_entries kept.new ++ later) }
    ensures is { result ≡ Event.Bytes part.from (min (length buf.old) (length part.rest)) }
    ensures within { IsInBuffer result buf.new }
{
    let mut part = part;
    let count = part.rest.read(buf).unwrap();
    let from = part.from;
    *kept = if part.rest.left().is_empty() {
        None
    } else {
        Some(part)
    };
    Event::Bytes(from, count)
}

/// Gives an event.
fn begin(entry: LogEntry, kept: &mut Option<Part>, least: &mut u64, buf: &mut [u8]) -> Event
    requires room { 0 < length buf.old }
    requires is_event { AreEvents least.old (entry ∷ []) }
    requires none { kept.old ≡ None }
    ensures next { (later : List Entry) → IsNextEvent result buf.old buf.new
        (entry ∷ later) (part_entries kept.new ++ later) }
    ensures least { least.new ≡ least_after result least.old }
    ensures raises { RaisesLeast result least.old least.new }
    ensures within { IsInBuffer result buf.new }
{
    match entry {
        LogEntry::Joined(k) => {
            *least = u64::from(k) + 1;
            Event::Join(k)
        }
        LogEntry::Came(from, bytes) => {
            let rest = SteadySource::new(bytes.into_vec());
            give(Part { from, rest }, kept, buf)
        }
        LogEntry::Left(k) => Event::Gone(k),
        LogEntry::Ticked => Event::Tick,
        _ => Event::End,
    }
}

/// Says whether entries are events.
fn are_events(entries: &[LogEntry]) -> bool
    ensures { IsTrue result ↔ AreEvents 0 entries.now }
{
    let mut least = 0;
    for entry in entries {
        let Some(next) = least_behind(entry, least) else {
            return false;
        };
        least = next;
    }
    true
}

/// Answers the least number that the next one to join may have behind an entry, or `None` where the
/// entry is no event.
fn least_behind(entry: &LogEntry, least: u64) -> Option<u64>
    ensures some { IfSome result (λ next. (rest : List Entry) →
        AreEvents least (entry.now ∷ rest) ↔ AreEvents next rest) }
    ensures none { IfNone result ((rest : List Entry) → AreEvents least (entry.now ∷ rest) → ⊥) }
{
    match entry {
        LogEntry::Joined(k) => {
            let next = u64::from(*k);
            if next < least {
                return None;
            }
            Some(next + 1)
        }
        LogEntry::Came(_, bytes) => {
            if bytes.as_slice().is_empty() {
                return None;
            }
            Some(least)
        }
        LogEntry::Left(_) | LogEntry::Ticked => Some(least),
        _ => None,
    }
}
