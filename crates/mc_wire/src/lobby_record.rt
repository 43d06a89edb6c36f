ghost use Rattle.std.specs.Prelude.{◌≡◌, [], ◌∷◌, length, OnOk};
ghost use Rattle.mc_wire.specs.LobbyTold.{nothing_called, with_port, with_pace, with_entries};
ghost use Rattle.mc_wire.specs.LobbyAnswers.{event_entry, wrote_entry};
ghost use Rattle.mc_wire.specs.LobbyAnswers.{IsInBuffer, IsInPiece};
ghost use Rattle.mc_wire.specs.Becoming.{ToldBecomes, Logs};

use crate::{Event, LogEntry, Pace, Wrote};
use mc_bytes::{NoMemory, Octets};
use std::alloc::Global;
use std::marker::Model;

/// What a lobby in memory keeps of its calls. Contracts see it as what the lobby tells.
#[derive(Drop)]
pub struct LobbyRecord {
    ports: Vec<u16>,
    pace: Option<Pace>,
    log: Vec<LogEntry>,
}

impl Model for LobbyRecord {
    ghost use Rattle.mc_wire.specs.LobbyTold.{LobbyTold};

    ghost Value = { LobbyTold };

    ghost view = { λ kept. record {
      ports = kept.ports.items;
      pace = kept.pace;
      log = kept.log.items;
    } };
}

impl LobbyRecord {
    /// The record before the first call.
    pub fn new(alloc: Global) -> LobbyRecord
        ensures { result ≡ nothing_called }
    {
        LobbyRecord {
            ports: Vec::new(alloc),
            pace: None,
            log: Vec::new(alloc),
        }
    }

    /// The log.
    pub fn log(&self) -> &[LogEntry]
        ensures { result.now ≡ self.now.log }
    {
        self.log.as_slice()
    }

    /// Puts an answer behind the log.
    fn add(&mut self, entry: LogEntry) -> Result<(), NoMemory>
        ensures { OnOk result (self.new ≡ with_entries (entry ∷ []) self.old) }
    {
        self.log.push(entry)?;
        Ok(())
    }

    /// Puts bytes that came behind the log.
    fn add_came(&mut self, k: u32, bytes: &[u8]) -> Result<(), NoMemory>
        ensures { OnOk result (self.new ≡ with_entries (LogEntry.Came k bytes.now ∷ []) self.old) }
    {
        let bytes = Octets::from_slice(*self.log.allocator(), bytes)?;
        self.log.push(LogEntry::Came(k, bytes))?;
        Ok(())
    }

    /// Puts bytes that were written behind the log.
    fn add_put(&mut self, k: u32, bytes: &[u8]) -> Result<(), NoMemory>
        ensures { OnOk result (self.new ≡ with_entries (LogEntry.Put k bytes.now ∷ []) self.old) }
    {
        let bytes = Octets::from_slice(*self.log.allocator(), bytes)?;
        self.log.push(LogEntry::Put(k, bytes))?;
        Ok(())
    }

    /// Puts a port behind the ports.
    fn add_port(&mut self, port: u16) -> Result<(), NoMemory>
        ensures { OnOk result (self.new ≡ with_port port self.old) }
    {
        self.ports.push(port)?;
        Ok(())
    }

    /// Keeps the pace.
    fn set_pace(&mut self, pace: Pace)
        ensures { self.new ≡ with_pace pace self.old }
    {
        self.pace = Some(pace);
    }
}

/// Notes a pace, where a record is kept.
pub fn note_pace(kept: &mut Option<LobbyRecord>, pace: Pace)
    ensures { ToldBecomes kept.old kept.new (with_pace pace) }
{
    if let Some(told) = kept {
        told.set_pace(pace);
    }
}

/// Notes a port, or gives the record up where there is no memory for it.
pub fn note_port(kept: &mut Option<LobbyRecord>, port: u16)
    ensures { ToldBecomes kept.old kept.new (with_port port) }
{
    if let Some(told) = kept
        && told.add_port(port).is_err()
    {
        *kept = None;
    }
}

/// Notes an answer, or gives the record up where there is no memory for it.
pub fn note(kept: &mut Option<LobbyRecord>, entry: LogEntry)
    ensures { Logs kept.old kept.new (entry ∷ []) }
{
    if let Some(told) = kept
        && told.add(entry).is_err()
    {
        *kept = None;
    }
}

/// Notes bytes that came, or gives the record up where there is no memory for them.
fn note_came(kept: &mut Option<LobbyRecord>, k: u32, bytes: &[u8])
    ensures { Logs kept.old kept.new (LogEntry.Came k bytes.now ∷ []) }
{
    if let Some(told) = kept
        && told.add_came(k, bytes).is_err()
    {
        *kept = None;
    }
}

/// Notes bytes that were written, or gives the record up where there is no memory for them.
fn note_put(kept: &mut Option<LobbyRecord>, k: u32, bytes: &[u8])
    ensures { Logs kept.old kept.new (LogEntry.Put k bytes.now ∷ []) }
{
    if let Some(told) = kept
        && told.add_put(k, bytes).is_err()
    {
        *kept = None;
    }
}

/// Notes an event whose bytes stand in the buffer.
pub fn note_event(kept: &mut Option<LobbyRecord>, event: Event, buf: &[u8])
    requires within { IsInBuffer event buf.now }
    ensures { Logs kept.old kept.new (event_entry event buf.now ∷ []) }
{
    match event {
        Event::Join(k) => note(kept, LogEntry::Joined(k)),
        Event::Bytes(k, count) => note_came(kept, k, &buf[..count]),
        Event::Gone(k) => note(kept, LogEntry::Left(k)),
        Event::Tick => note(kept, LogEntry::Ticked),
        Event::End => note(kept, LogEntry::Ended),
    }
}

/// Notes what a write of a piece answered.
pub fn note_write(kept: &mut Option<LobbyRecord>, wrote: Wrote, k: u32, piece: &[u8])
    requires within { IsInPiece wrote (length piece.now) }
    ensures { Logs kept.old kept.new (wrote_entry wrote k piece.now ∷ []) }
{
    match wrote {
        Wrote::Took(count) => note_put(kept, k, &piece[..count]),
        Wrote::Stalled => note(kept, LogEntry::Stalled(k)),
        Wrote::Broken => note(kept, LogEntry::Broke(k)),
    }
}
