ghost use Rattle.std.specs.Prelude.{◌≡◌, [], ◌∷◌, ◌++◌, OnOk};
ghost use Rattle.mc_wire.specs.LinkState.{KeptGrows};

use mc_bytes::NoMemory;
use std::alloc::Global;
use std::marker::Model;

/// What a link in memory keeps of its calls: the ports that it was to connect to, and the bytes
/// that it took.
#[derive(Drop)]
pub struct LinkRecord {
    ports: Vec<u16>,
    taken: Vec<u8>,
}

impl Model for LinkRecord {
    ghost use Rattle.mc_wire.specs.LinkState.{LinkKept};

    ghost Value = { LinkKept };

    ghost view = { λ kept. record { ports = kept.ports.items; taken = kept.taken.items } };
}

impl LinkRecord {
    /// The record before the first call.
    pub fn new(alloc: Global) -> LinkRecord
        ensures { result ≡ record { ports = []; taken = [] } }
    {
        LinkRecord {
            ports: Vec::new(alloc),
            taken: Vec::new(alloc),
        }
    }

    /// The bytes that were taken.
    pub fn taken(&self) -> &[u8]
        ensures { result.now ≡ self.now.taken }
    {
        self.taken.as_slice()
    }

    /// Puts a port behind the ports.
    fn add_port(&mut self, port: u16) -> Result<(), NoMemory>
        ensures { OnOk result (self.new ≡ record self.old { ports = self.old.ports ++ port ∷ [] }) }
    {
        self.ports.push(port)?;
        Ok(())
    }

    /// Puts bytes behind those that were taken.
    fn add_taken(&mut self, bytes: &[u8]) -> Result<(), NoMemory>
        ensures { OnOk result (self.new ≡ record self.old {
          taken = self.old.taken ++ bytes.now;
        }) }
    {
        self.taken.extend_from_slice(bytes)?;
        Ok(())
    }
}

/// Keeps a port, or gives the record up where there is no memory for it.
pub fn keep_port(kept: &mut Option<LinkRecord>, port: u16)
    ensures { KeptGrows kept.old kept.new (port ∷ []) [] }
{
    if let Some(record) = kept
        && record.add_port(port).is_err()
    {
        *kept = None;
    }
}

/// Keeps bytes that were taken, or gives the record up where there is no memory for them.
pub fn keep_taken(kept: &mut Option<LinkRecord>, bytes: &[u8])
    ensures { KeptGrows kept.old kept.new [] bytes.now }
{
    if let Some(record) = kept
        && record.add_taken(bytes).is_err()
    {
        *kept = None;
    }
}
