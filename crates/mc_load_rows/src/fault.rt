use mc_bytes::{NoMemory, ReadFault};

/// Why the replicas of a load were not compared to its end.
#[derive(Clone, Copy)]
pub enum Fault {
    NoMemory,
    /// A client was sent bytes that are no frame, or a frame that is no packet or can't be applied.
    Packet(u32),
    /// A client is not in play.
    Gone(u32),
    /// A replica differs from what the server says of its client.
    Differs(u32, &'static str),
}

impl From<NoMemory> for Fault {
    fn from(_: NoMemory) -> Fault {
        Fault::NoMemory
    }
}

/// The fault of a client whose packet could not be read or applied.
pub fn packet_fault(client: u32, fault: &ReadFault) -> Fault {
    match fault {
        ReadFault::NoMemory => Fault::NoMemory,
        ReadFault::Field(_) => Fault::Packet(client),
    }
}
