//! What the clients of a generated load send.
//!
//! Stands on the packets that clients send (`mc_hello`, `mc_up`), on their frames (`mc_frame`), on
//! numbers with a fraction as they have them (`mc_fields`), and on the events of `mc_model`. Its
//! contract: what a client sends when it comes, and before each tick, is exactly what the
//! definition of the load says, and so is how many events a load has.
#![tactic(auto)]

mod arrival;
mod events;
mod framing;
mod turn;

pub use arrival::put_arrival;
pub use events::event_count;
pub use turn::put_turn;
