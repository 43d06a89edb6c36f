//! The tests of the devices of `mc_devices`: over slices, and over a loopback socket.
//!
//! A crate with tests is proved once more for them, so these stand apart from what they try.
#![tactic(auto)]

#[cfg(test)]
mod input;
#[cfg(test)]
mod link;
#[cfg(test)]
mod output;
#[cfg(test)]
mod sockets;
