ghost use Rattle.std.specs.Prelude.{◌≡◌, ◌≤◌, ℕ, [], length, take, true, OnOk, OnErr};
ghost use Rattle.mc_wire.specs.Count.{Rose, StandsOrRises};
ghost use Rattle.mc_wire.specs.LinkTold.{Exchanges};
ghost use Rattle.mc_bot.specs.LinkFaults.{LinkFaults};
ghost use Rattle.mc_bot.specs.Played.{HasSent};

use crate::BotFault;
use mc_wire::{Failed, Link};

/// Writes a whole piece to a link. A failure leaves some first part of it written, and comes only
/// from the link.
#[tactic(auto, using(crate::proofs::Sends::send_begun, crate::proofs::Sends::send_failed))]
fn send<K: Link>(link: &mut K, piece: &[u8]) -> Result<(), Failed>
    requires { (K.stage link.old).connected ≡ true }
    ensures whole { OnOk result
        (Exchanges (K.told link.old) (K.told link.new) [] [] piece.now) }
    ensures part { OnErr result
        ((n : ℕ) × Exchanges (K.told link.old) (K.told link.new) [] [] (take n piece.now)) }
    ensures stands { K.stage link.new ≡ K.stage link.old }
    ensures failed { OnErr result (Rose (K.counts link.old).faults (K.counts link.new).faults) }
    ensures counts { StandsOrRises (K.counts link.old).faults (K.counts link.new).faults }
    ensures fewer { K.answers link.new ≤ K.answers link.old }
{
    let mut rest = piece;
    while !rest.is_empty() {
        let count = link.write(rest)?;
        rest = &rest[count..];
    }
    Ok(())
}

/// Writes a whole piece to a link, as a step of a play.
#[tactic(auto, using(crate::proofs::Coming::part_sent, crate::proofs::Coming::all_sent_told))]
pub fn send_bytes<K: Link>(link: &mut K, piece: &[u8]) -> Result<(), BotFault>
    requires connected { (K.stage link.old).connected ≡ true }
    ensures sent { HasSent piece.now (K.told link.old) (K.told link.new) result }
    ensures stands { K.stage link.new ≡ K.stage link.old }
    ensures link { LinkFaults (K.counts link.old).faults (K.counts link.new).faults result }
    ensures fewer { K.answers link.new ≤ K.answers link.old }
{
    match send(link, piece) {
        Ok(()) => Ok(()),
        Err(Failed) => Err(BotFault::Link),
    }
}
