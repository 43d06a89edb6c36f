ghost use Rattle.std.specs.Prelude.{◌≡◌, ◌++◌, None, OnOk, IsErrOf, true};
ghost use Rattle.mc_fields.specs.Text.{FitsText};
ghost use Rattle.mc_model.specs.Replica.{Replica, new_replica};
ghost use Rattle.mc_wire.specs.Count.{NeverFalls, Rose, StandsOrRises};
ghost use Rattle.mc_bot.specs.LinkFaults.{LinkFaults};
ghost use Rattle.mc_bot.specs.Played.{HasPlayedScript, HasRun, HasSent, replica_rules};
ghost use Rattle.mc_bot.specs.Playing.{handshake_frame, hello, rules_of, start_frame};

use crate::playing::Playing;
use crate::sending::send_bytes;
use crate::{BotFault, Script};
use mc_bytes::{NoMemory, Text};
use mc_frame::write_frame;
use mc_hello::{Hand, LoginUp, write_hand, write_login_up};
use mc_replica::{Replica, Seer};
use mc_wire::{Link, Sink};
use std::alloc::Global;

/// Appends the handshake, which wants a login.
#[tactic(auto, using(crate::proofs::Hello::handshake_spelled, crate::proofs::Hello::handshake_framed), unfolding(crate::specs::Playing::handshake_frame))]
fn put_handshake(alloc: Global, port: u16, out: &mut Vec<u8>) -> Result<(), NoMemory>
    ensures { OnOk result (out.new.items ≡ out.old.items ++ handshake_frame port) }
{
    let packet = Hand::Handshake {
        protocol: 47,
        address: Text::from_str(alloc, "localhost")?,
        port,
        next: 2,
    };
    let mut payload = Vec::new(alloc);
    let written = write_hand(&packet, &mut payload);
    drop(packet);
    written?;
    write_frame(payload.as_slice(), out)
}

/// Appends Login Start with a name.
#[tactic(auto, using(crate::proofs::Hello::start_spelled, crate::proofs::Hello::start_framed), unfolding(crate::specs::Playing::start_frame))]
fn put_start(alloc: Global, name: &Text, out: &mut Vec<u8>) -> Result<(), NoMemory>
    requires { FitsText 16 name.now }
    ensures { OnOk result (out.new.items ≡ out.old.items ++ start_frame name.now) }
{
    let packet = LoginUp::Start(name.copy()?);
    let mut payload = Vec::new(alloc);
    let written = write_login_up(&packet, &mut payload);
    drop(packet);
    written?;
    write_frame(payload.as_slice(), out)
}

/// Sends what a bot of a name sends first.
#[tactic(auto, using(crate::proofs::Coming::none_sent))]
fn send_hello<K: Link>(alloc: Global, name: &Text, port: u16, link: &mut K) -> Result<(), BotFault>
    requires fits { FitsText 16 name.now }
    requires connected { (K.stage link.old).connected ≡ true }
    ensures sent { HasSent (hello name.now port) (K.told link.old) (K.told link.new) result }
    ensures stands { K.stage link.new ≡ K.stage link.old }
    ensures link { LinkFaults (K.counts link.old).faults (K.counts link.new).faults result }
{
    let mut hello = Vec::new(alloc);
    put_handshake(alloc, port, &mut hello)?;
    put_start(alloc, name, &mut hello)?;
    send_bytes(link, hello.as_slice())
}

/// Plays a script over a link, up to its end.
#[tactic(auto, using(crate::proofs::Starting::begin_goes, crate::proofs::Starting::begin_patient, crate::proofs::Starting::connect_fails, crate::proofs::Starting::hello_fails, crate::proofs::Starting::new_fails, crate::proofs::Starting::run_all, crate::proofs::Starting::never_more, crate::proofs::Sends::never_then_rose, crate::proofs::Sends::send_failed))]
fn play_lines<S: Seer, K: Link>(
    alloc: Global,
    seer: &mut S,
    script: &Script,
    port: u16,
    patience: u64,
    link: &mut K,
) -> Result<(), BotFault>
    ensures runs { HasRun (record {
      rules = rules_of S.refused S.taken S.asked S.sent S.block_at S.slot_at S.window_at S.text;
      seen = seer.old;
      script = script.now;
      port = port;
      patience = patience;
      told = K.told link.old;
      held = None;
    }) (record {
      seen = seer.new;
      told = K.told link.new;
      stage = K.stage link.new;
      held = None;
    }) result }
    ensures failed { IsErrOf result BotFault.Link →
        Rose (K.counts link.old).faults (K.counts link.new).faults }
    ensures counts { NeverFalls (K.counts link.old).faults (K.counts link.new).faults }
{
    link.connect(port)?;
    send_hello(alloc, script.name(), port, link)?;
    let mut playing = Playing::new(alloc, patience)?;
    let played = playing.play(seer, link, script.lines());
    drop(playing);
    played
}

/// Plays a script over a link, with what follows the server, and writes its dump at the end.
#[tactic(auto, using(crate::proofs::Finishing::run_dumped, crate::proofs::Finishing::run_undumped, crate::proofs::Finishing::run_failed))]
pub fn play_with<S: Seer, K: Link, O: Sink>(
    alloc: Global,
    seer: &mut S,
    script: &Script,
    port: u16,
    patience: u64,
    link: &mut K,
    out: &mut O,
) -> Result<(), BotFault>
    // What it answers, what the link and the sink got, and what the seer is then.
    ensures plays { HasPlayedScript (record {
      rules = rules_of S.refused S.taken S.asked S.sent S.block_at S.slot_at S.window_at S.text;
      seen = seer.old;
      script = script.now;
      port = port;
      patience = patience;
      told = K.told link.old;
      held = O.held out.old;
    }) (record {
      seen = seer.new;
      told = K.told link.new;
      stage = K.stage link.new;
      held = O.held out.new;
    }) (out.new ≡ out.old) result }
    // A failure comes only from the device that failed.
    ensures link_failed { IsErrOf result BotFault.Link →
        Rose (K.counts link.old).faults (K.counts link.new).faults }
    ensures out_failed { IsErrOf result BotFault.Write →
        Rose (O.faults out.old) (O.faults out.new) }
    ensures link_counts { NeverFalls (K.counts link.old).faults (K.counts link.new).faults }
    ensures out_counts { StandsOrRises (O.faults out.old) (O.faults out.new) }
{
    play_lines(alloc, seer, script, port, patience, link)?;
    Ok(seer.print(out)?)
}

/// Plays a script over a link, and writes the dump of what the client sees at the end.
pub fn play<K: Link, O: Sink>(
    alloc: Global,
    script: &Script,
    port: u16,
    patience: u64,
    link: &mut K,
    out: &mut O,
) -> Result<(), BotFault>
    // What it answers, what the link and the sink got, and what the client sees then.
    ensures plays { (seen : Replica) × HasPlayedScript (record {
      rules = replica_rules;
      seen = new_replica;
      script = script.now;
      port = port;
      patience = patience;
      told = K.told link.old;
      held = O.held out.old;
    }) (record {
      seen = seen;
      told = K.told link.new;
      stage = K.stage link.new;
      held = O.held out.new;
    }) (out.new ≡ out.old) result }
    // A failure comes only from the device that failed.
    ensures link_failed { IsErrOf result BotFault.Link →
        Rose (K.counts link.old).faults (K.counts link.new).faults }
    ensures out_failed { IsErrOf result BotFault.Write →
        Rose (O.faults out.old) (O.faults out.new) }
    ensures link_counts { NeverFalls (K.counts link.old).faults (K.counts link.new).faults }
    ensures out_counts { StandsOrRises (O.faults out.old) (O.faults out.new) }
{
    let mut replica = Replica::new(alloc);
    let played = play_with(alloc, &mut replica, script, port, patience, link, out);
    drop(replica);
    played
}
