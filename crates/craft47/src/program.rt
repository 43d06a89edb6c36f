ghost use Rattle.std.specs.Prelude.{◌≡◌, ◌↔◌, IfOk, IfSome, IsErr, map};
ghost use Rattle.mc_words.specs.Arguments.{bytes_of, command_of};
ghost use Rattle.mc_words.specs.Devices.{devices, link_device, WroteLast};
ghost use Rattle.mc_words.specs.Ended.{usage_line};
ghost use Rattle.mc_top.specs.Promises.{IsStatus, KeepsPromise, NamesNone};
ghost use Rattle.craft47.specs.Pacing.{pacing};

use mc_entities::Mind;
use mc_top::run;
use mc_wire::{Link, Lobby, Sink, Source};
use std::alloc::Global;
use std::io;

/// The status where there is no memory for what the program begins with.
pub const NO_MEMORY: u8 = 1;

/// Runs the program over its devices, and answers its exit status: that of the command that the
/// arguments name, or the status 1 with nothing done where there was no memory for them. Two minds
/// that go to and fro move its mobs, as many as the arguments say.
pub fn program<L: Lobby, K: Link, I: Source, O: Sink, M: Mind>(
    alloc: Global,
    arguments: io::Result<Vec<String>>,
    lobby: &mut L,
    link: &mut K,
    input: &mut I,
    out: &mut O,
    minds: Vec<M>,
) -> u8
    requires pacing { map (λ mind. M.plan mind) minds.items ≡ pacing }
    ensures statuses { IsStatus result }
    ensures no_arguments { IsErr arguments → (result ≡ 1) × (lobby.new ≡ lobby.old)
        × (link.new ≡ link.old) × (input.new ≡ input.old) × (out.new ≡ out.old) }

    // 2: exactly where the arguments name no command; nothing was touched, and the usage line was
    // written.
    ensures usage { IfOk arguments (λ list. (result ≡ 2) ↔ NamesNone list.items) }
    ensures usage_line { result ≡ 2 → (lobby.new ≡ lobby.old) × (link.new ≡ link.old)
        × (input.new ≡ input.old) × WroteLast
        (O.held out.old) (O.held out.new) (O.faults out.old) (O.faults out.new) usage_line }

    // The others: the command that the arguments name ended with this status, and what it promises
    // of that holds.
    ensures promise { IfOk arguments (λ list. IfSome (command_of (bytes_of list.items)) (λ command.
        KeepsPromise pacing command result
        (devices (L.told lobby.old) (L.counts lobby.old)
        (link_device (K.told link.old) (K.stage link.old) (K.counts link.old))
        (I.left input.old) (I.faults input.old) (O.held out.old) (O.faults out.old))
        (devices (L.told lobby.new) (L.counts lobby.new)
        (link_device (K.told link.new) (K.stage link.new) (K.counts link.new))
        (I.left input.new) (I.faults input.new) (O.held out.new) (O.faults out.new)))) }
{
    match arguments {
        Ok(arguments) => run(alloc, arguments.as_slice(), lobby, link, input, out, minds),
        Err(_) => NO_MEMORY,
    }
}
