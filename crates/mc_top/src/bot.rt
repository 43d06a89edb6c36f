ghost use Rattle.std.specs.Prelude.{◌≡◌, IfErr, IfOk};
ghost use Rattle.mc_words.specs.Devices.{link_device, streams};
ghost use Rattle.mc_top.specs.BotPromise.{BotEnds, IsScript, bad_of, ended_by_play, kind_of};
ghost use Rattle.mc_top.specs.BotReading.{HasNoScript};

use mc_bot::{BotFault, Script, ScriptFault, ScriptKind, ScriptRead, play};
use mc_wire::{InputError, Link, Sink, Source};
use mc_text::read_text;
use mc_words::{BadInput, BotOptions, Ended, InputFault, Refusal};
use std::alloc::Global;

/// What is wrong with a line of a bot's script, as a fault of an input.
fn kind_of(kind: ScriptKind) -> InputFault
    ensures { result ≡ kind_of kind }
{
    match kind {
        ScriptKind::Word => InputFault::Word,
        ScriptKind::Number => InputFault::Number,
        ScriptKind::Hex => InputFault::Hex,
        ScriptKind::Order => InputFault::Order,
        ScriptKind::Long => InputFault::Long,
    }
}

/// The first fault of a bot's script, as that of an input.
fn bad_of(fault: ScriptFault) -> BadInput
    ensures { result ≡ bad_of fault }
{
    BadInput {
        at: u64::from(fault.line),
        kind: kind_of(fault.kind),
    }
}

/// Reads an input as a bot's script, or says how the command ends without one.
fn read_script<I: Source>(alloc: Global, input: &mut I) -> Result<Script, Ended>
    ensures script { IfOk result (λ script. IsScript script (I.left input.old) (I.left input.new)) }
    ensures none { IfErr result (λ how. HasNoScript how (I.left input.old) (I.left input.new)
        (I.faults input.old) (I.faults input.new)) }
{
    let text = match read_text(alloc, input) {
        Ok(text) => text,
        Err(InputError::Failed) => return Err(Ended::ReadFault),
        Err(InputError::NoMemory) => return Err(Ended::NoMemory),
    };
    match Script::read(alloc, &text) {
        Ok(script) => Ok(script),
        Err(ScriptRead::Bad(fault)) => Err(Ended::BadInput(bad_of(fault))),
        Err(ScriptRead::NoMemory) => Err(Ended::NoMemory),
    }
}

/// How the command ends where its script was played so.
fn ended_by_play(played: Result<(), BotFault>) -> Ended
    ensures { result ≡ ended_by_play played }
{
    match played {
        Ok(()) => Ended::Done,
        Err(BotFault::Link) => Ended::NetFault,
        Err(BotFault::Write) => Ended::WriteFault,
        Err(BotFault::Closed(_)) => Ended::Refused(Refusal::Closed),
        Err(BotFault::Frame(_)) => Ended::Refused(Refusal::Frame),
        Err(BotFault::Packet(_, _)) => Ended::Refused(Refusal::Packet),
        Err(BotFault::Body(_)) => Ended::Refused(Refusal::Body),
        Err(BotFault::Patience(quiets)) => Ended::Budget(quiets),
        Err(BotFault::Expect { line, want, have }) => {
            Ended::Refused(Refusal::Expect { line, want, have })
        }
        Err(BotFault::NoMemory) => Ended::NoMemory,
    }
}

/// The command `bot`: it reads a script, plays it over a link, and writes the dump of what its
/// client sees at the end.
pub fn bot<K: Link, I: Source, O: Sink>(
    alloc: Global,
    options: BotOptions,
    link: &mut K,
    input: &mut I,
    out: &mut O,
) -> Ended
    ensures { BotEnds (λ line. out.new ≡ out.old) options result
        (link_device (K.told link.old) (K.stage link.old) (K.counts link.old))
        (link_device (K.told link.new) (K.stage link.new) (K.counts link.new))
        (streams (I.left input.old) (I.faults input.old) (O.held out.old) (O.faults out.old))
        (streams (I.left input.new) (I.faults input.new) (O.held out.new) (O.faults out.new)) }
{
    let script = match read_script(alloc, input) {
        Ok(script) => script,
        Err(ended) => return ended,
    };
    let patience = u64::from(options.patience);
    let played = play(alloc, &script, options.port, patience, link, out);
    drop(script);
    ended_by_play(played)
}
