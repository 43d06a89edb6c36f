ghost use Rattle.std.specs.Prelude.{◌≡◌, ◌==◌, OnOk, IfErr, if◌then◌else◌};
ghost use Rattle.mc_wire.specs.Count.{StandsOrRises};
ghost use Rattle.mc_capture.specs.Viewed.{faults_of};
ghost use Rattle.mc_show.specs.Following.{first_followed, followed_by};
ghost use Rattle.mc_show.specs.Shown.{EndsFollowing, EndsShow, IsFollowed, ShowsClient};

use crate::client::Client;
use mc_bytes::NoMemory;
use mc_capture::{CaptureEnd, Reader, Record};
use mc_wire::{Sink, Source};
use std::alloc::Global;

/// Reads a capture to its end, or to what is wrong with it, and follows the client of a number by
/// the records of its connection.
// A record is read where it stands: taken out of the Option it doubles what is to be proved here.
fn read_through<I: Source>(
    alloc: Global,
    number: u32,
    reader: &mut Reader<'_, I>,
    client: &mut Client,
) -> Result<(), CaptureEnd>
    requires { client.old ≡ first_followed }
    ensures reference { reader.new.input.ghost_name ≡ reader.old.input.ghost_name }
    ensures ok { OnOk result (IsFollowed number client.new
        (I.left reader.old.input.now) (I.left reader.new.input.now)) }
    ensures err { IfErr result (λ end. EndsFollowing end
        (I.left reader.old.input.now) (I.left reader.new.input.now)
        (I.faults reader.old.input.now) (I.faults reader.new.input.now)) }
    ensures counts { StandsOrRises
        (I.faults reader.old.input.now) (I.faults reader.new.input.now) }
{
    reader.head()?;
    for _ in 0..u64::MAX {
        let found = reader.next()?;
        match &found {
            None => return Ok(()),
            Some(record) => {
                let Ok(()) = take_own(alloc, number, record, client) else {
                    return Err(CaptureEnd::NoMemory);
                };
            }
        }
    }
    Err(CaptureEnd::NoMemory)
}

/// Takes a record of the connection of a number; one of another connection changes nothing.
fn take_own(alloc: Global, number: u32, rec: &Record, client: &mut Client) -> Result<(), NoMemory>
    ensures { OnOk result (client.new ≡ (if rec.now.connection == number
        then followed_by client.old rec.now else client.old)) }
{
    if rec.connection != number {
        return Ok(());
    }
    client.take(alloc, rec)
}

/// Reads a capture from a source, and follows the client of a number.
fn read_capture<I: Source>(
    alloc: Global,
    number: u32,
    input: &mut I,
    client: &mut Client,
) -> Result<(), CaptureEnd>
    requires { client.old ≡ first_followed }
    ensures ok { OnOk result (IsFollowed number client.new
        (I.left input.old) (I.left input.new)) }
    ensures err { IfErr result (λ end. EndsFollowing end (I.left input.old) (I.left input.new)
        (I.faults input.old) (I.faults input.new)) }
    ensures counts { StandsOrRises (I.faults input.old) (I.faults input.new) }
{
    let mut reader = Reader::new(alloc, input);
    read_through(alloc, number, &mut reader, client)
}

/// Reads a capture from a source, and writes what a client shows at its end.
fn show_into<I: Source, O: Sink>(
    alloc: Global,
    number: u32,
    input: &mut I,
    client: &mut Client,
    out: &mut O,
) -> Result<(), CaptureEnd>
    requires { client.old ≡ first_followed }
    ensures ok { OnOk result (ShowsClient number (I.left input.old) (I.left input.new)
        (O.held out.old) (O.held out.new)) }
    ensures err { IfErr result (λ end. EndsShow number end (I.left input.old) (I.left input.new)
        (O.held out.old) (O.held out.new)
        (faults_of (I.faults input.old) (O.faults out.old))
        (faults_of (I.faults input.new) (O.faults out.new))) }
    ensures in_counts { StandsOrRises (I.faults input.old) (I.faults input.new) }
    ensures out_counts { StandsOrRises (O.faults out.old) (O.faults out.new) }
{
    read_capture(alloc, number, input, client)?;
    client.dump(out)
}

/// Writes the world of one client out of a capture as text: the dump of what the packets of play
/// make of it that the client took, up to the first fault of that way of its connection. Ok where
/// the source was read to its end. Where the bytes are no capture nothing is written, and `Bad`
/// says what is wrong and where.
///
/// It holds that world, one record, and the part of a frame that each way of the connection waits
/// with.
pub fn show<I: Source, O: Sink>(
    alloc: Global,
    client: u32,
    input: &mut I,
    out: &mut O,
) -> Result<(), CaptureEnd>
    ensures ok { OnOk result (ShowsClient client (I.left input.old) (I.left input.new)
        (O.held out.old) (O.held out.new)) }
    ensures err { IfErr result (λ end. EndsShow client end (I.left input.old) (I.left input.new)
        (O.held out.old) (O.held out.new)
        (faults_of (I.faults input.old) (O.faults out.old))
        (faults_of (I.faults input.new) (O.faults out.new))) }
    ensures in_counts { StandsOrRises (I.faults input.old) (I.faults input.new) }
    ensures out_counts { StandsOrRises (O.faults out.old) (O.faults out.new) }
{
    let mut followed = Client::new(alloc);
    let shown = show_into(alloc, client, input, &mut followed, out);
    drop(followed);
    shown
}
