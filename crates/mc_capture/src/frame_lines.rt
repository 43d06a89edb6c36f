ghost use Rattle.std.specs.Prelude.{◌≡◌, ◌++◌, OnOk, OnErr, IsErrOf, decimal};
ghost use Rattle.mc_wire.specs.Count.{Rose, StandsOrRises};
ghost use Rattle.mc_capture.specs.FrameLines.{fault_line, fields_words, frame_head, frame_line};
ghost use Rattle.mc_capture.specs.FrameLines.{happening_line, happening_word, id_byte, state_words};
ghost use Rattle.mc_capture.specs.FrameLines.{way_words};
ghost use Rattle.mc_capture.specs.Gathering.{Gathers, WritesPart};

use crate::names::name_of;
use crate::pieces::{append_hex, make_room, put, put_hex};
use crate::states::{State, Way};
use crate::unwritten::Unwritten;
use itoa::Buffer;
use mc_bytes::{Cursor, NoMemory};
use mc_fields::take_varint;
use mc_wire::Sink;

/// More bytes than the words of a line have, without its fields.
const WORDS_MAX: usize = 64;

/// What a line of a way begins with.
fn way_words(way: Way) -> &'static str
    ensures { result.now ≡ way_words way }
{
    match way {
        Way::Up => "up ",
        Way::Down => "down ",
    }
}

/// The word of a state, between blanks.
fn state_words(state: State) -> &'static str
    ensures { result.now ≡ state_words state }
{
    match state {
        State::Hand => " hand ",
        State::Status => " status ",
        State::Login => " login ",
        State::Play => " play ",
    }
}

/// The value of an id: those of packets are below 256.
fn id_byte(id: i32) -> u8
    ensures { result ≡ id_byte id }
{
    (id.cast_unsigned() % 256) as u8
}

/// Appends the words of a way and the number of its connection.
fn append_way(k: u32, way: Way, lines: &mut Vec<u8>) -> Result<(), NoMemory>
    ensures { OnOk result (lines.new.items ≡ lines.old.items ++ (way_words way ++ decimal k)) }
{
    let mut digits = Buffer::new();
    lines.extend_from_slice(way_words(way).as_bytes())?;
    lines.extend_from_slice(digits.format(k).as_bytes())?;
    Ok(())
}

/// Appends what the line of a frame begins with.
fn append_head(k: u32, way: Way, state: State, id: u8, lines: &mut Vec<u8>) -> Result<(), NoMemory>
    ensures { OnOk result (lines.new.items ≡ lines.old.items ++ frame_head k way state id) }
{
    append_way(k, way, lines)?;
    lines.extend_from_slice(state_words(state).as_bytes())?;
    append_hex(&[id], lines)?;
    lines.extend_from_slice(b" ")?;
    lines.extend_from_slice(name_of(way, state, id).as_bytes())?;
    lines.extend_from_slice(b" ")?;
    Ok(())
}

/// What the line of a record that carries no bytes begins with, by its kind; a tick's is its own.
fn happening_word(kind: u8) -> &'static str
    ensures { result.now ≡ happening_word kind }
{
    match kind {
        0 => "join ",
        2 => "gone ",
        5 => "broke ",
        _ => "closed ",
    }
}

/// Appends what happened on a connection, by the kind of its record.
fn append_happening(kind: u8, k: u32, lines: &mut Vec<u8>) -> Result<(), NoMemory>
    ensures { OnOk result (lines.new.items ≡ lines.old.items ++ happening_line kind k) }
{
    if kind == 3 {
        lines.extend_from_slice(b"tick\n")?;
        return Ok(());
    }
    let mut digits = Buffer::new();
    lines.extend_from_slice(happening_word(kind).as_bytes())?;
    lines.extend_from_slice(digits.format(k).as_bytes())?;
    lines.extend_from_slice(b"\n")?;
    Ok(())
}

/// Puts what happened on a connection behind the lines that wait, by the kind of its record.
pub(crate) fn put_happening<O: Sink>(
    kind: u8,
    k: u32,
    lines: &mut Vec<u8>,
    out: &mut O,
) -> Result<(), Unwritten>
    ensures gathers { OnOk result (Gathers (O.held out.old) (O.held out.new)
        (lines.old.items ++ happening_line kind k) lines.new.items) }
    ensures part { OnErr result
        (WritesPart (O.held out.old) (O.held out.new) (lines.old.items ++ happening_line kind k)) }
    ensures failed { IsErrOf result Unwritten.Failed → Rose (O.faults out.old) (O.faults out.new) }
    ensures counts { StandsOrRises (O.faults out.old) (O.faults out.new) }
{
    make_room(WORDS_MAX, lines, out)?;
    append_happening(kind, k, lines)?;
    Ok(())
}

/// Appends the line of the first fault of a way.
fn append_fault(k: u32, way: Way, lines: &mut Vec<u8>) -> Result<(), NoMemory>
    ensures { OnOk result (lines.new.items ≡ lines.old.items ++ fault_line k way) }
{
    append_way(k, way, lines)?;
    lines.extend_from_slice(b" fault\n")?;
    Ok(())
}

/// Puts the line of the first fault of a way behind the lines that wait.
pub(crate) fn put_fault<O: Sink>(
    k: u32,
    way: Way,
    lines: &mut Vec<u8>,
    out: &mut O,
) -> Result<(), Unwritten>
    ensures gathers { OnOk result (Gathers (O.held out.old) (O.held out.new)
        (lines.old.items ++ fault_line k way) lines.new.items) }
    ensures part { OnErr result
        (WritesPart (O.held out.old) (O.held out.new) (lines.old.items ++ fault_line k way)) }
    ensures failed { IsErrOf result Unwritten.Failed → Rose (O.faults out.old) (O.faults out.new) }
    ensures counts { StandsOrRises (O.faults out.old) (O.faults out.new) }
{
    make_room(WORDS_MAX, lines, out)?;
    append_fault(k, way, lines)?;
    Ok(())
}

/// Puts what the line of a frame begins with behind the lines that wait.
fn put_head<O: Sink>(
    k: u32,
    way: Way,
    state: State,
    id: u8,
    lines: &mut Vec<u8>,
    out: &mut O,
) -> Result<(), Unwritten>
    ensures gathers { OnOk result (Gathers (O.held out.old) (O.held out.new)
        (lines.old.items ++ frame_head k way state id) lines.new.items) }
    ensures part { OnErr result
        (WritesPart (O.held out.old) (O.held out.new)
        (lines.old.items ++ frame_head k way state id)) }
    ensures failed { IsErrOf result Unwritten.Failed → Rose (O.faults out.old) (O.faults out.new) }
    ensures counts { StandsOrRises (O.faults out.old) (O.faults out.new) }
{
    make_room(WORDS_MAX, lines, out)?;
    append_head(k, way, state, id, lines)?;
    Ok(())
}

/// Puts the fields of a packet behind the lines that wait.
fn put_fields<O: Sink>(fields: &[u8], lines: &mut Vec<u8>, out: &mut O) -> Result<(), Unwritten>
    ensures gathers { OnOk result (Gathers (O.held out.old) (O.held out.new)
        (lines.old.items ++ fields_words fields.now) lines.new.items) }
    ensures part { OnErr result
        (WritesPart (O.held out.old) (O.held out.new)
        (lines.old.items ++ fields_words fields.now)) }
    ensures failed { IsErrOf result Unwritten.Failed → Rose (O.faults out.old) (O.faults out.new) }
    ensures counts { StandsOrRises (O.faults out.old) (O.faults out.new) }
{
    match fields {
        [] => put(b"-", lines, out),
        [_, ..] => put_hex(fields, lines, out),
    }
}

/// Puts the line of a frame behind the lines that wait; nothing where no id begins it.
#[tactic(auto, unfolding(crate::specs::FrameLines::frame_line))]
pub(crate) fn put_frame<O: Sink>(
    k: u32,
    way: Way,
    state: State,
    frame: &[u8],
    lines: &mut Vec<u8>,
    out: &mut O,
) -> Result<(), Unwritten>
    ensures gathers { OnOk result (Gathers (O.held out.old) (O.held out.new)
        (lines.old.items ++ frame_line k way state frame.now) lines.new.items) }
    ensures part { OnErr result (WritesPart (O.held out.old) (O.held out.new)
        (lines.old.items ++ frame_line k way state frame.now)) }
    ensures failed { IsErrOf result Unwritten.Failed → Rose (O.faults out.old) (O.faults out.new) }
    ensures counts { StandsOrRises (O.faults out.old) (O.faults out.new) }
{
    let mut cursor = Cursor::new(frame);
    let Ok(id) = take_varint(&mut cursor) else {
        return Ok(());
    };
    put_head(k, way, state, id_byte(id), lines, out)?;
    put_fields(cursor.rest(), lines, out)?;
    put(b"\n", lines, out)?;
    Ok(())
}
