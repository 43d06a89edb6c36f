//! What a client sends when it comes.

ghost use Rattle.std.specs.Prelude.{◌≡◌, ◌++◌, ◌<◌, IfOk, OnOk, OnErr, length, take};
ghost use Rattle.mc_load.specs.Framed.{CanSend};
ghost use Rattle.mc_load.specs.Load.{arrival_bytes, hello_bytes, name_of, start_bytes};
ghost use Rattle.mc_load.specs.Load.{two_columns};

use crate::framing::put_frame;
use mc_bytes::{NoMemory, Text};
use mc_frame::write_frame;
use mc_hello::{Hand, LoginUp, write_hand, write_login_up};
use mc_up::PlayUp;
use std::alloc::Global;

/// Appends that it wants to play. Without memory `out` is as before.
fn put_hello(alloc: Global, out: &mut Vec<u8>) -> Result<(), NoMemory>
    ensures ok { OnOk result (out.new.items ≡ out.old.items ++ hello_bytes) }
    ensures err { OnErr result (out.new.items ≡ out.old.items) }
{
    let hello = Hand::Handshake {
        protocol: 47,
        address: Text::from_str(alloc, "localhost")?,
        port: 25_565,
        next: 2,
    };
    let mut payload = Vec::new(alloc);
    let written = write_hand(&hello, &mut payload);
    drop(hello);
    written?;
    write_frame(payload.as_slice(), out)
}

/// The name of a client.
fn name_of(alloc: Global, client: u32) -> Result<Text, NoMemory>
    ensures { IfOk result (λ name. name ≡ name_of client) }
{
    let name = format!(in alloc; "L{client}")?;
    Ok(Text::from_string(name))
}

/// Appends that it logs in under its name. Without memory `out` is as before.
fn put_start(alloc: Global, client: u32, out: &mut Vec<u8>) -> Result<(), NoMemory>
    requires { client < 50 }
    ensures ok { OnOk result (out.new.items ≡ out.old.items ++ start_bytes client) }
    ensures err { OnErr result (out.new.items ≡ out.old.items) }
{
    let start = LoginUp::Start(name_of(alloc, client)?);
    let mut payload = Vec::new(alloc);
    let written = write_login_up(&start, &mut payload);
    drop(start);
    written?;
    write_frame(payload.as_slice(), out)
}

/// The settings that ask for two columns on each side.
fn two_columns(alloc: Global) -> Result<PlayUp, NoMemory>
    ensures is { IfOk result (λ packet. packet ≡ two_columns) }
    ensures can { IfOk result CanSend }
{
    Ok(PlayUp::Settings {
        locale: Text::from_str(alloc, "en_US")?,
        view: 2,
        chat_mode: 0,
        colours: true,
        skin: 127,
    })
}

/// Appends the three frames of an arrival. Without memory what was there stays at the front.
fn put_arrival_frames(alloc: Global, client: u32, out: &mut Vec<u8>) -> Result<(), NoMemory>
    requires { client < 50 }
    ensures ok { OnOk result (out.new.items ≡ out.old.items ++ arrival_bytes client) }
    ensures err { OnErr result (take (length out.old.items) out.new.items ≡ out.old.items) }
{
    put_hello(alloc, out)?;
    put_start(alloc, client, out)?;
    put_frame(alloc, two_columns(alloc)?, out)
}

/// Appends what a client sends when it comes: that it wants to play, its name, and the view that it
/// asks for. Without memory `out` is as before.
pub fn put_arrival(alloc: Global, client: u32, out: &mut Vec<u8>) -> Result<(), NoMemory>
    requires { client < 50 }
    ensures ok { OnOk result (out.new.items ≡ out.old.items ++ arrival_bytes client) }
    ensures err { OnErr result (out.new.items ≡ out.old.items) }
{
    let start = out.len();
    let written = put_arrival_frames(alloc, client, out);
    if written.is_err() {
        out.truncate(start);
    }
    written
}
