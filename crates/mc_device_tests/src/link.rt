ghost use Rattle.std.specs.Prelude.{◌≡◌, ◌<◌, true, length, OnOk};

use mc_devices::TcpLink;
use mc_wire::{Failed, Got, Link};
use std::io::{Read, Write};
use std::net::{Ipv4Addr, Net, SocketAddr, TcpListener, TcpStream};
use std::process::Abort;
use std::test::Fail;

/// How many quiet reads are passed over at most, and how many writes are tried until a socket takes
/// no more.
const TRIES: u32 = 100_000;

/// How many bytes are written at once.
const PIECE: usize = 65_536;

/// The next answer that is not quiet.
fn next_but_quiets(link: &mut TcpLink<'_, HostRuntime>, buf: &mut [u8]) -> Result<Got, Failed>
    requires connected { link.old.stage.connected ≡ true }
    requires room { 0 < length buf.old }
    ensures { link.new.stage.connected ≡ true }
{
    for _ in 0..TRIES {
        let got = link.read(buf)?;
        if got != Got::Quiet {
            return Ok(got);
        }
    }
    Err(Failed)
}

// The server that the link connects to, which listens on a port that the system chooses.
fn server_of<R: Net<Listener = TcpListener, Stream = TcpStream>>(
    rt: &R,
    link: &mut TcpLink<'_, HostRuntime>,
) -> Result<TcpStream, Fail>
    ensures { OnOk result (link.new.stage.connected ≡ true) }
{
    let listener = TcpListener::bind(rt, SocketAddr::from((Ipv4Addr::LOCALHOST, 0)))?;
    let port = listener.local_addr()?.port();
    link.connect(port)?;
    let (server, _) = listener.accept()?;
    Ok(server)
}

// The link is quiet until the server sends, answers it, and comes to its end.
fn talks<R: Abort + Net<Listener = TcpListener, Stream = TcpStream>>(
    rt: &R,
    link: &mut TcpLink<'_, HostRuntime>,
) -> Result<(), Fail> {
    let mut server = server_of(rt, link)?;
    let mut buf = [0u8; 2];
    assert_eq!(rt; link.read(&mut buf), Ok(Got::Quiet));
    server.write_all(b"abc")?;
    assert_eq!(rt; next_but_quiets(link, &mut buf)?, Got::Bytes(2));
    assert_eq!(rt; buf, *b"ab");
    assert_eq!(rt; next_but_quiets(link, &mut buf)?, Got::Bytes(1));
    assert_eq!(rt; buf, *b"cb");
    assert_eq!(rt; link.write(b"hi"), Ok(2));
    server.read_exact(&mut buf)?;
    assert_eq!(rt; buf, *b"hi");
    drop(server);
    assert_eq!(rt; next_but_quiets(link, &mut buf)?, Got::End);
    Ok(())
}

#[test]
fn talks_to_a_server(rt: HostRuntime) -> Result<(), Fail> {
    let mut link = TcpLink::new(&rt);
    let done = talks(&rt, &mut link);
    drop(link);
    done
}

// The port of a listener that is closed.
fn closed_port<R: Net<Listener = TcpListener, Stream = TcpStream>>(rt: &R) -> Result<u16, Fail> {
    let listener = TcpListener::bind(rt, SocketAddr::from((Ipv4Addr::LOCALHOST, 0)))?;
    Ok(listener.local_addr()?.port())
}

#[test]
fn fails_where_nobody_listens(rt: HostRuntime) -> Result<(), Fail> {
    let port = closed_port(&rt)?;
    let mut link = TcpLink::new(&rt);
    assert_eq!(rt; link.connect(port), Err(Failed));
    Ok(())
}

// How many bytes a link takes until a write fails.
fn fills(link: &mut TcpLink<'_, HostRuntime>, piece: &[u8]) -> u64
    requires connected { link.old.stage.connected ≡ true }
    requires some { 0 < length piece.now }
{
    let mut count: u64 = 0;
    for _ in 0..TRIES {
        match link.write(piece) {
            Ok(n) => count = count.saturating_add(n as u64),
            Err(Failed) => break,
        }
    }
    count
}

// A server that reads nothing takes what its socket holds, and the write behind that fails.
fn fills_a_socket<R: Abort + AllocGlobal + Net<Listener = TcpListener, Stream = TcpStream>>(
    rt: &R,
    link: &mut TcpLink<'_, HostRuntime>,
) -> Result<(), Fail> {
    let mut server = server_of(rt, link)?;
    let mut piece = vec![in rt.alloc(); 0u8; PIECE]?;
    let taken = fills(link, piece.as_slice());
    assert!(rt; taken > 0);
    server.read_exact(&mut piece.as_mut_slice()[..1])?;
    Ok(())
}

#[test]
fn a_write_that_would_block_fails(rt: HostRuntime) -> Result<(), Fail> {
    let mut link = TcpLink::new(&rt);
    let done = fills_a_socket(&rt, &mut link);
    drop(link);
    done
}
