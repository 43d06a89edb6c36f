ghost use Rattle.std.specs.Prelude.{◌≡◌, ◌<◌, true, length, OnOk};

use mc_devices::SocketLobby;
use mc_wire::{Event, Failed, Lobby, Pace, Wrote};
use std::io;
use std::io::{Read, Write};
use std::net::{Ipv4Addr, Net, SocketAddr, TcpListener, TcpStream};
use std::process::Abort;
use std::test::Fail;

/// How many ticks are passed over at most.
const TICKS: u32 = 100_000;

/// How many writes and reads are tried at most, until a socket takes no more or has given all.
const TRIES: u32 = 1_000_000;

/// How many bytes are written and read at once.
const PIECE: usize = 65_536;

/// The next event that is no tick.
fn next_but_ticks(lobby: &mut SocketLobby<'_, HostRuntime>, buf: &mut [u8]) -> Result<Event, Failed>
    requires listening { lobby.old.listens ≡ true }
    requires room { 0 < length buf.old }
    ensures { lobby.new.listens ≡ true }
{
    for _ in 0..TICKS {
        let event = lobby.next(buf)?;
        if event != Event::Tick {
            return Ok(event);
        }
    }
    Err(Failed)
}

/// A port on 127.0.0.1.
fn address(port: u16) -> SocketAddr {
    SocketAddr::from((Ipv4Addr::LOCALHOST, port))
}

/// A client of the lobby that sent these bytes.
fn client_of(net: &impl Net<Stream = TcpStream>, port: u16, bytes: &[u8]) -> io::Result<TcpStream> {
    let mut client = TcpStream::connect(net, address(port))?;
    client.write_all(bytes)?;
    Ok(client)
}

/// The next two bytes that the client reads.
fn read(mut client: &TcpStream) -> io::Result<[u8; 2]> {
    let mut buf = [0u8; 2];
    client.read_exact(&mut buf)?;
    Ok(buf)
}

// The first client sends before the lobby reads, and gets an answer.
fn talks<R: Abort + Net<Listener = TcpListener, Stream = TcpStream>>(
    rt: &R,
    port: u16,
    lobby: &mut SocketLobby<'_, HostRuntime>,
) -> Result<TcpStream, Fail>
    requires { lobby.old.listens ≡ true }
    ensures { lobby.new.listens ≡ true }
{
    let client = client_of(rt, port, b"ab")?;
    let mut buf = *b"....";
    assert_eq!(rt; lobby.next(&mut buf)?, Event::Join(0));
    assert_eq!(rt; next_but_ticks(lobby, &mut buf)?, Event::Bytes(0, 2));
    assert_eq!(rt; buf, *b"ab..");
    assert_eq!(rt; lobby.write(0, b"hi"), Wrote::Took(2));
    assert_eq!(rt; read(&client)?, *b"hi");
    Ok(client)
}

// The second client is closed while a byte of it waits, and still reads what was written to it.
fn parts<R: Abort + Net<Listener = TcpListener, Stream = TcpStream>>(
    rt: &R,
    port: u16,
    lobby: &mut SocketLobby<'_, HostRuntime>,
) -> Result<(), Fail>
    requires { lobby.old.listens ≡ true }
    ensures { lobby.new.listens ≡ true }
{
    let mut client = client_of(rt, port, b"c")?;
    let mut buf = [0u8; 2];
    assert_eq!(rt; next_but_ticks(lobby, &mut buf)?, Event::Join(1));
    assert_eq!(rt; lobby.write(1, b"no"), Wrote::Took(2));
    lobby.close(1);
    assert_eq!(rt; lobby.next(&mut buf)?, Event::Tick);
    assert_eq!(rt; read(&client)?, *b"no");
    assert_eq!(rt; client.read(&mut buf)?, 0);
    Ok(())
}

// The lobby listens on a port that the system chooses, and ticks come by turns.
fn begins(lobby: &mut SocketLobby<'_, HostRuntime>) -> Result<u16, Fail>
    ensures { OnOk result (lobby.new.listens ≡ true) }
{
    lobby.pace(Pace::Turns);
    lobby.listen(0)?;
    Ok(lobby.port().ok_or(Failed)?)
}

// The first client is gone, and with it the last one.
fn ends<R: Abort>(rt: &R, lobby: &mut SocketLobby<'_, HostRuntime>) -> Result<(), Fail>
    requires { lobby.old.listens ≡ true }
{
    let mut buf = [0u8; 1];
    assert_eq!(rt; next_but_ticks(lobby, &mut buf)?, Event::Gone(0));
    lobby.close(0);
    assert_eq!(rt; lobby.write(0, b"no"), Wrote::Broken);
    assert_eq!(rt; lobby.next(&mut buf)?, Event::End);
    Ok(())
}

// Two clients by turns.
fn serves<R: Abort + Net<Listener = TcpListener, Stream = TcpStream>>(
    rt: &R,
    lobby: &mut SocketLobby<'_, HostRuntime>,
) -> Result<(), Fail> {
    let port = begins(lobby)?;
    let first = talks(rt, port, lobby)?;
    let parted = parts(rt, port, lobby);
    drop(first);
    parted?;
    ends(rt, lobby)
}

#[test]
fn serves_two_clients_by_turns(rt: HostRuntime) -> Result<(), Fail> {
    let mut lobby = SocketLobby::new(&rt);
    let done = serves(&rt, &mut lobby);
    // A lobby is dear to let go of at each exit.
    drop(lobby);
    done
}

// How many bytes a connection takes until it takes no more.
fn fills(lobby: &mut SocketLobby<'_, HostRuntime>, piece: &[u8]) -> Result<u64, Failed>
    requires listening { lobby.old.listens ≡ true }
    requires some { 0 < length piece.now }
    ensures { lobby.new.listens ≡ true }
{
    let mut count: u64 = 0;
    for _ in 0..TRIES {
        match lobby.write(0, piece) {
            Wrote::Took(n) => count = count.saturating_add(n as u64),
            Wrote::Stalled => return Ok(count),
            Wrote::Broken => return Err(Failed),
        }
    }
    Err(Failed)
}

// Writes a last byte as soon as the connection takes one again.
fn ends_with_one(lobby: &mut SocketLobby<'_, HostRuntime>) -> Result<(), Failed>
    requires listening { lobby.old.listens ≡ true }
    ensures { lobby.new.listens ≡ true }
{
    let mut buf = [0u8; 1];
    for _ in 0..TICKS {
        if lobby.write(0, &[1]) == Wrote::Took(1) {
            return Ok(());
        }
        lobby.next(&mut buf)?;
    }
    Err(Failed)
}

// How many bytes a client reads until these are so many, or a last byte that is 1 comes.
fn reads(mut client: &TcpStream, buf: &mut [u8], most: u64) -> io::Result<u64> {
    let mut count: u64 = 0;
    for _ in 0..TRIES {
        let came = client.read(buf)?;
        count = count.saturating_add(came as u64);
        if came == 0 || count >= most || buf[came - 1] == 1 {
            break;
        }
    }
    Ok(count)
}

// More is written to a client than its socket takes, and the client reads just what was taken.
fn fills_a_socket<R: Abort + AllocGlobal + Net<Listener = TcpListener, Stream = TcpStream>>(
    rt: &R,
    lobby: &mut SocketLobby<'_, HostRuntime>,
) -> Result<(), Fail> {
    let port = begins(lobby)?;
    let client = client_of(rt, port, b"")?;
    let mut piece = vec![in rt.alloc(); 0u8; PIECE]?;
    assert_eq!(rt; lobby.next(piece.as_mut_slice())?, Event::Join(0));
    let taken = fills(lobby, piece.as_slice())?;
    assert!(rt; taken > 0);
    let first = reads(&client, piece.as_mut_slice(), taken / 2)?;
    ends_with_one(lobby)?;
    let last = reads(&client, piece.as_mut_slice(), u64::MAX)?;
    assert_eq!(rt; first.saturating_add(last), taken.saturating_add(1));
    drop(client);
    ends(rt, lobby)
}

#[test]
fn a_full_socket_takes_a_part(rt: HostRuntime) -> Result<(), Fail> {
    let mut lobby = SocketLobby::new(&rt);
    let done = fills_a_socket(&rt, &mut lobby);
    drop(lobby);
    done
}
