//! The program: it collects its arguments, takes sockets, a stream, standard input and standard
//! output as devices, and ends with the status that `mc_top` answers. Two minds move its mobs. It
//! stands on `mc_top`, on the traits of `mc_wire` and `mc_entities` and on the devices of
//! `mc_devices`.
//!
//! Its one contract is that of `program`, which is the whole program over any four devices. What
//! the mobs do is a list of moves (`specs/Pacing.antt`).
#![tactic(auto)]

mod pacer;
mod program;

use mc_devices::{ReaderSource, SocketLobby, TcpLink, WriterSink};
use mc_entities::Mind;
use pacer::Pacer;
use program::{NO_MEMORY, program};
use std::process::ExitCode;
use std::rt::Env;
use std::{env, io};

/// The arguments after the program's name. One that is not UTF-8 names no command, so there are no
/// arguments then.
fn arguments<R: Env + AllocGlobal>(rt: &R) -> io::Result<Vec<String>> {
    match env::args(rt) {
        Ok(args) => Ok(args.skip(1).collect(rt.alloc())?),
        Err(error) if error.kind() == io::ErrorKind::InvalidData => Ok(Vec::new(rt.alloc())),
        Err(error) => Err(error),
    }
}

fn main(rt: HostRuntime) -> ExitCode {
    let mut minds: Vec<Box<dyn Mind>> = Vec::new(rt.alloc());
    let Ok(first) = Box::new(rt.alloc(), Pacer::new()) else {
        return ExitCode::from(NO_MEMORY);
    };
    let Ok(()) = minds.push(first) else {
        return ExitCode::from(NO_MEMORY);
    };
    let Ok(second) = Box::new(rt.alloc(), Pacer::new()) else {
        return ExitCode::from(NO_MEMORY);
    };
    let Ok(()) = minds.push(second) else {
        return ExitCode::from(NO_MEMORY);
    };
    let arguments = arguments(&rt);
    let mut lobby = SocketLobby::new(&rt);
    let mut link = TcpLink::new(&rt);
    let mut input = ReaderSource::new(rt.reader());
    let mut output = WriterSink::new(io::writer(&rt));
    ExitCode::from(program(
        rt.alloc(),
        arguments,
        &mut lobby,
        &mut link,
        &mut input,
        &mut output,
        minds,
    ))
}
