use mc_devices::WriterSink;
use mc_wire::{Failed, Sink};
use std::io;
use std::io::{ErrorKind, Write};
use std::test::Fail;

/// A writer that takes all, and of which nothing leaves.
#[derive(Drop)]
struct Unflushed;

impl Write for Unflushed {
    fn write(&mut self, buf: &[u8]) -> io::Result<usize> {
        Ok(buf.len())
    }

    fn flush(&mut self) -> io::Result<()> {
        Err(io::Error::from(ErrorKind::BrokenPipe))
    }
}

#[test]
fn writes_what_the_writer_takes(rt: HostRuntime) -> Result<(), Fail> {
    let mut held = [0u8; 3];
    let mut sink = WriterSink::new(held.as_mut_slice());
    assert_eq!(rt; sink.write(b"ab"), Ok(2));
    assert_eq!(rt; sink.write(b"cd"), Ok(1));
    assert_eq!(rt; sink.write(b"d"), Err(Failed));
    Ok(())
}

#[test]
fn fails_where_what_was_taken_does_not_leave(rt: HostRuntime) -> Result<(), Fail> {
    let mut sink = WriterSink::new(Unflushed);
    assert_eq!(rt; sink.write(b"ab"), Err(Failed));
    Ok(())
}
