ghost use Rattle.std.specs.Prelude.{◌↔◌, IsTrue};
ghost use Rattle.std.specs.IoError.{raw_os_error};
ghost use Rattle.mc_devices.specs.Limits.{IsNoDescriptor};

use mio::net::{TcpListener, TcpStream};
use std::io;
use std::net::{Ipv4Addr, Net, SocketAddr};
use std::os::fd::{AsFd, OwnedFd};

/// The error that says that this process has no descriptor left.
const EMFILE: i32 = 24;

/// The error that says that the whole system has none left.
const ENFILE: i32 = 23;

/// A socket that listens, and a descriptor that is spared: where none is left for a connection that
/// waits, that connection is accepted in its place and closed.
#[derive(Drop)]
pub struct Listening {
    /// The port on which it listens.
    pub port: u16,
    listener: TcpListener,
    spare: Option<OwnedFd>,
}

impl Listening {
    /// Listens on a port of 127.0.0.1; where that is 0, on one that the system chooses.
    pub fn new(net: &impl Net, port: u16) -> io::Result<Listening> {
        let listener = TcpListener::bind(net, SocketAddr::from((Ipv4Addr::LOCALHOST, port)))?;
        let port = listener.local_addr()?.port();
        let spare = spare_of(&listener);
        Ok(Listening {
            port,
            listener,
            spare,
        })
    }

    /// The next connection that waits, or `None` where none does, it was refused, or it failed
    /// before it was taken.
    pub fn accept(&mut self) -> Option<TcpStream> {
        match self.listener.accept() {
            Ok((stream, _)) => {
                let _ = stream.set_nodelay(true);
                Some(stream)
            }
            Err(error) => {
                if is_no_descriptor(&error) {
                    self.refuse();
                }
                None
            }
        }
    }

    /// Accepts a connection in place of the spare descriptor, and closes it.
    fn refuse(&mut self) {
        self.spare = None;
        let _ = self.listener.accept();
        self.spare = spare_of(&self.listener);
    }
}

/// Says whether a connection could not be accepted for want of a descriptor, and so still waits.
/// Every other failure is that of the connection which failed, and says nothing of the next one.
fn is_no_descriptor(error: &io::Error) -> bool
    ensures { IsTrue result ↔ IsNoDescriptor (raw_os_error error.now) }
{
    matches!(error.raw_os_error(), Some(EMFILE | ENFILE))
}

/// A second descriptor of a listener, where one is left.
fn spare_of(listener: &TcpListener) -> Option<OwnedFd> {
    listener.as_fd().try_clone_to_owned().ok()
}
