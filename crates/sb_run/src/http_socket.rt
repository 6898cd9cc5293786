//! The socket at which a node answers over HTTP: one at a path, or a port of this machine.
ghost use Rattle.std.specs.Prelude.{◌≡◌, ◌↔◌, IsTrue, IfErr};
ghost use Rattle.sb_run.specs.HttpPorts.{IsOwnPort};

use crate::observer::Observer;
use crate::sockets::remove_left_behind;
use sb_http::Door;
use sb_types::Fault;
use std::fs::remove_file;
use std::hash::RandomState;
use std::io;
use std::net::{Net, Shutdown, SocketAddr, TcpListener, TcpStream};
use std::os::fd::OwnedFd;
use std::os::unix::net::{UnixListener, UnixStream};
use std::random::RandomSource;
use std::rt::Files;

/// What listens for connections.
#[derive(Drop)]
enum HttpListener<'a> {
    Socket(&'a str, UnixListener),
    Port(TcpListener),
}

/// The socket at which a node answers over HTTP.
#[derive(Drop)]
pub(crate) struct HttpSocket<'a> {
    listener: HttpListener<'a>,
    /// The listener once more: if it is shut, each call of `accept` fails at once.
    latch: UnixStream,
    /// The keys of the hashes by which fields of requests are found.
    keys: RandomState,
}

/// Whether a node may answer over HTTP at this address: `127.0.0.1` or `[::1]`, with a port from 1 on.
pub fn is_own_port(address: SocketAddr) -> bool
    ensures { IsTrue result ↔ IsOwnPort address }
{
    match address {
        SocketAddr::V4(own) => own.port() != 0 && matches!(own.ip().octets(), [127, 0, 0, 1]),
        SocketAddr::V6(own) => own.port() != 0 && own.scope_id() == 0 && own.ip().is_loopback(),
    }
}

/// Listens at a port.
fn listen_at_port<R: Net<Listener = TcpListener, Stream = TcpStream> + RandomSource>(
    rt: &R,
    address: SocketAddr,
) -> io::Result<HttpSocket<'static>> {
    let keys = RandomState::new(rt)?;
    let listener = TcpListener::bind(rt, address)?;
    let again = OwnedFd::from(listener.try_clone()?);
    Ok(HttpSocket {
        listener: HttpListener::Port(listener),
        latch: UnixStream::from(again),
        keys,
    })
}

/// Listens at a path. After an error there is no file that was not there.
fn listen_at_path<'a, R: Files + Net + RandomSource>(
    rt: &R,
    path: &'a str,
) -> io::Result<HttpSocket<'a>> {
    let keys = RandomState::new(rt)?;
    let listener = UnixListener::bind(rt, path)?;
    let again = match listener.try_clone() {
        Ok(again) => OwnedFd::from(again),
        Err(error) => {
            let _ = remove_file(rt, path);
            return Err(error);
        }
    };
    Ok(HttpSocket {
        listener: HttpListener::Socket(path, listener),
        latch: UnixStream::from(again),
        keys,
    })
}

impl<'a> HttpSocket<'a> {
    /// Binds the port of an address, or makes a socket at a path, as that of clients is made. `ReadFailed`, also of an address for
    /// which `is_own_port` is false, and of an empty path.
    pub(crate) fn bind<
        R: Files + Net<Listener = TcpListener, Stream = TcpStream> + RandomSource,
        O: Observer,
    >(rt: &R, address: &'a str, observer: &O) -> Result<HttpSocket<'a>, Fault>
        ensures { IfErr result (λ fault. fault ≡ Fault.ReadFailed) }
    {
        let bound = match address.parse::<SocketAddr>() {
            Ok(parsed) if is_own_port(parsed) => listen_at_port(rt, parsed),
            Ok(_) => return Err(Fault::ReadFailed),
            Err(_) if address.is_empty() => return Err(Fault::ReadFailed),
            Err(_) => {
                remove_left_behind(rt, address, observer);
                listen_at_path(rt, address)
            }
        };
        match bound {
            Ok(socket) => Ok(socket),
            Err(_) => Err(Fault::ReadFailed),
        }
    }

    /// The kind of place that it is.
    pub(crate) fn door(&self) -> Door {
        match &self.listener {
            HttpListener::Socket(..) => Door::Socket,
            HttpListener::Port(_) => Door::Port,
        }
    }

    /// The keys of its hashes.
    pub(crate) fn keys(&self) -> RandomState
        ensures { result ≡ self.now.keys }
    {
        self.keys
    }

    /// The next connection. It waits for one. All that is called of a connection is the same for both kinds of socket, so both are
    /// given as one type.
    pub(crate) fn accept(&self) -> io::Result<UnixStream> {
        match &self.listener {
            HttpListener::Socket(_, listener) => {
                let (stream, _) = listener.accept()?;
                Ok(stream)
            }
            HttpListener::Port(listener) => {
                let (stream, _) = listener.accept()?;
                stream.set_nodelay(true)?;
                Ok(UnixStream::from(OwnedFd::from(stream)))
            }
        }
    }

    /// Wakes those that wait for a connection here: from then on each call of `accept` fails at once.
    pub(crate) fn wake(&self) {
        let _ = self.latch.shutdown(Shutdown::Both);
    }

    /// Removes the file, if it has one.
    pub(crate) fn remove<R: Files>(&self, rt: &R) {
        if let HttpListener::Socket(path, _) = &self.listener {
            let _ = remove_file(rt, *path);
        }
    }
}
