//! The sockets that a node binds, and the connections on them and to its peers.
ghost use Rattle.std.specs.Prelude.{◌≡◌, IfErr, ◌≢◌, ◌⊎◌, ◌+◌, ◌*◌, ◌<◌, ◌≤◌, None, Some, Ok, IfOk, IfSome, IsSome};
ghost use Rattle.std.specs.Duration.{as_nanos};
ghost use Rattle.std.specs.Time.{instant_nanos};

use crate::http_socket::HttpSocket;
use crate::node::Paths;
use crate::observer::Observer;
use mio::net::UnixListener;
use mio::{Interest, Poll, Registry, Token, Waker, net};
use sb_types::Fault;
use std::fs::{remove_file, symlink_metadata};
use std::io;
use std::io::{Read, Write};
use std::net::{Net, TcpListener, TcpStream};
use std::os::unix::fs::FileTypeExt;
use std::os::unix::net::UnixStream;
use std::random::RandomSource;
use std::rt::Files;
use std::time::{Clock, Duration, Instant};

/// The token of the waker, and the greatest that is not one of a connection.
pub(crate) const WAKER_TOKEN: usize = 2;

/// The token of the socket for peers.
const SOCK_TOKEN: usize = 0;

/// The token of the socket for clients.
const CONTROL_TOKEN: usize = 1;

/// A socket that is bound at a path. Its accept does not wait.
#[derive(Drop)]
pub(crate) struct BoundSocket<'a> {
    path: &'a str,
    listener: UnixListener,
}

/// The sockets of a node: for its peers, for its clients, and for HTTP if it answers over that.
#[derive(Drop)]
pub(crate) struct BoundSockets<'a> {
    pub(crate) sock: BoundSocket<'a>,
    pub(crate) control: BoundSocket<'a>,
    pub(crate) http: Option<HttpSocket<'a>>,
    waker: Waker,
}

/// Whether a socket lies at a path, and nobody listens at it any more.
fn is_left_behind<R: Files + Net>(rt: &R, path: &str) -> bool {
    let is_socket = symlink_metadata(rt, path).is_ok_and(|found| found.file_type().is_socket());
    is_socket
        && connect(rt, path).is_err_and(|error| error.kind() == io::ErrorKind::ConnectionRefused)
}

/// Removes a socket at a path at which nobody listens any more, and reports that to the observer.
pub(crate) fn remove_left_behind<R: Files + Net, O: Observer>(rt: &R, path: &str, observer: &O) {
    if is_left_behind(rt, path) && remove_file(rt, path).is_ok() {
        observer.socket_removed(path);
    }
}

impl<'a> BoundSocket<'a> {
    /// Binds a socket at a path without a file, and makes one. If a socket is there at which nobody listens any more, it is
    /// removed first, and the observer is called. `ReadFailed`, also of an empty path, which leaves what was there.
    fn bind<R: Files + Net, O: Observer>(
        rt: &R,
        path: &'a str,
        observer: &O,
    ) -> Result<BoundSocket<'a>, Fault>
        ensures { IfErr result (λ fault. fault ≡ Fault.ReadFailed) }
    {
        // The system would give such a socket a name of its own, to which no path leads.
        if path.is_empty() {
            return Err(Fault::ReadFailed);
        }
        remove_left_behind(rt, path, observer);
        match UnixListener::bind(rt, path) {
            Ok(listener) => Ok(BoundSocket { path, listener }),
            Err(_) => Err(Fault::ReadFailed),
        }
    }

    /// Has a poll report connections that wait here.
    fn register(&mut self, registry: &Registry, token: usize) -> io::Result<()> {
        registry.register(&mut self.listener, Token(token), Interest::READABLE)
    }

    /// Removes the file.
    fn remove<R: Files>(&self, rt: &R) {
        let _ = remove_file(rt, self.path);
    }

    /// The next connection, whose reads and writes do not wait; `WouldBlock` if there is none.
    pub(crate) fn accept(&self) -> io::Result<net::UnixStream> {
        let (stream, _) = self.listener.accept()?;
        Ok(stream)
    }
}

/// A poll that reports both sockets, and what ends its wait.
fn poll_of<R: Net>(
    rt: &R,
    sock: &mut BoundSocket,
    control: &mut BoundSocket,
) -> io::Result<(Poll, Waker)> {
    let poll = Poll::new(rt)?;
    sock.register(poll.registry(), SOCK_TOKEN)?;
    control.register(poll.registry(), CONTROL_TOKEN)?;
    let waker = Waker::new(poll.registry(), Token(WAKER_TOKEN))?;
    Ok((poll, waker))
}

/// Binds both sockets. `ReadFailed` if one can't be bound; then there is no file that was not there.
fn bind_both<'a, R: Files + Net, O: Observer>(
    rt: &R,
    sock: &'a str,
    control: &'a str,
    observer: &O,
) -> Result<(BoundSocket<'a>, BoundSocket<'a>), Fault>
    ensures { IfErr result (λ fault. fault ≡ Fault.ReadFailed) }
{
    let sock = BoundSocket::bind(rt, sock, observer)?;
    match BoundSocket::bind(rt, control, observer) {
        Ok(control) => Ok((sock, control)),
        Err(fault) => {
            sock.remove(rt);
            Err(fault)
        }
    }
}

/// Binds the socket for HTTP, if there is an address for it. `ReadFailed`.
fn bind_http<
    'a,
    R: Files + Net<Listener = TcpListener, Stream = TcpStream> + RandomSource,
    O: Observer,
>(rt: &R, http: Option<&'a str>, observer: &O) -> Result<Option<HttpSocket<'a>>, Fault>
    ensures { IfErr result (λ fault. fault ≡ Fault.ReadFailed) }
{
    match http {
        Some(address) => Ok(Some(HttpSocket::bind(rt, address, observer)?)),
        None => Ok(None),
    }
}

impl<'a> BoundSockets<'a> {
    /// Binds the sockets, and reports to the observer each that was left from before. The poll reports the connections that wait
    /// at the first two. `ReadFailed` if one can't be bound, or if there is no poll; then there is no file that was not there.
    pub(crate) fn bind<
        R: Files + Net<Listener = TcpListener, Stream = TcpStream> + RandomSource,
        O: Observer,
    >(rt: &R, paths: &Paths<'a>, observer: &O) -> Result<(BoundSockets<'a>, Poll), Fault>
        ensures { IfErr result (λ fault. fault ≡ Fault.ReadFailed) }
    {
        let (mut sock, mut control) = bind_both(rt, paths.sock, paths.control, observer)?;
        let Ok(http) = bind_http(rt, paths.http, observer) else {
            control.remove(rt);
            sock.remove(rt);
            return Err(Fault::ReadFailed);
        };
        match poll_of(rt, &mut sock, &mut control) {
            Ok((poll, waker)) => Ok((
                BoundSockets {
                    sock,
                    control,
                    http,
                    waker,
                },
                poll,
            )),
            Err(_) => {
                remove_http(rt, &http);
                control.remove(rt);
                sock.remove(rt);
                Err(Fault::ReadFailed)
            }
        }
    }

    /// Wakes the thread that accepts.
    pub(crate) fn wake(&self) {
        let _ = self.waker.wake();
    }

    /// Wakes all threads that accept, for the end of the node: from then on nobody can connect over HTTP.
    pub(crate) fn wake_for_end(&self) {
        self.wake();
        if let Some(http) = &self.http {
            http.wake();
        }
    }

    /// Removes the files of all.
    pub(crate) fn remove<R: Files>(&self, rt: &R) {
        remove_http(rt, &self.http);
        self.control.remove(rt);
        self.sock.remove(rt);
    }
}

/// Removes the file of the socket for HTTP, if there is one.
fn remove_http<R: Files>(rt: &R, http: &Option<HttpSocket<'_>>) {
    if let Some(http) = http {
        http.remove(rt);
    }
}

/// Connects to the socket at a path. If that has no room for one more connection, it does not wait, and fails.
pub(crate) fn connect<R: Net>(rt: &R, path: &str) -> io::Result<UnixStream> {
    blocking_stream(net::UnixStream::connect(rt, path)?)
}

/// The same connection, whose reads and writes block.
pub(crate) fn blocking_stream(stream: net::UnixStream) -> io::Result<UnixStream> {
    let stream = UnixStream::from(stream);
    stream.set_nonblocking(false)?;
    Ok(stream)
}

/// Lets each read and each write of a connection fail once no byte moved for so many milliseconds; 0 for no limit.
pub(crate) fn limit(stream: &UnixStream, idle: u64) -> io::Result<()> {
    if idle == 0 {
        return Ok(());
    }
    let longest = Some(Duration::from_millis(idle));
    stream.set_read_timeout(longest)?;
    stream.set_write_timeout(longest)
}

/// The time from one moment to a later one. `TimedOut` if it is not later.
fn time_between(now: Instant, until: Instant) -> io::Result<Duration>
    ensures { IfOk result (λ left. (as_nanos left + instant_nanos now ≡ instant_nanos until) × (0 < as_nanos left)) }
{
    match until.checked_duration_since(now) {
        Some(left) if !left.is_zero() => Ok(left),
        _ => Err(io::Error::from(io::ErrorKind::TimedOut)),
    }
}

/// One way of a connection, with a limit on its time, which begins with the first read or write. Once it is over each read and
/// each write fails.
#[derive(Drop)]
pub(crate) struct Timed<'a, Q> {
    clock: &'a Q,
    stream: UnixStream,
    /// How long no byte may move, in milliseconds; 0 for no limit.
    idle: u64,
    /// How long all of it may take, in milliseconds; 0 for no limit.
    whole: u64,
    until: Option<Instant>,
}

impl<'a, Q: Clock> Timed<'a, Q> {
    /// This way of the connection, which may be idle for so many milliseconds, and may take so many in all; 0 for no limit.
    pub(crate) fn new(clock: &'a Q, stream: UnixStream, idle: u64, whole: u64) -> Timed<'a, Q> {
        Timed {
            clock,
            stream,
            idle,
            whole,
            until: None,
        }
    }

    /// This time, but no more than no byte may move.
    fn at_most_idle(&self, left: Duration) -> Duration
        ensures left { as_nanos result ≤ as_nanos left }
        ensures idle { self.now.idle ≢ 0 → as_nanos result ≤ self.now.idle * 1_000_000 }
        ensures least { (result ≡ left) ⊎ ((self.now.idle ≢ 0) × (as_nanos result ≡ self.now.idle * 1_000_000)) }
    {
        let idle = Duration::from_millis(self.idle);
        if self.idle != 0 && idle.as_nanos() < left.as_nanos() {
            idle
        } else {
            left
        }
    }

    /// How long the next read or write may wait; none if the limit that the connection has is the only one. `TimedOut`
    /// if the time is over.
    fn left(&mut self) -> io::Result<Option<Duration>>
        ensures unlimited { self.old.whole ≡ 0 → (result ≡ Ok None) }
        ensures limited { self.old.until ≢ None → IfOk result (λ left. left ≡ None → self.old.whole ≡ 0) }
        // Where it has not begun yet it begins now, and ends at most so long from now.
        ensures begins { self.old.until ≡ None → IfOk result (λ left. IfSome left (λ left. IsSome self.new.until × (as_nanos left ≤ self.old.whole * 1_000_000))) }
        ensures until { IfSome self.old.until (λ until. self.new.until ≡ Some until) }
        ensures idle { IfOk result (λ left. IfSome left (λ left. self.old.idle ≢ 0 → as_nanos left ≤ self.old.idle * 1_000_000)) }
    {
        if self.whole == 0 {
            return Ok(None);
        }
        let now = Instant::now(self.clock)?;
        let until = match self.until {
            Some(until) => until,
            None => match now.checked_add(Duration::from_millis(self.whole)) {
                Some(until) => until,
                None => return Ok(None),
            },
        };
        self.until = Some(until);
        let left = time_between(now, until)?;
        Ok(Some(self.at_most_idle(left)))
    }
}

impl<Q: Clock> Read for Timed<'_, Q> {
    fn read(&mut self, buffer: &mut [u8]) -> io::Result<usize> {
        if let Some(left) = self.left()? {
            self.stream.set_read_timeout(Some(left))?;
        }
        let mut stream = &self.stream;
        stream.read(buffer)
    }
}

impl<Q: Clock> Write for Timed<'_, Q> {
    fn write(&mut self, bytes: &[u8]) -> io::Result<usize> {
        if let Some(left) = self.left()? {
            self.stream.set_write_timeout(Some(left))?;
        }
        let mut stream = &self.stream;
        stream.write(bytes)
    }

    fn flush(&mut self) -> io::Result<()> {
        Ok(())
    }
}
