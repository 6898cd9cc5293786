//! The caller of a connection over HTTP, as a poll sees whether it is still there.

use std::io;
use std::net::TcpStream;
use std::os::fd::OwnedFd;
use std::os::unix::net::UnixStream;

/// The caller of a connection, which has sent its request.
#[derive(Drop)]
pub(crate) struct HttpCaller {
    /// The connection once more, at a path or at a port. Of the types for both, only this one looks at bytes and leaves them.
    stream: TcpStream,
}

impl HttpCaller {
    /// The caller of this connection.
    pub(crate) fn of(stream: &UnixStream) -> io::Result<HttpCaller> {
        let again = stream.try_clone()?;
        Ok(HttpCaller {
            stream: TcpStream::from(OwnedFd::from(again)),
        })
    }

    /// Whether the caller has hung up, or only ended its writing: nobody can tell the two apart at a port. It waits for nothing and
    /// takes no byte, so a caller that sent more than its request counts as there. No other thread may use the connection meanwhile.
    pub(crate) fn has_left(&self) -> bool {
        // Without this a look would wait.
        if self.stream.set_nonblocking(true).is_err() {
            return false;
        }
        let mut byte = [0u8; 1];
        let has_left = match self.stream.peek(&mut byte) {
            Ok(count) => count == 0,
            Err(error) => error.kind() != io::ErrorKind::WouldBlock,
        };
        let _ = self.stream.set_nonblocking(false);
        has_left
    }
}
