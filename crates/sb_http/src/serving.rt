//! One connection, from the bytes that come in to the bytes that answer them.
ghost use Rattle.std.specs.Prelude.{◌≡◌, List, ℕ, [], OnOk, IsTrue, IsFalse};
ghost use Rattle.std.specs.Io.KnownBytes.{Appends, Consumes, IsAtEnd};
ghost use Rattle.http_server.specs.Connection.{config_of, history};
ghost use Rattle.http_server.specs.Exchange.{Calls};
ghost use Rattle.http_server.specs.History.{History, IsDone, new_history};
ghost use Rattle.sb_http.specs.Serving.{AnswersBytes};

use http_server::{Config, Connection, Service};
use std::alloc::Global;
use std::hash::RandomState;
use std::io;
use std::io::{ErrorKind, Read, Write};

/// Reads, answers and writes until the connection is done.
fn answer_all<S: Service, R: Read, W: Write>(
    connection: &mut Connection,
    service: &mut S,
    reader: &mut R,
    writer: &mut W,
) -> io::Result<()>
    requires { history connection.old ≡ new_history }
    ensures done { OnOk result (IsDone (history connection.new)) }
    ensures end { IsTrue (history connection.new).ended → IsAtEnd (R.remaining reader.new) }
    ensures read { Consumes (R.remaining reader.old) (R.remaining reader.new) (history connection.new).received }
    ensures written { Appends (W.contents writer.old) (W.contents writer.new) (history connection.new).sent }
    ensures calls { Calls S.answers service.old service.new [] (history connection.new).calls }
    ensures config { config_of connection.new ≡ config_of connection.old }
{
    for _ in 0..u64::MAX {
        connection.advance(service);
        if connection.is_done() {
            writer.flush()?;
            return Ok(());
        }
        if connection.wants_read() && !connection.wants_write() {
            writer.flush()?;
            connection.read_from(reader)?;
        } else if connection.write_to(writer)? == 0 {
            return Err(ErrorKind::WriteZero.into());
        }
    }
    Err(ErrorKind::TimedOut.into())
}

/// Answers the requests that are read, and writes the answers. Each answer is one of the service to a whole request, in
/// their order, or a refusal of `http_server` with its reason. After an `Ok` the last answer closed the connection, or the
/// input is at its end, or there was no memory. In that case what was not written yet is lost, and the service may have
/// been called for it. After an `Err` the same holds of what was written until then, but more may be left.
pub fn serve_connection<S: Service, R: Read, W: Write>(
    alloc: Global,
    keys: RandomState,
    config: Config,
    service: &mut S,
    reader: &mut R,
    writer: &mut W,
) -> io::Result<()>
    ensures { (h : History) × AnswersBytes S.answers config service.old service.new h
        × Consumes (R.remaining reader.old) (R.remaining reader.new) h.received
        × Appends (W.contents writer.old) (W.contents writer.new) h.sent
        × OnOk result (IsDone h) × (IsTrue h.ended → IsAtEnd (R.remaining reader.new)) }
{
    let mut connection = Connection::new(alloc, keys, config);
    answer_all(&mut connection, service, reader, writer)
}
