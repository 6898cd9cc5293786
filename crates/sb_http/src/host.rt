//! The host that a request names.
ghost use Rattle.std.specs.Prelude.{◌≡◌};
ghost use Rattle.std.specs.Char.{is_ascii_digit};
ghost use Rattle.std.specs.List.{list_all};
ghost use Rattle.std.specs.Option.{option_copied};
ghost use Rattle.sb_http.specs.Hosts as spec;

use bytes::Bytes;
use http::{Request, header};

/// Whether each of these bytes is a digit.
fn are_digits(text: &[u8]) -> bool
    ensures { result ≡ list_all is_ascii_digit text.now }
{
    text.iter().all(|byte| byte.is_ascii_digit())
}

/// Whether these bytes are a port after a colon, or nothing.
fn is_port(text: &[u8]) -> bool
    ensures { result ≡ spec.is_port text.now }
{
    match text.split_first() {
        None => true,
        Some((mark, digits)) => *mark == b':' && are_digits(digits),
    }
}

/// Whether a host is this name, with a port or without one.
fn is_named(host: &[u8], name: &[u8]) -> bool
    ensures { result ≡ spec.is_named name.now host.now }
{
    match host.strip_prefix(name) {
        Some(rest) => is_port(rest),
        None => false,
    }
}

/// Whether a host is this machine.
fn is_local(host: &[u8]) -> bool
    ensures { result ≡ spec.is_local host.now }
{
    is_named(host, b"127.0.0.1") || is_named(host, b"[::1]") || is_named(host, b"localhost")
}

/// The first `Host` of a request.
fn host_field(request: &Request<Bytes>) -> Option<&[u8]>
    ensures { option_copied result ≡ spec.host_field request.now }
{
    match request.headers().get(header::HOST) {
        Some(value) => Some(value.as_bytes()),
        None => None,
    }
}

/// Returns whether the host that a request names is this machine. If its target has a host, that counts, and no field.
pub(crate) fn names_local_host(request: &Request<Bytes>) -> bool
    ensures { result ≡ spec.names_local_host request.now }
{
    let host = match request.uri().authority() {
        Some(authority) => Some(authority.as_str().as_bytes()),
        None => host_field(request),
    };
    match host {
        Some(host) => is_local(host),
        None => false,
    }
}
