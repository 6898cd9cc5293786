//! The example of the crate.

use crate::fixed::FixedBackend;
use crate::{got, same};
use bytes::Bytes;
use http::Request;
use http_server::{Response, Service};
use sb_http::{Backend, Door, HttpService};
use std::alloc::AllocError;

/// The status of the response to a request.
fn status_of<B: Backend>(
    service: &mut HttpService<B>,
    request: &Request<Bytes>,
) -> Result<u16, AllocError> {
    let mut response = Response::new(service.alloc);
    service.call(request, &mut response)?;
    Ok(response.status.as_u16())
}

#[test]
fn example_of_sb_http(rt: HostRuntime) {
    let alloc = rt.alloc();
    let backend = FixedBackend { alloc };
    let mut service = HttpService {
        alloc,
        door: Door::Socket,
        backend,
    };
    let request = Request::new(alloc, Bytes::new());
    same(&rt, &got(&rt, status_of(&mut service, &request)), &200);
}
