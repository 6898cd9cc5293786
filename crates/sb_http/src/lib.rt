//! A node over HTTP: what a request asks for, what the node is asked for it, and the response. It moves no byte and takes
//! no lock. A `Backend` says what the node answers, and `serve_connection` answers over any reader and writer.
//!
//! What a request asks for is a function of it and of the door where it came in (`asked_by`). What the response contains
//! is a function of that and of what the backend answered. A backend is asked once for a request, and at a port only what reads.
//! For the page at `/` it is not asked.
//!
//! ```rust
//! /// The status of the response to a request.
//! fn status_of<B: Backend>(service: &mut HttpService<B>, request: &Request<Bytes>) -> Result<u16, AllocError> {
//!     let mut response = Response::new(service.alloc);
//!     service.call(request, &mut response)?;
//!     Ok(response.status.as_u16())
//! }
//! ```
//!
//! # What no contract refuses
//!
//! These wrong bodies would still be proved. `docs/GAPS.md` also has those of every crate.
//!
//! - A response names a fault by its number, with another text. Tests refuse it.
//! - `asked_by` returns `NoMemory` for each request, or `HttpService::call` an error. Tests with ample memory refuse it.
//! - `HttpService::call` answers 503 without a body, as if there were no memory, after the backend was asked. Tests with
//!   ample memory refuse it.
//! - `serve_connection` ends with an error before it has read anything. Or it reads a request, answers nothing and returns
//!   `Ok`, as if there were no memory. Tests refuse both.
//! - `serve_connection` never flushes its writer. Nothing refuses it: a socket needs no flush.
//! - The page is any other text, and so is its policy: the contract has the constants themselves. `tools/check-node` and
//!   `tools/check-page` look at both.
//! - `serve_connection` reads on before it has written `100 Continue`. `tools/check-node` refuses it.
#![tactic(auto)]

mod backend;
mod bodies;
mod contents;
mod host;
mod http_write;
mod laws;
mod operation;
mod page;
mod parts;
mod rows_query;
mod service;
mod serving;
mod write_body;

pub use backend::{Backend, HeldOwner, MarkedReply};
pub use http_write::HttpWrite;
pub use laws::{other_methods_only_read, ports_only_read, ports_take_local_hosts};
pub use operation::{Door, Operation, Patience, Refusal, asked_by};
pub use service::HttpService;
pub use serving::serve_connection;
