//! What the program takes from the environment.
use sb_types::Fault;
use std::env::{self, VarError};

/// The variable with the path of a control socket.
const CONTROL: &str = "ATTRDIR_CONTROL";

/// The path of a control socket from the environment. `None` if it is not set, is empty, or is not UTF-8. `NoMemory`.
pub(crate) fn control_path(rt: &HostRuntime) -> Result<Option<String>, Fault> {
    match env::var(rt, CONTROL) {
        Ok(path) if !path.is_empty() => Ok(Some(path)),
        Err(VarError::OutOfMemory) => Err(Fault::NoMemory),
        _ => Ok(None),
    }
}

/// A path as text, if there is one.
pub(crate) fn text_of(path: &Option<String>) -> Option<&str> {
    match path {
        Some(path) => Some(path.as_str()),
        None => None,
    }
}
