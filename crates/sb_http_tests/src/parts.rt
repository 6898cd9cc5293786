//! The parts of an answer.

/// The three digits of the status of an answer.
pub(crate) fn status(text: &[u8]) -> &str {
    match text.get(9..12) {
        Some(digits) => str::from_utf8(digits).unwrap_or(""),
        None => "",
    }
}

/// The body of an answer.
pub(crate) fn body(text: &[u8]) -> &str {
    let all = str::from_utf8(text).unwrap_or("");
    match all.split_once("\r\n\r\n") {
        Some((_, body)) => body,
        None => "",
    }
}
