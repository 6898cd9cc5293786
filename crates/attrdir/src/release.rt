//! Which release this is, and which formats it reads and writes.
use sb_types::FRAME_VERSION;

/// The release.
pub(crate) const RELEASE: &str = "0.2.0";

/// The version of the frames between nodes, and of those at a control socket.
pub(crate) const FRAMES: &str = "3";

/// The form of the logs.
pub(crate) const LOGS: &str = "2";

/// The release with the formats that it reads and writes.
pub(crate) const VERSION: &str = "0.2.0 (frames 3, logs 2)";

const _: () = prove!(FRAME_VERSION == 3);
