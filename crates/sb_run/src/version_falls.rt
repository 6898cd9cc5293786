//! Nodes that report a version of themselves below one that they reported long before.

use crate::observer::Observer;
use sb_handlers::ReportedVersions;
use sb_types::OWNERS_MOST;
use std::sync::Wait;

/// Reports to the observer the falls that are to be reported: of as many names, at most, as may be known.
pub(crate) fn report_falls<R: Wait, O: Observer>(
    rt: &R,
    versions: &ReportedVersions,
    observer: &O,
) {
    for _ in 0..OWNERS_MOST {
        match versions.take_fall(rt) {
            Some(fall) => observer.version_fell(&fall),
            None => return,
        }
    }
}
