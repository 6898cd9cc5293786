//! Why a node takes no more writes into its log.
use crate::{got, same, there};
use sb_control::LogCause;

/// Each cause, by its number from 1 on, with its name and the text that it prints.
const CAUSES: [(&str, &str); 9] = [
    ("no_space", "no space is left"),
    ("cannot_open", "the file cannot be opened"),
    ("locked", "another process has it open"),
    ("io", "it cannot be read or written"),
    ("damaged", "it is damaged"),
    ("no_memory", "memory is missing"),
    ("other", "the database reports another error"),
    ("removed", "its file was removed"),
    ("replaced", "its file was replaced"),
];

#[test]
fn each_cause_of_a_lost_log_has_its_name_and_its_text(rt: HostRuntime) {
    for (at, wanted) in CAUSES.into_iter().enumerate() {
        let cause = there(&rt, LogCause::from_number(at as u64 + 1));
        let printed: Result<String, _> = cause.to_string(rt.alloc());
        let printed = got(&rt, printed);
        same(&rt, &(cause.name(), printed.as_str()), &wanted);
    }
    same(&rt, &LogCause::from_number(0), &None);
    same(&rt, &LogCause::from_number(10), &None);
}
