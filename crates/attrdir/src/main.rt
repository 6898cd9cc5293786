//! The node attribute directory as a program.
//!
//! # What no contract refuses
//!
//! Most functions of the program have no `ensures`: no contract can name what a file or a socket contains, or what a
//! terminal received. The functions that it joins are proved. So each of these wrong bodies would still be proved.
//! `docs/GAPS.md` also has those of every crate, and the head of `sb_commands` those of the other commands.
//!
//! - `serve` reports another of two wrong options than the first. Nothing promises which; `tools/check-node` tries
//!   wrong ones.
//! - `serve` opens another file or socket, or prints something else. `tools/check-node` refuses it.
//! - The file of `serve --metrics` has other numbers, is read half written, replaces another file, or outlives the
//!   node. The tests of `sb_run` and `tools/check-node` refuse it.
//! - `serve` does not notice that a file of its log is lost, or closes a log whose files are there. `tools/check-node` refuses it.
//! - `serve` prints nothing when keys or owners run out. The tests of `sb_run` and `tools/check-node` refuse it.
//! - A command does what another one does, or takes an option as another one. `tools/check-node` refuses it.
//! - `--help` prints another text. `tools/check-help` compares options and defaults. Nothing refuses other words.
#![tactic(auto)]

mod arguments;
mod command_line;
mod commands;
mod console;
mod differences;
mod environment;
mod help;
mod log_watch;
mod metrics;
mod metrics_file;
mod release;
mod serve_command;
mod serving;
mod troubles;

use crate::arguments::help_texts;
use crate::command_line::{Next, USAGE_STATUS, follow, print_failure, words};
use crate::environment::{control_path, text_of};
use crate::serving::serve;
use sb_commands::Failure;
use sb_types::Fault;
use std::process::ExitCode;

fn main(rt: HostRuntime) -> ExitCode {
    let status = match words(&rt) {
        Ok(Some(words)) => match (control_path(&rt), help_texts(rt.alloc())) {
            (Ok(fallback), Ok(texts)) => {
                match follow(&rt, words.as_slice(), texts.as_slice(), text_of(&fallback)) {
                    Ok(Next::Ended(status)) => status,
                    Ok(Next::Serve(node)) => match serve(&rt, &rt, &node) {
                        Ok(()) => 0,
                        Err(failure) => print_failure(&rt, failure),
                    },
                    Err(failure) => print_failure(&rt, failure),
                }
            }
            _ => print_failure(&rt, Failure::from(Fault::NoMemory)),
        },
        Ok(None) => USAGE_STATUS,
        Err(fault) => print_failure(&rt, Failure::from(fault)),
    };
    ExitCode::from(status)
}
