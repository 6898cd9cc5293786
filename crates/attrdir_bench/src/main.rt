//! Measures how long each layer of the directory takes, and how fast threads read it beside a writer.
//!
//! # What no contract refuses
//!
//! No function of this program has an `ensures`, so every body that is safe and ends would be proved. What the program
//! prints is tested.
#![tactic(auto)]

mod calls;
mod catch_up;
mod command_line;
mod layers;
mod logs;
mod memory;
mod plan;
mod problem;
mod readers;
mod reading;
mod report;
mod sample;
mod staging;
mod writing;

use crate::command_line::{Next, follow};
use std::process::ExitCode;

/// The exit status of a run that failed.
const FAILED_STATUS: u8 = 1;

fn main(rt: HostRuntime) -> ExitCode {
    let ended = match follow(&rt) {
        Ok(Next::Ended(status)) => Ok(status),
        Ok(Next::Readers(plan)) => readers::measure(&rt, plan).map(|()| 0),
        Err(problem) => Err(problem),
    };
    match ended {
        Ok(status) => ExitCode::from(status),
        Err(problem) => {
            let _ = eprintln!(rt; "error: {problem}");
            ExitCode::from(FAILED_STATUS)
        }
    }
}
