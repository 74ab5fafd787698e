//! Lists the items, imports and declarations of Rust files, and what changed in them; and answers requests in JSON line
//! by line.
#![tactic(auto)]

mod arguments;
mod changed;
mod commands;
mod crate_commands;
mod crate_sources;
mod dispatch;
mod escapes;
mod failure;
mod files;
mod hints;
mod options;
mod output;
mod packages;
mod replacing;
mod report;
mod request;
mod serve;
mod sources;
mod tag_form;
mod tag_paths;
mod tags;
mod walk;
mod words;

use crate::arguments::words;
use crate::commands::FAILED;
use crate::dispatch::run_command;
use crate::escapes::Shown;
use crate::failure::Failure;
use crate::output::{complain, write_out};
use itemtree_options::{CommandLine, read_command_line};
use std::fmt::Display;
use std::process::ExitCode;

fn run(rt: &HostRuntime) -> Result<u8, Failure> {
    let words = words(rt)?;
    match read_command_line(rt.alloc(), &words)? {
        CommandLine::Asked(asked) => run_command(rt, &asked),
        CommandLine::Help(text) => {
            write_out(rt, &text)?;
            Ok(0)
        }
        CommandLine::Wrong(text) => {
            let _ = eprint!(rt; "{text}");
            Ok(FAILED)
        }
    }
}

/// Tells on standard error why a run ended early.
fn failure_status(rt: &HostRuntime, reason: impl Display + Drop) -> ExitCode {
    let _ = eprintln!(rt; "itemtree: {reason}");
    ExitCode::from(FAILED)
}

fn main(rt: HostRuntime) -> ExitCode {
    match run(&rt) {
        Ok(status) => ExitCode::from(status),
        Err(Failure::Closed) => ExitCode::SUCCESS,
        Err(Failure::Usage(message)) => failure_status(&rt, message),
        Err(Failure::Unwritten { path, error }) => {
            complain(&rt, Shown(&path), error);
            ExitCode::from(FAILED)
        }
        Err(Failure::Other(error)) => failure_status(&rt, error),
    }
}
