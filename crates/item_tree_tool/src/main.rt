//! Reads a request as JSON from standard input: edits of files, blocks and cfg options, and what is to be shown.
//! Writes the pages and the imports of item trees, or their outlines, and what changed.
#![tactic(auto)]

mod command_line;
mod outlines;
pub mod run;

use crate::command_line::{Asked, exit_code, print_help, print_version, what_is_asked};
use crate::run::run_outlines;
use item_tree_request::{RunError, run};
use std::process::ExitCode;

fn main(rt: HostRuntime) -> ExitCode {
    exit_code(&rt, answer(&rt))
}

fn answer(rt: &HostRuntime) -> Result<(), RunError> {
    let alloc = rt.alloc();
    match what_is_asked(rt)? {
        Asked::Help => print_help(rt),
        Asked::Version => print_version(rt),
        Asked::Pages => run(alloc, &mut rt.stdin(), &mut rt.stdout()),
        Asked::Outlines => run_outlines(alloc, &mut rt.stdin(), &mut rt.stdout()),
    }
}
