//! What the first argument asks for, what the program tells of itself, and how it ends.
ghost use Rattle.std.specs.Prelude.{◌≡◌, IfErr, MatchResult};
ghost use Rattle.std.specs.Process.{exit_status};
ghost use Rattle.item_tree_request.specs.Status.{status_of};
ghost use Rattle.item_tree_request.specs.declared.error.RunError.{RunError};

use item_tree_request::RunError;
use std::process::ExitCode;
use std::rt::Env;
use std::{env, io};

/// What the first argument asks for.
#[derive(Clone, Copy)]
pub(crate) enum Asked {
    Help,
    Version,
    /// The outlines of what a request shows.
    Outlines,
    /// The pages and the imports of that.
    Pages,
}

/// Other arguments mean nothing.
pub(crate) fn what_is_asked(rt: &(impl AllocGlobal + Env)) -> Result<Asked, RunError>
    ensures { IfErr result (λ e. e ≡ RunError.OutOfMemory) }
{
    let mut words = match env::args(rt) {
        Ok(words) => words,
        Err(error) if error.kind() == io::ErrorKind::OutOfMemory => {
            return Err(RunError::OutOfMemory);
        }
        Err(_) => return Ok(Asked::Pages),
    };
    let Some(word) = words.nth(1) else {
        return Ok(Asked::Pages);
    };
    match word.as_str() {
        "-h" | "--help" => Ok(Asked::Help),
        "-V" | "--version" => Ok(Asked::Version),
        "--outline" => Ok(Asked::Outlines),
        _ => Ok(Asked::Pages),
    }
}

fn write_error(printed: io::Result<()>) -> Result<(), RunError>
    ensures { IfErr result (λ e. e ≡ RunError.Write) }
{
    match printed {
        Ok(()) => Ok(()),
        Err(_) => Err(RunError::Write),
    }
}

pub(crate) fn print_help(rt: &impl Print) -> Result<(), RunError>
    ensures { IfErr result (λ e. e ≡ RunError.Write) }
{
    write_error(print!(rt;
        "item_tree_tool reads a request in JSON from standard input, and writes the pages and imports that it asks for.
docs/FORMAT.md tells of both.

Usage: item_tree_tool < REQUEST
       item_tree_tool --outline < REQUEST

Options:
      --outline  Write the outlines of trees in place of their pages and imports
  -h, --help     Print help
  -V, --version  Print version

Example: itemtree request --show page src/lib.rs | item_tree_tool

Statuses:
  0  everything that was asked for is written
  2  the input is not JSON
  3  the JSON is not a request
  4  an edit is refused for a size
  5  out of memory
  6  reading or writing failed
"
    ))
}

pub(crate) fn print_version(rt: &impl Print) -> Result<(), RunError>
    ensures { IfErr result (λ e. e ≡ RunError.Write) }
{
    write_error(println!(rt; "item_tree_tool 0.2.0"))
}

/// How the program ends after a run: the status of its error, which is told on standard error.
pub(crate) fn exit_code(rt: &impl Eprint, run: Result<(), RunError>) -> ExitCode
    ensures { MatchResult run (λ _. exit_status result ≡ 0) (λ e. exit_status result ≡ status_of e) }
{
    match run {
        Ok(()) => ExitCode::SUCCESS,
        Err(e) => {
            let _ = eprintln!(rt; "{e}");
            ExitCode::from(e.status())
        }
    }
}
