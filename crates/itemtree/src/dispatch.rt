//! What a command line asks, done.
use crate::changed::{Counting, compare};
use crate::commands::run_files;
use crate::crate_commands::{list_modules, list_orphans, list_resolved};
use crate::failure::Failure;
use crate::options::{atoms_of, options_of, request_options};
use crate::packages::{Crates, crates_of};
use crate::request::write_request;
use crate::serve::{answer_editor, answer_lines};
use itemtree_commands::Options;
use itemtree_options::{Asked, Command};
use std::alloc::{AllocError, Global};

/// The word after `--cfg` is none; a shell takes quotes away that stand in no others.
fn no_cfg(alloc: Global, word: &str) -> Result<Failure, AllocError> {
    let (key, value) = word.split_once('=').unwrap_or(("", ""));
    let value = value.trim_matches('"');
    let has_hint = !key.trim().is_empty() && !value.contains('"') && !value.contains('\\');
    let message = if has_hint {
        format!(in alloc;
            "--cfg {word}: this is neither NAME nor KEY=\"VALUE\"; in a shell, write --cfg '{key}=\"{value}\"'"
        )?
    } else {
        format!(in alloc; "--cfg {word}: this is neither NAME nor KEY=\"VALUE\"")?
    };
    Ok(Failure::Usage(message))
}

/// Does what is asked of crates.
fn run_crates(
    rt: &HostRuntime,
    options: &Options,
    asked: &Asked<'_>,
    crates: &Crates,
) -> Result<u8, Failure> {
    match asked.command {
        Command::Modules { has_orphans: true } => list_orphans(rt, options, asked, &crates.roots),
        Command::Modules { .. } => list_modules(rt, options, asked, &crates.roots),
        Command::Resolve { only_wrong } => list_resolved(rt, options, asked, crates, only_wrong),
        _ => run_files(rt, options, asked, Some(crates)),
    }
}

/// Does what a command line asks, and gives the status to end with.
pub(crate) fn run_command(rt: &HostRuntime, asked: &Asked<'_>) -> Result<u8, Failure> {
    if let Command::Serve = asked.command {
        return answer_lines(rt);
    }
    let mut atoms = match atoms_of(rt.alloc(), &asked.cfgs)? {
        Ok(atoms) => atoms,
        Err(word) => return Err(no_cfg(rt.alloc(), word)?),
    };
    if let Command::Request { has_bodies } = asked.command {
        let options = request_options(rt.alloc(), asked, atoms, has_bodies)?;
        return write_request(rt, &options, asked);
    }
    if let Some(krate) = asked.krate {
        let mut crates = crates_of(rt, asked, krate)?;
        atoms.append(&mut crates.features)?;
        let options = options_of(rt.alloc(), asked, atoms, crates.edition)?;
        return run_crates(rt, &options, asked, &crates);
    }
    let options = options_of(rt.alloc(), asked, atoms, None)?;
    match asked.command {
        Command::Changed {
            old,
            new,
            is_of_trees,
            is_public,
        } => {
            let counting = Counting {
                is_of_trees,
                is_public,
            };
            compare(rt, &options, asked, old, new, counting)
        }
        Command::Lsp => answer_editor(rt, options),
        _ => run_files(rt, &options, asked, None),
    }
}
