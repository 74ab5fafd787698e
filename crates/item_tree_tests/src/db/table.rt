//! Tables, syntaxes and edits that the tests use.
//!
//! A function that makes or drops a table, a syntax, an edit or a refusal is proved slowly, and the more so the more it
//! does meanwhile. So each of these is done once here, in a function of its own, and a table is handed out in a box.
ghost use Rattle.std.specs.Prelude.{map, IfOk};
ghost use Rattle.std.specs.List.{AllByRecursion};
ghost use Rattle.item_tree_db.specs.State.{State};
ghost use Rattle.item_tree_db.specs.Edits.{edit_view};
ghost use Rattle.item_tree_db.specs.Refusal.{NamesKnown};
ghost use Rattle.decl_index.specs.Entries.{IndexView, IsBehind};

use crate::db::example::new_table;
use crate::samples::attributes::{condition, options, word};
use crate::samples::blocks::block;
use crate::samples::items::one_function;
use hir_input::ast::Syntax;
use hir_input::{BlockId, Crate, HirFileId};
use item_tree::{CrateData, EditFault, LowerError};
use item_tree_db::{AllRefused, Edit, EditRefused, Sources};
use std::alloc::{AllocError, Global};

pub const FILE: HirFileId = HirFileId(5);

pub const OTHER: HirFileId = HirFileId(6);

pub const BLOCK: BlockId = BlockId(1);

pub const CRATE: Crate = Crate(1);

// A crate with the option of this flag, or of none where the text is no name.
fn crate_with(alloc: Global, flag: &str) -> Result<CrateData, AllocError> {
    Ok(CrateData {
        root: HirFileId(0),
        cfg: options(alloc, flag)?,
        attrs: Vec::new(alloc),
    })
}

// A crate with each of these flags.
pub fn crates(alloc: Global, flags: &[&str]) -> Result<Vec<CrateData>, AllocError> {
    let mut crates = Vec::new(alloc);
    for flag in flags {
        crates.push(crate_with(alloc, flag)?)?;
    }
    Ok(crates)
}

// A table of a crate with the flag `test` and a crate without options.
pub fn table(alloc: Global, start: u64) -> Result<Box<Sources>, AllocError> {
    new_table(alloc, crates(alloc, &["test", ""])?, start)
}

// `#[cfg(test)] #[a] fn f() {}`, or the same without the second attribute.
fn function(alloc: Global, is_marked: bool) -> Result<Syntax, AllocError> {
    let mut attrs = Vec::new(alloc);
    attrs.push(condition(alloc, "test")?)?;
    if is_marked {
        attrs.push(word(alloc, "a")?)?;
    }
    one_function(alloc, attrs)
}

// What became of an edit: it is made, or the edit of the file, or of the crate's options, is handed back for out of
// memory.
#[derive(Clone, Copy)]
pub enum Answer {
    Made(u64),
    HandedBack,
    Other,
}

fn is_handed_back(refused: &EditRefused) -> bool {
    refused.cause == EditFault::Lower(LowerError::OutOfMemory)
        && matches!(
            refused.edit,
            Edit::SetFile { file: FILE, .. } | Edit::SetCfg { krate: CRATE, .. }
        )
}

fn answer_of(made: &Result<u64, EditRefused>) -> Answer {
    match made {
        Ok(number) => Answer::Made(*number),
        Err(refused) if is_handed_back(refused) => Answer::HandedBack,
        Err(_) => Answer::Other,
    }
}

// Makes an edit.
#[tactic(auto, using(decl_index::proofs::Laws::behind_edit))]
pub fn make(sources: &mut Sources, edit: Edit) -> Answer
    requires { NamesKnown sources.old (edit_view edit) }
    ensures { (index : IndexView) → IsBehind index sources.old → IsBehind index sources.new }
{
    answer_of(&sources.edit(edit))
}

// Sets a file, to one function.
pub fn set_file(
    alloc: Global,
    sources: &mut Sources,
    file: HirFileId,
    is_marked: bool,
) -> Result<Answer, AllocError>
    ensures { (index : IndexView) → IsBehind index sources.old → IsBehind index sources.new }
{
    let syntax = function(alloc, is_marked)?;
    Ok(make(sources, Edit::SetFile { file, syntax }))
}

fn set_block(alloc: Global, sources: &mut Sources) -> Result<Answer, AllocError> {
    let syntax = block(alloc)?;
    let block = BLOCK;
    Ok(make(sources, Edit::SetBlock { block, syntax }))
}

// Sets the two files and the block of a table without edits. Whether all were set.
pub fn are_set(alloc: Global, sources: &mut Sources) -> Result<bool, AllocError> {
    let first = set_file(alloc, sources, FILE, false)?;
    let second = set_file(alloc, sources, OTHER, true)?;
    let third = set_block(alloc, sources)?;
    Ok(
        matches!(first, Answer::Made(1))
            && matches!(second, Answer::Made(2))
            && matches!(third, Answer::Made(3)),
    )
}

// How a list of edits was refused. The text has the place and the cause, and what is printed of the refusal and of the
// one that it holds.
#[derive(Drop)]
pub struct Refusal {
    pub place: usize,
    pub is_handed_back: bool,
    pub text: String,
}

fn refusal_of(alloc: Global, all: &AllRefused) -> Result<Refusal, AllocError> {
    let (place, refused) = (all.place, &all.refused);
    let cause = refused.cause;
    Ok(Refusal {
        place,
        is_handed_back: is_handed_back(refused),
        text: format!(in alloc; "{place} {cause:?}: {all}, {refused}")?,
    })
}

fn tell(alloc: Global, made: &Result<u64, AllRefused>) -> Result<Result<u64, Refusal>, AllocError> {
    match made {
        Ok(number) => Ok(Ok(*number)),
        Err(all) => Ok(Err(refusal_of(alloc, all)?)),
    }
}

// Sets the file, removes it twice, sets it again, sets it to what could not be parsed, and removes one that was never
// set.
fn edits(alloc: Global) -> Result<Vec<Edit>, AllocError>
    ensures { IfOk result (λ edits. (s : State)
        → AllByRecursion (NamesKnown s) (map edit_view edits.items)) }
{
    let (first, second) = (function(alloc, false)?, function(alloc, false)?);
    let edits = vec![in alloc;
        Edit::SetFile {
            file: FILE,
            syntax: first
        },
        Edit::RemoveFile { file: FILE },
        Edit::RemoveFile { file: FILE },
        Edit::SetFile {
            file: FILE,
            syntax: second
        },
        Edit::SetFile {
            file: FILE,
            syntax: Syntax::Error
        },
        Edit::RemoveFile { file: OTHER },
    ]?;
    Ok(edits)
}

// Makes these six edits in one list.
pub fn make_all(alloc: Global, sources: &mut Sources) -> Result<Result<u64, Refusal>, AllocError> {
    let edits = edits(alloc)?;
    tell(alloc, &sources.edit_all(edits))
}
