//! The trees that lists tell of texts, also of damaged ones.

ghost use Rattle.std.specs.Prelude.{◌≡◌, ◌≤◌, ◌^◌, length, IfOk, IfErr, OnOk};
ghost use Rattle.item_tree.specs.declared.fault.LowerError.TheVariants.{OutOfMemory};
ghost use Rattle.source_rows.specs.ListedFiles.{HasTextOf, closers_in};
ghost use Rattle.itemtree_commands.specs.Answers as spec;
ghost use Rattle.itemtree_commands.specs.Inner.{HasListedRows, HasUses, IsClippedRefused, IsClippedTree};
ghost use Rattle.itemtree_commands.specs.Inner.{IsClippedUses};
ghost use Rattle.itemtree_commands.specs.Trees.{HasOwnIds};
ghost use Rattle.itemtree_commands.specs.declared.trees.SourceError.TheVariants.{Lower};

use crate::Options;
use crate::trees::{SourceError, SourceTree, tree_of, wanted_under};
use item_tree::LowerError;
use rust_items::{Wanted, WantedMetas};
use source_imports::{UseCfgs, file_cfgs};
use source_rows::{MendedFile, read_listed};
use std::alloc::Global;

/// The tree that lists tell of a text, with the places of the text as it is.
#[derive(Drop)]
pub struct ListedTree {
    pub source: SourceTree,
    /// The mended text with its places, if the tree is that of it.
    pub mended: Option<MendedFile>,
}

/// The tree of what is wanted of what lists read of a text.
#[tactic(auto, using(crate::proofs::Refusals::unlisted_told, crate::proofs::Refusals::large_told))]
fn clipped_tree(
    alloc: Global,
    text: &str,
    wanted: Wanted,
    options: &Options,
) -> Result<ListedTree, SourceError>
    ensures tree { let is_tree = IsClippedTree wanted options.now.krate options.now.skipped.items
        options.now.edition.year text.now in
        IfOk result is_tree }
    ensures text { IfOk result (λ x. HasTextOf text.now x.mended) }
    ensures ids { IfOk result (λ x. HasOwnIds x.source) }
    ensures short { OnOk result (length text.now ≤ 2 ^ 32) }
    ensures refused { let is_refused = IsClippedRefused wanted options.now.krate
        options.now.skipped.items options.now.edition.year text.now in
        IfErr result is_refused }
{
    let read = read_listed(alloc, text, wanted, options.edition.year)?;
    let source = tree_of(alloc, read.file, &options.krate, &options.skipped)?;
    Ok(ListedTree {
        source,
        mended: read.mended,
    })
}

/// The tree that lists tell of a text: of what they read of it.
///
/// # Errors
///
/// `TooLong` where the text or its mended one has more than 2^32 bytes, and those of `lower_syntax`.
pub fn listed_tree(alloc: Global, text: &str, options: &Options) -> Result<ListedTree, SourceError>
    ensures tree { IfOk result
        (λ x. spec.HasListed options.now text.now (closers_in x.mended) x.source) }
    ensures text { IfOk result (λ x. HasTextOf text.now x.mended) }
    ensures ids { IfOk result (λ x. HasOwnIds x.source) }
    ensures short { OnOk result (length text.now ≤ 2 ^ 32) }
    ensures refused { IfErr result (spec.HasNoList options.now text.now) }
{
    clipped_tree(alloc, text, wanted_under(&options.skipped), options)
}

/// The tree that lists tell of a text, and its uses that stand under cfgs.
#[derive(Drop)]
pub(crate) struct ListedUses {
    pub(crate) listed: ListedTree,
    pub(crate) uses: Vec<UseCfgs>,
}

/// The same of what is wanted of what lists read of a text.
#[tactic(auto, using(crate::proofs::Refusals::unlisted_told, crate::proofs::Refusals::large_told, crate::proofs::Refusals::clipped_no_memory))]
fn clipped_uses(
    alloc: Global,
    text: &str,
    wanted: Wanted,
    options: &Options,
) -> Result<ListedUses, SourceError>
    ensures tree { let are_uses = IsClippedUses wanted options.now.krate options.now.skipped.items
        options.now.edition.year text.now in
        IfOk result are_uses }
    ensures ids { IfOk result (λ x. HasOwnIds x.listed.source) }
    ensures short { OnOk result (length text.now ≤ 2 ^ 32) }
    ensures refused { let is_refused = IsClippedRefused wanted options.now.krate
        options.now.skipped.items options.now.edition.year text.now in
        IfErr result is_refused }
{
    let read = read_listed(alloc, text, wanted, options.edition.year)?;
    let uses = file_cfgs(alloc, &read.file.syntax)?;
    let source = tree_of(alloc, read.file, &options.krate, &options.skipped)?;
    let listed = ListedTree {
        source,
        mended: read.mended,
    };
    Ok(ListedUses { listed, uses })
}

/// The tree that lists tell of a text, and its uses that stand under cfgs.
pub(crate) fn listed_uses(
    alloc: Global,
    text: &str,
    options: &Options,
) -> Result<ListedUses, SourceError>
    ensures uses { IfOk result (HasUses options.now text.now) }
    ensures ids { IfOk result (λ x. HasOwnIds x.listed.source) }
    ensures short { OnOk result (length text.now ≤ 2 ^ 32) }
    ensures refused { IfErr result (spec.HasNoList options.now text.now) }
{
    clipped_uses(alloc, text, wanted_under(&options.skipped), options)
}

/// A tree that has the rows of that, with conditions alone as its attributes.
fn clipped_rows(alloc: Global, text: &str, options: &Options) -> Result<ListedTree, SourceError>
    ensures tree { IfOk result
        (HasListedRows options.now.krate options.now.skipped.items options.now.edition.year text.now) }
    ensures text { IfOk result (λ x. HasTextOf text.now x.mended) }
    ensures ids { IfOk result (λ x. HasOwnIds x.source) }
    ensures short { OnOk result (length text.now ≤ 2 ^ 32) }
    ensures no_memory { IfErr result (λ e. e ≡ Lower OutOfMemory → length text.now ≤ 2 ^ 32) }
{
    let wanted = Wanted {
        bodies: false,
        metas: WantedMetas::Conditions,
    };
    clipped_tree(alloc, text, wanted, options)
}

/// The same. Where it passes a size, the whole tree tells whether it does.
#[tactic(auto, using(crate::proofs::RowTrees::own_rows, crate::proofs::Refusals::no_list))]
pub(crate) fn listed_rows(
    alloc: Global,
    text: &str,
    options: &Options,
) -> Result<ListedTree, SourceError>
    ensures tree { IfOk result
        (HasListedRows options.now.krate options.now.skipped.items options.now.edition.year text.now) }
    ensures text { IfOk result (λ x. HasTextOf text.now x.mended) }
    ensures ids { IfOk result (λ x. HasOwnIds x.source) }
    ensures short { OnOk result (length text.now ≤ 2 ^ 32) }
    ensures refused { IfErr result (spec.HasNoList options.now text.now) }
{
    match clipped_rows(alloc, text, options) {
        Ok(tree) => Ok(tree),
        Err(SourceError::Lower(LowerError::OutOfMemory)) => {
            Err(SourceError::Lower(LowerError::OutOfMemory))
        }
        Err(_) => listed_tree(alloc, text, options),
    }
}
