//! The item tree of a Rust text, with the places of its items.

ghost use Rattle.std.specs.Prelude.{◌≡◌, ◌≢◌, ◌≤◌, ◌^◌, codes, false, length, AllPairs, IfOk, IfErr, OnOk};
ghost use Rattle.hir_input.specs.Name.{is_among};
ghost use Rattle.hir_input.specs.Syntax.{syntax_view};
ghost use Rattle.item_tree.specs.Lowered.{IsTooLargeIn, kept_in};
ghost use Rattle.rust_items.specs.SourceFiles.{IsClippedFile, file_view};
ghost use Rattle.item_tree.specs.declared.fault.LowerError.TheVariants.{OutOfMemory};
ghost use Rattle.itemtree_commands.specs.declared.trees.SourceError.TheVariants.{Lower};
ghost use Rattle.itemtree_commands.specs.Inner.{checked_wanted};
ghost use Rattle.itemtree_commands.specs.Trees.{HasOwnIds, IsTreeIn, IsTreeRefused, IsTreeOf, IsTextUnread};
ghost use Rattle.itemtree_commands.specs.Trees.{metas_under, wanted_under};

use hir_input::{EditionYear, Name};
use item_tree::{CrateData, ItemTree, LowerError, lower_syntax};
use rust_items::{ItemPlace, Problem, SourceFile, Wanted, WantedMetas};
use source_rows::{ReadError, read_text};
use std::alloc::{AllocError, Global};
use thiserror::Error;

/// The tree of a text, and where its items stand.
#[derive(Debug, Drop)]
pub struct SourceTree {
    pub tree: ItemTree,
    /// The places of all items that were read, in preorder; those that are not kept have no node in the tree.
    pub places: Vec<ItemPlace>,
    /// Where the use trees of the uses begin, as the reader tells it.
    pub use_trees: Vec<usize>,
    /// What could not be read, in order.
    pub problems: Vec<Problem>,
}

/// Why a text has no tree.
#[derive(Clone, Copy, Debug, PartialEq, Eq, Error)]
pub enum SourceError {
    /// More than 2^32 bytes, so that its items could have no ids of their own.
    #[error("this file is too long")]
    TooLong,
    #[error("{0}")]
    Lower(LowerError),
}

impl From<AllocError> for SourceError {
    ghost use Rattle.std.specs.Prelude.{◌≡◌};
    ghost use Rattle.item_tree.specs.declared.fault.LowerError.TheVariants.{OutOfMemory};
    ghost use Rattle.itemtree_commands.specs.declared.trees.SourceError.TheVariants.{Lower};

    ghost from_gives = { λ _ e. e ≡ Lower OutOfMemory };

    fn from(_error: AllocError) -> SourceError {
        SourceError::Lower(LowerError::OutOfMemory)
    }
}

impl From<ReadError> for SourceError {
    ghost use Rattle.std.specs.Prelude.{◌≡◌};
    ghost use Rattle.itemtree_commands.specs.Inner.{error_told};

    ghost from_gives = { λ reason e. e ≡ error_told reason };

    fn from(error: ReadError) -> SourceError {
        match error {
            ReadError::TooLong => SourceError::TooLong,
            ReadError::OutOfMemory => SourceError::Lower(LowerError::OutOfMemory),
        }
    }
}

impl From<LowerError> for SourceError {
    ghost use Rattle.std.specs.Prelude.{◌≡◌};
    ghost use Rattle.itemtree_commands.specs.declared.trees.SourceError.TheVariants.{Lower};

    ghost from_gives = { λ reason e. e ≡ Lower reason };

    fn from(error: LowerError) -> SourceError {
        SourceError::Lower(error)
    }
}

/// The tree of what was read of a text.
pub(crate) fn tree_of(
    alloc: Global,
    file: SourceFile,
    krate: &CrateData,
    skipped: &[Name],
) -> Result<SourceTree, LowerError>
    ensures tree { IfOk result (IsTreeIn krate.now skipped.now (file_view file)) }
    ensures too_large { IfErr result
        (IsTooLargeIn krate.now false skipped.now (syntax_view file.syntax)) }
{
    let tree = lower_syntax(alloc, &file.syntax, false, krate, skipped)?;
    Ok(SourceTree {
        tree,
        places: file.places,
        use_trees: file.use_trees,
        problems: file.problems,
    })
}

/// Whether documentation is left out.
pub(crate) fn skips_docs(skipped: &[Name]) -> bool
    ensures { result ≡ is_among skipped.now (codes "doc") }
{
    skipped.iter().any(|name| name.text() == "doc")
}

fn metas_under(skips_docs: bool) -> WantedMetas
    ensures { result ≡ metas_under skips_docs }
{
    if skips_docs {
        WantedMetas::Undocumented
    } else {
        WantedMetas::All
    }
}

/// What is wanted of a text for its tree.
pub(crate) fn wanted_under(skipped: &[Name]) -> Wanted
    ensures { result ≡ wanted_under skipped.now }
{
    Wanted {
        bodies: false,
        metas: metas_under(skips_docs(skipped)),
    }
}

/// Reads what is wanted of a text of an edition.
#[tactic(auto, using(crate::proofs::Refusals::unread_told))]
fn wanted_source(
    alloc: Global,
    text: &str,
    wanted: Wanted,
    edition: EditionYear,
) -> Result<SourceFile, SourceError>
    ensures file { IfOk result
        (λ file. IsClippedFile wanted edition text.now (file_view file)) }
    ensures ids { IfOk result (λ file. AllPairs (λ p q. p.id ≢ q.id) file.places.items) }
    ensures short { OnOk result (length text.now ≤ 2 ^ 32) }
    ensures refused { IfErr result (IsTextUnread text.now) }
{
    let file = read_text(alloc, text, wanted, edition)?;
    Ok(file)
}

/// Reads what may be wrong with a text of an edition: no texts of bodies, and no documentation.
pub(crate) fn checked_source(
    alloc: Global,
    text: &str,
    edition: EditionYear,
) -> Result<SourceFile, SourceError>
    ensures file { IfOk result
        (λ file. IsClippedFile checked_wanted edition text.now (file_view file)) }
    ensures short { OnOk result (length text.now ≤ 2 ^ 32) }
    ensures refused { IfErr result (IsTextUnread text.now) }
{
    let wanted = Wanted {
        bodies: false,
        metas: WantedMetas::Undocumented,
    };
    wanted_source(alloc, text, wanted, edition)
}

/// Reads a text of an edition and makes its tree in a crate: the items that are kept, with the attributes that their
/// metas collect under the crate's options, without those of the skipped names.
///
/// # Errors
///
/// `TooLong` exactly where the text has more than 2^32 bytes, and those of `lower_syntax`.
#[tactic(auto, using(crate::proofs::BareTrees::bare_tree))]
pub fn source_tree(
    alloc: Global,
    text: &str,
    edition: EditionYear,
    krate: &CrateData,
    skipped: &[Name],
) -> Result<SourceTree, SourceError>
    ensures tree { IfOk result (IsTreeOf krate.now skipped.now edition text.now) }
    ensures ids { IfOk result HasOwnIds }
    ensures short { OnOk result (length text.now ≤ 2 ^ 32) }
    ensures refused { IfErr result (IsTreeRefused krate.now skipped.now edition text.now) }
{
    let file = wanted_source(alloc, text, wanted_under(skipped), edition)?;
    let tree = tree_of(alloc, file, krate, skipped)?;
    Ok(tree)
}
