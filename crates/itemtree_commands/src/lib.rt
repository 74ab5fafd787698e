//! What the commands of `itemtree` answer for one file, from its text on.
#![tactic(auto)]

mod crate_file;
mod declarations;
mod import_checks;
mod import_entries;
mod import_lists;
mod import_targets;
mod laws;
mod listed;
mod looks;
mod module_lists;
mod module_paths;
mod request;
mod trees;

ghost use Rattle.std.specs.Prelude.{◌≡◌, ◌≤◌, ◌^◌, length, map, IfOk, IfErr, OnOk, string_bytes};
ghost use Rattle.itemtree_commands.specs.Answers as spec;
ghost use Rattle.itemtree_commands.specs.{Trees.HasOwnIds, Trees.IsTextUnread, Typing.IsSameInBody};
ghost use Rattle.source_listing.specs.Views.{choice_view, query_view, source_view};

pub use crate_file::CrateFile;
pub use declarations::{DeclaredItems, declared_items};
use hir_input::{Edition, Name};
pub use import_checks::wrong_imports;
pub use import_entries::{ImportLook, resolved_imports};
pub use import_lists::{duplicates, imports, repeated_imports};
use item_tree::CrateData;
use list_forms::Form;
use listed::listed_rows;
pub use listed::{ListedTree, listed_tree};
pub use module_lists::{modules, unresolved_modules};
pub use request::source_request;
use source_changes::{Compared, change_lines};
use source_listing::{Choice, Query, Source, without_ids};
use source_problems::{SourceProblem, source_problems};
use source_tags::{TagChoice, TagForm};
use std::alloc::{AllocError, Global};
use trees::{checked_source, skips_docs};
pub use trees::{SourceError, SourceTree, source_tree};

/// What trees are made and written under.
#[derive(Debug, Drop)]
pub struct Options {
    pub krate: CrateData,
    /// The attributes that are left out.
    pub skipped: Vec<Name>,
    pub edition: Edition,
    /// Whether items that a cfg disables are left out of lists.
    pub only_active: bool,
}

impl Options {
    fn choice(&self, depth: Option<usize>) -> Choice
        ensures { choice_view result ≡ spec.choice self.now depth }
    {
        Choice {
            depth,
            only_active: self.only_active,
        }
    }
}

/// What is wrong with a file.
#[derive(Debug, Drop)]
pub struct Checked {
    /// A line for each problem.
    pub text: String,
    /// Whether there is none.
    pub is_clean: bool,
}

/// Why two texts have no answer.
#[derive(Debug, Drop)]
pub enum CompareError {
    /// The old one has no tree.
    Old(SourceError),
    /// The old one has a tree, and the new one has none.
    New(SourceError),
    /// Both have trees, and there is no memory to compare them.
    OutOfMemory,
}

/// The tree of a text under the options.
fn read(alloc: Global, text: &str, options: &Options) -> Result<SourceTree, SourceError>
    ensures tree { IfOk result (spec.HasTree options.now text.now) }
    ensures ids { IfOk result HasOwnIds }
    ensures short { OnOk result (length text.now ≤ 2 ^ 32) }
    ensures refused { IfErr result (spec.HasNoTree options.now text.now) }
{
    source_tree(
        alloc,
        text,
        options.edition.year,
        &options.krate,
        &options.skipped,
    )
}

/// `itemtree outline`, but for nested JSON: a line of text, or an object on a line, for each item and each member of
/// one, or for those in fewer than so many items; with or without members and the imports of uses that have a list.
/// Lines have names of what is around them, or blanks at the beginning.
///
/// # Errors
///
/// Those of `source_tree`.
#[tactic(auto, using(crate::proofs::Refusals::no_list))]
pub fn outline(
    alloc: Global,
    source: Source<'_>,
    options: &Options,
    depth: Option<usize>,
    has_members: bool,
    has_imports: bool,
    form: Form,
    is_flat: bool,
) -> Result<String, SourceError>
    ensures text { let outline = spec.IsOutline options.now depth has_members has_imports form is_flat
        (source_view source.entry) in
        IfOk result (λ out. outline (string_bytes out)) }
    ensures refused { IfErr result (spec.HasNoList options.now source.entry.text.now) }
{
    let file = listed_rows(alloc, source.text, options)?;
    let look = options.look(depth, has_imports, form, is_flat);
    let reading = options.reading(source.text, &file.mended, has_members);
    let listed = &file.source;
    let text = source_listing::outline(
        alloc,
        source,
        &listed.places,
        &listed.use_trees,
        &listed.tree,
        &options.edition,
        reading,
        look,
    )?;
    Ok(text)
}

/// `itemtree outline --json`: one JSON object on one line, with an object for each item and each member of one, or for
/// those in fewer than so many items; with or without members.
///
/// # Errors
///
/// Those of `source_tree`.
#[tactic(auto, using(crate::proofs::Refusals::no_list))]
pub fn outline_json(
    alloc: Global,
    source: Source<'_>,
    options: &Options,
    depth: Option<usize>,
    has_members: bool,
) -> Result<String, SourceError>
    ensures text { let json = spec.IsJson options.now depth has_members
        (source_view source.entry) in
        IfOk result (λ out. json (string_bytes out)) }
    ensures refused { IfErr result (spec.HasNoList options.now source.entry.text.now) }
{
    let file = listed_tree(alloc, source.text, options)?;
    let choice = options.choice(depth);
    let reading = options.reading(source.text, &file.mended, has_members);
    let edition = &options.edition;
    let (places, tree) = (&file.source.places, &file.source.tree);
    let text = source_listing::outline_json(alloc, source, places, tree, edition, reading, choice)?;
    Ok(text)
}

/// A debug page, with or without the lines of ids.
fn shown_page(alloc: Global, page: String, has_ids: bool) -> Result<String, AllocError>
    ensures { IfOk result (λ out. string_bytes out ≡ spec.if_ids has_ids (string_bytes page)) }
{
    if has_ids {
        return Ok(page);
    }
    without_ids(alloc, &page)
}

/// `itemtree page`: the debug page of the tree, with or without the ids of its items.
///
/// # Errors
///
/// Those of `source_tree`.
#[tactic(auto, using(crate::proofs::Refusals::no_memory))]
pub fn page(
    alloc: Global,
    text: &str,
    options: &Options,
    has_ids: bool,
) -> Result<String, SourceError>
    ensures text { IfOk result
        (λ out. spec.IsPage options.now has_ids text.now (string_bytes out)) }
    ensures refused { IfErr result (spec.HasNoTree options.now text.now) }
{
    let file = read(alloc, text, options)?;
    let page = file.tree.pretty_print(alloc, &options.edition)?;
    let page = shown_page(alloc, page, has_ids)?;
    Ok(page)
}

/// `itemtree find`: a line for each item that is looked for and each member of one, with or without members; empty
/// where there is none.
///
/// # Errors
///
/// Those of `source_tree`.
#[tactic(auto, using(crate::proofs::Refusals::no_list))]
pub fn find(
    alloc: Global,
    source: Source<'_>,
    options: &Options,
    query: Query<'_>,
    has_members: bool,
) -> Result<String, SourceError>
    ensures text { let found = spec.AreFound options.now has_members (query_view query.entry)
        (source_view source.entry) in
        IfOk result (λ out. found (string_bytes out)) }
    ensures refused { IfErr result (spec.HasNoList options.now source.entry.text.now) }
{
    let file = listed_rows(alloc, source.text, options)?;
    let reading = options.reading(source.text, &file.mended, has_members);
    let edition = &options.edition;
    let (places, tree) = (&file.source.places, &file.source.tree);
    let text = source_listing::found_lines(alloc, source, places, tree, edition, reading, query)?;
    Ok(text)
}

/// `itemtree tags`: the tags of the file in this form, with or without those of members and of what stands in the
/// bodies of functions.
///
/// # Errors
///
/// Those of `source_tree`.
#[tactic(auto, using(crate::proofs::Refusals::no_list))]
pub fn tags(
    alloc: Global,
    source: Source<'_>,
    options: &Options,
    form: TagForm,
    has_members: bool,
    has_bodies: bool,
) -> Result<String, SourceError>
    ensures text { let tags = spec.AreTags options.now form has_members has_bodies (source_view source.entry) in
        IfOk result (λ out. tags (string_bytes out)) }
    ensures refused { IfErr result (spec.HasNoList options.now source.entry.text.now) }
{
    let file = listed_rows(alloc, source.text, options)?;
    let asked = TagChoice {
        reading: options.reading(source.text, &file.mended, has_members),
        choice: options.choice(None),
        bodies: options.cfgs_if(has_bodies),
    };
    let (places, tree) = (&file.source.places, &file.source.tree);
    let text = source_tags::tag_lines(alloc, source, form, places, tree, asked)?;
    Ok(text)
}

/// The lines of what became of a file in another, or none.
fn lines_unless(
    alloc: Global,
    is_same: bool,
    old: Source<'_>,
    new: Source<'_>,
    options: &Options,
    form: Form,
) -> Result<String, AllocError>
    ensures { let are_lines = spec.AreLinesUnless is_same options.now form (source_view old.entry)
        (source_view new.entry) in
        IfOk result (λ text. are_lines (string_bytes text)) }
{
    if is_same {
        return Ok(String::new(alloc));
    }
    let has_docs = !skips_docs(&options.skipped);
    change_lines(alloc, old, new, options.edition.year, has_docs, form)
}

/// `itemtree changed --tree`: whether the trees are equal, as where only bodies, comments or layout became others; if
/// they are not, a line for each item and each member that was removed, added or changed, as `changed` tells it.
///
/// Trees that differ in the order of their items, in the attributes of the file or in those inside a body alone have no
/// such line.
pub fn compare_trees(
    alloc: Global,
    old: Source<'_>,
    new: Source<'_>,
    options: &Options,
    form: Form,
) -> Result<Compared, CompareError>
    ensures compared { let compared = spec.AreCompared options.now form (source_view old.entry)
        (source_view new.entry) in
        IfOk result compared }
    ensures typed { let same = IsSameInBody options.now.edition.year old.entry.text.now
        new.entry.text.now in
        IfOk result (λ c. same c.is_same) }
    ensures refused { IfErr result
        (spec.IsUncompared options.now old.entry.text.now new.entry.text.now) }
{
    let before = match read(alloc, old.text, options) {
        Ok(before) => before,
        Err(error) => return Err(CompareError::Old(error)),
    };
    let after = match read(alloc, new.text, options) {
        Ok(after) => after,
        Err(error) => return Err(CompareError::New(error)),
    };
    let is_same = before.tree == after.tree;
    let Ok(text) = lines_unless(alloc, is_same, old, new, options, form) else {
        return Err(CompareError::OutOfMemory);
    };
    Ok(Compared { text, is_same })
}

/// What is wrong with a text, in the order of the places.
///
/// # Errors
///
/// `TooLong` exactly where the text has more than 2^32 bytes, and `OutOfMemory`: it needs no tree.
#[tactic(auto, using(crate::proofs::Refusals::no_memory_to_read))]
pub fn problems(
    alloc: Global,
    text: &str,
    options: &Options,
) -> Result<Vec<SourceProblem>, SourceError>
    ensures problems { IfOk result (λ v. spec.HasProblems options.now text.now v.items) }
    ensures short { OnOk result (length text.now ≤ 2 ^ 32) }
    ensures refused { IfErr result (IsTextUnread text.now) }
{
    let file = checked_source(alloc, text, options.edition.year)?;
    let problems = source_problems(alloc, text, &file)?;
    Ok(problems)
}

/// `itemtree check`: a line for each thing that is wrong, in the order of their places, in colours or not.
///
/// # Errors
///
/// Those of `problems`.
#[tactic(auto, using(crate::proofs::Refusals::no_memory_to_read))]
pub fn check(
    alloc: Global,
    source: Source<'_>,
    options: &Options,
    is_colored: bool,
) -> Result<Checked, SourceError>
    ensures checked { IfOk result (spec.IsCheck options.now is_colored (source_view source.entry)) }
    ensures refused { IfErr result (IsTextUnread source.entry.text.now) }
{
    let problems = problems(alloc, source.text, options)?;
    Ok(Checked {
        text: source_listing::problem_lines(alloc, source, &problems, is_colored)?,
        is_clean: problems.is_empty(),
    })
}
