//! How aliases and use trees are displayed.
ghost use Rattle.std.specs.Prelude.{◌≡◌, ◌++◌, map};
ghost use Rattle.std.specs.Fmt.{WritesOnOk};
ghost use Rattle.hir_input.specs.Cfg.{by_commas};
ghost use Rattle.hir_input.specs.Path.{shown_path};
ghost use Rattle.item_tree.specs.Tree.{tree_of, tree_of_kind};
ghost use Rattle.item_tree.specs.UseText.{shown_alias, shown_rename, shown_prefix, shown_tree};

use crate::use_tree::{ImportAlias, UseTree, UseTreeKind};
use hir_input::{Edition, InEdition, ModPath, Written};
use std::fmt;

/// An alias as it is written in an edition. In place of the `impl Display` of rust-analyzer's `ImportAlias::display`.
pub type ImportAliasDisplay<'a> = InEdition<'a, ImportAlias>;

impl Written for ImportAlias {
    ghost shown = { shown_alias };

    fn write<W: fmt::Write>(&self, edition: &Edition, f: &mut fmt::Formatter<W>) -> fmt::Result {
        match self {
            ImportAlias::Underscore => f.write_str("_"),
            ImportAlias::Alias(name) => name.write(edition, f),
        }
    }
}

impl ImportAlias {
    /// The alias as it is written in an edition: `_`, or the name, reserved words with `r#` in front.
    /// rust-analyzer's `ImportAlias::display`.
    pub fn display<'a>(&'a self, edition: &'a Edition) -> ImportAliasDisplay<'a>
        ensures { result ≡ shown_alias edition.now.reserved.items self.now }
    {
        InEdition::new(self, edition)
    }
}

impl UseTree {
    // The use tree as it is written in an edition.
    pub(crate) fn display<'a>(&'a self, edition: &'a Edition) -> InEdition<'a, UseTree>
        ensures { result ≡ shown_tree edition.now.reserved.items (tree_of self.now) }
    {
        InEdition::new(self, edition)
    }
}

// What stands in front of a star or of a list.
fn write_prefix<W: fmt::Write>(
    prefix: &Option<ModPath>,
    edition: &Edition,
    f: &mut fmt::Formatter<W>,
) -> fmt::Result
    ensures { WritesOnOk W.write_str_gives f.old result
        (shown_prefix edition.now.reserved.items prefix.now) f.new }
{
    match prefix {
        Some(path) => {
            let path = path.display(edition);
            write!(f, "{path}::")
        }
        None => Ok(()),
    }
}

// A path, and what it is renamed to.
fn write_single<W: fmt::Write>(
    path: &ModPath,
    alias: &Option<ImportAlias>,
    edition: &Edition,
    f: &mut fmt::Formatter<W>,
) -> fmt::Result
    ensures { let reserved = edition.now.reserved.items in
        WritesOnOk W.write_str_gives f.old result
        (shown_path reserved path.now ++ shown_rename reserved alias.now) f.new }
{
    let path = path.display(edition);
    match alias {
        Some(alias) => {
            let alias = alias.display(edition);
            write!(f, "{path} as {alias}")
        }
        None => write!(f, "{path}"),
    }
}

// A use tree by its case.
#[cycle(write_tree)]
fn write_kind<W: fmt::Write>(
    kind: &UseTreeKind,
    edition: &Edition,
    f: &mut fmt::Formatter<W>,
) -> fmt::Result
    ensures { WritesOnOk W.write_str_gives f.old result
        (shown_tree edition.now.reserved.items (tree_of_kind kind.now)) f.new }
{
    match kind {
        UseTreeKind::Single { path, alias } => write_single(path, alias, edition, f),
        UseTreeKind::Glob { path } => {
            write_prefix(path, edition, f)?;
            f.write_str("*")
        }
        UseTreeKind::Prefixed { prefix, list } => {
            write_prefix(prefix, edition, f)?;
            f.write_str("{")?;
            write_list(list, edition, f)?;
            f.write_str("}")
        }
    }
}

// Use trees, with a comma and a space between them.
#[cycle(write_tree)]
#[tactic(auto, using(crate::proofs::UseTexts::tree_texts, std::proofs::lemmas::Grind::common_steps))]
fn write_list<W: fmt::Write>(
    list: &[UseTree],
    edition: &Edition,
    f: &mut fmt::Formatter<W>,
) -> fmt::Result
    ensures { WritesOnOk W.write_str_gives f.old result
        (by_commas (map (λ t. shown_tree edition.now.reserved.items (tree_of t)) list.now)) f.new }
{
    if list.is_empty() {
        return Ok(());
    }
    write_kind(&list[0].kind, edition, f)?;
    for i in 1..list.len() {
        f.write_str(", ")?;
        write_kind(&list[i].kind, edition, f)?;
    }
    Ok(())
}

impl Written for UseTree {
    ghost shown = { λ reserved tree. shown_tree reserved (tree_of tree) };

    #[tactic(auto, using(crate::proofs::TreeLemmas::tree_forms))]
    fn write<W: fmt::Write>(&self, edition: &Edition, f: &mut fmt::Formatter<W>) -> fmt::Result {
        write_kind(&self.kind, edition, f)
    }
}
