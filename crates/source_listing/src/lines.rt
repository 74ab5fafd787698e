//! What lines of text are made of.
ghost use Rattle.std.specs.Prelude.{◌≡◌, ◌+◌, ◌++◌, IfOk, OnOk, filter, map, option_copied, string_bytes};
ghost use Rattle.tree_walk.specs.Rows as rows;
ghost use Rattle.tree_walk.specs.Views.{row_view};
ghost use Rattle.source_rows.specs.Listed.{members_of, placed_members};
ghost use Rattle.source_rows.specs.ListedViews.{listed_view, reading_view};
ghost use Rattle.source_listing.specs.Inner.{IsPrinterOf, IsSameFile, file_of, reserved_of};
ghost use Rattle.source_listing.specs.Lines as spec;
ghost use Rattle.source_listing.specs.Objects.{member_spot};
ghost use Rattle.source_rows.specs.Places.{AreDistinct, item_place};
ghost use Rattle.source_rows.specs.Sources.{BeginsWith};
ghost use Rattle.source_listing.specs.Uses.{file_places};
ghost use Rattle.source_listing.specs.Views.{choice_view, source_view};

use crate::place_finder::PlaceFinder;
use crate::printer::{Printer, are_keywords};
use hir_input::{Edition, ModPath, Name, PathKind};
use item_tree::{ItemTree, RawVisibility, VisibilityExplicitness};
use line_index::Units;
use rust_items::ItemPlace;
use rust_paths::may_be_keyword;
use source_rows::{ListedMember, Reading, Source, Spot, push_place};
use std::alloc::{AllocError, Global};
use tree_walk::{Row, item_rows};

/// Which items are listed.
#[derive(Clone, Copy, Debug)]
pub struct Choice {
    /// Only those that stand in fewer than so many others.
    pub depth: Option<usize>,
    /// Only those that no cfg disables.
    pub only_active: bool,
}

impl Choice {
    /// Whether an item in so many others, which a cfg disables or not, is listed.
    pub(crate) fn takes(self, level: usize, is_active: bool) -> bool
        ensures { result ≡ spec.is_chosen (choice_view self) level is_active }
    {
        let is_within = match self.depth {
            Some(depth) => level < depth,
            None => true,
        };
        is_within && (!self.only_active || is_active)
    }

    /// Whether an item is listed.
    pub fn lists(self, row: &Row<'_>) -> bool
        ensures { result ≡ spec.is_listed (choice_view self) (row_view row.now) }
    {
        self.takes(row.level, row.is_active)
    }

    /// Whether a member of an item in so many others is listed.
    pub(crate) fn takes_inside(self, level: usize, is_active: bool) -> bool
        ensures { result ≡ spec.is_chosen (choice_view self) (level + 1) is_active }
    {
        let is_within = match self.depth {
            Some(depth) => level < depth && level + 1 < depth,
            None => true,
        };
        is_within && (!self.only_active || is_active)
    }

    /// The rows of a tree that are listed.
    ///
    /// # Errors
    ///
    /// Only if memory runs out.
    pub fn rows<'t>(self, alloc: Global, tree: &'t ItemTree) -> Result<Vec<Row<'t>>, AllocError>
        ensures { let listed = filter (spec.is_listed (choice_view self)) (rows.rows tree.now) in
            IfOk result (λ v. map row_view v.items ≡ listed) }
    {
        let mut rows = item_rows(alloc, tree)?;
        rows.retain(|row| self.lists(row));
        Ok(rows)
    }

    /// The members that are listed of an item in so many others, which stands there.
    ///
    /// # Errors
    ///
    /// Only if memory runs out.
    pub fn members(
        self,
        alloc: Global,
        reading: Reading<'_>,
        place: Option<ItemPlace>,
        level: usize,
        is_active: bool,
    ) -> Result<Vec<ListedMember>, AllocError>
        ensures { let members = members_of (reading_view reading.entry) place is_active in
            let listed = filter (λ m. spec.is_chosen (choice_view self) (level + 1) m.is_active) members in
            IfOk result (λ v. map listed_view v.items ≡ listed) }
    {
        self.members_at(alloc, reading, reading.place(place), level, is_active)
    }

    /// The same of an item that stands there in the text that is read.
    ///
    /// # Errors
    ///
    /// Only if memory runs out.
    pub fn members_at(
        self,
        alloc: Global,
        reading: Reading<'_>,
        place: Option<ItemPlace>,
        level: usize,
        is_active: bool,
    ) -> Result<Vec<ListedMember>, AllocError>
        ensures { let members = placed_members (reading_view reading.entry) place is_active in
            let listed = filter (λ m. spec.is_chosen (choice_view self) (level + 1) m.is_active) members in
            IfOk result (λ v. map listed_view v.items ≡ listed) }
    {
        let mut members = reading.members_at(alloc, place, is_active)?;
        members.retain(|member| self.takes_inside(level, member.is_active));
        Ok(members)
    }
}

/// File, line and column of what stands in a file, as compilers write them.
///
/// # Errors
///
/// Only if memory runs out. A part of them may then be added.
#[tactic(auto, using(source_rows::proofs::GrowingTexts::longer, source_rows::proofs::GrowingTexts::itself))]
pub fn push_spot(path: &str, spot: Option<Spot>, out: &mut String) -> Result<(), AllocError>
    ensures text { OnOk result (string_bytes out.new ≡ string_bytes out.old
        ++ item_place path.now spot) }
    ensures longer { BeginsWith (string_bytes out.old) (string_bytes out.new) }
{
    match spot {
        Some(spot) => push_place(path, spot.position, out),
        None => {
            out.push_str(path)?;
            out.push_str(": ")
        }
    }
}

pub(crate) fn push_indent(level: usize, out: &mut String) -> Result<(), AllocError>
    ensures { OnOk result (string_bytes out.new ≡ string_bytes out.old ++ spec.indent level) }
{
    for _level in 0..level {
        out.push_str("    ")?;
    }
    Ok(())
}

/// Whether a visibility has this path without `in`: `self`, `super` or `crate`.
fn is_one_word(path: &ModPath) -> bool
    ensures { result ≡ spec.is_one_word path.now }
{
    if !path.segments().is_empty() {
        return false;
    }
    match path.kind() {
        PathKind::Super(count) => count < 2,
        PathKind::Crate => true,
        PathKind::Plain | PathKind::Abs | PathKind::DollarCrate(_) => false,
    }
}

/// The visibility of the module of a path.
pub(crate) fn push_visible_in(
    edition: &Edition,
    path: &ModPath,
    out: &mut String,
) -> Result<(), AllocError>
    ensures { let text = spec.visible_in edition.now.reserved.items path.now in
        OnOk result (string_bytes out.new ≡ string_bytes out.old ++ text) }
{
    out.push_str(if is_one_word(path) { "pub(" } else { "pub(in " })?;
    let path = path.display(edition);
    write!(out, "{path})")
}

/// A visibility as it was written, and a blank.
pub(crate) fn push_visibility(
    edition: &Edition,
    visibility: Option<&RawVisibility>,
    out: &mut String,
) -> Result<(), AllocError>
    ensures { let text = spec.visibility_text edition.now.reserved.items
        (option_copied visibility.entry) in
        OnOk result (string_bytes out.new ≡ string_bytes out.old ++ text) }
{
    match visibility {
        None | Some(RawVisibility::PubSelf(VisibilityExplicitness::Implicit)) => Ok(()),
        Some(RawVisibility::PubSelf(VisibilityExplicitness::Explicit)) => {
            out.push_str("pub(self) ")
        }
        Some(RawVisibility::Public) => out.push_str("pub "),
        Some(RawVisibility::PubCrate) => out.push_str("pub(crate) "),
        Some(RawVisibility::Module(path, _)) => {
            push_visible_in(edition, path, out)?;
            out.push_str(" ")
        }
    }
}

/// The end of an item's line, which tells whether a cfg disables it.
pub(crate) fn push_end(is_active: bool, out: &mut String) -> Result<(), AllocError>
    ensures { OnOk result (string_bytes out.new ≡ string_bytes out.old ++ spec.line_end is_active) }
{
    out.push_str(if is_active { "\n" } else { " (inactive)\n" })
}

impl<'a> Printer<'a> {
    pub(crate) fn new(
        source: Source<'a>,
        places: &'a [ItemPlace],
        use_trees: &'a [usize],
        edition: &'a Edition,
    ) -> Self
        requires { AreDistinct places.now }
        ensures { let all = file_places places.entry.now use_trees.entry.now in
            IsPrinterOf (source_view source.entry) all edition.entry.now result }
    {
        Printer {
            path: source.path,
            edition,
            finder: PlaceFinder::new(source.text, places, use_trees),
            has_keywords: are_keywords(&edition.reserved),
        }
    }
}

impl Printer<'_> {
    /// A blank and a name, if there is one.
    pub(crate) fn push_name(&self, name: Option<&Name>, out: &mut String) -> Result<(), AllocError>
        ensures { let text = spec.listed_name (reserved_of self.now) (option_copied name.entry) in
            OnOk result (string_bytes out.new ≡ string_bytes out.old ++ text) }
    {
        let Some(name) = name else {
            return Ok(());
        };
        out.push_str(" ")?;
        // Most names are told to be no reserved words by a quick test.
        if self.has_keywords && !may_be_keyword(name.text()) {
            return out.push_str(name.text());
        }
        let name = name.display(self.edition);
        write!(out, "{name}")
    }

    /// Where a member stands, by a column of these units.
    pub(crate) fn member_spot(&mut self, units: Units, member: &ListedMember) -> Spot
        ensures spot { result ≡ member_spot units (file_of self.old).text (listed_view member.now) }
        ensures same { IsSameFile self.old self.new }
    {
        Spot {
            position: self.finder.position(units, member.at),
            range: member.range,
        }
    }

    /// Where something stands in the file.
    pub(crate) fn push_at(&mut self, at: Option<usize>, out: &mut String) -> Result<(), AllocError>
        ensures text { OnOk result (string_bytes out.new ≡ string_bytes out.old
            ++ spec.at_text (file_of self.old) at) }
        ensures same { IsSameFile self.old self.new }
    {
        match at {
            Some(at) => {
                let position = self.finder.position(Units::Characters, at);
                push_place(self.path, position, out)
            }
            None => push_spot(self.path, None, out),
        }
    }
}
