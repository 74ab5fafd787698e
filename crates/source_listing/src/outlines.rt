//! Outlines, as lines of text or as flat objects.
ghost use Rattle.std.specs.Prelude.{◌≡◌, ◌++◌, IfOk, OnOk, flat_map, map, option_map, string_bytes};
ghost use Rattle.tree_walk.specs.Listed.{listed_import};
ghost use Rattle.tree_walk.specs.Rows as rows;
ghost use Rattle.tree_walk.specs.Views.{row_view};
ghost use Rattle.source_rows.specs.ListedViews.{listed_view, reading_view};
ghost use Rattle.source_rows.specs.Places.{AreDistinct};
ghost use Rattle.source_listing.specs.Inner.{IsSameFile, entry_view, file_of, places_of, reserved_of};
ghost use Rattle.source_listing.specs.Outlines as spec;
ghost use Rattle.source_listing.specs.Uses.{file_places};
ghost use Rattle.source_listing.specs.Views.{look_view, placed_trees_view, source_view};

use crate::entries::{Entry, import_entry, item_entry, item_of_row, member_entry, opened_imports};
use crate::lines::Choice;
use crate::printer::Printer;
use crate::scopes::names_around;
use crate::search::holder;
use crate::uses::UseTrees;
use hir_input::{Edition, Name};
use item_tree::ItemTree;
use line_index::Units;
use list_forms::Form;
use rust_items::ItemPlace;
use source_rows::{ListedMember, Reading, Source};
use std::alloc::{AllocError, Global};
use tree_walk::{Listed, Row};

/// What an outline tells of, and how.
#[derive(Clone, Copy, Debug)]
pub struct Look {
    pub choice: Choice,
    pub form: Form,
    /// Whether lines have the names of what is around an entry, in place of blanks at the beginning; objects have them.
    pub is_flat: bool,
    /// Whether the imports of a use that has a list are told.
    pub has_imports: bool,
}

impl Look {
    /// Whether the imports of an item are told, if that is a use.
    fn opens(self, row: &Row<'_>) -> bool
        ensures { result ≡ spec.is_opened (look_view self) (row_view row.now) }
    {
        self.has_imports && self.choice.takes_inside(row.level, row.is_active)
    }
}

impl Printer<'_> {
    /// An entry whose item is in so many others, in these names.
    fn push_entry(
        &self,
        alloc: Global,
        look: Look,
        level: usize,
        scope: &[&Name],
        entry: Entry<'_, '_>,
        out: &mut String,
    ) -> Result<(), AllocError>
        ensures { let text = spec.entry_text (file_of self.now).path (reserved_of self.now)
            look.form look.is_flat level (map (λ n. n.now) scope.now) (entry_view entry.entry) in
            OnOk result (string_bytes out.new ≡ string_bytes out.old ++ text) }
    {
        match look.form {
            Form::Line { is_colored } => {
                self.push_line(is_colored, look.is_flat, level, scope, entry, out)
            }
            Form::Json => self.push_object_line(alloc, scope, entry, out),
        }
    }

    /// An item in a row, which stands there.
    fn push_item(
        &mut self,
        alloc: Global,
        reading: Reading<'_>,
        look: Look,
        row: &Row<'_>,
        place: Option<ItemPlace>,
        out: &mut String,
    ) -> Result<(), AllocError>
        ensures text { let text = spec.item_text (file_of self.old) (reserved_of self.old) (look_view look)
            (reading_view reading.entry) (row_view row.now) place in
            OnOk result (string_bytes out.new ≡ string_bytes out.old ++ text) }
        ensures same { IsSameFile self.old self.new }
    {
        let header = reading.header(alloc, row.id.kind, place)?;
        let spot = self.finder.spot(Units::Characters, place);
        let item = item_of_row(row);
        let entry = item_entry(&header, spot, &item);
        self.push_entry(alloc, look, row.level, row.scope.as_slice(), entry, out)
    }

    /// Members of an item in so many others, in these names.
    fn push_members(
        &mut self,
        alloc: Global,
        look: Look,
        level: usize,
        scope: &[&Name],
        members: &[ListedMember],
        out: &mut String,
    ) -> Result<(), AllocError>
        ensures text { let text = spec.member_text (file_of self.old) (reserved_of self.old) (look_view look)
            level (map (λ n. n.now) scope.now) in
            let texts = flat_map text (map listed_view members.now) in
            OnOk result (string_bytes out.new ≡ string_bytes out.old ++ texts) }
        ensures same { IsSameFile self.old self.new }
    {
        for member in members {
            let spot = self.member_spot(Units::Characters, member);
            self.push_entry(alloc, look, level, scope, member_entry(spot, member), out)?;
        }
        Ok(())
    }

    /// The listed members of an item, which stands there.
    fn push_listed_members(
        &mut self,
        alloc: Global,
        reading: Reading<'_>,
        look: Look,
        row: &Row<'_>,
        place: Option<ItemPlace>,
        out: &mut String,
    ) -> Result<(), AllocError>
        ensures text { let texts = spec.member_texts (file_of self.old) (reserved_of self.old) (look_view look)
            (reading_view reading.entry) (row_view row.now) place in
            OnOk result (string_bytes out.new ≡ string_bytes out.old ++ texts) }
        ensures same { IsSameFile self.old self.new }
    {
        let choice = look.choice;
        let members = choice.members(alloc, reading, place, row.level, row.is_active)?;
        if members.is_empty() {
            return Ok(());
        }
        let type_name = reading.type_name(alloc, row.id.kind, place)?;
        let scope = names_around(alloc, row, holder(row.name, &type_name))?;
        self.push_members(alloc, look, row.level, &scope, &members, out)
    }

    /// Imports of a use, whose use trees are these.
    fn push_imports(
        &mut self,
        alloc: Global,
        look: Look,
        row: &Row<'_>,
        trees: Option<UseTrees<'_>>,
        imports: &[Listed],
        out: &mut String,
    ) -> Result<(), AllocError>
        ensures text { let text = spec.opened_text (file_of self.old) (reserved_of self.old) (look_view look)
            (row_view row.now) (option_map placed_trees_view trees.entry) in
            let texts = flat_map text (map listed_import imports.now) in
            OnOk result (string_bytes out.new ≡ string_bytes out.old ++ texts) }
        ensures same { IsSameFile self.old self.new }
    {
        for import in imports {
            let spot = self
                .finder
                .tree_spot(Units::Characters, trees, import.index);
            let entry = import_entry(spot, row, import);
            self.push_entry(alloc, look, row.level, row.scope.as_slice(), entry, out)?;
        }
        Ok(())
    }

    /// The imports of an item, which stands there, if these are told.
    fn push_opened(
        &mut self,
        alloc: Global,
        look: Look,
        row: &Row<'_>,
        place: Option<ItemPlace>,
        out: &mut String,
    ) -> Result<(), AllocError>
        ensures text { let texts = spec.opened_texts (file_of self.old) (reserved_of self.old) (look_view look)
            (places_of self.old).use_trees (row_view row.now) place in
            OnOk result (string_bytes out.new ≡ string_bytes out.old ++ texts) }
        ensures same { IsSameFile self.old self.new }
    {
        if !look.opens(row) {
            return Ok(());
        }
        let imports = opened_imports(alloc, row.subject)?;
        let trees = self.finder.trees(place);
        self.push_imports(alloc, look, row, trees, &imports, out)
    }

    /// An item, and behind it its listed members and imports.
    fn push_row(
        &mut self,
        alloc: Global,
        reading: Reading<'_>,
        look: Look,
        row: &Row<'_>,
        out: &mut String,
    ) -> Result<(), AllocError>
        ensures text { let text = spec.row_outline (file_of self.old) (reserved_of self.old) (look_view look)
            (reading_view reading.entry) (places_of self.old) (row_view row.now) in
            OnOk result (string_bytes out.new ≡ string_bytes out.old ++ text) }
        ensures same { IsSameFile self.old self.new }
    {
        let place = self.finder.place(row.id);
        self.push_item(alloc, reading, look, row, place, out)?;
        self.push_listed_members(alloc, reading, look, row, place, out)?;
        self.push_opened(alloc, look, row, place, out)
    }
}

/// An outline: a line for each chosen item of a file's tree, before those of the items in it: file, line and column,
/// four blanks for each item that it stands in, its visibility as it was written, the word of its kind, its name, and
/// whether a cfg disables it. A use has its tree in place of a name, where `{..}` stands for a list, a macro call the
/// macro's path, and an impl its type and its trait, as `Display for Circle`. If cfgs are given for the members, the
/// chosen ones of those with a name have lines behind that of their item, one level deeper, as the reader reads them;
/// the tree has none. If imports are asked for, each import of a use that has a list has a line as a use of it alone,
/// one level deeper. In colour, places are faint, the words of kinds cyan, and what follows these bold. In a flat
/// outline there are no blanks, and a name stands behind those of the modules around it and of its item, with two
/// colons between them.
///
/// Or a JSON object on a line for each: as `outline_items` has it, without `children`, with the path of the `file`, and
/// with the names of the modules around it, and of its item or the type of its impl, as `scope`. That of an import has
/// no id, and its `path` is that of a use of it alone.
///
/// The places, and those of the use trees, are those that the reader gave with the syntax of the tree.
///
/// # Errors
///
/// Only if memory runs out.
pub fn outline(
    alloc: Global,
    source: Source<'_>,
    places: &[ItemPlace],
    use_trees: &[usize],
    tree: &ItemTree,
    edition: &Edition,
    reading: Reading<'_>,
    look: Look,
) -> Result<String, AllocError>
    requires { AreDistinct places.now }
    ensures { let text_of = spec.outline_text (source_view source.entry) edition.now.reserved.items (look_view look)
        (reading_view reading.entry) (file_places places.now use_trees.now) in
        IfOk result (λ text. string_bytes text ≡ text_of (rows.rows tree.now)) }
{
    let mut printer = Printer::new(source, places, use_trees, edition);
    // Most outlines take less room than a quarter of their texts.
    let mut out = String::with_capacity(alloc, source.text.len() / 4)?;
    let rows = look.choice.rows(alloc, tree)?;
    for row in &rows {
        printer.push_row(alloc, reading, look, row, &mut out)?;
    }
    Ok(out)
}
