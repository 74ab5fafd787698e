//! What is found, as lines and as JSON values.
ghost use Rattle.std.specs.Prelude.{◌≡◌, ◌++◌, IfOk, OnOk, Some, string_bytes};
ghost use Rattle.serde_json.specs.View.{view};
ghost use Rattle.tree_walk.specs.Rows as rows;
ghost use Rattle.source_rows.specs.ListedViews.{reading_view};
ghost use Rattle.source_rows.specs.Places.{AreDistinct};
ghost use Rattle.list_forms.specs.Colors.{bold_code, colored_text, faint_code};
ghost use Rattle.list_forms.specs.declared.lines.Form.TheVariants.{Json};
ghost use Rattle.source_listing.specs.Inner.{IsSameFile, file_of, reserved_of};
ghost use Rattle.source_listing.specs.Lines.{at_text, listed_name};
ghost use Rattle.source_listing.specs.Search as spec;
ghost use Rattle.source_listing.specs.Views.{candidate_view, query_view, source_view};

use crate::printer::Printer;
use crate::search::{Candidate, Query, found_in};
use crate::sought::joined_scope;
use hir_input::{Edition, Name};
use hir_input_json::write::object::{of_text, with, with_text};
use item_tree::ItemTree;
use line_index::{Position, Units};
use list_forms::{
    BOLD, CYAN, FAINT, Form, USUAL, column_number, line_number, push_color, push_colored,
    value_line,
};
use rust_items::ItemPlace;
use serde_json::Value;
use source_rows::{Places, Reading, Source};
use std::alloc::{AllocError, Global};

/// The object of what stands there.
fn found_object(
    alloc: Global,
    path: &str,
    position: Option<Position>,
    candidate: &Candidate,
) -> Result<Value, AllocError>
    ensures { let object = spec.found_object path.now position (candidate_view candidate.now) in
        IfOk result (λ value. view value ≡ object) }
{
    let members = of_text(alloc, "path", path)?;
    let members = with_text(alloc, members, "scope", joined_scope(&candidate.scope))?;
    let members = with_text(alloc, members, "kind", candidate.word)?;
    let members = with_text(alloc, members, "name", candidate.name.text())?;
    let members = with(alloc, members, "line", line_number(position))?;
    Ok(Value::Object(with(alloc, members, "column", column_number(position))?))
}

impl Printer<'_> {
    fn position_at(&mut self, at: Option<usize>) -> Option<Position>
        ensures position { result ≡ spec.position_at (file_of self.old) at }
        ensures same { IsSameFile self.old self.new }
    {
        match at {
            Some(at) => Some(self.finder.position(Units::Characters, at)),
            None => None,
        }
    }

    /// Where something stands, faint if colours are wanted.
    #[tactic(auto, unfolding(list_forms::specs::Colors::colored_text))]
    fn push_faint_at(
        &mut self,
        is_colored: bool,
        at: Option<usize>,
        out: &mut String,
    ) -> Result<(), AllocError>
        ensures text { let place = colored_text is_colored faint_code (at_text (file_of self.old) at) in
            OnOk result (string_bytes out.new ≡ string_bytes out.old ++ place) }
        ensures same { IsSameFile self.old self.new }
    {
        push_color(is_colored, FAINT, out)?;
        self.push_at(at, out)?;
        push_color(is_colored, USUAL, out)
    }

    /// A name behind a blank, bold if colours are wanted.
    #[tactic(auto, unfolding(list_forms::specs::Colors::colored_text))]
    fn push_bold_name(
        &self,
        is_colored: bool,
        name: &Name,
        out: &mut String,
    ) -> Result<(), AllocError>
        ensures { let name = listed_name (reserved_of self.now) (Some name.now) in
            OnOk result (string_bytes out.new ≡ string_bytes out.old ++ colored_text is_colored bold_code name) }
    {
        push_color(is_colored, BOLD, out)?;
        self.push_name(Some(name), out)?;
        push_color(is_colored, USUAL, out)
    }

    /// A place, the word of a kind and a name.
    fn push_found_line(
        &mut self,
        is_colored: bool,
        candidate: &Candidate,
        out: &mut String,
    ) -> Result<(), AllocError>
        ensures text { let line = spec.found_line (file_of self.old) (reserved_of self.old)
            is_colored (candidate_view candidate.now) in
            OnOk result (string_bytes out.new ≡ string_bytes out.old ++ line) }
        ensures same { IsSameFile self.old self.new }
    {
        self.push_faint_at(is_colored, candidate.at, out)?;
        push_colored(is_colored, CYAN, candidate.word, out)?;
        self.push_bold_name(is_colored, &candidate.name, out)?;
        out.push_str("\n")
    }

    /// The same as an object.
    #[tactic(auto, using(crate::proofs::NoFloats::found_none))]
    fn push_found_object(
        &mut self,
        alloc: Global,
        candidate: &Candidate,
        out: &mut String,
    ) -> Result<(), AllocError>
        ensures text { let line = spec.found_text (file_of self.old) (reserved_of self.old)
            Json (candidate_view candidate.now) in
            OnOk result (string_bytes out.new ≡ string_bytes out.old ++ line) }
        ensures same { IsSameFile self.old self.new }
    {
        let position = self.position_at(candidate.at);
        let object = found_object(alloc, self.path, position, candidate)?;
        let line = value_line(alloc, &object)?;
        out.push_str(&line)
    }

    /// The text of an item or a member.
    fn push_found(
        &mut self,
        alloc: Global,
        form: Form,
        candidate: &Candidate,
        out: &mut String,
    ) -> Result<(), AllocError>
        ensures text { let text = spec.found_text (file_of self.old) (reserved_of self.old) form
            (candidate_view candidate.now) in
            OnOk result (string_bytes out.new ≡ string_bytes out.old ++ text) }
        ensures same { IsSameFile self.old self.new }
    {
        match form {
            Form::Line { is_colored } => self.push_found_line(is_colored, candidate, out),
            Form::Json => self.push_found_object(alloc, candidate, out),
        }
    }
}

/// A line for each item that is looked for, and for each member where members are asked for, as `found_in` has them:
/// file, line and column, the word of its kind, and its name, in colours or not. Or a JSON object on a line for each:
/// the `path` of the file, `line` and `column`, its `kind` and `name`, and the names around it as `scope`, with two
/// colons between each two.
///
/// The places are those that the reader gave with the syntax of the tree.
///
/// # Errors
///
/// Only if memory runs out.
pub fn found_lines(
    alloc: Global,
    source: Source<'_>,
    places: &[ItemPlace],
    tree: &ItemTree,
    edition: &Edition,
    reading: Reading<'_>,
    query: Query<'_>,
) -> Result<String, AllocError>
    requires { AreDistinct places.now }
    ensures { let s = source_view source.entry in
        let lines = spec.found_lines s (reading_view reading.entry) edition.now.reserved.items places.now in
        IfOk result (λ text. string_bytes text ≡ lines (query_view query.entry) (rows.rows tree.now)) }
{
    let mut spots = Places::new(places);
    let found = found_in(alloc, tree, &mut spots, reading, query)?;
    let mut printer = Printer::new(source, places, &[], edition);
    let mut out = String::new(alloc);
    for candidate in &found {
        printer.push_found(alloc, query.form, candidate, &mut out)?;
    }
    Ok(out)
}
