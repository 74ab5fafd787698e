//! Entries of outlines as lines of text.
ghost use Rattle.std.specs.Prelude.{◌≡◌, ◌++◌, OnOk, flat_map, map, option_copied, string_bytes};
ghost use Rattle.source_rows.specs.Places.{item_place};
ghost use Rattle.list_forms.specs.Colors.{bold_code, colored_text, faint_code};
ghost use Rattle.source_listing.specs.Inner.{entry_view, file_of, kind_view, reserved_of};
ghost use Rattle.source_listing.specs.Outlines as spec;

use crate::entries::{Entry, EntryKind, entry_word};
use crate::import_texts::push_import_text;
use crate::lines::{push_end, push_indent, push_spot, push_visibility};
use crate::printer::Printer;
use crate::subjects::push_subject;
use hir_input::{Edition, Name};
use list_forms::{BOLD, CYAN, FAINT, USUAL, push_color, push_colored};
use source_rows::Spot;
use std::alloc::AllocError;

/// How deep a line is told to be.
fn shown_level(is_flat: bool, level: usize) -> usize
    ensures { result ≡ spec.shown_level is_flat level }
{
    if is_flat { 0 } else { level }
}

/// Members and imports are one level deeper than their item.
fn own_level(kind: EntryKind<'_, '_>) -> usize
    ensures { result ≡ spec.own_level (kind_view kind.entry) }
{
    match kind {
        EntryKind::Item(_, _, _) => 0,
        EntryKind::Member(_) | EntryKind::Import(_) => 1,
    }
}

/// Adds names, with two colons behind each.
fn push_around(scope: &[&Name], out: &mut String) -> Result<(), AllocError>
    ensures { let names = flat_map (λ n. spec.name_around n.now) scope.now in
        OnOk result (string_bytes out.new ≡ string_bytes out.old ++ names) }
{
    for name in scope {
        out.push_str(name.text())?;
        out.push_str("::")?;
    }
    Ok(())
}

/// What a name is told to be in, of these.
fn shown_scope<'a, 'n>(is_flat: bool, scope: &'a [&'n Name]) -> &'a [&'n Name]
    ensures { let names = map (λ n. n.now) scope.now in
        map (λ n. n.now) result.now ≡ spec.shown_scope is_flat names }
{
    if is_flat { scope } else { &scope[..0] }
}

/// The header of an impl, behind a blank.
fn push_header(header: &str, out: &mut String) -> Result<(), AllocError>
    ensures { OnOk result (string_bytes out.new ≡ string_bytes out.old
        ++ spec.header_text header.now) }
{
    if header.is_empty() {
        return Ok(());
    }
    out.push_str(" ")?;
    out.push_str(header)
}

/// What stands in front of a name.
fn push_title_front(kind: EntryKind<'_, '_>, out: &mut String) -> Result<(), AllocError>
    ensures { OnOk result (string_bytes out.new ≡ string_bytes out.old
        ++ spec.title_front (kind_view kind.entry)) }
{
    match kind {
        EntryKind::Item(_, header, _) => push_header(header, out),
        EntryKind::Member(_) | EntryKind::Import(_) => Ok(()),
    }
}

/// What stands in place of a name.
fn push_title_end(
    edition: &Edition,
    kind: EntryKind<'_, '_>,
    out: &mut String,
) -> Result<(), AllocError>
    ensures { OnOk result (string_bytes out.new ≡ string_bytes out.old
        ++ spec.title_end edition.now.reserved.items (kind_view kind.entry)) }
{
    match kind {
        EntryKind::Item(_, _, subject) => push_subject(edition, subject, out),
        EntryKind::Member(_) => Ok(()),
        EntryKind::Import(import) => {
            out.push_str(" ")?;
            push_import_text(edition, import, out)
        }
    }
}

impl Printer<'_> {
    /// A blank and a name behind those of what is around it, if there is one.
    fn push_name_in(
        &self,
        scope: &[&Name],
        name: Option<&Name>,
        out: &mut String,
    ) -> Result<(), AllocError>
        ensures { let text = spec.scoped_name (reserved_of self.now) (map (λ n. n.now) scope.now)
            (option_copied name.entry) in
            OnOk result (string_bytes out.new ≡ string_bytes out.old ++ text) }
    {
        let [_, ..] = scope else {
            return self.push_name(name, out);
        };
        let Some(name) = name else {
            return Ok(());
        };
        out.push_str(" ")?;
        push_around(scope, out)?;
        let name = name.display(self.edition);
        write!(out, "{name}")
    }

    /// What follows the word of a kind, bold if colours are wanted.
    #[tactic(auto, unfolding(list_forms::specs::Colors::colored_text))]
    fn push_title(
        &self,
        is_colored: bool,
        scope: &[&Name],
        entry: Entry<'_, '_>,
        out: &mut String,
    ) -> Result<(), AllocError>
        ensures { let text = spec.title (reserved_of self.now) (map (λ n. n.now) scope.now)
            (entry_view entry.entry) in
            OnOk result (string_bytes out.new ≡ string_bytes out.old ++ colored_text is_colored bold_code text) }
    {
        push_color(is_colored, BOLD, out)?;
        push_title_front(entry.kind, out)?;
        self.push_name_in(scope, entry.name, out)?;
        push_title_end(self.edition, entry.kind, out)?;
        push_color(is_colored, USUAL, out)
    }

    /// Where something stands, faint if colours are wanted.
    #[tactic(auto, unfolding(list_forms::specs::Colors::colored_text))]
    fn push_stand(
        &self,
        is_colored: bool,
        spot: Option<Spot>,
        out: &mut String,
    ) -> Result<(), AllocError>
        ensures { let place = colored_text is_colored faint_code (item_place (file_of self.now).path spot) in
            OnOk result (string_bytes out.new ≡ string_bytes out.old ++ place) }
    {
        push_color(is_colored, FAINT, out)?;
        push_spot(self.path, spot, out)?;
        push_color(is_colored, USUAL, out)
    }

    /// The line of an entry whose item is in so many others, in these names.
    pub(crate) fn push_line(
        &self,
        is_colored: bool,
        is_flat: bool,
        level: usize,
        scope: &[&Name],
        entry: Entry<'_, '_>,
        out: &mut String,
    ) -> Result<(), AllocError>
        ensures { let line = spec.entry_line (file_of self.now).path (reserved_of self.now) is_colored is_flat
            level (map (λ n. n.now) scope.now) (entry_view entry.entry) in
            OnOk result (string_bytes out.new ≡ string_bytes out.old ++ line) }
    {
        self.push_stand(is_colored, entry.spot, out)?;
        push_indent(shown_level(is_flat, level), out)?;
        push_indent(shown_level(is_flat, own_level(entry.kind)), out)?;
        push_visibility(self.edition, entry.visibility, out)?;
        push_colored(is_colored, CYAN, entry_word(entry.kind), out)?;
        self.push_title(is_colored, shown_scope(is_flat, scope), entry, out)?;
        push_end(entry.is_active, out)
    }
}
