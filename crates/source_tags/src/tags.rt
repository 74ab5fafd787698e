//! Lines of a tags file, by which editors jump to names.
ghost use Rattle.std.specs.Prelude.{◌≡◌, ◌++◌, if◌then◌else◌, IfOk, OnOk, None, Some, map, string_bytes};
ghost use Rattle.std.specs.Prelude.{option_copied, option_map, option_to_list};
ghost use Rattle.tree_walk.specs.Rows as rows;
ghost use Rattle.tree_walk.specs.Views.{row_view};
ghost use Rattle.source_rows.specs.Labels.{kind_texts};
ghost use Rattle.source_rows.specs.ListedViews.{listed_view};
ghost use Rattle.source_rows.specs.Places.{AreDistinct};
ghost use Rattle.source_tags.specs.Inner.{IsSameTagger, tag_item_view, tag_place_view, tagged_file};
ghost use Rattle.source_tags.specs.Tags as spec;
ghost use Rattle.source_listing.specs.Views.{source_view};
ghost use Rattle.source_tags.specs.Views.{tag_choice_view};

use crate::line_searches::LineTexts;
use crate::safe_texts::safe_text;
use crate::tag_bodies::{MOST_BLOCKS, TagChoice};
use crate::tag_fields::{
    TagFields, TagItem, TagPlace, is_function, is_method, item_access, member_access,
    push_behind_address,
};
use hir_input::{AstIdKind, Name};
use item_tree::ItemTree;
use itoa::Buffer;
use rust_items::{ItemPlace, MemberKind};
use rust_paths::TextRange;
use source_rows::{Finder, ListedMember, Source, kind_texts, stands_at, text_at};
use std::alloc::{AllocError, Global};
use tree_walk::Row;

/// How an editor finds the place of a tag.
#[derive(Clone, Copy, Debug)]
pub enum Address {
    /// By a search for its line, which finds it too where lines were put in above.
    Pattern,
    /// By its line's number.
    Number,
}

/// How tags are written.
#[derive(Clone, Copy, Debug)]
pub struct TagForm {
    pub address: Address,
    pub fields: TagFields,
}

/// The fields of a tag where none are asked for: a search begins at the line, since other lines may be the same.
pub fn usual_fields(address: Address) -> TagFields
    ensures { result ≡ spec.usual_fields address }
{
    TagFields {
        has_kind: true,
        has_line: matches!(address, Address::Pattern),
        has_language: false,
        has_scope: true,
        has_access: false,
        has_signature: false,
        has_end: false,
    }
}

/// What the tags of a file are made from.
#[derive(Drop)]
pub(crate) struct Tagger<'a> {
    pub(crate) alloc: Global,
    /// As it is written.
    path: &'a str,
    text: &'a str,
    form: TagForm,
    finder: Finder<'a>,
    lines: LineTexts<'a>,
}

/// The letter of a member's kind.
fn member_letter(kind: MemberKind) -> Option<&'static str>
    ensures { option_map (λ s. s.now) result ≡ spec.member_letter kind }
{
    match kind {
        MemberKind::Function => Some("P"),
        MemberKind::Constant => Some("C"),
        MemberKind::TypeAlias => Some("t"),
        MemberKind::MacroCall => None,
        MemberKind::Variant => Some("e"),
        MemberKind::Field => Some("m"),
    }
}

/// The word for what members of an item stand in, where that for what it stands in is this.
pub(crate) fn scope_word<'a>(around: &'a str, kind: AstIdKind, name: Option<&Name>) -> &'a str
    ensures { result.now ≡ spec.scope_word around.now (option_copied name.entry) (kind_texts kind).scope }
{
    match name {
        None => around,
        Some(_) => match kind_texts(kind).scope {
            Some(word) => word,
            None => around,
        },
    }
}

/// What the tag of an item is of.
fn item_told<'a>(
    row: &Row<'_>,
    name: &'a Name,
    letter: &'static str,
    place: ItemPlace,
) -> TagItem<'a>
    ensures { tag_item_view result ≡ spec.item_told (row_view row.now) name.entry.now letter.now place }
{
    TagItem {
        name,
        at: stands_at(place),
        end: place.range.end,
        letter,
        access: item_access(row.visibility),
        is_function: is_function(row.id.kind),
    }
}

/// What the tag of a member is of.
fn member_item<'a>(member: &'a ListedMember, letter: &'static str) -> TagItem<'a>
    ensures { tag_item_view result ≡ spec.member_item (listed_view member.entry.now) letter.now }
{
    TagItem {
        name: &member.name,
        at: member.at,
        end: member.range.end,
        letter,
        access: member_access(member.kind, &member.visibility),
        is_function: is_method(member.kind),
    }
}

impl<'a> Tagger<'a> {
    /// The last line of what ends there, if it is asked for.
    fn last_line(&mut self, end: usize) -> Option<usize>
        ensures line { let f = tagged_file self.old in
            result ≡ (if f.form.fields.has_end then Some (spec.line_at f end) else None) }
        ensures same { IsSameTagger self.old self.new }
    {
        if self.form.fields.has_end {
            Some(self.finder.lines.position(end).line)
        } else {
            None
        }
    }

    /// Where what a tag is of stands.
    fn place(&mut self, item: TagItem<'_>) -> TagPlace<'a>
        ensures place { tag_place_view result
            ≡ spec.tag_place (tagged_file self.old) (tag_item_view item.entry) }
        ensures same { IsSameTagger self.old self.new }
    {
        let range = TextRange {
            start: item.at,
            end: item.end,
        };
        TagPlace {
            line: self.finder.lines.position(item.at).line,
            last: self.last_line(item.end),
            head: text_at(self.text, range),
        }
    }
}

impl Tagger<'_> {
    /// Adds how an editor finds a line.
    fn push_address(&mut self, line: usize, out: &mut String) -> Result<(), AllocError>
        ensures text { let address = spec.address_by self.old.form.address (tagged_file self.old) line in
            OnOk result (string_bytes out.new ≡ string_bytes out.old ++ address) }
        ensures same { IsSameTagger self.old self.new }
    {
        match self.form.address {
            Address::Pattern => self.lines.push_search(line.saturating_sub(1), out),
            Address::Number => out.push_str(Buffer::new().format(line)),
        }
    }

    /// Adds a tag of what stands there.
    fn push_tag_at(
        &mut self,
        item: TagItem<'_>,
        place: TagPlace<'_>,
        word: &str,
        scope: &[&Name],
        out: &mut String,
    ) -> Result<(), AllocError>
        ensures text { let text = spec.tag_by (tagged_file self.old) (tag_item_view item.entry)
            (tag_place_view place.entry) word.now (map (λ n. n.now) scope.now) in
            OnOk result (string_bytes out.new ≡ string_bytes out.old ++ text) }
        ensures same { IsSameTagger self.old self.new }
    {
        let fields = self.form.fields.text(self.alloc, item, place, word, scope)?;
        out.push_str(item.name.text())?;
        out.push_str("\t")?;
        out.push_str(self.path)?;
        out.push_str("\t")?;
        self.push_address(place.line, out)?;
        push_behind_address(&fields, out)?;
        out.push_str("\n")
    }

    /// Adds a tag that stands in these.
    fn push_tag(
        &mut self,
        item: TagItem<'_>,
        word: &str,
        scope: &[&Name],
        out: &mut String,
    ) -> Result<(), AllocError>
        ensures text { let text = spec.tag_text (tagged_file self.old) (tag_item_view item.entry)
            word.now (map (λ n. n.now) scope.now) in
            OnOk result (string_bytes out.new ≡ string_bytes out.old ++ text) }
        ensures same { IsSameTagger self.old self.new }
    {
        let place = self.place(item);
        self.push_tag_at(item, place, word, scope, out)
    }

    /// Adds the tag of an item in what has this word, if it has one.
    pub(crate) fn push_item_tag(
        &mut self,
        word: &str,
        row: &Row<'_>,
        place: Option<ItemPlace>,
        out: &mut String,
    ) -> Result<(), AllocError>
        ensures text { let tag = spec.tag (tagged_file self.old) word.now place (row_view row.now) in
            OnOk result (string_bytes out.new ≡ string_bytes out.old ++ spec.if_any tag) }
        ensures same { IsSameTagger self.old self.new }
    {
        let Some(name) = row.name else {
            return Ok(());
        };
        let Some(letter) = kind_texts(row.id.kind).letter else {
            return Ok(());
        };
        let Some(place) = place else {
            return Ok(());
        };
        let item = item_told(row, name, letter, place);
        self.push_tag(item, word, row.scope.as_slice(), out)
    }

    /// Adds the tag of a member that stands in these, of which the innermost has this word, if it has one.
    pub(crate) fn push_member_tag(
        &mut self,
        word: &str,
        scope: &[&Name],
        member: &ListedMember,
        out: &mut String,
    ) -> Result<(), AllocError>
        ensures text { let tag = spec.tag_inside (tagged_file self.old) word.now
            (map (λ n. n.now) scope.now) (listed_view member.now) in
            OnOk result (string_bytes out.new ≡ string_bytes out.old ++ spec.if_any tag) }
        ensures same { IsSameTagger self.old self.new }
    {
        let Some(letter) = member_letter(member.kind) else {
            return Ok(());
        };
        let item = member_item(member, letter);
        self.push_tag(item, word, scope, out)
    }

    /// Adds the tag of an item of a file, and those of what stands in it.
    fn push_whole(
        &mut self,
        asked: TagChoice<'_>,
        row: &Row<'_>,
        out: &mut String,
    ) -> Result<(), AllocError>
        requires { AreDistinct self.old.finder.places }
        ensures text { let whole = spec.whole_tags (tagged_file self.old) (tag_choice_view asked.entry) in
            let added = whole self.old.finder.places (row_view row.now) in
            OnOk result (string_bytes out.new ≡ string_bytes out.old ++ added) }
        ensures same { IsSameTagger self.old self.new }
    {
        let place = asked.reading.place(self.finder.places.find(row.id));
        self.push_placed(asked, MOST_BLOCKS, "module", row, place, out)
    }
}

/// The tags of a file: for each chosen item with a name of a kind that has a letter, and for each chosen member with a
/// name where members are asked for, its name, the file, how its place is found and the fields, in the form of
/// Universal Ctags, in the order of the items, each before its members. A member stands in its item, and one of an impl
/// in the type, if that is a path. What stands in the body of a function has tags behind that of the function, if they
/// are asked for. A control character or a backslash in the path or in a signature stands behind a backslash, as
/// Universal Ctags has it too.
///
/// The places are those that the reader gave with the syntax of the tree.
///
/// # Errors
///
/// Only if memory runs out.
pub fn tag_lines(
    alloc: Global,
    source: Source<'_>,
    form: TagForm,
    places: &[ItemPlace],
    tree: &ItemTree,
    asked: TagChoice<'_>,
) -> Result<String, AllocError>
    requires { AreDistinct places.now }
    ensures { let tags = spec.tags (source_view source.entry) form (tag_choice_view asked.entry) places.now in
        IfOk result (λ text. string_bytes text ≡ tags (rows.rows tree.now)) }
{
    let path = safe_text(alloc, source.path)?;
    let mut tagger = Tagger {
        alloc,
        path: &path,
        text: source.text,
        form,
        finder: Finder::new(source.text, places),
        lines: LineTexts::new(source.text),
    };
    let rows = asked.choice.rows(alloc, tree)?;
    let mut out = String::new(alloc);
    for row in &rows {
        tagger.push_whole(asked, row, &mut out)?;
    }
    Ok(out)
}
