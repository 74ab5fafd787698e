//! Where headers and members are read.
ghost use Rattle.std.specs.Prelude.{◌≡◌, ◌+◌, ◌<◌, ◌^◌, IfOk, length, map, string_bytes};
ghost use Rattle.source_rows.specs.Labels.{text_at};
ghost use Rattle.source_rows.specs.Listed as spec;
ghost use Rattle.source_rows.specs.ListedViews.{listed_view, reading_view};

use crate::headers::header;
use crate::labels::text_at;
use crate::listed::{Around, ListedMember, listed_members};
use crate::mended::read_item;
use crate::mended_file::MendedFile;
use crate::types::type_name;
use hir_input::{AstIdKind, CfgOptions, EditionYear, Name};
use rust_items::{ItemPlace, TextRange, cut_out};
use std::alloc::{AllocError, Global};

/// A text of an edition, the mended text where that is read in its place, and the cfgs that are set, where members are
/// asked for.
///
/// Places are those of the text as it is, whichever is read, except those that are said to be of the text that is
/// read.
#[derive(Clone, Copy)]
pub struct Reading<'a> {
    pub text: &'a str,
    pub mended: Option<&'a MendedFile>,
    pub edition: EditionYear,
    pub options: Option<&'a CfgOptions>,
}

impl<'a> Reading<'a> {
    /// The text that is read.
    fn read(self) -> &'a str
        ensures { result.now ≡ (reading_view self.entry).text }
    {
        match self.mended {
            Some(mended) => mended.mended.text.as_str(),
            None => self.text,
        }
    }

    /// In the text that is read, the item that the reader gave this place of the text as it is.
    pub fn place(self, place: Option<ItemPlace>) -> Option<ItemPlace>
        ensures { result ≡ spec.read_place (reading_view self.entry).closers place }
    {
        match (self.mended, place) {
            (Some(mended), Some(place)) => read_item(mended, place),
            (_, place) => place,
        }
    }

    /// What stands in a range of the text that is read. It is empty where the range cuts a character.
    #[tactic(auto, using(rust_items::proofs::MemberCuts::cut_length))]
    pub fn part(self, range: TextRange) -> &'a str
        ensures text { result.now ≡ text_at (reading_view self.entry).text range }
        ensures fits { 0 < length result.now → range.start + length result.now < 2 ^ 64 }
    {
        match cut_out(self.read(), range) {
            Some(part) => part,
            None => "",
        }
    }
}

impl Reading<'_> {
    /// What an impl is told by: its type, or its trait, `for` and its type. It is empty for an item of another kind,
    /// and where the place is not known. The place is the one that the reader gave with the text.
    ///
    /// # Errors
    ///
    /// Only if memory runs out.
    pub fn header(
        self,
        alloc: Global,
        kind: AstIdKind,
        place: Option<ItemPlace>,
    ) -> Result<String, AllocError>
        ensures { IfOk result (λ text. string_bytes text
            ≡ spec.header_of (reading_view self.entry) kind place) }
    {
        match (kind, self.place(place)) {
            (AstIdKind::Impl, Some(place)) => {
                header(alloc, self.read(), self.edition, place.range, place.body)
            }
            _ => Ok(String::new(alloc)),
        }
    }

    /// The name of the type that an impl is of, without `r#`: the last name of its path, as `Circle` of
    /// `impl<T> Display for geo::Circle<T>`. There is none of a type that is no path, of an item of another kind, and
    /// where the place is not known. The place is the one that the reader gave with the text.
    ///
    /// # Errors
    ///
    /// Only if memory runs out.
    pub fn type_name(
        self,
        alloc: Global,
        kind: AstIdKind,
        place: Option<ItemPlace>,
    ) -> Result<Option<Name>, AllocError>
        ensures { IfOk result (λ name. name
            ≡ spec.type_name_of (reading_view self.entry) kind place) }
    {
        self.type_name_at(alloc, kind, self.place(place))
    }

    /// The same of an item that stands there in the text that is read.
    ///
    /// # Errors
    ///
    /// Only if memory runs out.
    pub fn type_name_at(
        self,
        alloc: Global,
        kind: AstIdKind,
        place: Option<ItemPlace>,
    ) -> Result<Option<Name>, AllocError>
        ensures { IfOk result (λ name. name
            ≡ spec.type_name_at (reading_view self.entry) kind place) }
    {
        match (kind, place) {
            (AstIdKind::Impl, Some(place)) => {
                type_name(alloc, text_at(self.read(), place.range), self.edition)
            }
            _ => Ok(None),
        }
    }

    /// The members of an item that have names, in the order of the text: the functions, constants and types of a trait
    /// or an impl, the variants of an enum, the fields of a struct or a union with braces. It is empty for an item of
    /// another kind, where the place is not known, and where members are not asked for.
    ///
    /// The place is the one that the reader gave with the text, and `is_active` says that no cfg disables the item, nor
    /// what it stands in.
    ///
    /// # Errors
    ///
    /// Only if memory runs out.
    pub fn members(
        self,
        alloc: Global,
        place: Option<ItemPlace>,
        is_active: bool,
    ) -> Result<Vec<ListedMember>, AllocError>
        ensures { let members = spec.members_of (reading_view self.entry) place is_active in
            IfOk result (λ v. map listed_view v.items ≡ members) }
    {
        self.members_at(alloc, self.place(place), is_active)
    }

    /// The same of an item that stands there in the text that is read.
    ///
    /// # Errors
    ///
    /// Only if memory runs out.
    pub fn members_at(
        self,
        alloc: Global,
        place: Option<ItemPlace>,
        is_active: bool,
    ) -> Result<Vec<ListedMember>, AllocError>
        ensures { let members = spec.placed_members (reading_view self.entry) place is_active in
            IfOk result (λ v. map listed_view v.items ≡ members) }
    {
        match (self.options, place) {
            (Some(options), Some(place)) => {
                let around = Around {
                    text: self.read(),
                    mended: self.mended,
                    edition: self.edition,
                    options,
                    is_active,
                };
                listed_members(alloc, around, &place)
            }
            _ => Ok(Vec::new(alloc)),
        }
    }
}
