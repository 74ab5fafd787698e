//! A session: a table of trees, the texts of its files, and an index of its names.
ghost use Rattle.std.specs.Prelude.{ℕ, ◌≡◌, ◌∷◌, [], None, IfSome, OnErr, OnOk, MatchResult, map};
ghost use Rattle.std.specs.{List.AllByRecursion, Prelude.length, Prelude.option_copied, Prelude.string_bytes};
ghost use Rattle.hir_input.specs.Edition.{edition_view};
ghost use Rattle.item_tree.specs.CrateView.{crate_view};
ghost use Rattle.item_tree_db.specs.declared.place.Place.TheVariants.{File};
ghost use Rattle.item_tree_db.specs.State.{present};
ghost use Rattle.decl_index.specs.Entries.{IndexView, IsBehind, IsIndexOf};
ghost use Rattle.source_rows.specs.Places.{AreDistinct};
ghost use Rattle.text_session.specs.Edits.{NamesCrateOf, change_text, set_text, text_edit_view};
ghost use Rattle.text_session.specs.Inner.{AreTogether, IsPlaced, LeadsBy};
ghost use Rattle.text_session.specs.Refusals.{made_count, outcome_of};
ghost use Rattle.text_session.specs.Sessions.{AreSetTo, IsEdited, IsSetTo, IsUnedited, new_session};
ghost use Rattle.text_session.specs.Texts.{text_in, text_of_place};
ghost use Rattle.text_session.specs.Touched.{touched_keys};

use crate::edit::TextEdit;
use crate::error::EditError;
use crate::inside::edit_inside_body;
use crate::meaning::meanings_of;
use crate::texts::{SourceText, Texts, make_room, put_first, text_at, text_of};
use crate::touched::{Touched, refresh, touch_all};
use decl_index::DeclIndex;
use hir_input::{Edition, EditionYear, HirFileId, Name};
use item_tree::{CrateData, EditFault, LowerError};
use item_tree_db::{AllRefused, Place, Sources};
use rust_items::TextRange;
use std::alloc::{AllocError, Global};
use std::collections::BTreeMap;
use std::marker::Model;

/// A table of item trees whose files are set to Rust texts, with these texts and an index of the names of the items.
///
/// A text is read once. Where a call makes one edit, inside a body of a text that has no problem before or after, the
/// text is not read again: what was read of it is moved. No clause but `text` tells of that, by which each text is kept
/// as if it was read anew.
pub struct Session {
    count: usize,
    edition: Edition,
    sources: Sources,
    texts: Texts,
    index: DeclIndex,
    touched: Touched,
}

// (Written out: what is derived is proved anew, field by field, in each crate that drops one.)
impl Drop for Session {
    fn drop(self) {
        let Session {
            count: _,
            edition: _,
            sources: _,
            texts: _,
            index: _,
            touched: _,
        } = self;
    }
}

impl Model for Session {
    ghost use Rattle.hir_input.specs.Edition.{edition_view};
    ghost use Rattle.std.specs.Coded.{codes};
    ghost use Rattle.item_tree_db.specs.Codes.{state_code};
    ghost use Rattle.text_session.specs.Inner.{AreTogether, session_of};
    ghost use Rattle.text_session.specs.Sessions.{Indexed};
    ghost use Rattle.text_session.specs.Touched.{touched_keys};

    ghost Value = { Indexed };

    ghost coded = { Prim.hlevel (codes, state_code) };

    ghost view = { λ x. record {
      session = session_of (edition_view x.edition) x.sources x.texts.entries;
      index = x.index;
    } };

    ghost invariant = { λ x. let touched = touched_keys x.touched in
        AreTogether x.count x.edition.year x.sources x.texts.entries x.index touched };
}

// How many crates of a table have a number.
const CRATE_LIMIT: usize = 0x1_0000_0000;

// How many edits of the table were made, of so many.
fn made_count(made: &Result<u64, AllRefused>, count: usize) -> usize
    ensures { result ≡ made_count count made.now }
{
    match made {
        Ok(_) => count,
        Err(all) => all.place,
    }
}

// Why not all edits of the table were made: one of them was refused, or memory ran out in it.
fn outcome(made: Result<u64, AllRefused>) -> Result<(), EditError>
    ensures { result ≡ outcome_of made }
{
    match made {
        Ok(_) => Ok(()),
        Err(AllRefused { place, refused }) => match refused.cause {
            EditFault::Lower(LowerError::OutOfMemory) => Err(EditError::OutOfMemory),
            cause => Err(EditError::Refused { place, cause }),
        },
    }
}

// Makes edits in a table and in the texts of its files, up to the first that is refused. Each text that one of them
// sets or changes is read.
fn edit_files(
    alloc: Global,
    sources: &mut Sources,
    texts: &mut Texts,
    touched: &mut Touched,
    edits: Vec<TextEdit>,
    edition: EditionYear,
) -> Result<(), EditError>
    requires { AllByRecursion (NamesCrateOf sources.old) (map text_edit_view edits.items) }
    ensures edited { LeadsBy edition sources.old texts.old.entries (map text_edit_view edits.items)
        sources.new texts.new.entries result }
    ensures together { (count : ℕ) (index : IndexView)
        → AreTogether count edition sources.old texts.old.entries index (touched_keys touched.old)
        → AreTogether count edition sources.new texts.new.entries index (touched_keys touched.new) }
{
    let meanings = meanings_of(alloc, edits, texts, edition)?;
    make_room(texts, &meanings.changes)?;
    touch_all(touched, &meanings.edits);
    let most = meanings.edits.len();
    let made = sources.edit_all(meanings.edits);
    put_first(texts, meanings.changes, made_count(&made, most));
    outcome(made)
}

// Makes edits in a table and in the texts of its files, up to the first that is refused. No text is read where there is
// one edit, and it lies inside a body.
fn edit_texts(
    alloc: Global,
    sources: &mut Sources,
    texts: &mut Texts,
    touched: &mut Touched,
    edits: Vec<TextEdit>,
    edition: EditionYear,
) -> Result<(), EditError>
    requires known { AllByRecursion (NamesCrateOf sources.old) (map text_edit_view edits.items) }
    requires read { AreSetTo edition sources.old texts.old.entries }
    requires placed { (file : ℕ) → IsPlaced (text_in texts.old.entries file) }
    ensures edited { LeadsBy edition sources.old texts.old.entries (map text_edit_view edits.items)
        sources.new texts.new.entries result }
    ensures together { (count : ℕ) (index : IndexView)
        → AreTogether count edition sources.old texts.old.entries index (touched_keys touched.old)
        → AreTogether count edition sources.new texts.new.entries index (touched_keys touched.new) }
{
    if edit_inside_body(alloc, sources, texts, &edits)? {
        return Ok(());
    }
    edit_files(alloc, sources, texts, touched, edits, edition)
}

impl Session {
    /// A session in which nothing is set. Crate k is the k-th of the list, counted from 0. No tree has an attribute
    /// whose path is one of the `skipped` names. Texts are read as the year of the edition has them. `start` is the
    /// number before the first edit. Takes no memory.
    pub fn new(
        alloc: Global,
        crates: Vec<CrateData>,
        skipped: Vec<Name>,
        edition: Edition,
        start: u64,
    ) -> Session
        ensures session { let crates = map crate_view crates.items in
            result.session ≡ new_session crates skipped.items (edition_view edition) start }
        ensures index { result.index ≡ (None, []) }
    {
        Session {
            count: crates.len().min(CRATE_LIMIT),
            edition,
            sources: Sources::new(alloc, crates, skipped, start),
            texts: BTreeMap::new(alloc),
            index: DeclIndex::new(alloc),
            touched: None,
        }
    }

    /// How many crates the table has: those with a lower number, which `sources` knows.
    pub fn crate_count(&self) -> usize
        ensures { result ≡ length self.now.session.table.crates }
    {
        self.count
    }

    /// The edition.
    pub fn edition(&self) -> &Edition
        ensures { edition_view result.now ≡ self.now.session.edition }
    {
        &self.edition
    }

    /// The table: the present syntaxes, the trees and their change numbers.
    pub fn sources(&self) -> &Sources
        ensures { result.now ≡ self.now.session.table }
    {
        &self.sources
    }

    /// The number of the last edit, or `start`.
    pub fn number(&self) -> u64
        ensures { result ≡ self.now.session.table.number }
    {
        self.sources.number()
    }

    /// The text of a file, with what was read of it. A file has one if the last edit that set or removed it set it to a
    /// text.
    ///
    /// It is kept as lists read it anew, and the syntax that is read of it is that of the file in the table (`read`).
    pub fn text(&self, file: HirFileId) -> Option<&SourceText>
        ensures text { option_copied result ≡ text_in self.now.session.texts file.0 }
        ensures read { let syntax = present self.now.session.table (File file) in
            IfSome result (λ text. IsSetTo self.now.session.edition.0 syntax text.now) }
        ensures ids { IfSome result (λ text. AreDistinct text.now.places.items) }
    {
        text_of(&self.texts, file.0)
    }

    /// The text of a place. A block has none.
    pub fn text_at(&self, place: Place) -> Option<&SourceText>
        ensures text { option_copied result ≡ text_of_place self.now.session.texts place }
        ensures read { let syntax = present self.now.session.table place in
            IfSome result (λ text. IsSetTo self.now.session.edition.0 syntax text.now) }
        ensures ids { IfSome result (λ text. AreDistinct text.now.places.items) }
    {
        text_at(&self.texts, place)
    }

    /// Makes edits, up to the first that is refused. Each is of what those before it leave.
    ///
    /// The caller shows that the table knows each crate that an edit names.
    ///
    /// # Errors
    ///
    /// - `NotChanged` where an edit gives a file no text: it sets one of more than 2^32 bytes, or changes one as
    ///   `ChangeFault` tells. It is the first that does, and nothing is made.
    /// - `Refused` where an edit passes a size of trees, or the last number. It is the first that does: those before it
    ///   are made.
    /// - `OutOfMemory`: the first edits are made, down to none. A mended text of more than 2^32 bytes counts as that.
    pub fn edit(&mut self, alloc: Global, edits: Vec<TextEdit>) -> Result<(), EditError>
        requires { AllByRecursion (NamesCrateOf self.old.session.table)
            (map text_edit_view edits.items) }
        ensures edited { MatchResult result
            (λ _. IsEdited self.old.session (map text_edit_view edits.items) self.new.session)
            (IsUnedited self.old.session (map text_edit_view edits.items) self.new.session) }
        ensures index { self.new.index ≡ self.old.index }
    {
        edit_texts(
            alloc,
            &mut self.sources,
            &mut self.texts,
            &mut self.touched,
            edits,
            self.edition.year,
        )
    }

    // Makes one edit that names no crate.
    fn edit_one(&mut self, alloc: Global, edit: TextEdit) -> Result<(), EditError>
        requires { NamesCrateOf self.old.session.table (text_edit_view edit) }
        ensures edited { MatchResult result
            (λ _. IsEdited self.old.session (text_edit_view edit ∷ []) self.new.session)
            (IsUnedited self.old.session (text_edit_view edit ∷ []) self.new.session) }
        ensures index { self.new.index ≡ self.old.index }
    {
        let edits = vec![in alloc; edit]?;
        self.edit(alloc, edits)
    }

    /// Gives a file a text, and the syntax that is read of it.
    ///
    /// # Errors
    ///
    /// Those of `edit`.
    pub fn set_text(
        &mut self,
        alloc: Global,
        file: HirFileId,
        text: String,
    ) -> Result<(), EditError>
        ensures edited { let asked = set_text file.0 (string_bytes text) ∷ [] in
            MatchResult result (λ _. IsEdited self.old.session asked self.new.session)
            (IsUnedited self.old.session asked self.new.session) }
        ensures index { self.new.index ≡ self.old.index }
    {
        self.edit_one(alloc, TextEdit::SetText { file, text })
    }

    /// Replaces what stands in a range of the text of a file.
    ///
    /// # Errors
    ///
    /// Those of `edit`.
    pub fn change_text(
        &mut self,
        alloc: Global,
        file: HirFileId,
        range: TextRange,
        text: String,
    ) -> Result<(), EditError>
        ensures edited { let asked = change_text file.0 range (string_bytes text) ∷ [] in
            MatchResult result (λ _. IsEdited self.old.session asked self.new.session)
            (IsUnedited self.old.session asked self.new.session) }
        ensures index { self.new.index ≡ self.old.index }
    {
        self.edit_one(alloc, TextEdit::ChangeText { file, range, text })
    }

    /// Brings the index up to the table. Where it was refreshed before, and no edit since gave options, it looks only
    /// at places that edits named, which no clause says.
    ///
    /// # Errors
    ///
    /// Only if memory runs out: then the index stays as it was, and can be refreshed again.
    pub fn refresh(&mut self, alloc: Global) -> Result<(), AllocError>
        ensures index { OnOk result (IsIndexOf self.new.session.table self.new.index) }
        ensures session { self.new.session ≡ self.old.session }
        ensures err { OnErr result (self.new ≡ self.old) }
    {
        refresh(alloc, &mut self.index, &self.sources, &mut self.touched)
    }

    /// The index of the names as it was last refreshed: which items have a name, and where they are declared.
    pub fn index(&self) -> &DeclIndex
        ensures index { result.now ≡ self.now.index }
        ensures behind { IsBehind self.now.index self.now.session.table }
    {
        &self.index
    }
}
