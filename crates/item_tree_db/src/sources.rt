//! The table of trees.
ghost use Rattle.std.specs.Prelude.{◌≡◌, ◌≢◌, ◌⊎◌, ◌<◌, ◌≤◌, ◌↔◌, ◌∷◌, [], length, map, slice_get, option_map};
ghost use Rattle.std.specs.Prelude.{option_copied, unwrap_or, Some, IsTrue, IsNone, IfOk, IfErr, IfSome, IfNone};
ghost use Rattle.std.specs.Prelude.{OnSome, OnOk, OnErr, IsErrAnd};
ghost use Rattle.std.specs.List.{AllByRecursion};
ghost use Rattle.hir_input.specs.Syntax.{syntax_view, block_view};
ghost use Rattle.item_tree.specs.declared.fault.EditFault.TheVariants.{TooManyEdits};
ghost use Rattle.item_tree.specs.CrateView.{crate_view};
ghost use Rattle.item_tree_db.specs.declared.edit.Edit.TheVariants.{SetCfg};
ghost use Rattle.item_tree_db.specs.State.{new_table, IsKnown, options, present, unfolding_at, change_number};
ghost use Rattle.item_tree_db.specs.Edits.{edit_view, edits_before, remove as removes, set_cfg as gives};
ghost use Rattle.item_tree_db.specs.History.{IsAfter, IsFooting, IgnoresBodies};
ghost use Rattle.item_tree_db.specs.Inner.Settled.{empty_row};
ghost use Rattle.item_tree_db.specs.Since.{ArePlacesSince, IsGrounded, IsSince, IsSinceAmong};
ghost use Rattle.item_tree_db.specs.Inner.Source.{source_place, source_syntax, edit_of};
ghost use Rattle.item_tree_db.specs.Inner.Table.{IsRowOf};
ghost use Rattle.item_tree_db.specs.Again.{IsSetAgain};
ghost use Rattle.item_tree_db.specs.Refusal.{last_number, NamesKnown, FitsAfter, FirstFit, IsRefusal};

use crate::crate_options::swap_options;
use crate::edit::{AllRefused, Edit, EditRefused};
use crate::place::Place;
use crate::rows::{Row, lower_all};
use crate::shelf::Shelf;
use crate::since::{ChangedSince, places_of};
use crate::source::Source;
use hir_input::ast::{BlockExpr, Syntax};
use hir_input::{BlockId, CfgOptions, Crate, HirFileId, Name};
use item_tree::{CrateData, EditFault, ItemTree, LowerError};
use std::alloc::{AllocError, Global};
use std::collections::BTreeSet;
use std::marker::Model;

// How many crates have a number.
const CRATE_LIMIT: usize = 4_294_967_296;

/// The table of trees: each crate's tree of each place, kept under edits.
///
/// In place of the part of rust-analyzer's database that is asked for trees. While a tree or a syntax that it
/// lends is used, no edit can be made. Crate k is the k-th of the list given to `new`, counted from 0.
pub struct Sources {
    alloc: Global,
    crates: Vec<CrateData>,
    skipped: Vec<Name>,
    start: u64,
    number: u64,
    places: Shelf,
    empty: ItemTree,
}

// (Written out: what is derived is proved anew, field by field, in each crate that drops one.)
impl Drop for Sources {
    fn drop(self) {
        let Sources {
            alloc: _,
            crates: _,
            skipped: _,
            start: _,
            number: _,
            places: _,
            empty: _,
        } = self;
    }
}

impl Model for Sources {
    ghost use Rattle.std.specs.Prelude.{◌≡◌, ◌≤◌, length};
    ghost use Rattle.item_tree.specs.Node.{nothing};
    ghost use Rattle.item_tree_db.specs.State.{State, crate_limit};
    ghost use Rattle.item_tree_db.specs.Inner.Table.{table_from, state_of, IsSound};
    ghost use Rattle.item_tree_db.specs.Codes.{state_code};

    ghost Value = { State };

    ghost coded = { state_code };

    ghost view = { λ a. state_of (table_from a.crates.items a.skipped.items a.start a.number a.places) };

    ghost invariant = { λ a. record {
      few : length a.crates.items ≤ crate_limit;
      sound : IsSound (table_from a.crates.items a.skipped.items a.start a.number a.places);
      empty : a.empty ≡ nothing;
    } };
}

impl Sources {
    /// A table in which nothing is set. Crate k is the k-th of the list, counted from 0; those past the first
    /// 2^32 have no number and are dropped. No tree has an attribute whose path is one of the `skipped` names.
    /// `start` is the number before the first edit. Takes no memory.
    pub fn new(alloc: Global, mut crates: Vec<CrateData>, skipped: Vec<Name>, start: u64) -> Sources
        ensures { result ≡ new_table (map crate_view crates.items) skipped.items start }
    {
        crates.truncate(CRATE_LIMIT);
        Sources {
            alloc,
            crates,
            skipped,
            start,
            number: start,
            places: Shelf::new(alloc),
            empty: ItemTree::empty(alloc),
        }
    }

    fn set(&mut self, source: Source) -> Result<(), EditRefused>
        requires { self.old.number < last_number }
        ensures ok { OnOk result (IsAfter self.old (edit_view (edit_of source) ∷ []) self.new) }
        ensures fits { OnOk result (FitsAfter self.old [] (edit_view (edit_of source))) }
        ensures err { OnErr result (self.new ≡ self.old) }
        ensures returned { IfErr result (λ refused. refused.edit ≡ edit_of source) }
        ensures cause { IfErr result (IsRefusal self.old) }
        ensures not_full { IfErr result (λ refused. refused.cause ≢ TooManyEdits) }
    {
        let number = self.number + 1;
        let fresh = match lower_all(self.alloc, &self.crates, &self.skipped, &source, number) {
            Ok(fresh) => fresh,
            Err(cause) => return Err(EditRefused::by(source.into_edit(), cause)),
        };
        if let Err(source) = self
            .places
            .set(self.alloc, source, fresh, self.start, number)
        {
            return Err(EditRefused::by(source.into_edit(), LowerError::OutOfMemory));
        }
        self.number = number;
        Ok(())
    }

    fn remove(&mut self, place: Place)
        requires { self.old.number < last_number }
        ensures { IsAfter self.old (removes place ∷ []) self.new }
    {
        let number = self.number + 1;
        self.places.remove(self.alloc, place, number);
        self.number = number;
    }

    // Lowers each set place anew for a crate: all of them before any tree is replaced.
    fn set_cfg(&mut self, krate: Crate, mut options: CfgOptions) -> Result<(), EditRefused>
        requires room { self.old.number < last_number }
        requires known { IsKnown self.old krate }
        ensures ok { OnOk result (IsAfter self.old (gives krate.0 options ∷ []) self.new) }
        ensures fits { OnOk result (FitsAfter self.old [] (gives krate.0 options)) }
        ensures err { OnErr result (self.new ≡ self.old) }
        ensures returned { IfErr result (λ refused. refused.edit ≡ SetCfg krate options) }
        ensures cause { IfErr result (IsRefusal self.old) }
        ensures not_full { IfErr result (λ refused. refused.cause ≢ TooManyEdits) }
    {
        let index = krate.0 as usize;
        let number = self.number + 1;
        swap_options(&mut self.crates, index, &mut options);
        let lowered = self
            .places
            .lower_for(self.alloc, &self.crates[index], &self.skipped, number);
        match lowered {
            Ok(fresh) => {
                self.places.recast(index, fresh, number);
                self.number = number;
                Ok(())
            }
            Err(cause) => {
                swap_options(&mut self.crates, index, &mut options);
                Err(EditRefused::by(Edit::SetCfg { krate, options }, cause))
            }
        }
    }

    // Makes an edit that has a number left.
    fn make(&mut self, edit: Edit) -> Result<(), EditRefused>
        requires room { self.old.number < last_number }
        requires known { NamesKnown self.old (edit_view edit) }
        ensures ok { OnOk result (IsAfter self.old (edit_view edit ∷ []) self.new) }
        ensures fits { OnOk result (FitsAfter self.old [] (edit_view edit)) }
        ensures err { OnErr result (self.new ≡ self.old) }
        ensures returned { IfErr result (λ refused. refused.edit ≡ edit) }
        ensures cause { IfErr result (IsRefusal self.old) }
        ensures not_full { IfErr result (λ refused. refused.cause ≢ TooManyEdits) }
    {
        match edit {
            Edit::SetFile { file, syntax } => self.set(Source::File { file, syntax }),
            Edit::SetBlock { block, syntax } => self.set(Source::Block { block, syntax }),
            Edit::SetCfg { krate, options } => self.set_cfg(krate, options),
            Edit::RemoveFile { file } => {
                self.remove(Place::File(file));
                Ok(())
            }
            Edit::RemoveBlock { block } => {
                self.remove(Place::Block(block));
                Ok(())
            }
        }
    }

    /// Makes an edit, and gives its number.
    ///
    /// A refusal changes nothing and hands the edit back. A removal needs no memory. Where the edit names a crate, the
    /// caller shows that the table knows it.
    ///
    /// # Errors
    ///
    /// `TooManyEdits` where the table has the last number, before all else; a `LowerError` of the syntax in some crate,
    /// or, where options are set, of some present syntax in their crate.
    pub fn edit(&mut self, edit: Edit) -> Result<u64, EditRefused>
        requires { NamesKnown self.old (edit_view edit) }
        ensures in_range { self.old.number ≤ last_number }
        ensures ok { OnOk result (IsAfter self.old (edit_view edit ∷ []) self.new) }
        ensures number { IfOk result (λ number. number ≡ self.new.number) }
        ensures footing { IsFooting self.old self.new }
        ensures bodies { OnOk result (IgnoresBodies self.old (edit_view edit ∷ []) self.new) }
        ensures fits { OnOk result (FitsAfter self.old [] (edit_view edit)) }

        ensures err { OnErr result (self.new ≡ self.old) }
        ensures returned { IfErr result (λ refused. refused.edit ≡ edit) }
        ensures cause { IfErr result (IsRefusal self.old) }
        ensures full { (self.old.number ≡ last_number)
            ↔ IsErrAnd result (λ refused. refused.cause ≡ TooManyEdits) }
    {
        if self.number == u64::MAX {
            let cause = EditFault::TooManyEdits;
            return Err(EditRefused { edit, cause });
        }
        self.make(edit)?;
        Ok(self.number)
    }

    /// Makes the edit that sets a file to the syntax that it has, and gives its number: for a text in which only a body
    /// was typed in. Lowers nothing, changes no tree and takes no memory.
    ///
    /// `None` where the file has no syntax or the table has the last number: then nothing changes.
    pub fn set_again(&mut self, file: HirFileId) -> Option<u64>
        ensures in_range { self.old.number ≤ last_number }
        ensures again { OnSome result (IsSetAgain self.old (Place.File file) self.new) }
        ensures number { IfSome result (λ number. number ≡ self.new.number) }
        ensures footing { IsFooting self.old self.new }

        ensures none { IfNone result (self.new ≡ self.old) }
        ensures cause { IsNone result
            ↔ (IsNone (present self.old (Place.File file)) ⊎ (self.old.number ≡ last_number)) }
    {
        self.file_syntax(file)?;
        self.number = self.number.checked_add(1)?;
        Some(self.number)
    }

    /// Makes edits up to the first refused one, and gives the number after the last.
    ///
    /// A refusal names the refused edit's place and hands it back; the edits before it stay made, and those
    /// after it are dropped. The caller shows that the table knows each crate that an edit names.
    ///
    /// # Errors
    ///
    /// Those of `edit`.
    pub fn edit_all(&mut self, edits: Vec<Edit>) -> Result<u64, AllRefused>
        requires { AllByRecursion (NamesKnown self.old) (map edit_view edits.items) }
        ensures ok { OnOk result (IsAfter self.old (map edit_view edits.items) self.new) }
        ensures number { IfOk result (λ number. number ≡ self.new.number) }
        ensures footing { IsFooting self.old self.new }
        ensures bodies { OnOk result (IgnoresBodies self.old (map edit_view edits.items) self.new) }
        ensures fits { OnOk result
            (FirstFit self.old (map edit_view edits.items) (length edits.items)) }

        ensures place { IfErr result
            (λ all. slice_get edits.items all.place ≡ Some all.refused.edit) }
        ensures refused { IfErr result
            (λ all. IsAfter self.old (edits_before all edits.items) self.new) }
        ensures fits_before { IfErr result
            (λ all. FirstFit self.old (map edit_view edits.items) all.place) }
        ensures cause { IfErr result (λ all. IsRefusal self.new all.refused) }
        ensures full { IfErr result
            (λ all. self.new.number ≡ last_number → all.refused.cause ≡ TooManyEdits) }
        ensures in_range { IfErr result (λ all. self.new.number ≤ last_number) }
    {
        for (place, edit) in edits.into_iter().enumerate() {
            if let Err(refused) = self.edit(edit) {
                return Err(AllRefused { place, refused });
            }
        }
        Ok(self.number)
    }

    /// Whether a crate is of the list, which other calls require.
    pub fn knows(&self, krate: Crate) -> bool
        ensures { IsTrue result ↔ IsKnown self.now krate }
    {
        (krate.0 as usize) < self.crates.len()
    }

    /// The present options of a crate: those of its last `SetCfg`, or those given to `new`. The caller shows
    /// `knows(krate)`.
    pub fn cfg_options(&self, krate: Crate) -> &CfgOptions
        requires { IsKnown self.now krate }
        ensures { options self.now krate ≡ Some result.now }
    {
        &self.crates[krate.0 as usize].cfg
    }

    /// The number of the last edit, or `start`.
    pub fn number(&self) -> u64
        ensures { result ≡ self.now.number }
    {
        self.number
    }

    /// The number of the last edit at which the tree of a place in a crate changed, or `start`. The caller shows
    /// `knows(krate)`.
    pub fn changed(&self, place: Place, krate: Crate) -> u64
        requires { IsKnown self.now krate }
        ensures { result ≡ change_number self.now place krate.0 }
    {
        match self.row(place, krate) {
            Some(row) => row.changed,
            None => self.start,
        }
    }

    /// The change numbers above `n` and above `start`, of known crates at all places, in the order of places and
    /// then of crates: what an index that was made at number `n` has to read again. A tree that changed and changed
    /// back is given too. A tree that is not given at 0 is empty. Takes no memory.
    pub fn changed_since(&self, n: u64) -> ChangedSince<'_>
        ensures since { IsSince self.now n result }
        ensures grounded { IsGrounded self.now }
    {
        self.places.changes_above(n.max(self.start))
    }

    /// The places of `changed_since`, for `changed_among`. Where nothing was removed after `n`, and memory never ran
    /// out, it looks at these places alone, which no clause says.
    ///
    /// # Errors
    ///
    /// Only if memory runs out.
    pub fn changed_places(&self, alloc: Global, n: u64) -> Result<BTreeSet<Place>, AllocError>
        ensures { IfOk result (λ places. ArePlacesSince self.now n places.keys) }
    {
        match self.places.places_above(alloc, n.max(self.start))? {
            Some(places) => places_of(alloc, self.changed_among(n, &places)),
            None => places_of(alloc, self.changed_since(n)),
        }
    }

    /// Those of `changed_since` that are of some places. It takes no memory and looks at these places alone, which no
    /// clause says.
    pub fn changed_among<'a>(&'a self, n: u64, places: &'a BTreeSet<Place>) -> ChangedSince<'a>
        ensures among { IsSinceAmong self.now n places.now.keys result }
        ensures grounded { IsGrounded self.now }
    {
        self.places.late_among(n.max(self.start), places)
    }

    // What is set at a place.
    fn source(&self, place: Place) -> Option<&Source>
        ensures own { IfSome (option_copied result) (λ source. source_place source ≡ place) }
        ensures view { option_map source_syntax (option_copied result) ≡ present self.now place }
    {
        self.places.source(place)
    }

    // Of a place that was ever set.
    fn row(&self, place: Place, krate: Crate) -> Option<&Row>
        requires { IsKnown self.now krate }
        ensures { let row = unwrap_or (option_copied result) (empty_row self.now.start) in
            IsRowOf self.now place krate.0 row }
    {
        self.places.row(place, krate.0 as usize)
    }

    /// The present syntax of a file, if it has one.
    pub fn file_syntax(&self, file: HirFileId) -> Option<&Syntax>
        ensures { option_map syntax_view (option_copied result)
            ≡ present self.now (Place.File file) }
    {
        match self.source(Place::File(file)) {
            Some(Source::File { syntax, .. }) => Some(syntax),
            _ => None,
        }
    }

    /// The present syntax of a block, if it has one.
    pub fn block_syntax(&self, block: BlockId) -> Option<&BlockExpr>
        ensures { option_map block_view (option_copied result)
            ≡ present self.now (Place.Block block) }
    {
        match self.source(Place::Block(block)) {
            Some(Source::Block { syntax, .. }) => Some(syntax),
            _ => None,
        }
    }

    /// A crate's tree of a place: the empty one where nothing is set or the syntax is `Error`. What rust-analyzer's
    /// queries `file_item_tree` and `block_item_tree` give. The caller shows `knows(krate)`.
    pub fn tree(&self, place: Place, krate: Crate) -> &ItemTree
        requires { IsKnown self.now krate }
        ensures { result.now ≡ unfolding_at self.now place krate.0 }
    {
        match self.row(place, krate) {
            Some(row) => &row.tree,
            None => &self.empty,
        }
    }
}
