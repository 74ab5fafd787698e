//! The texts of files, with what was read of them.
ghost use Rattle.std.specs.Prelude.{◌≡◌, ℕ, ◌==◌, ◌∷◌, List, All, Some, IfSome, OnOk, if◌then◌else◌, take};
ghost use Rattle.std.specs.Prelude.{option_copied, option_map, string_bytes};
ghost use Rattle.text_session.specs.Inner.{HasSlot, HasSlotFor};
ghost use Rattle.source_rows.specs.ListedViews.{reading_view};
ghost use Rattle.text_session.specs.SourceTexts.{text_reading};
ghost use Rattle.text_session.specs.Texts.{TextChange as ChangeView, left_text, text_after, text_of_place, text_in};

use hir_input::{CfgOptions, EditionYear};
use item_tree_db::Place;
use rust_items::{ItemPlace, Problem};
use source_rows::{MendedFile, Reading};
use std::alloc::AllocError;
use std::collections::BTreeMap;

/// A text, with what lists read of it beside its syntax, which the table has. Places are those of the text itself.
#[derive(Drop)]
pub struct SourceText {
    pub text: String,
    /// The mended text with its places, if that was read: where the text has problems, and brackets that can be mended.
    pub mended: Option<MendedFile>,
    /// The places of the items, in preorder.
    pub places: Vec<ItemPlace>,
    /// Where the use trees of the uses begin, as the reader tells it.
    pub use_trees: Vec<usize>,
    /// What is wrong with the text, in order.
    pub problems: Vec<Problem>,
}

impl SourceText {
    /// How headers are read of it, and members, where options are given.
    pub fn reading<'a>(
        &'a self,
        edition: EditionYear,
        options: Option<&'a CfgOptions>,
    ) -> Reading<'a>
        ensures reading { reading_view result
            ≡ text_reading edition (option_copied options.entry) (Some self.now) }
        ensures text { result.text.now ≡ string_bytes self.now.text }
    {
        Reading {
            text: self.text.as_str(),
            mended: self.mended.as_ref(),
            edition,
            options,
        }
    }
}

/// What is kept for files: of one that was ever set to a text, the text that it is set to now.
pub(crate) type Texts = BTreeMap<u32, Option<SourceText>>;

/// What an edit leaves of the text of a file, if it sets or removes the file.
pub(crate) type Change = Option<(u32, Option<SourceText>)>;

/// The text of a file.
pub(crate) fn text_of(texts: &Texts, file: u32) -> Option<&SourceText>
    ensures { option_copied result ≡ text_in texts.now.entries file }
{
    match texts.get(&file) {
        Some(text) => text.as_ref(),
        None => None,
    }
}

/// The text of a place. A block has none.
pub(crate) fn text_at(texts: &Texts, place: Place) -> Option<&SourceText>
    ensures { option_copied result ≡ text_of_place texts.now.entries place }
{
    match place {
        Place::File(file) => text_of(texts, file.0),
        Place::Block(_) => None,
    }
}

// What a change leaves of a file.
fn left_of(change: &Change, file: u32) -> Option<Option<&SourceText>>
    ensures { option_map option_copied result ≡ left_text file change.now }
{
    match change {
        Some((at, text)) if *at == file => Some(text.as_ref()),
        _ => None,
    }
}

/// The text of a file after changes.
pub(crate) fn text_after<'t>(
    texts: &'t Texts,
    changes: &'t [Change],
    file: u32,
) -> Option<&'t SourceText>
    ensures { option_copied result ≡ text_after (text_in texts.now.entries) changes.now file }
{
    let mut left = changes;
    while let Some((last, front)) = left.split_last() {
        match left_of(last, file) {
            Some(text) => return text,
            None => left = front,
        }
    }
    text_of(texts, file)
}

// Keeps something for a file.
fn keep(texts: &mut Texts, file: u32) -> Result<(), AllocError>
    ensures texts { (f : ℕ) → text_in texts.new.entries f ≡ text_in texts.old.entries f }
    ensures slots { (f : ℕ) → HasSlot texts.old.entries f → HasSlot texts.new.entries f }
    ensures kept { OnOk result (HasSlot texts.new.entries file) }
{
    if !texts.contains_key(&file) {
        texts.insert(file, None)?;
    }
    Ok(())
}

// Makes room for the text that a change brings.
fn room_for(texts: &mut Texts, change: &Change) -> Result<(), AllocError>
    ensures texts { (f : ℕ) → text_in texts.new.entries f ≡ text_in texts.old.entries f }
    ensures slots { (f : ℕ) → HasSlot texts.old.entries f → HasSlot texts.new.entries f }
    ensures room { OnOk result (HasSlotFor texts.new.entries change.now) }
{
    match change {
        Some((file, Some(_))) => keep(texts, *file),
        _ => Ok(()),
    }
}

/// Makes room for the texts that changes bring, so that none of them fails.
pub(crate) fn make_room(texts: &mut Texts, changes: &[Change]) -> Result<(), AllocError>
    ensures texts { (f : ℕ) → text_in texts.new.entries f ≡ text_in texts.old.entries f }
    ensures room { OnOk result (All (HasSlotFor texts.new.entries) changes.now) }
{
    for change in changes {
        room_for(texts, change)?;
    }
    Ok(())
}

// Puts what a change leaves for a file in its place, for which there is room.
fn put(texts: &mut Texts, file: u32, text: Option<SourceText>)
    requires { IfSome text (λ _. HasSlot texts.old.entries file) }
    ensures texts { (f : ℕ) → text_in texts.new.entries f
        ≡ (if file == f then text else text_in texts.old.entries f) }
    ensures slots { (f : ℕ) → HasSlot texts.old.entries f → HasSlot texts.new.entries f }
{
    if texts.contains_key(&file) {
        let _ = texts.insert(file, text);
    }
}

// Makes a change, for which there is room.
#[tactic(auto, using(crate::proofs::KeptTexts::slot_if, crate::proofs::KeptTexts::text_step, crate::proofs::KeptTexts::text_skip))]
fn make(texts: &mut Texts, change: Change)
    requires { HasSlotFor texts.old.entries change }
    ensures texts { (rest : List ChangeView) (f : ℕ) → text_after (text_in texts.new.entries) rest f
        ≡ text_after (text_in texts.old.entries) (change ∷ rest) f }
    ensures slots { (f : ℕ) → HasSlot texts.old.entries f → HasSlot texts.new.entries f }
{
    if let Some((file, text)) = change {
        put(texts, file, text);
    }
}

/// Makes the first changes, for which there is room.
pub(crate) fn put_first(texts: &mut Texts, mut changes: Vec<Change>, count: usize)
    requires { All (HasSlotFor texts.old.entries) changes.items }
    ensures { (f : ℕ) → text_in texts.new.entries f
        ≡ text_after (text_in texts.old.entries) (take count changes.items) f }
{
    changes.truncate(count);
    for change in changes {
        make(texts, change);
    }
}
