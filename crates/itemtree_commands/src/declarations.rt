//! Where the items of files are declared.
ghost use Rattle.std.specs.Prelude.{◌≡◌, IfOk, OnOk, Some, map, option_map};
ghost use Rattle.source_imports.specs.Inner.{id_key};
ghost use Rattle.source_rows.specs.Labels.{text_at_some};
ghost use Rattle.itemtree_commands.specs.ImportTargets as spec;
ghost use Rattle.itemtree_commands.specs.Inner.{FindsItems, PutsItem, written_view};
ghost use Rattle.itemtree_commands.specs.ModuleLists.{placed_text};

use crate::crate_file::CrateFile;
use hir_input::FileAstId;
use line_index::{LineIndex, Position};
use rust_items::{ItemPlace, TextRange};
use source_listing::PlaceFinder;
use source_rows::{stands_at, text_at};
use std::alloc::{AllocError, Global};
use std::collections::HashMap;
use std::marker::Model;

/// An item where it is declared.
#[derive(Clone, Copy)]
pub(crate) struct Declared<'a> {
    pub(crate) position: Position,
    /// The name, as it is written.
    pub(crate) name: &'a str,
}

/// The items of a file by their ids: kind, hash and number.
type ItemsById<'a> = HashMap<(u8, u16, u32), Declared<'a>>;

fn id_key(id: FileAstId) -> (u8, u16, u32)
    ensures { result ≡ id_key id }
{
    (id.kind as u8, id.hash, id.number)
}

/// What stands in a range, if there is one.
fn name_at(text: &str, range: Option<TextRange>) -> &str
    ensures { result.now ≡ text_at_some text.now range }
{
    match range {
        Some(range) => text_at(text, range),
        None => "",
    }
}

/// Adds an item, unless one of its id is there.
#[tactic(auto, using(crate::proofs::ItemsFound::put_old))]
fn put_item<'a>(
    text: &'a str,
    lines: &mut LineIndex<'a>,
    place: ItemPlace,
    items: &mut ItemsById<'a>,
) -> Result<(), AllocError>
    requires { lines.old ≡ text.now }
    ensures put { OnOk result (PutsItem text.now items.old items.new place) }
    ensures same { lines.new ≡ lines.old }
{
    let key = id_key(place.id);
    let declared = Declared {
        position: lines.position(stands_at(place)),
        name: name_at(text, place.name),
    };
    if items.contains_key(&key) {
        return Ok(());
    }
    items.insert(key, declared)?;
    Ok(())
}

/// The items of a text by their ids.
fn items_by_id<'a>(
    alloc: Global,
    text: &'a str,
    places: &[ItemPlace],
) -> Result<ItemsById<'a>, AllocError>
    ensures { IfOk result (λ items. FindsItems text.now items places.now) }
{
    let mut lines = LineIndex::new(text);
    let mut items = HashMap::new(alloc);
    for place in places {
        put_item(text, &mut lines, *place, &mut items)?;
    }
    Ok(items)
}

/// A file, whose items are found by their ids.
pub struct DeclaredItems<'a> {
    file: &'a CrateFile,
    items: ItemsById<'a>,
}

// (Written out: what is derived is proved anew, field by field, in each crate that drops one.)
impl Drop for DeclaredItems<'_> {
    fn drop(self) {
        let DeclaredItems { file: _, items: _ } = self;
    }
}

impl<'a> Model for DeclaredItems<'a> {
    ghost use Rattle.itemtree_commands.specs.Inner.{FindsItems, crate_file_code};
    ghost use Rattle.itemtree_commands.specs.ModuleLists.{CrateFile};

    ghost Value = { CrateFile };

    ghost coded = { crate_file_code };

    ghost view = { λ x. x.file.now };

    ghost invariant = { λ x. FindsItems x.file.now.text x.items x.file.now.places };
}

impl<'a> DeclaredItems<'a> {
    fn new(alloc: Global, file: &'a CrateFile) -> Result<DeclaredItems<'a>, AllocError>
        ensures { IfOk result (λ x. x ≡ file.now) }
    {
        let items = items_by_id(alloc, file.text(), file.places())?;
        Ok(DeclaredItems { file, items })
    }

    /// The path of the file.
    pub(crate) fn path(&self) -> &'a str
        ensures { result.now ≡ self.now.path }
    {
        self.file.path()
    }

    /// What finds the places of the file.
    pub(crate) fn finder(&self) -> PlaceFinder<'a>
        ensures { result ≡ placed_text self.now }
    {
        self.file.finder()
    }

    /// The item of an id.
    pub(crate) fn find(&self, id: FileAstId) -> Option<Declared<'a>>
        ensures { option_map written_view result ≡ spec.item_of_file id self.now }
    {
        self.items.get(&id_key(id)).copied()
    }
}

/// Where the items of files are declared.
///
/// # Errors
///
/// Only if memory runs out.
pub fn declared_items(
    alloc: Global,
    files: &[CrateFile],
) -> Result<Vec<DeclaredItems<'_>>, AllocError>
    ensures { IfOk result (λ declared. declared.items ≡ files.now) }
{
    let mut declared = Vec::new(alloc);
    for file in files {
        declared.push(DeclaredItems::new(alloc, file)?)?;
    }
    Ok(declared)
}
