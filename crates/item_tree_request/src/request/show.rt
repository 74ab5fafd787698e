//! Shows, read from their forms.
ghost use Rattle.std.specs.Prelude.{◌≡◌, ◌^◌, All, IfOk, codes, length, map};
ghost use Rattle.serde_json.specs.View.{view, items_view};
ghost use Rattle.item_tree.specs.CrateView.{crate_view};
ghost use Rattle.hir_input_json.specs.Forms.{each, required_at as required_form, whole_form, list_at as each_at};
ghost use Rattle.hir_input_json.specs.Held.{object_held};
ghost use Rattle.hir_input_json.specs.Reads.{Reads};
ghost use Rattle.item_tree_request.specs.Named.{NamesCrate};
ghost use Rattle.item_tree_request.specs.Shows.{show as show_form, place_form as place_form, show_word, tree_show};

use hir_input::{BlockId, Crate, HirFileId};
use hir_input_json::member::{field, id_at, list_at, members_of, word_at};
use hir_input_json::{Fault, ReadIn};
use item_tree::CrateData;
use item_tree_db::Place;
use serde_json::{Map, Value};
use std::alloc::Global;

/// What is shown of a tree.
#[derive(Clone, Copy, Debug, PartialEq, Eq)]
pub enum ShowKind {
    /// Its page.
    Page,
    /// A line on the tree, and its page.
    Tree,
    /// The imports of its uses.
    Imports,
}

impl ShowKind {
    /// The word for it in a request.
    pub fn word(self) -> &'static str
        ensures { result.now ≡ show_word self }
    {
        match self {
            ShowKind::Page => "page",
            ShowKind::Tree => "tree",
            ShowKind::Imports => "imports",
        }
    }
}

/// A crate's tree of a place that is to be shown.
#[derive(Clone, Copy, Debug, PartialEq, Eq)]
pub struct TreeShow {
    pub kind: ShowKind,
    pub krate: Crate,
    pub place: Place,
}

/// What is to be shown.
#[derive(Clone, Copy, Debug, PartialEq, Eq)]
pub enum Show {
    OfTree(TreeShow),
    /// What changed since a number.
    Changed { since: u64 },
}

fn place_at(alloc: Global, members: &Map<String, Value>) -> Result<Place, Fault>
    ensures { Reads (λ place. place) result (place_form (object_held members.now)) }
{
    match field(members, "file") {
        Some(_) => Ok(Place::File(HirFileId(id_at(alloc, members, "file")?))),
        None => Ok(Place::Block(BlockId(id_at(alloc, members, "block")?))),
    }
}

// A show of a tree of one of this many crates.
fn tree_show_of(
    alloc: Global,
    members: &Map<String, Value>,
    kind: ShowKind,
    count: usize,
) -> Result<Show, Fault>
    ensures reads { Reads (λ show. show) result (tree_show count kind (object_held members.now)) }
    ensures known { IfOk result (NamesCrate count) }
{
    let krate = id_at(alloc, members, "crate")?;
    if krate as usize >= count {
        return Err(Fault::at(alloc, "crate"));
    }
    let place = place_at(alloc, members)?;
    Ok(Show::OfTree(TreeShow {
        kind,
        krate: Crate(krate),
        place,
    }))
}

fn since_at(alloc: Global, members: &Map<String, Value>) -> Result<u64, Fault>
    ensures { Reads (λ since. since) result
        (required_form (codes "since") (whole_form (2 ^ 64)) (object_held members.now)) }
{
    field(members, "since")
        .and_then(Value::as_u64)
        .ok_or_else(|| Fault::at(alloc, "since"))
}

/// A show after edits of a table of this many crates, of these members.
///
/// `WrongForm` comes only where it is not of its form (`Shows.show`), and tells where.
pub fn show_in(alloc: Global, members: &Map<String, Value>, count: usize) -> Result<Show, Fault>
    ensures reads { Reads (λ show. show) result (show_form count (object_held members.now)) }
    ensures known { IfOk result (NamesCrate count) }
{
    match word_at(alloc, members, "show")? {
        "page" => tree_show_of(alloc, members, ShowKind::Page, count),
        "tree" => tree_show_of(alloc, members, ShowKind::Tree, count),
        "imports" => tree_show_of(alloc, members, ShowKind::Imports, count),
        "changed" => {
            let since = since_at(alloc, members)?;
            Ok(Show::Changed { since })
        }
        _ => Err(Fault::at(alloc, "show")),
    }
}

fn show_of(alloc: Global, value: Value, count: usize) -> Result<Show, Fault>
    ensures reads { Reads (λ show. show) result (show_form count (view value)) }
    ensures known { IfOk result (NamesCrate count) }
{
    let members = members_of(alloc, value)?;
    show_in(alloc, &members, count)
}

fn shows_of(alloc: Global, items: Vec<Value>, count: usize) -> Result<Vec<Show>, Fault>
    ensures reads { Reads (λ v. v.items) result (each (show_form count) (items_view items.items)) }
    ensures known { IfOk result (λ v. All (NamesCrate count) v.items) }
{
    let mut shows = Vec::with_capacity(alloc, items.len())?;
    for item in items {
        let place = shows.len();
        let read = show_of(alloc, item, count).in_item(alloc, place)?;
        shows.push(read)?;
    }
    Ok(shows)
}

// Takes the shows of these crates out.
pub(crate) fn shows_at(
    alloc: Global,
    members: &mut Map<String, Value>,
    crates: &Vec<CrateData>,
) -> Result<Vec<Show>, Fault>
    ensures reads { Reads (λ v. v.items) result
        (each_at (show_form (length (map crate_view crates.now.items))) (codes "shows")
        (object_held members.old)) }
    ensures known { IfOk result (λ v. All (NamesCrate (length crates.now.items)) v.items) }
{
    let items = list_at(alloc, members, "shows")?;
    shows_of(alloc, items, crates.len()).in_member(alloc, "shows")
}
