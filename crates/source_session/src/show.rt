//! Shows of a line, read from their forms.
ghost use Rattle.std.specs.Prelude.{◌≡◌, ℕ, IfOk, IfSome, codes};
ghost use Rattle.serde_json.specs.View.{view};
ghost use Rattle.hir_input_json.specs.Forms.{required_at};
ghost use Rattle.hir_input_json.specs.Held.{object_held};
ghost use Rattle.hir_input_json.specs.Reads.{Reads};
ghost use Rattle.item_tree_request.specs.Named as request;
ghost use Rattle.source_listing.specs.Views.{pattern_view};
ghost use Rattle.source_session.specs.Sought.{asked_path, asked_path_in, asked_pattern};
ghost use Rattle.source_session.specs.Shows as spec;
ghost use Rattle.source_session.specs.Shows.{ShowNamesCrate, IsCrateOf};

use crate::keys::{LineObject, Members, none_in, only_known};
use crate::sought::{Searched, SoughtItem, pattern_of, sought_of};
use crate::units::{members_asked, units_at, units_if};
use hir_input::{Crate, HirFileId};
use hir_input_json::float::has_float;
use hir_input_json::member::{field, id_at, members_of, word_at};
use hir_input_json::{Fault, ReadIn};
use item_tree_db::Place;
use item_tree_request::request::show::{Show, ShowKind, TreeShow, show_in};
use line_index::Units;
use serde_json::Value;
use source_listing::Pattern;
use std::alloc::Global;

/// A show of a line.
#[derive(Debug, Drop)]
pub enum LineShow {
    /// One of a request, by its text.
    Table(Show),
    /// The items of a crate's tree of a file.
    Outline {
        krate: Crate,
        file: HirFileId,
        /// What columns count.
        units: Units,
        has_members: bool,
    },
    /// When a crate's tree of a place changed last, and its items.
    TreeItems {
        krate: Crate,
        place: Place,
        units: Units,
    },
    /// The imports of a crate's tree of a place, with the places of their use trees.
    ImportPlaces {
        krate: Crate,
        place: Place,
        units: Units,
    },
    /// What changed since a number.
    Changes {
        since: u64,
    },
    /// What is wrong with the text of a file.
    Problems {
        file: HirFileId,
        units: Units,
    },
    /// The items that have a path.
    Find {
        sought: SoughtItem,
    },
    /// The items and members that match a glob.
    Search {
        searched: Searched,
    },
}

// One of this many crates.
fn crate_at(alloc: Global, members: &Members, count: usize) -> Result<Crate, Fault>
    ensures reads { Reads (λ krate. krate) result (spec.crate_in count (object_held members.now)) }
    ensures known { IfOk result (IsCrateOf count) }
{
    let krate = id_at(alloc, members, "crate")?;
    if krate as usize >= count {
        return Err(Fault::at(alloc, "crate"));
    }
    Ok(Crate(krate))
}

fn file_at(alloc: Global, members: &Members) -> Result<HirFileId, Fault>
    ensures { Reads (λ file. file) result (spec.file_named (object_held members.now)) }
{
    Ok(HirFileId(id_at(alloc, members, "file")?))
}

fn path_at(alloc: Global, members: &Members) -> Result<SoughtItem, Fault>
    ensures { Reads (λ sought. sought) result
        (required_at (codes "name") asked_path (object_held members.now)) }
{
    match field(members, "name") {
        Some(found) => sought_of(alloc, found).in_member(alloc, "name"),
        None => Err(Fault::at(alloc, "name")),
    }
}

fn pattern_at(alloc: Global, members: &Members) -> Result<Pattern, Fault>
    ensures { Reads pattern_view result
        (required_at (codes "name") asked_pattern (object_held members.now)) }
{
    match field(members, "name") {
        Some(found) => pattern_of(alloc, found).in_member(alloc, "name"),
        None => Err(Fault::at(alloc, "name")),
    }
}

// The path that is looked for.
fn sought_at(alloc: Global, members: &Members) -> Result<SoughtItem, Fault>
    ensures { Reads (λ sought. sought) result (asked_path_in (object_held members.now)) }
{
    let sought = path_at(alloc, members)?;
    let units = units_at(alloc, members)?;
    Ok(sought.in_units(units))
}

// ---- shows of a request

// Whether a word asks for values, and not for a text.
fn values_of(alloc: Global, value: &Value) -> Result<bool, Fault>
    ensures { Reads (λ by_values. by_values) result (spec.wants_values (view value.now)) }
{
    let Some(word) = value.as_str() else {
        return Err(Fault::here(alloc));
    };
    match word {
        "json" => Ok(true),
        "text" => Ok(false),
        _ => Err(Fault::here(alloc)),
    }
}

// Whether a show is to be answered by values.
fn as_values(alloc: Global, members: &Members) -> Result<bool, Fault>
    ensures { Reads (λ by_values. by_values) result (spec.as_values (object_held members.now)) }
{
    match field(members, "as") {
        Some(found) => values_of(alloc, found).in_member(alloc, "as"),
        None => Ok(false),
    }
}

// Whether columns are told.
fn tells_columns(by_values: bool, show: &Show) -> bool
    ensures { result ≡ spec.tells_columns by_values show.now }
{
    by_values && matches!(show, Show::OfTree(_))
}

// What a show of a tree is answered by, if by values.
fn tree_values(show: TreeShow, units: Units) -> Option<LineShow>
    ensures shown { result ≡ spec.tree_values show.kind show units }
    ensures known { (count : ℕ) → IsCrateOf count show.krate
        → IfSome result (ShowNamesCrate count) }
{
    let (krate, place) = (show.krate, show.place);
    match show.kind {
        ShowKind::Page => None,
        ShowKind::Tree => Some(LineShow::TreeItems {
            krate,
            place,
            units,
        }),
        ShowKind::Imports => Some(LineShow::ImportPlaces {
            krate,
            place,
            units,
        }),
    }
}

fn answered_by(by_values: bool, show: Show, units: Units) -> Option<LineShow>
    ensures shown { result ≡ spec.answered_by by_values show units }
    ensures known { (count : ℕ) → request.NamesCrate count show
        → IfSome result (ShowNamesCrate count) }
{
    if !by_values {
        return Some(LineShow::Table(show));
    }
    match show {
        Show::OfTree(show) => tree_values(show, units),
        Show::Changed { since } => Some(LineShow::Changes { since }),
    }
}

fn request_show(alloc: Global, members: &Members, count: usize) -> Result<LineShow, Fault>
    ensures reads { Reads (λ show. show) result (spec.request_show count (object_held members.now)) }
    ensures known { IfOk result (ShowNamesCrate count) }
{
    let show = show_in(alloc, members, count)?;
    let by_values = as_values(alloc, members)?;
    let units = units_if(alloc, members, tells_columns(by_values, &show))?;
    none_in(alloc, members, "members")?;
    match answered_by(by_values, show, units) {
        Some(show) => Ok(show),
        None => Err(Fault::at(alloc, "as")),
    }
}

// ---- shows

fn outline_show(alloc: Global, members: &Members, count: usize) -> Result<LineShow, Fault>
    ensures reads { Reads (λ show. show) result (spec.outline_show count (object_held members.now)) }
    ensures known { IfOk result (ShowNamesCrate count) }
{
    let krate = crate_at(alloc, members, count)?;
    let file = file_at(alloc, members)?;
    none_in(alloc, members, "as")?;
    let units = units_at(alloc, members)?;
    let has_members = members_asked(alloc, members)?;
    Ok(LineShow::Outline {
        krate,
        file,
        units,
        has_members,
    })
}

fn import_places_show(alloc: Global, members: &Members, count: usize) -> Result<LineShow, Fault>
    ensures reads { Reads (λ show. show) result
        (spec.import_places_show count (object_held members.now)) }
    ensures known { IfOk result (ShowNamesCrate count) }
{
    let krate = crate_at(alloc, members, count)?;
    let place = Place::File(file_at(alloc, members)?);
    none_in(alloc, members, "as")?;
    let units = units_at(alloc, members)?;
    none_in(alloc, members, "members")?;
    Ok(LineShow::ImportPlaces {
        krate,
        place,
        units,
    })
}

fn problems_show(alloc: Global, members: &Members) -> Result<LineShow, Fault>
    ensures reads { Reads (λ show. show) result (spec.problems_show (object_held members.now)) }
    ensures known { (count : ℕ) → IfOk result (ShowNamesCrate count) }
{
    let file = file_at(alloc, members)?;
    none_in(alloc, members, "as")?;
    let units = units_at(alloc, members)?;
    none_in(alloc, members, "members")?;
    Ok(LineShow::Problems { file, units })
}

// A show of what is looked for, or of the items of the path that it is.
fn find_by(alloc: Global, members: &Members, searched: Searched) -> Result<LineShow, Fault>
    ensures reads { Reads (λ show. show) result (spec.find_by searched (object_held members.now)) }
    ensures known { (count : ℕ) → IfOk result (ShowNamesCrate count) }
{
    if searched.is_wide() {
        return Ok(LineShow::Search { searched });
    }
    let sought = sought_at(alloc, members)?;
    Ok(LineShow::Find { sought })
}

fn find_show(alloc: Global, members: &Members) -> Result<LineShow, Fault>
    ensures reads { Reads (λ show. show) result (spec.find_show (object_held members.now)) }
    ensures known { (count : ℕ) → IfOk result (ShowNamesCrate count) }
{
    let pattern = pattern_at(alloc, members)?;
    let units = units_at(alloc, members)?;
    none_in(alloc, members, "as")?;
    let has_members = members_asked(alloc, members)?;
    let searched = Searched::new(pattern, has_members, units);
    find_by(alloc, members, searched)
}

// A show after edits of a table of this many crates, of these members.
fn members_show(alloc: Global, members: &Members, count: usize) -> Result<LineShow, Fault>
    ensures reads { Reads (λ show. show) result (spec.show_form count (object_held members.now)) }
    ensures known { IfOk result (ShowNamesCrate count) }
{
    only_known(alloc, members, LineObject::OfShows)?;
    match word_at(alloc, members, "show")? {
        "outline" => outline_show(alloc, members, count),
        "import_places" => import_places_show(alloc, members, count),
        "problems" => problems_show(alloc, members),
        "find" => find_show(alloc, members),
        _ => request_show(alloc, members, count),
    }
}

/// A show after edits of a table of this many crates.
///
/// `WrongForm` comes only where it is not of its form (`Shows.line_show`), and tells where.
pub(crate) fn show_of(alloc: Global, value: Value, count: usize) -> Result<LineShow, Fault>
    ensures reads { Reads (λ show. show) result (spec.line_show count (view value)) }
    ensures known { IfOk result (ShowNamesCrate count) }
{
    if has_float(&value) {
        return Err(Fault::here(alloc));
    }
    let members = members_of(alloc, value)?;
    members_show(alloc, &members, count)
}
