//! Lines, read from their members.
ghost use Rattle.std.specs.Prelude.{◌≡◌, ◌++◌, All, IfOk, OnOk, codes, length, map, option_to_list};
ghost use Rattle.serde_json.specs.View.{items_view};
ghost use Rattle.hir_input.specs.Name.{name_in};
ghost use Rattle.hir_input_json.specs.Forms.{each, list_at as each_at};
ghost use Rattle.hir_input_json.specs.Held.{IsLeftWithout, object_held, without_key};
ghost use Rattle.hir_input_json.specs.Reads.{Reads};
ghost use Rattle.text_session.specs.Edits.{text_edit_view};
ghost use Rattle.source_session.specs.Edits.{line_edit, IsUsable};
ghost use Rattle.source_session.specs.Lines as spec;
ghost use Rattle.source_session.specs.LineViews.{asked_view, first_view, settings_view, IsOwn};
ghost use Rattle.source_session.specs.Shows.{ShowNamesCrate, line_show};

use crate::edit::edit_of;
use crate::keys::{LineObject, Members, none_in, only_known};
use crate::list::each_read;
use crate::show::{LineShow, show_of};
use hir_input::{Edition, Name};
use hir_input_json::edition::edition_at;
use hir_input_json::member::{field, list_at, u64_at};
use hir_input_json::name::names_at;
use hir_input_json::{Fault, ReadIn};
use item_tree::CrateData;
use item_tree_request::request::crates::crates_at;
use serde_json::Value;
use std::alloc::{AllocError, Global};
use text_session::TextEdit;

/// What opens a session.
#[derive(Drop)]
pub(crate) struct Settings {
    pub(crate) crates: Vec<CrateData>,
    pub(crate) skipped: Vec<Name>,
    pub(crate) edition: Edition,
    pub(crate) start: u64,
}

/// What is asked of a session.
#[derive(Drop)]
pub(crate) struct Asked {
    pub(crate) edits: Vec<TextEdit>,
    pub(crate) shows: Vec<LineShow>,
}

/// The line that opens a session.
#[derive(Drop)]
pub(crate) struct First {
    pub(crate) settings: Settings,
    pub(crate) asked: Asked,
}

// ---- what opens a session

/// The attributes that are left out of trees where none are named: `doc` first, and what else rust-analyzer leaves out.
pub const USUAL_SKIPPED: [&str; 13] = [
    "doc",
    "stable",
    "unstable",
    "target_feature",
    "allow",
    "expect",
    "warn",
    "deny",
    "forbid",
    "repr",
    "inline",
    "track_caller",
    "must_use",
];

// Adds a word, if it is a name.
fn push_name(alloc: Global, word: &str, names: &mut Vec<Name>) -> Result<(), AllocError>
    ensures { OnOk result (names.new.items ≡ names.old.items ++ option_to_list (name_in word.now)) }
{
    let text = String::from_str(alloc, word)?;
    if let Some(name) = Name::new(text) {
        names.push(name)?;
    }
    Ok(())
}

fn usual_skipped(alloc: Global) -> Result<Vec<Name>, AllocError>
    ensures { IfOk result (λ names. names.items ≡ spec.usual_skipped) }
{
    let mut names = Vec::with_capacity(alloc, USUAL_SKIPPED.len())?;
    for word in &USUAL_SKIPPED {
        push_name(alloc, word, &mut names)?;
    }
    Ok(names)
}

// Takes the names of the attributes out that are left out of trees.
fn skipped_at(alloc: Global, members: &mut Members) -> Result<Vec<Name>, Fault>
    ensures reads { Reads (λ v. v.items) result (spec.skipped_at (object_held members.old)) }
    ensures left { OnOk result (IsLeftWithout (codes "skipped") members.old members.new) }
{
    let is_absent = field(members, "skipped").is_none();
    let names = names_at(alloc, members, "skipped")?;
    if is_absent {
        return Ok(usual_skipped(alloc)?);
    }
    Ok(names)
}

#[tactic(auto, using(hir_input_json::proofs::MemberObjects::field_without))]
fn settings_in(alloc: Global, members: &mut Members) -> Result<Settings, Fault>
    ensures reads { Reads settings_view result (spec.settings (object_held members.old)) }
    ensures left { OnOk result (object_held members.new
        ≡ without_key (codes "edition") (without_key (codes "skipped")
        (without_key (codes "crates") (object_held members.old)))) }
{
    let crates = crates_at(alloc, members)?;
    let skipped = skipped_at(alloc, members)?;
    let edition = edition_at(alloc, members)?;
    let start = u64_at(alloc, members, "start")?;
    Ok(Settings {
        crates,
        skipped,
        edition,
        start,
    })
}

fn no_settings_in(alloc: Global, members: &Members) -> Result<(), Fault>
    ensures { Reads (λ _. tt) result (spec.no_settings (object_held members.now)) }
{
    none_in(alloc, members, "crates")?;
    none_in(alloc, members, "skipped")?;
    none_in(alloc, members, "edition")?;
    none_in(alloc, members, "start")
}

// ---- edits and shows

fn edits_of(alloc: Global, items: Vec<Value>, count: usize) -> Result<Vec<TextEdit>, Fault>
    ensures reads { Reads (λ v. map text_edit_view v.items) result
        (each (line_edit count) (items_view items.items)) }
    ensures usable { IfOk result (λ v. All (IsUsable count) v.items) }
{
    each_read!(alloc, item in items, edit_of(alloc, item, count))
}

fn shows_of(alloc: Global, items: Vec<Value>, count: usize) -> Result<Vec<LineShow>, Fault>
    ensures reads { Reads (λ v. v.items) result (each (line_show count) (items_view items.items)) }
    ensures known { IfOk result (λ v. All (ShowNamesCrate count) v.items) }
{
    each_read!(alloc, item in items, show_of(alloc, item, count))
}

fn edits_in(alloc: Global, members: &mut Members, count: usize) -> Result<Vec<TextEdit>, Fault>
    ensures reads { Reads (λ v. map text_edit_view v.items) result
        (each_at (line_edit count) (codes "edits") (object_held members.old)) }
    ensures usable { IfOk result (λ v. All (IsUsable count) v.items) }
    ensures left { OnOk result (IsLeftWithout (codes "edits") members.old members.new) }
{
    let items = list_at(alloc, members, "edits")?;
    edits_of(alloc, items, count).in_member(alloc, "edits")
}

fn shows_in(alloc: Global, members: &mut Members, count: usize) -> Result<Vec<LineShow>, Fault>
    ensures reads { Reads (λ v. v.items) result
        (each_at (line_show count) (codes "shows") (object_held members.old)) }
    ensures known { IfOk result (λ v. All (ShowNamesCrate count) v.items) }
{
    let items = list_at(alloc, members, "shows")?;
    shows_of(alloc, items, count).in_member(alloc, "shows")
}

#[tactic(auto, using(hir_input_json::proofs::MemberObjects::field_without))]
fn asked_in(alloc: Global, members: &mut Members, count: usize) -> Result<Asked, Fault>
    ensures reads { Reads asked_view result (spec.line_asked count (object_held members.old)) }
    ensures own { IfOk result (IsOwn count) }
{
    let edits = edits_in(alloc, members, count)?;
    let shows = shows_in(alloc, members, count)?;
    Ok(Asked { edits, shows })
}

// ---- lines

/// The line that opens a session.
pub(crate) fn first_line(alloc: Global, mut members: Members) -> Result<First, Fault>
    ensures reads { Reads first_view result (spec.first_line (object_held members)) }
    ensures own { IfOk result (λ first. IsOwn (length first.settings.crates.items) first.asked) }
{
    only_known(alloc, &members, LineObject::Whole)?;
    let settings = settings_in(alloc, &mut members)?;
    let asked = asked_in(alloc, &mut members, settings.crates.len())?;
    Ok(First { settings, asked })
}

/// A line of a session with this many crates.
pub(crate) fn later_line(alloc: Global, mut members: Members, count: usize) -> Result<Asked, Fault>
    ensures reads { Reads asked_view result (spec.later_line count (object_held members)) }
    ensures own { IfOk result (IsOwn count) }
{
    only_known(alloc, &members, LineObject::Whole)?;
    no_settings_in(alloc, &members)?;
    asked_in(alloc, &mut members, count)
}
