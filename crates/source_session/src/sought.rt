//! Paths of names that are looked for.
ghost use Rattle.std.specs.Prelude.{◌≡◌, ◌&&◌, nat_eq};
ghost use Rattle.std.specs.List.{ends_with};
ghost use Rattle.serde_json.specs.View.{view};
ghost use Rattle.hir_input_json.specs.{Reading.here, Reads.Reads};
ghost use Rattle.source_listing.specs.{Sought.sought_path, Views.pattern_view, Views.query_view, Views.sought_view};
ghost use Rattle.source_session.specs.Searches.{query_of};
ghost use Rattle.source_session.specs.Sought as spec;

use crate::parts::{part_at, parts};
use hir_input::Name;
use hir_input_json::Fault;
use hir_input_json::name::name_of;
use line_index::Units;
use list_forms::Form;
use serde_json::Value;
use source_listing::{Pattern, Query, SoughtPath, is_sought_path, sought_path, sought_pattern};
use std::alloc::Global;
use std::marker::Model;

/// A path of names that is looked for, its last name, and what columns of what is found count.
#[derive(Debug, Drop)]
pub struct SoughtItem {
    path: SoughtPath,
    name: Name,
    units: Units,
}

impl Model for SoughtItem {
    ghost use Rattle.source_listing.specs.Views.{sought_view};
    ghost use Rattle.source_session.specs.Sought as spec;

    ghost Value = { spec.SoughtItem };

    ghost view = { λ x. record { path = sought_view x.path; name = x.name; units = x.units } };
}

/// Names of which the last may be a glob, whether members are looked for too, and what columns of what is found count.
#[derive(Debug, Drop)]
pub struct Searched {
    pattern: Pattern,
    has_members: bool,
    units: Units,
}

impl Model for Searched {
    ghost use Rattle.source_listing.specs.Views.{pattern_view};
    ghost use Rattle.source_session.specs.Sought as spec;

    ghost Value = { spec.Searched };

    ghost view = { λ x. record {
      pattern = pattern_view x.pattern;
      has_members = x.has_members;
      units = x.units;
    } };
}

#[tactic(auto, using(crate::proofs::Pieces::same_count))]
fn last_name(alloc: Global, path: &str) -> Result<Name, Fault>
    ensures { Reads (λ name. name) result (spec.last_name path.now) }
{
    let names = parts(alloc, path, ':')?;
    let last = part_at(&names, names.len().saturating_sub(1));
    let name = Value::try_from_str(alloc, last)?;
    name_of(alloc, name)
}

fn path_of(alloc: Global, text: &str) -> Result<SoughtPath, Fault>
    ensures { Reads sought_view result (here (sought_path text.now)) }
{
    match sought_path(alloc, text)? {
        Some(path) => Ok(path),
        None => Err(Fault::here(alloc)),
    }
}

/// A path that is looked for, by columns of characters.
///
/// `WrongForm` comes only where it is not of its form (`Sought.asked_path`).
pub(crate) fn sought_of(alloc: Global, value: &Value) -> Result<SoughtItem, Fault>
    ensures { Reads (λ sought. sought) result (spec.asked_path (view value.now)) }
{
    let Some(text) = value.as_str() else {
        return Err(Fault::here(alloc));
    };
    let path = path_of(alloc, text)?;
    let name = last_name(alloc, &path.path)?;
    let units = Units::Characters;
    Ok(SoughtItem { path, name, units })
}

/// Names as the command takes them.
///
/// `WrongForm` comes only where they are not of their form (`Sought.asked_pattern`).
pub(crate) fn pattern_of(alloc: Global, value: &Value) -> Result<Pattern, Fault>
    ensures { Reads pattern_view result (spec.asked_pattern (view value.now)) }
{
    let Some(text) = value.as_str() else {
        return Err(Fault::here(alloc));
    };
    match sought_pattern(alloc, false, text)? {
        Some(pattern) => Ok(pattern),
        None => Err(Fault::here(alloc)),
    }
}

// Whether a glob of a name has a star or a question mark.
fn holds_mark(name: &str) -> bool
    ensures { result ≡ spec.holds_mark name.now }
{
    name.as_bytes().iter().any(|b| *b == b'*' || *b == b'?')
}

impl Searched {
    pub(crate) fn new(pattern: Pattern, has_members: bool, units: Units) -> Searched
        ensures { let pattern = pattern_view pattern in
            result ≡ record { pattern = pattern; has_members = has_members; units = units } }
    {
        Searched {
            pattern,
            has_members,
            units,
        }
    }

    /// Whether what is looked for is more than the items of one name.
    pub(crate) fn is_wide(&self) -> bool
        ensures { result ≡ spec.is_wide self.now }
    {
        self.has_members || holds_mark(&self.pattern.name)
    }

    /// What the command looks for.
    pub(crate) fn query(&self) -> Query<'_>
        ensures { query_view result ≡ query_of self.now.pattern }
    {
        Query {
            scope: &self.pattern.scope,
            name: &self.pattern.name,
            is_anywhere: self.pattern.is_anywhere,
            ignores_case: false,
            kinds: &[],
            only_active: false,
            form: Form::Json,
        }
    }

    /// Whether members are looked for too.
    pub(crate) fn has_members(&self) -> bool
        ensures { result ≡ self.now.has_members }
    {
        self.has_members
    }

    /// What columns of what is found count.
    pub(crate) fn units(&self) -> Units
        ensures { result ≡ self.now.units }
    {
        self.units
    }
}

impl SoughtItem {
    /// The last name.
    pub(crate) fn name(&self) -> &Name
        ensures { result.now ≡ self.now.name }
    {
        &self.name
    }

    /// The same by columns of these units.
    pub(crate) fn in_units(self, units: Units) -> SoughtItem
        ensures { result ≡ record self { units = units } }
    {
        let SoughtItem {
            path,
            name,
            units: _,
        } = self;
        SoughtItem { path, name, units }
    }

    /// What columns of what is found count.
    pub(crate) fn units(&self) -> Units
        ensures { result ≡ self.now.units }
    {
        self.units
    }

    /// Whether the path may begin anywhere, and this is how it ends.
    pub(crate) fn is_end(&self, path: &str) -> bool
        ensures { result ≡ (self.now.path.is_anywhere && ends_with nat_eq path.now
            self.now.path.path) }
    {
        if !self.path.is_anywhere {
            return false;
        }
        is_sought_path(&self.path.path, true, path)
    }

    /// Whether this is the path, or ends as it does if it may begin anywhere.
    pub(crate) fn is_at(&self, path: &str) -> bool
        ensures { result ≡ spec.is_at self.now.path path.now }
    {
        is_sought_path(&self.path.path, self.path.is_anywhere, path)
    }
}
