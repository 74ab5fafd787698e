//! Where a path of names is declared.
ghost use Rattle.std.specs.Prelude.{◌≡◌, ◌++◌, IfOk, OnOk, Some, map, option_copied, option_map, string_bytes};
ghost use Rattle.std.specs.Prelude.{◌==◌, ◌||◌, bytes_eq, flat_map, length};
ghost use Rattle.std.specs.List.{list_any};
ghost use Rattle.std.specs.Option.{option_or};
ghost use Rattle.tree_walk.specs.Views.{row_view};
ghost use Rattle.tree_walk.specs.Rows as rows;
ghost use Rattle.source_rows.specs.ListedViews.{listed_view, reading_view};
ghost use Rattle.source_listing.specs.Search as spec;
ghost use Rattle.source_rows.specs.Places.{AreDistinct};
ghost use Rattle.source_listing.specs.Views.{candidate_view, query_view};

use crate::paths::{is_sought_path, push_scope, push_segment};
use crate::patterns::compared_text;
use globs::is_match;
use hir_input::{FileAstId, Name};
use item_tree::ItemTree;
use list_forms::Form;
use rust_cursor::is_among;
use rust_items::{ItemPlace, TextRange};
use source_rows::{ListedMember, Places, Reading, item_word, member_word, stand_of};
use std::alloc::{AllocError, Global};
use tree_walk::{Row, item_rows};

/// What is looked for, as a `Pattern` has it, and how it is told.
#[derive(Clone, Copy, Debug)]
pub struct Query<'a> {
    /// The names before the last one, with two colons before each, as `::a::b`.
    pub scope: &'a str,
    /// The glob of the last name.
    pub name: &'a str,
    /// Whether the names may begin in any module, and not at the top alone.
    pub is_anywhere: bool,
    /// Whether what these are compared with is folded, so that letters of two cases are one.
    pub ignores_case: bool,
    /// The words of the kinds that are looked for; none stands for all.
    pub kinds: &'a [&'a str],
    /// Whether what a cfg disables is left out.
    pub only_active: bool,
    pub form: Form,
}

/// An item or a member with a name.
#[derive(Debug, Drop)]
pub struct Candidate {
    /// That of an item; a member has none.
    pub id: Option<FileAstId>,
    /// Where it stands, if that is known.
    pub at: Option<usize>,
    /// Its bytes, if they are known.
    pub range: Option<TextRange>,
    /// The word of its kind.
    pub word: &'static str,
    /// The names around it, with two colons before each.
    pub scope: String,
    pub name: Name,
    pub is_active: bool,
}

/// The name of what the members of an item stand in: the item's, or that of an impl's type.
pub fn holder<'a>(name: Option<&'a Name>, type_name: &'a Option<Name>) -> Option<&'a Name>
    ensures { option_copied result ≡ option_or (option_copied name.entry) type_name.now }
{
    match name {
        Some(name) => Some(name),
        None => type_name.as_ref(),
    }
}

fn push_own_segment(name: Option<&Name>, path: &mut String) -> Result<(), AllocError>
    ensures { let segment = spec.own_segment (option_copied name.entry) in
        OnOk result (string_bytes path.new ≡ string_bytes path.old ++ segment) }
{
    match name {
        Some(name) => push_segment(name.text(), path),
        None => Ok(()),
    }
}

/// Whether a word is one of some, of which none stand for all.
fn is_one_of(word: &str, kinds: &[&str]) -> bool
    ensures { result ≡ (length kinds.now == 0
        || list_any (λ other. bytes_eq word.now other.now) kinds.now) }
{
    kinds.is_empty() || is_among(word, kinds)
}

/// The modules that an item stands in, and what its members stand in, with two colons before each name.
#[tactic(auto, using(crate::proofs::PushedTexts::segments_of))]
fn scope_of(alloc: Global, row: &Row<'_>, around: Option<&Name>) -> Result<String, AllocError>
    ensures { let scope_is = spec.scope_inside (row_view row.now) (option_copied around.entry) in
        IfOk result (λ scope. string_bytes scope ≡ scope_is) }
{
    let mut scope = String::new(alloc);
    push_scope(row.scope.as_slice(), &mut scope)?;
    push_own_segment(around, &mut scope)?;
    Ok(scope)
}

impl Query<'_> {
    fn shows(self, is_active: bool) -> bool
        ensures { result ≡ spec.is_shown (query_view self.entry) is_active }
    {
        !self.only_active || is_active
    }

    fn has_kind(self, word: &str) -> bool
        ensures { result ≡ spec.has_kind (query_view self.entry) word.now }
    {
        is_one_of(word, self.kinds)
    }

    fn is_sought_name(self, alloc: Global, name: &Name) -> Result<bool, AllocError>
        ensures { IfOk result (λ is. is ≡ spec.is_sought_name (query_view self.entry) name.now) }
    {
        let name = compared_text(alloc, self.ignores_case, name.text())?;
        is_match(alloc, self.name, &name)
    }

    fn is_sought_scope(self, alloc: Global, scope: &str) -> Result<bool, AllocError>
        ensures { IfOk result (λ is. is ≡ spec.is_sought_scope (query_view self.entry) scope.now) }
    {
        let scope = compared_text(alloc, self.ignores_case, scope)?;
        Ok(is_sought_path(self.scope, self.is_anywhere, &scope))
    }

    /// Whether an item or a member is looked for.
    fn finds(self, alloc: Global, candidate: &Candidate) -> Result<bool, AllocError>
        ensures { IfOk result (λ found. found
            ≡ spec.is_found (query_view self.entry) (candidate_view candidate.now)) }
    {
        if !self.shows(candidate.is_active) || !self.has_kind(candidate.word) {
            return Ok(false);
        }
        if !self.is_sought_name(alloc, &candidate.name)? {
            return Ok(false);
        }
        self.is_sought_scope(alloc, &candidate.scope)
    }
}

/// Adds a candidate, if it is looked for.
fn push_if_found(
    alloc: Global,
    query: Query<'_>,
    candidate: Candidate,
    found: &mut Vec<Candidate>,
) -> Result<(), AllocError>
    ensures { let own = spec.if_found (query_view query.entry) (candidate_view candidate) in
        OnOk result (map candidate_view found.new.items ≡ map candidate_view found.old.items ++ own) }
{
    if !query.finds(alloc, &candidate)? {
        return Ok(());
    }
    found.push(candidate)?;
    Ok(())
}

fn range_of(place: Option<ItemPlace>) -> Option<TextRange>
    ensures { result ≡ option_map (λ p. p.range) place }
{
    match place {
        Some(place) => Some(place.range),
        None => None,
    }
}

/// Adds an item that stands there, if it has a name that is looked for.
fn push_own_found(
    alloc: Global,
    query: Query<'_>,
    row: &Row<'_>,
    place: Option<ItemPlace>,
    found: &mut Vec<Candidate>,
) -> Result<(), AllocError>
    ensures { let own = spec.own_found (query_view query.entry) (row_view row.now) place (option_copied row.now.name) in
        OnOk result (map candidate_view found.new.items ≡ map candidate_view found.old.items ++ own) }
{
    let Some(name) = row.name else {
        return Ok(());
    };
    let scope = scope_of(alloc, row, None)?;
    let name = name.clone()?;
    let candidate = Candidate {
        id: Some(row.id),
        at: stand_of(place),
        range: range_of(place),
        word: item_word(row.id.kind),
        scope,
        name,
        is_active: row.is_active,
    };
    push_if_found(alloc, query, candidate, found)
}

/// Adds a member in a scope, if it is looked for.
fn push_if_member(
    alloc: Global,
    query: Query<'_>,
    scope: &str,
    member: &ListedMember,
    found: &mut Vec<Candidate>,
) -> Result<(), AllocError>
    ensures { let own = spec.member_found (query_view query.entry) scope.now (listed_view member.now) in
        OnOk result (map candidate_view found.new.items ≡ map candidate_view found.old.items ++ own) }
{
    let scope = String::from_str(alloc, scope)?;
    let name = member.name.clone()?;
    let candidate = Candidate {
        id: None,
        at: Some(member.at),
        range: Some(member.range),
        word: member_word(member.kind),
        scope,
        name,
        is_active: member.is_active,
    };
    push_if_found(alloc, query, candidate, found)
}

/// Adds the members in a scope that are looked for.
fn push_found_members(
    alloc: Global,
    query: Query<'_>,
    scope: &str,
    members: &[ListedMember],
    found: &mut Vec<Candidate>,
) -> Result<(), AllocError>
    ensures { let all = flat_map (spec.member_found (query_view query.entry) scope.now) (map listed_view members.now) in
        OnOk result (map candidate_view found.new.items ≡ map candidate_view found.old.items ++ all) }
{
    for member in members {
        push_if_member(alloc, query, scope, member, found)?;
    }
    Ok(())
}

/// Adds the members of an item, in this, that are looked for.
fn push_found_inside(
    alloc: Global,
    query: Query<'_>,
    row: &Row<'_>,
    around: Option<&Name>,
    members: &[ListedMember],
    found: &mut Vec<Candidate>,
) -> Result<(), AllocError>
    ensures { let scope = spec.scope_inside (row_view row.now) (option_copied around.entry) in
        let all = flat_map (spec.member_found (query_view query.entry) scope) (map listed_view members.now) in
        OnOk result (map candidate_view found.new.items ≡ map candidate_view found.old.items ++ all) }
{
    let scope = scope_of(alloc, row, around)?;
    push_found_members(alloc, query, &scope, members, found)
}

/// Adds an item and its members, where they are looked for.
fn push_row_found(
    alloc: Global,
    query: Query<'_>,
    places: &mut Places<'_>,
    reading: Reading<'_>,
    row: &Row<'_>,
    found: &mut Vec<Candidate>,
) -> Result<(), AllocError>
    requires { AreDistinct places.old }
    ensures found { let all = spec.row_found (reading_view reading.entry) places.old (query_view query.entry)
        (row_view row.now) in
        OnOk result (map candidate_view found.new.items ≡ map candidate_view found.old.items ++ all) }
    ensures same { places.new ≡ places.old }
{
    let place = places.find(row.id);
    push_own_found(alloc, query, row, place, found)?;
    let members = reading.members(alloc, place, row.is_active)?;
    let type_name = reading.type_name(alloc, row.id.kind, place)?;
    let around = holder(row.name, &type_name);
    push_found_inside(alloc, query, row, around, &members, found)
}

/// The items of a tree that are looked for, and the members where members are asked for, each item before its members.
/// Around a member are the modules, and its item's name, or for a member of an impl the last name of the type's path,
/// if the type is one. Members are listed under the cfgs that are given, and only where these are.
///
/// The places are those that the reader gave with the syntax of the tree.
///
/// # Errors
///
/// Only if memory runs out.
pub fn found_in(
    alloc: Global,
    tree: &ItemTree,
    places: &mut Places<'_>,
    reading: Reading<'_>,
    query: Query<'_>,
) -> Result<Vec<Candidate>, AllocError>
    requires { AreDistinct places.old }
    ensures found { let all = spec.found_in_rows (reading_view reading.entry) places.old (query_view query.entry)
        (rows.rows tree.now) in
        IfOk result (λ found. map candidate_view found.items ≡ all) }
    ensures same { places.new ≡ places.old }
{
    let mut found = Vec::new(alloc);
    let rows = item_rows(alloc, tree)?;
    for row in &rows {
        push_row_found(alloc, query, places, reading, row, &mut found)?;
    }
    Ok(found)
}
