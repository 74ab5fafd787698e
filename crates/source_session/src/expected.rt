//! What was expected where a value of a line is of wrong form.
ghost use Rattle.std.specs.Prelude.{◌≡◌, IfOk, map};
ghost use Rattle.source_session.specs.Expected as spec;
ghost use Rattle.source_session.specs.Expected.{line_keys, lists, syntax_keys, told_by_row};
ghost use Rattle.source_session.specs.Inner.{steps_view};

use crate::keys::{LineObject, is_known};
use crate::parts::{part_at, parts};
use std::alloc::{AllocError, Global};

/// The steps of a pointer, from the text before the first on.
#[derive(Clone, Copy)]
pub(crate) struct Steps<'a> {
    count: usize,
    /// The first step.
    list: &'a str,
    before: &'a str,
    last: &'a str,
}

// ---- tables

const OTHER: &str = "another value";

const EDITS: &str =
    "a kind of edit: set_text, change_text, set_file, remove_file, set_block, remove_block or set_cfg";

const SHOWS: &str =
    "a kind of show: page, tree, imports, changed, outline, import_places, problems or find";

const UNITS: &str =
    "characters, utf-16 or bytes, of outline, import_places, problems or find, or of tree or imports as json";

// By the keys of lines, and of what stands in their lists.
fn of_line(key: &str) -> &'static str
    ensures { result.now ≡ told_by_row line_keys key.now }
{
    match key {
        "crates" | "skipped" | "edits" | "shows" | "reserved" | "cfg" | "attrs" | "stmts" =>
            "a list",
        "edition" | "syntax" => "an object",
        "file" | "block" | "root" => "a number below 2^32",
        "start" | "since" => "a number below 2^64",
        "crate" => "the number of a crate",
        "text" => "a string",
        "range" => "two byte places",
        "name" => "a name, path or glob",
        "edit" => EDITS,
        "show" => SHOWS,
        "as" => "text or json, of tree, imports or changed",
        "units" => UNITS,
        "members" => "true or false, of outline or find",
        "year" => "2015, 2018, 2021 or 2024",
        "id" => "a value without a float",
        _ => OTHER,
    }
}

// By the keys of what stands in syntaxes.
fn of_syntax(key: &str) -> &'static str
    ensures { result.now ≡ told_by_row syntax_keys key.now }
{
    match key {
        "attrs" | "items" | "stmts" | "metas" | "list" | "all" | "any" => "a list",
        "hash" => "a number below 2^16",
        "number" => "a number below 2^32",
        "semicolon" | "trait" | "star" => "true or false",
        "body" | "tokens" | "rendered" | "string" => "a string",
        "name" | "rename" | "key" => "a name",
        "path" | "in" => "a path",
        "vis" => "a visibility",
        "cfg" | "not" => "a condition",
        "is" => "a kind of item",
        "meta" => "a kind of meta: path, key_value, tokens, cfg, cfg_attr or unsafe",
        _ => OTHER,
    }
}

// By the keys of lists, of what stands in them.
fn of_list(key: &str) -> &'static str
    ensures { result.now ≡ told_by_row lists key.now }
{
    match key {
        "edits" | "shows" => "an object without a float",
        "crates" | "attrs" | "items" | "metas" | "list" => "an object",
        "skipped" | "reserved" => "a name",
        "range" => "a number below 2^64",
        _ => OTHER,
    }
}

// ---- pointers

#[tactic(auto, using(crate::proofs::Pieces::same_count))]
fn steps_of<'a>(parts: &[&'a str]) -> Steps<'a>
    ensures { steps_view result ≡ spec.steps_of (map (λ p. p.now) parts.now) }
{
    let count = parts.len();
    Steps {
        count,
        list: part_at(parts, 1),
        before: part_at(parts, count.saturating_sub(2)),
        last: part_at(parts, count.saturating_sub(1)),
    }
}

// An edit or a show.
fn listed_object(list: &str) -> Option<LineObject>
    ensures { result ≡ spec.listed_object list.now }
{
    match list {
        "edits" => Some(LineObject::OfEdits),
        "shows" => Some(LineObject::OfShows),
        _ => None,
    }
}

// Whether a step leads into a list.
fn is_place(step: &str) -> bool
    ensures { result ≡ spec.is_place step.now }
{
    match step.as_bytes() {
        [first, ..] => 48 <= *first && *first <= 57,
        [] => false,
    }
}

impl Steps<'_> {
    // The object whose key the last step is, if none but its keys may stand in it.
    fn object(self) -> Option<LineObject>
        ensures { result ≡ spec.object_of_key (steps_view self.entry) }
    {
        match self.count {
            2 => Some(LineObject::Whole),
            4 => listed_object(self.list),
            _ => None,
        }
    }

    fn is_unknown(self) -> bool
        ensures { result ≡ spec.is_unknown (steps_view self.entry) }
    {
        match self.object() {
            Some(object) => !is_known(object, self.last),
            None => false,
        }
    }

    // Whether the line has a key that opens a session.
    fn opens(self) -> bool
        ensures { result ≡ spec.opens_session (steps_view self.entry) }
    {
        if self.count != 2 {
            return false;
        }
        matches!(self.last, "crates" | "skipped" | "edition" | "start")
    }

    fn words_at(self) -> &'static str
        ensures { result.now ≡ spec.steps_told_at (steps_view self.entry) }
    {
        if is_place(self.last) {
            return of_list(self.before);
        }
        if self.count <= 4 {
            return of_line(self.last);
        }
        of_syntax(self.last)
    }

    fn words(self, is_open: bool) -> &'static str
        ensures { result.now ≡ spec.expected_at is_open (steps_view self.entry) }
    {
        if self.count == 1 {
            return "an object";
        }
        if self.is_unknown() {
            return "no such key";
        }
        if is_open && self.opens() {
            return "nothing: the session is open";
        }
        self.words_at()
    }
}

/// What was expected where a pointer leads to, with a session open or not.
///
/// # Errors
///
/// Only if memory runs out.
pub(crate) fn expected_words(
    alloc: Global,
    pointer: &str,
    is_open: bool,
) -> Result<&'static str, AllocError>
    ensures { IfOk result (λ words. words.now ≡ spec.expected_words is_open pointer.now) }
{
    let parts = parts(alloc, pointer, '/')?;
    Ok(steps_of(&parts).words(is_open))
}
