//! What of folders is taken.
ghost use Rattle.std.specs.Prelude.{◌≡◌, IfOk, map};
ghost use Rattle.std.specs.List.{list_any};
ghost use Rattle.itemtree_options.specs.Filters as spec;

use globs::is_match;
use std::alloc::{AllocError, Global};
use std::marker::Model;

/// The folders that cargo builds in.
const BUILT: &str = "target";

/// What a path from the working directory on may begin with.
const HERE: &str = "./";

/// What of folders is taken. Files that are named are.
pub struct Filter<'a> {
    /// Whether hidden entries are, and folders that cargo builds in.
    pub(crate) has_hidden: bool,
    /// What is not.
    pub(crate) excluded: Vec<&'a str>,
}

// (Written out: what is derived is proved anew, field by field, in each crate that drops one.)
impl Drop for Filter<'_> {
    fn drop(self) {
        let Filter {
            has_hidden: _,
            excluded: _,
        } = self;
    }
}

impl<'a> Model for Filter<'a> {
    ghost use Rattle.std.specs.Prelude.{map};
    ghost use Rattle.itemtree_options.specs.Filters.{Filtering};

    ghost Value = { Filtering };

    ghost view = { λ f. record { has_hidden = f.has_hidden; excluded = map (λ g. g.now) f.excluded.items } };
}

impl<'a> Filter<'a> {
    /// What takes all that is not hidden, or hidden entries too.
    pub(crate) fn new(alloc: Global, has_hidden: bool) -> Self
        ensures { result ≡ spec.filtering has_hidden }
    {
        Filter {
            has_hidden,
            excluded: Vec::new(alloc),
        }
    }

    /// Whether an entry is left out, by its name, its path below the folder that was named, which begins with a slash,
    /// and its whole path.
    ///
    /// # Errors
    ///
    /// If there is no memory.
    pub fn excludes(
        &self,
        alloc: Global,
        name: &str,
        path: &str,
        whole: &str,
    ) -> Result<bool, AllocError>
        ensures { IfOk result (λ is. is ≡ spec.excludes self.now name.now path.now whole.now) }
    {
        if !self.has_hidden && is_hidden(name) {
            return Ok(true);
        }
        is_excluded(alloc, &self.excluded, name, path, whole)
    }

    /// Whether a folder of this name is left out where cargo builds in it.
    pub fn excludes_built(&self, name: &str) -> bool
        ensures { result ≡ spec.excludes_built self.now name.now }
    {
        !self.has_hidden && name == BUILT
    }
}

fn is_hidden(name: &str) -> bool
    ensures { result ≡ spec.is_hidden name.now }
{
    name.starts_with(".")
}

/// Whether one of some globs is one of an entry.
fn is_excluded(
    alloc: Global,
    globs: &[&str],
    name: &str,
    path: &str,
    whole: &str,
) -> Result<bool, AllocError>
    ensures { IfOk result (λ is. is
        ≡ list_any (spec.is_glob_of name.now path.now whole.now) (map (λ g. g.now) globs.now)) }
{
    for glob in globs {
        if is_glob_of(alloc, glob, name, path, whole)? {
            return Ok(true);
        }
    }
    Ok(false)
}

/// A glob without the slash that it may end with.
fn without_last_slash(glob: &str) -> &str
    ensures { result.now ≡ spec.without_last_slash glob.now }
{
    match glob.strip_suffix("/") {
        Some(front) => front,
        None => glob,
    }
}

/// A path without the slash that it may begin with.
fn without_first_slash(path: &str) -> &str
    ensures { result.now ≡ spec.without_first_slash path.now }
{
    match path.strip_prefix("/") {
        Some(below) => below,
        None => path,
    }
}

/// What stands in a path or a glob behind the `./` that it may begin with.
fn without_first_dot(path: &str) -> &str
    ensures { result.now ≡ spec.without_first_dot path.now }
{
    match path.strip_prefix(HERE) {
        Some(below) => below,
        None => path,
    }
}

/// Whether a glob stands for a path: below the folder that was named, with or without the slash, or from the working
/// directory on.
#[tactic(auto, unfolding(crate::specs::Filters::is_glob_of_path))]
fn is_glob_of_path(alloc: Global, glob: &str, path: &str, whole: &str) -> Result<bool, AllocError>
    ensures { IfOk result (λ is. is ≡ spec.is_glob_of_path path.now whole.now glob.now) }
{
    if is_match(alloc, glob, without_first_slash(path))? {
        return Ok(true);
    }
    if is_match(alloc, glob, path)? {
        return Ok(true);
    }
    is_match(alloc, glob, without_first_dot(whole))
}

/// Whether a glob is one of an entry: of its path or, if it does not begin with `./`, of its name.
#[tactic(auto, unfolding(crate::specs::Filters::is_glob_of))]
fn is_glob_of(
    alloc: Global,
    glob: &str,
    name: &str,
    path: &str,
    whole: &str,
) -> Result<bool, AllocError>
    ensures { IfOk result (λ is. is ≡ spec.is_glob_of name.now path.now whole.now glob.now) }
{
    let plain = without_last_slash(glob);
    if !glob.starts_with(HERE) && is_match(alloc, plain, name)? {
        return Ok(true);
    }
    is_glob_of_path(alloc, without_first_dot(plain), path, whole)
}

/// Whether a character means something in other globs than these.
fn is_foreign(c: char) -> bool {
    matches!(c, '[' | ']' | '{' | '}' | '\\')
}

/// What a glob names below a folder.
fn glob_below(glob: &str) -> &str {
    let path = glob.strip_suffix("/").unwrap_or(glob);
    match path.strip_prefix("./") {
        Some(below) => below,
        None => path.strip_prefix("/").unwrap_or(path),
    }
}

/// Why a glob can stand for no path, or does not mean what it seems to.
pub(crate) fn glob_fault(glob: &str) -> Option<&'static str> {
    if glob.starts_with("!") || glob.chars().any(is_foreign) {
        return Some("only *, ** and ? mean something in a glob; ? stands for any other mark too");
    }
    let is_void = |part: &str| part.is_empty() || part == ".";
    if glob == "./" || glob_below(glob).split('/').any(is_void) {
        return Some("no file has such a name or path");
    }
    None
}
