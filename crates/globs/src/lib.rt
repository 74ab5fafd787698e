//! Globs, which stand for paths and for names.
#![tactic(auto)]

ghost use Rattle.std.specs.Prelude.{◌≡◌, ◌≢◌, ◌+◌, ◌&&◌, ◌||◌, ◌∷◌, [], length, IfOk, chars};
ghost use Rattle.globs.specs.Globs as spec;
ghost use Rattle.globs.specs.Inner as inner;

use std::alloc::{AllocError, Global};

/// Whether the rest of a glob begins with a star.
#[tactic(auto, unfolding(crate::specs::Globs::is_star_next))]
fn is_star_next(glob: &[char]) -> bool
    ensures { result ≡ spec.is_star_next glob.now }
{
    match glob {
        [] => false,
        [next, ..] => *next == '*',
    }
}

/// Whether a star passes over a character.
#[tactic(auto, unfolding(crate::specs::Globs::passes))]
fn passes(is_double: bool, c: char) -> bool
    ensures { result ≡ spec.passes is_double c }
{
    is_double || c != '/'
}

/// Whether a character of a glob that is no star stands for one of a path.
#[tactic(auto, unfolding(crate::specs::Globs::is_one))]
fn fits(p: char, c: char) -> bool
    ensures { result ≡ spec.is_one p c }
{
    if p == '?' { c != '/' } else { p == c }
}

fn both(a: bool, b: bool) -> bool
    ensures { result ≡ (a && b) }
{
    a && b
}

fn either(a: bool, b: bool) -> bool
    ensures { result ≡ (a || b) }
{
    a || b
}

/// The row of a glob without characters: true for the end of the path alone.
fn last_row(alloc: Global, path: &[char]) -> Result<Vec<bool>, AllocError>
    ensures { IfOk result (λ row. inner.IsRow (spec.matches []) path.now row.items) }
{
    let mut row = Vec::new(alloc);
    for _c in path {
        row.push(false)?;
    }
    row.push(true)?;
    Ok(row)
}

/// The row behind a character that is no star.
fn pass_one(row: &mut [bool], path: &[char], p: char)
    requires { length row.old ≡ length path.now + 1 }
    ensures { inner.IsBehindOne p path.now row.old row.new }
{
    for at in 0..path.len() {
        row[at] = both(fits(p, path[at]), row[at + 1]);
    }
    row[path.len()] = false;
}

/// The row behind a star.
fn pass_star(row: &mut [bool], path: &[char], is_double: bool)
    requires { length row.old ≡ length path.now + 1 }
    ensures { inner.IsBehindSome is_double path.now row.old row.new }
{
    let mut at = path.len();
    while at > 0 {
        at -= 1;
        let is_behind = both(passes(is_double, path[at]), row[at + 1]);
        row[at] = either(row[at], is_behind);
    }
}

/// From the row of the rest of a glob to that of it and the character before.
fn pass(row: &mut [bool], path: &[char], p: char, rest: &[char])
    requires { inner.IsRow (spec.matches rest.now) path.now row.old }
    ensures { inner.IsRow (spec.matches (p ∷ rest.now)) path.now row.new }
{
    if p == '*' {
        pass_star(row, path, is_star_next(rest));
        return;
    }
    pass_one(row, path, p);
}

/// From the row of the end of a glob to that of all of it.
fn pass_all(row: &mut [bool], path: &[char], glob: &[char])
    requires { inner.IsRow (spec.matches []) path.now row.old }
    ensures { inner.IsRow (spec.matches glob.now) path.now row.new }
{
    let mut at = glob.len();
    while at > 0 {
        at -= 1;
        pass(row, path, glob[at], &glob[at + 1..]);
    }
}

fn matches(alloc: Global, glob: &[char], path: &[char]) -> Result<bool, AllocError>
    ensures { IfOk result (λ is. is ≡ spec.matches glob.now path.now) }
{
    let mut row = last_row(alloc, path)?;
    pass_all(&mut row, path, glob);
    Ok(row[0])
}

fn chars_of(alloc: Global, text: &str) -> Result<Vec<char>, AllocError>
    ensures { IfOk result (λ v. v.items ≡ chars text.now) }
{
    text.chars().collect(alloc)
}

/// Whether a glob stands for a whole path.
///
/// `*` stands for any characters but `/`, also for none; `**` for any characters; `?` for any one but `/`; and each
/// other character for itself. It takes time and memory for each pair of characters of the two, and no more.
///
/// # Errors
///
/// Only if memory runs out.
pub fn is_match(alloc: Global, glob: &str, path: &str) -> Result<bool, AllocError>
    ensures { IfOk result (λ is. is ≡ spec.matches (chars glob.now) (chars path.now)) }
{
    let glob = chars_of(alloc, glob)?;
    let path = chars_of(alloc, path)?;
    matches(alloc, &glob, &path)
}
