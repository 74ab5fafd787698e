//! Paths of files, as names from the top on down.
ghost use Rattle.std.specs.Prelude.{◌≡◌, IfOk, OnOk, string_bytes};
ghost use Rattle.module_tree.specs.Paths as spec;
ghost use Rattle.module_tree.specs.Inner.{texts};

use std::alloc::{AllocError, Global};

/// Goes to what is above names.
fn go_above<'a>(names: &mut Vec<&'a str>) -> Result<(), AllocError>
    ensures { OnOk result (texts names.new.items
        ≡ spec.above_by (spec.final_name (texts names.old.items)) (texts names.old.items)) }
{
    let Some(last) = names.last() else {
        names.push("..")?;
        return Ok(());
    };
    if last.is_empty() {
        return Ok(());
    }
    if *last == ".." {
        names.push("..")?;
        return Ok(());
    }
    let _last = names.pop();
    Ok(())
}

/// Goes where a word between slashes leads.
fn go<'a>(names: &mut Vec<&'a str>, word: &'a str) -> Result<(), AllocError>
    ensures { OnOk result (texts names.new.items ≡ spec.stepped_words (texts names.old.items) word.now) }
{
    if word.is_empty() || word == "." {
        return Ok(());
    }
    if word == ".." {
        return go_above(names);
    }
    names.push(word)?;
    Ok(())
}

fn is_absolute(path: &str) -> bool
    ensures { result ≡ spec.is_absolute path.now }
{
    match path.as_bytes() {
        [] => false,
        [first, ..] => *first == b'/',
    }
}

/// The names from which a path leads.
fn start<'a>(alloc: Global, folder: &[&'a str], path: &str) -> Result<Vec<&'a str>, AllocError>
    ensures { IfOk result (λ names. texts names.items ≡ spec.path_base (texts folder.now) path.now) }
{
    if !is_absolute(path) {
        return Vec::from_slice(alloc, folder);
    }
    let mut names = Vec::new(alloc);
    names.push("")?;
    Ok(names)
}

/// Where a path leads from a folder.
pub(crate) fn path_from<'a>(
    alloc: Global,
    folder: &[&'a str],
    path: &'a str,
) -> Result<Vec<&'a str>, AllocError>
    ensures { IfOk result (λ names. texts names.items ≡ spec.names_from (texts folder.now) path.now) }
{
    let mut names = start(alloc, folder, path)?;
    for word in path.split('/') {
        go(&mut names, word)?;
    }
    Ok(names)
}

/// A folder as text, in front of what stands in it.
pub(crate) fn folder_text(alloc: Global, names: &[&str]) -> Result<String, AllocError>
    ensures { IfOk result (λ text. string_bytes text ≡ spec.folder_text (texts names.now)) }
{
    let mut text = String::new(alloc);
    for name in names {
        text.push_str(name)?;
        text.push('/')?;
    }
    Ok(text)
}
