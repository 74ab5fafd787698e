//! Debug pages without the lines of ids.
ghost use Rattle.std.specs.Prelude.{◌≡◌, ◌++◌, ◌∷◌, [], filter, map, not, IfOk, OnOk, string_bytes};
ghost use Rattle.source_listing.specs.Pages as spec;

use std::alloc::{AllocError, Global};

/// A text behind its blanks.
fn behind_indent(text: &[u8]) -> &[u8]
    ensures { result.now ≡ spec.behind_indent text.now }
{
    let mut left = text;
    while let [b' ', rest @ ..] = left {
        left = rest;
    }
    left
}

fn is_id_line(line: &str) -> bool
    ensures { result ≡ spec.is_id_line line.now }
{
    behind_indent(line.as_bytes()).starts_with(b"// AstId: ")
}

fn push_unless_id<'a>(line: &'a str, lines: &mut Vec<&'a str>) -> Result<(), AllocError>
    ensures { let kept = filter (λ text. not (spec.is_id_line text)) (line.now ∷ []) in
        OnOk result (map (λ l. l.now) lines.new.items ≡ map (λ l. l.now) lines.old.items ++ kept) }
{
    if is_id_line(line) {
        return Ok(());
    }
    lines.push(line)?;
    Ok(())
}

/// Lines with a line feed between each two.
fn joined_text(alloc: Global, lines: &[&str]) -> Result<String, AllocError>
    ensures { IfOk result (λ text. string_bytes text ≡ spec.joined_lines (map (λ l. l.now) lines.now)) }
{
    let Some((first, rest)) = lines.split_first() else {
        return Ok(String::new(alloc));
    };
    let mut text = String::from_str(alloc, first)?;
    for line in rest {
        text.push_str("\n")?;
        text.push_str(line)?;
    }
    Ok(text)
}

/// A page of `pretty_print` without the lines that tell the ids of items: those that begin, behind their blanks, with
/// `// AstId: `.
///
/// Each item has one such line, and no other line of an item begins so: it begins with a visibility, a keyword, the
/// path of a macro or a brace. An attribute begins with `#`, but what a string or a comment in it holds behind a line
/// feed can begin a line so, and such a line is left out too.
///
/// # Errors
///
/// Only if memory runs out.
pub fn without_ids(alloc: Global, page: &str) -> Result<String, AllocError>
    ensures { IfOk result (λ text. string_bytes text ≡ spec.lines_without_ids page.now) }
{
    let mut lines = Vec::new(alloc);
    for line in page.split('\n') {
        push_unless_id(line, &mut lines)?;
    }
    joined_text(alloc, &lines)
}
