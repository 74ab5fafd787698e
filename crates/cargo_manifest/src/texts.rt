//! Texts that are kept.
ghost use Rattle.std.specs.Prelude.{◌≡◌, ◌∷◌, ◌++◌, [], IfOk, OnOk, encode_utf8};
ghost use Rattle.std.specs.Prelude.{option_copied, option_map, string_bytes};
ghost use Rattle.cargo_manifest.specs.Dependencies.{rust_name as rust_name_of};
ghost use Rattle.cargo_manifest.specs.Views.{texts_view};

use std::alloc::{AllocError, Global};

pub(crate) fn copy_of(alloc: Global, text: Option<&str>) -> Result<Option<String>, AllocError>
    ensures { IfOk result (λ copy. option_map string_bytes copy ≡ option_copied text.entry) }
{
    match text {
        Some(text) => Ok(Some(String::from_str(alloc, text)?)),
        None => Ok(None),
    }
}

// A list of one text.
pub(crate) fn only(alloc: Global, text: &str) -> Result<Vec<String>, AllocError>
    ensures { IfOk result (λ texts. texts_view texts ≡ text.now ∷ []) }
{
    let mut texts = Vec::new(alloc);
    texts.push(String::from_str(alloc, text)?)?;
    Ok(texts)
}

// A text between two others.
pub(crate) fn text_between(
    alloc: Global,
    front: &str,
    text: &str,
    end: &str,
) -> Result<String, AllocError>
    ensures { IfOk result (λ all. string_bytes all ≡ front.now ++ text.now ++ end.now) }
{
    let mut all = String::from_str(alloc, front)?;
    all.push_str(text)?;
    all.push_str(end)?;
    Ok(all)
}

#[tactic(auto, using(crate::proofs::Names::char_names))]
fn push_char(c: char, name: &mut String) -> Result<(), AllocError>
    ensures { OnOk result (string_bytes name.new ≡ string_bytes name.old ++ rust_name_of (encode_utf8 c)) }
{
    match c {
        '-' => name.push('_'),
        _ => name.push(c),
    }
}

// A name as Rust has it.
pub(crate) fn rust_name(alloc: Global, name: &str) -> Result<String, AllocError>
    ensures { IfOk result (λ copy. string_bytes copy ≡ rust_name_of name.now) }
{
    let mut copy = String::new(alloc);
    for c in name.chars() {
        push_char(c, &mut copy)?;
    }
    Ok(copy)
}
