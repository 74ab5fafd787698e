//! What all commands are told.
use crate::words::{edition, push_names, usually_skipped};
use hir_input::{CfgAtom, CfgOptions, EditionYear, HirFileId, Name};
use item_tree::CrateData;
use item_tree_request::write::RequestOptions;
use itemtree_commands::Options;
use itemtree_options::Asked;
use rust_lexer::is_identifier;
use std::alloc::{AllocError, Global};

/// What a cfg is called: an identifier, also behind `r#`. (`r#true` and `r#false` are not `true` and `false`.)
fn key(alloc: Global, text: &str) -> Result<Option<Name>, AllocError> {
    let bare = text.strip_prefix("r#").unwrap_or(text);
    if bare == "_" || !is_identifier(bare) {
        return Ok(None);
    }
    let name = match bare {
        "true" | "false" => text,
        _ => bare,
    };
    Ok(Name::new(String::from_str(alloc, name)?))
}

/// The value in quotes, or in those of a raw string.
fn value(text: &str) -> Option<&str> {
    if let Some(raw) = text.strip_prefix("r") {
        let quoted = raw.trim_start_matches('#');
        let marks = raw.strip_suffix(quoted)?;
        let inner = quoted.strip_suffix(marks)?;
        return inner.strip_prefix('"')?.strip_suffix('"');
    }
    let inner = text.strip_prefix('"')?.strip_suffix('"')?;
    let is_plain = !inner.contains('"') && !inner.contains('\\');
    is_plain.then_some(inner)
}

/// `KEY="VALUE"`, as rustc takes it but for escapes, or the name of a flag.
fn atom(alloc: Global, spec: &str) -> Result<Option<CfgAtom>, AllocError> {
    let Some((left, right)) = spec.split_once('=') else {
        return Ok(key(alloc, spec.trim())?.map(CfgAtom::Flag));
    };
    let Some(value) = value(right.trim()) else {
        return Ok(None);
    };
    let value = String::from_str(alloc, value)?;
    Ok(key(alloc, left.trim())?.map(|key| CfgAtom::KeyValue { key, value }))
}

/// The atoms of the words after `--cfg`, or the word that is none.
pub(crate) fn atoms_of<'a>(
    alloc: Global,
    specs: &[&'a str],
) -> Result<Result<Vec<CfgAtom>, &'a str>, AllocError> {
    let mut atoms = Vec::new(alloc);
    for spec in specs {
        match atom(alloc, spec)? {
            Some(atom) => atoms.push(atom)?,
            None => return Ok(Err(spec)),
        }
    }
    Ok(Ok(atoms))
}

fn year(edition: u16) -> EditionYear {
    match edition {
        2015 => EditionYear::E2015,
        2018 => EditionYear::E2018,
        2021 => EditionYear::E2021,
        _ => EditionYear::E2024,
    }
}

fn skipped_names(alloc: Global, asked: &Asked<'_>) -> Result<Vec<Name>, AllocError> {
    if asked.skipped.is_empty() {
        return usually_skipped(alloc, asked.has_docs);
    }
    let mut names = Vec::new(alloc);
    push_names(alloc, &asked.skipped, &mut names)?;
    Ok(names)
}

/// What a text is checked under in an edition.
pub(crate) fn options_in(alloc: Global, year: EditionYear) -> Result<Options, AllocError> {
    let krate = CrateData {
        root: HirFileId(0),
        cfg: CfgOptions::new(Vec::new(alloc)),
        attrs: Vec::new(alloc),
    };
    Ok(Options {
        krate,
        skipped: Vec::new(alloc),
        edition: edition(alloc, year)?,
        only_active: false,
    })
}

/// The edition that is asked for, or else that of a manifest, if that tells one.
pub(crate) fn edition_of(asked: &Asked<'_>, told: Option<EditionYear>) -> EditionYear {
    match told {
        Some(year) if !asked.has_edition => year,
        _ => year(asked.edition),
    }
}

/// The options of a command line with these cfgs, and what a manifest tells of the edition.
pub(crate) fn options_of(
    alloc: Global,
    asked: &Asked<'_>,
    atoms: Vec<CfgAtom>,
    told: Option<EditionYear>,
) -> Result<Options, AllocError> {
    let year = edition_of(asked, told);
    let krate = CrateData {
        root: HirFileId(0),
        cfg: CfgOptions::new(atoms),
        attrs: Vec::new(alloc),
    };
    Ok(Options {
        krate,
        skipped: skipped_names(alloc, asked)?,
        edition: edition(alloc, year)?,
        only_active: asked.only_active,
    })
}

/// Those of a request.
pub(crate) fn request_options(
    alloc: Global,
    asked: &Asked<'_>,
    atoms: Vec<CfgAtom>,
    has_bodies: bool,
) -> Result<RequestOptions, AllocError> {
    Ok(RequestOptions {
        bodies: has_bodies,
        skipped: skipped_names(alloc, asked)?,
        edition: edition(alloc, year(asked.edition))?,
        cfg: atoms,
    })
}
