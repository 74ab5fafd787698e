//! Metas, and the options that decide them.
use crate::samples::words::{name, path_node, push, text};
use hir_input::{
    CfgAtom, CfgExpr, CfgOptions, EditionYear, Literal, Meta, PathKind, Span, SyntaxContext,
    TokenTree,
};
use std::alloc::{AllocError, Global};

const CTXT: SyntaxContext = SyntaxContext::Root(EditionYear::E2024);

/// `#[word]`
pub fn word(alloc: Global, word: &str) -> Result<Meta, AllocError> {
    Ok(Meta::Path {
        path: path_node(alloc, PathKind::Plain, word)?,
        ctxt: CTXT,
    })
}

/// `#[word]` for each of these words.
pub fn words(alloc: Global, words: &[&str]) -> Result<Vec<Meta>, AllocError> {
    let mut metas = Vec::new(alloc);
    for text in words {
        push(&mut metas, word(alloc, text))?;
    }
    Ok(metas)
}

/// The condition that a flag is set.
pub fn flag(alloc: Global, word: &str) -> Result<CfgExpr, AllocError> {
    match name(alloc, word)? {
        Some(name) => Ok(CfgExpr::Atom(CfgAtom::Flag(name))),
        None => Ok(CfgExpr::Invalid),
    }
}

/// `#[cfg(flag)]`
pub fn condition(alloc: Global, word: &str) -> Result<Meta, AllocError> {
    Ok(Meta::Cfg(flag(alloc, word)?))
}

/// Options of this flag, or of none where the text is no name.
pub fn options(alloc: Global, word: &str) -> Result<CfgOptions, AllocError> {
    let mut atoms = Vec::new(alloc);
    if let Some(name) = name(alloc, word)? {
        atoms.push(CfgAtom::Flag(name))?;
    }
    Ok(CfgOptions::new(atoms))
}

/// `"a"`
pub fn literal(alloc: Global) -> Result<Literal, AllocError> {
    let rendered = text(alloc, "\"a\"")?;
    let string = Some(text(alloc, "a")?);
    let span = Span {
        start: 1,
        end: 4,
        ctxt: CTXT,
    };
    Ok(Literal {
        rendered,
        string,
        span,
    })
}

/// `#[key = "a"]`
pub fn key_value(alloc: Global) -> Result<Meta, AllocError> {
    let path = path_node(alloc, PathKind::Plain, "key")?;
    let value = Some(literal(alloc)?);
    Ok(Meta::KeyValue {
        path,
        value,
        ctxt: CTXT,
    })
}

/// `(b)`
pub fn tokens(alloc: Global) -> Result<TokenTree, AllocError> {
    Ok(TokenTree {
        rendered: text(alloc, "(b)")?,
    })
}

// `?(b)`, with a path that is not readable.
fn unreadable(alloc: Global) -> Result<Meta, AllocError> {
    Ok(Meta::TokenTree {
        path: None,
        tokens: tokens(alloc)?,
        ctxt: CTXT,
    })
}

// `key = "a", ?(b)`
fn conditional(alloc: Global) -> Result<Vec<Meta>, AllocError> {
    let mut metas = Vec::new(alloc);
    push(&mut metas, key_value(alloc))?;
    push(&mut metas, unreadable(alloc))?;
    Ok(metas)
}

/// `#[unsafe(cfg_attr(not(x), key = "a", ?(b)))]`, with a path that is not readable.
pub fn nested_meta(alloc: Global) -> Result<Meta, AllocError> {
    let metas = conditional(alloc)?;
    let condition = CfgExpr::Not(Box::new(alloc, flag(alloc, "x")?)?);
    Ok(Meta::Unsafe(Box::new(alloc, Meta::CfgAttr { condition, metas })?))
}
