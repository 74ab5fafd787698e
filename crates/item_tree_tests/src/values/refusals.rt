//! What metas collect and what two owners join to where a request for memory is refused: whole, or refused with what
//! was handed in as it was. Of two requests never both are refused.
use crate::samples::attributes::{condition, options, words};
use hir_input::Meta;
use item_tree_attrs::{AttrError, AttrsOrCfg, MergeRefused};
use std::alloc::Global;

// Whether an answer is as wanted, or refused for out of memory.
fn is_right(answer: Result<bool, AttrError>) -> bool {
    match answer {
        Ok(is_wanted) => is_wanted,
        Err(error) => error == AttrError::OutOfMemory,
    }
}

// `#[word]` for each of these words, and behind them a cfg that is false, or none.
fn metas(alloc: Global, texts: &[&str], is_disabled: bool) -> Result<Vec<Meta>, AttrError> {
    let mut metas = words(alloc, texts)?;
    if is_disabled {
        metas.push(condition(alloc, "x")?)?;
    }
    Ok(metas)
}

fn collect_texts(
    alloc: Global,
    texts: &[&str],
    is_disabled: bool,
) -> Result<AttrsOrCfg, AttrError> {
    let metas = metas(alloc, texts, is_disabled)?;
    let options = options(alloc, "")?;
    AttrsOrCfg::lower(alloc, &metas, &options, &[])
}

// Whether metas are collected as wanted, of two requests at least once.
fn are_collected(alloc: Global, metas: &[Meta], wanted: &AttrsOrCfg) -> Result<bool, AttrError> {
    let options = options(alloc, "")?;
    let mut are_collected = false;
    for _ in 0..2 {
        if let Ok(attrs) = AttrsOrCfg::lower(alloc, metas, &options, &[]) {
            if attrs != *wanted {
                return Ok(false);
            }
            are_collected = true;
        }
    }
    Ok(are_collected)
}

// Whether what metas collect is whole or refused, and the metas are then as they were.
fn is_whole_or_refused(alloc: Global, is_disabled: bool) -> Result<bool, AttrError> {
    let source = metas(alloc, &["a", "b"], is_disabled)?;
    let twin = metas(alloc, &["a", "b"], is_disabled)?;
    let wanted = collect_texts(alloc, &["a", "b"], is_disabled)?;
    Ok(are_collected(alloc, &source, &wanted)? && source == twin)
}

#[test]
fn what_metas_collect_is_whole_or_refused_when_memory_is_refused(rt: HostRuntime) {
    assert!(rt; is_right(is_whole_or_refused(rt.alloc(), false)));
    assert!(rt; is_right(is_whole_or_refused(rt.alloc(), true)));
}

// Whether both sides are handed back as they were, for out of memory, and can then be joined.
fn is_handed_back(
    refused: MergeRefused,
    left: &AttrsOrCfg,
    right: &AttrsOrCfg,
    both: &AttrsOrCfg,
) -> bool {
    let MergeRefused {
        left: first,
        right: second,
        cause,
    } = refused;
    if cause != AttrError::OutOfMemory || first != *left || second != *right {
        return false;
    }
    match first.merge(second) {
        Ok(joined) => joined == *both,
        Err(_) => false,
    }
}

// Whether the attributes of two owners are joined, or handed back.
fn are_joined_or_handed_back(alloc: Global, is_disabled: bool) -> Result<bool, AttrError> {
    let left = collect_texts(alloc, &["a"], false)?;
    let right = collect_texts(alloc, &["b"], is_disabled)?;
    let left_twin = collect_texts(alloc, &["a"], false)?;
    let right_twin = collect_texts(alloc, &["b"], is_disabled)?;
    let both = collect_texts(alloc, &["a", "b"], is_disabled)?;
    match left.merge(right) {
        Ok(joined) => Ok(joined == both),
        Err(refused) => Ok(is_handed_back(refused, &left_twin, &right_twin, &both)),
    }
}

#[test]
fn two_owners_are_joined_or_handed_back_when_memory_is_refused(rt: HostRuntime) {
    assert!(rt; is_right(are_joined_or_handed_back(rt.alloc(), false)));
    assert!(rt; is_right(are_joined_or_handed_back(rt.alloc(), true)));
}

// Whether an owner with a false cfg is joined, whatever is refused: no memory is asked for.
fn is_joined_without_memory(alloc: Global) -> Result<bool, AttrError> {
    let left = collect_texts(alloc, &["a"], true)?;
    let twin = collect_texts(alloc, &["a"], true)?;
    let right = collect_texts(alloc, &["b"], false)?;
    match left.merge(right) {
        Ok(joined) => Ok(joined == twin),
        Err(_) => Ok(false),
    }
}

#[test]
fn an_owner_with_a_false_cfg_is_joined_when_memory_is_refused(rt: HostRuntime) {
    assert!(rt; is_right(is_joined_without_memory(rt.alloc())));
}
