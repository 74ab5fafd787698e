//! Conditions of `cfg` and `cfg_attr`.

ghost use Rattle.std.specs.Prelude.{◌≡◌, IfOk, Some, map, option_map, string_bytes};
ghost use Rattle.hir_input.specs.Cfg.{cfg_view};
ghost use Rattle.rust_cursor.specs.Grammar.{reads};
ghost use Rattle.rust_cursor.specs.Looks.{sees};
ghost use Rattle.rust_cursor.specs.Reader.{Gives};
ghost use Rattle.rust_cursor.specs.Words.{bumped};
ghost use Rattle.rust_metas.specs.Conditions as spec;

use crate::literal::{is_ended, is_literal_kind, string_by};
use hir_input::{CfgAtom, CfgExpr, Name};
use rust_cursor::Cursor;
use rust_lexer::TokenKind;
use rust_paths::{name, pass_comma};
use std::alloc::{AllocError, Global};

/// Whether an option's name comes next as it is written: a word, or `r#true` or `r#false`, which are not `true` and
/// `false`.
#[tactic(auto, unfolding(crate::specs::Conditions::is_option_word))]
fn is_option_word(cursor: &Cursor<'_>) -> bool
    ensures { result ≡ sees spec.is_option_word cursor.now }
{
    match cursor.text() {
        "_" => false,
        "r#true" | "r#false" => true,
        _ => is_word_kind(cursor.kind()),
    }
}

fn is_word_kind(kind: Option<TokenKind>) -> bool
    ensures { result ≡ spec.is_word_kind kind }
{
    matches!(kind, Some(TokenKind::Ident))
}

/// Takes a word, a keyword too, or another identifier.
#[tactic(auto, unfolding(crate::specs::Conditions::option_name))]
fn option_name(alloc: Global, cursor: &mut Cursor<'_>) -> Result<Option<Name>, AllocError>
    ensures { Gives (λ n. n) (reads spec.option_name cursor.old) result cursor.new }
{
    if !is_option_word(cursor) {
        return name(alloc, cursor);
    }
    let text = String::from_str(alloc, cursor.text())?;
    cursor.bump();
    Ok(Name::new(text))
}

/// The negation of one condition.
#[tactic(auto, using(hir_input::proofs::CfgLemmas::cfg_views))]
fn not_from(alloc: Global, mut conditions: Vec<CfgExpr>) -> Result<CfgExpr, AllocError>
    ensures { IfOk result (λ c. cfg_view c ≡ spec.not_from (map cfg_view conditions.items)) }
{
    if conditions.len() != 1 {
        return Ok(CfgExpr::Invalid);
    }
    match conditions.pop() {
        Some(condition) => Ok(CfgExpr::Not(Box::new(alloc, condition)?)),
        None => Ok(CfgExpr::Invalid),
    }
}

/// The condition of a word with conditions in its bracket.
#[tactic(auto, unfolding(crate::specs::Conditions::composed_condition), using(hir_input::proofs::CfgLemmas::cfg_views))]
fn composed_condition(
    alloc: Global,
    word: Name,
    conditions: Option<Vec<CfgExpr>>,
) -> Result<CfgExpr, AllocError>
    ensures { IfOk result (λ c. cfg_view c
        ≡ spec.composed_condition word (option_map (λ v. map cfg_view v.items) conditions)) }
{
    let Some(conditions) = conditions else {
        return Ok(CfgExpr::Invalid);
    };
    match word.text() {
        "all" => Ok(CfgExpr::All(conditions)),
        "any" => Ok(CfgExpr::Any(conditions)),
        "not" => not_from(alloc, conditions),
        _ => Ok(CfgExpr::Invalid),
    }
}

#[tactic(auto, using(hir_input::proofs::CfgLemmas::cfg_views))]
fn pair_from(key: Name, value: Option<String>) -> CfgExpr
    ensures { cfg_view result ≡ spec.pair_from key (option_map string_bytes value) }
{
    match value {
        Some(value) => CfgExpr::Atom(CfgAtom::KeyValue { key, value }),
        None => CfgExpr::Invalid,
    }
}

/// A key with a value, from its `=` on.
#[tactic(auto, unfolding(crate::specs::Conditions::pair), using(hir_input::proofs::CfgLemmas::cfg_views))]
fn pair(alloc: Global, cursor: &mut Cursor<'_>, key: Name) -> Result<CfgExpr, AllocError>
    ensures { Gives cfg_view (reads (spec.pair key) (bumped cursor.old)) result cursor.new }
{
    cursor.bump();
    if !is_literal_kind(cursor.kind()) {
        return Ok(CfgExpr::Invalid);
    }
    let value = string_by(alloc, cursor.kind(), cursor.text())?;
    cursor.bump();
    Ok(pair_from(key, value))
}

/// A condition that goes up to a comma. With more behind it, it is none.
#[tactic(auto, unfolding(crate::specs::Conditions::ended_condition), using(hir_input::proofs::CfgLemmas::cfg_views))]
fn condition_if_ended(cursor: &mut Cursor<'_>, condition: CfgExpr) -> CfgExpr
    ensures { reads (spec.ended_condition (cfg_view condition)) cursor.old ≡ (cfg_view result, cursor.new) }
{
    let is_whole = is_ended(cursor);
    pass_comma(cursor);
    if is_whole {
        return condition;
    }
    CfgExpr::Invalid
}

/// Takes a condition and the comma behind it. `depth` bounds how deep conditions stand in one another.
#[cycle(conditions)]
#[tactic(auto, unfolding(crate::specs::Conditions::condition), using(hir_input::proofs::CfgLemmas::cfg_views))]
pub(crate) fn condition(
    alloc: Global,
    cursor: &mut Cursor<'_>,
    depth: usize,
) -> Result<CfgExpr, AllocError>
    ensures { Gives cfg_view (reads (spec.condition depth) cursor.old) result cursor.new }
{
    let Some(word) = option_name(alloc, cursor)? else {
        return Ok(condition_if_ended(cursor, CfgExpr::Invalid));
    };
    if cursor.is_at_open() {
        let bracket = cursor.symbol();
        cursor.bump();
        let inside = conditions(alloc, cursor, depth)?;
        cursor.pass_closed(bracket);
        let condition = composed_condition(alloc, word, inside)?;
        return Ok(condition_if_ended(cursor, condition));
    }
    if cursor.symbol() == b'=' {
        let condition = pair(alloc, cursor, word)?;
        return Ok(condition_if_ended(cursor, condition));
    }
    Ok(condition_if_ended(cursor, CfgExpr::Atom(CfgAtom::Flag(word))))
}

/// Takes conditions up to a bracket that closes, unless they stand too deep.
#[cycle(conditions)]
#[tactic(auto, unfolding(rust_cursor::specs::Elements::turns), using(rust_cursor::proofs::Turns::turns_stop, crate::proofs::Depths::conditions_deep, crate::proofs::Depths::conditions_at,),)]
fn conditions(
    alloc: Global,
    cursor: &mut Cursor<'_>,
    depth: usize,
) -> Result<Option<Vec<CfgExpr>>, AllocError>
    ensures { Gives (option_map (λ v. map cfg_view v.items))
        (reads (spec.conditions depth) cursor.old) result cursor.new }
{
    if depth == 0 {
        return Ok(None);
    }
    let mut conditions = Vec::new(alloc);
    let most = Cursor::most_turns();
    for _turn in 0..most {
        if cursor.is_at_end() {
            break;
        }
        let past = cursor.last_end();
        let condition = condition(alloc, cursor, depth - 1)?;
        conditions.push(condition)?;
        cursor.pass_beyond(past);
    }
    Ok(Some(conditions))
}
