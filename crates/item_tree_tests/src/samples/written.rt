//! Syntaxes of their forms in JSON (`docs/FORMAT.md`).
use hir_input::ast::{BlockExpr, Syntax};
use hir_input_json::Fault;
use hir_input_json::member::members_of;
use hir_input_json::syntax::{block_in, syntax_of};
use serde_json::{Category, Value};
use std::alloc::Global;

fn value(alloc: Global, text: &str) -> Result<Value, Fault> {
    match Value::from_str(alloc, text) {
        Ok(value) => Ok(value),
        Err(error) => match error.classify() {
            Category::Memory => Err(Fault::OutOfMemory),
            _ => Err(Fault::here(alloc)),
        },
    }
}

/// The syntax of a text in JSON.
pub fn syntax(alloc: Global, text: &str) -> Result<Syntax, Fault> {
    syntax_of(alloc, value(alloc, text)?)
}

/// The block of a text in JSON.
pub fn block(alloc: Global, text: &str) -> Result<BlockExpr, Fault> {
    let mut members = members_of(alloc, value(alloc, text)?)?;
    block_in(alloc, &mut members)
}
