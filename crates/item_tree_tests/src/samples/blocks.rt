//! A block with items.
use crate::samples::written;
use hir_input::ast::{BlockExpr, Tail};
use hir_input_json::Fault;
use std::alloc::{AllocError, Global};

const BLOCK: &str = r#"{"stmts":[{"item":{"is":"fn","hash":1,"name":"f"}},
{"call":{"hash":2,"path":["plain","m"],"expand_to":"Statements"}},"other"],
"tail":{"call":{"hash":3,"path":["plain","n"],"expand_to":"Expr","ctxt":7}}}"#;

/// `{ fn f() {} m!(); x; n!() }`, the last call in an expansion.
pub fn block(alloc: Global) -> Result<BlockExpr, AllocError> {
    match written::block(alloc, BLOCK) {
        Ok(block) => Ok(block),
        // (no page of this is that of a block with items)
        Err(Fault::WrongForm { .. }) => Ok(BlockExpr {
            attrs: Vec::new(alloc),
            stmts: Vec::new(alloc),
            tail: Tail::Nothing,
        }),
        Err(Fault::OutOfMemory) => Err(AllocError),
    }
}
