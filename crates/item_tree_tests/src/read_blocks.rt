//! Blocks of Rust texts: which parts are items and macro calls, and which ids they have.
use hir_input::EditionYear;
use rust_items::read_block;
use std::alloc::Global;

pub(crate) const BLOCK: &str = "{
    #![x]
    fn f() {}
    #[attr]
    m!(1);
    let a = m!(2);
    mod inline { fn fn_in_module() {} }
    m! {}
    a;
    m!()
}
";

// Whether a block is read whole, if it is read.
fn is_whole(alloc: Global) -> Option<bool> {
    match read_block(alloc, BLOCK, EditionYear::E2024) {
        Ok(read) => Some(read.block.stmts.len() == 6 && read.places.len() == 6),
        Err(_) => None,
    }
}

#[test]
fn a_block_is_whole_or_refused_when_memory_is_refused(rt: HostRuntime) {
    let first = is_whole(rt.alloc());
    let second = is_whole(rt.alloc());
    assert!(rt; first.unwrap_or(true) && second.unwrap_or(true));
    assert!(rt; first.is_some() || second.is_some());
}
