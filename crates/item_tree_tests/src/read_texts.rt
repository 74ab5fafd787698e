//! Reading is whole or refused when a request for memory is refused, and tells the braces that items end with.
use hir_input::EditionYear;
use rust_items::read_source_file;
use std::alloc::Global;

const TEXT: &str = "//! A file.
#[cfg(any(test, feature = \"a\"))]
pub(in crate::a) fn f(x: u8) -> u8 { x }
use a::{b as c, d::*};
mod m {
    #![attr(b)]
    extern \"C\" { fn g(); }
    m!(1);
}
struct S(pub u8);
";

// Whether the text is read whole, if it is read.
fn is_whole(alloc: Global) -> Option<bool> {
    match read_source_file(alloc, TEXT, EditionYear::E2024) {
        Ok(file) => Some(file.places.len() == 7 && file.problems.is_empty()),
        Err(_) => None,
    }
}

#[test]
fn a_text_is_whole_or_refused_when_memory_is_refused(rt: HostRuntime) {
    let first = is_whole(rt.alloc());
    let second = is_whole(rt.alloc());
    assert!(rt; first.unwrap_or(true) && second.unwrap_or(true));
    assert!(rt; first.is_some() || second.is_some());
}
