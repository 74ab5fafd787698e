//! The file with an item of each kind: its page and its tables.
use crate::lowered::{is_right, tree_of_all_kinds};
use crate::samples::words;
use hir_input::{Edition, EditionYear};
use item_tree::{ItemTree, LowerError};
use std::alloc::{AllocError, Global};

const PAGE: &str = "#![t]

#[a]
// AstId: Module[0001, 0]
pub(in super) mod m {
    #[b]
    #[cfg(x)]
    // AstId: Fn[0002, 0]
    pub(in crate::r#type) fn f;

    // AstId: Struct[0003, 0]
    pub struct S { ... }

    // AstId: Impl[0004, 0]
    impl { ... }
}

// AstId: ExternBlock[0005, 0]
extern {
    // AstId: MacroCall[0006, 0], SyntaxContextId: ROOT2024, ExpandTo: Items
    m!(...);
}

// AstId: Trait[0007, 0]
pub(crate) trait T { ... }

// AstId: MacroRules[0008, 0]
macro_rules! m { ... }

// AstId: Module[0009, 0]
pub(self) mod n;

// AstId: Union[000A, 0]
pub(self) union U { ... }

// AstId: Enum[000B, 0]
pub(self) enum E { ... }

// AstId: TypeAlias[000C, 0]
pub(self) type A;

// AstId: Static[000D, 0]
pub(self) static X = _;

// AstId: Const[000E, 0]
pub(self) const C = _;

// AstId: MacroDef[000F, 0]
pub(self) macro d { ... }

// AstId: ExternCrate[0010, 0]
pub(self) extern crate e as _;

// AstId: Use[0011, 0]
pub(self) use a::{*, self as b, {c, {d::*}}};

// AstId: Module[0012, 0]
pub(self) mod o;
";

fn edition(alloc: Global) -> Result<Edition, AllocError> {
    let mut reserved = Vec::new(alloc);
    if let Some(word) = words::name(alloc, "type")? {
        reserved.push(word)?;
    }
    Ok(Edition {
        year: EditionYear::E2024,
        reserved,
    })
}

// Whether the page is printed whole, of two requests at least once.
fn is_printed(alloc: Global, tree: &ItemTree, edition: &Edition) -> bool {
    let mut is_printed = false;
    for _ in 0..2 {
        if let Ok(page) = tree.pretty_print(alloc, edition) {
            if page.as_str() != PAGE {
                return false;
            }
            is_printed = true;
        }
    }
    is_printed
}

fn is_page_printed(alloc: Global) -> Result<bool, LowerError> {
    let edition = edition(alloc)?;
    let tree = tree_of_all_kinds(alloc)?;
    Ok(is_printed(alloc, &tree, &edition))
}

#[test]
fn a_page_is_whole_or_refused_when_memory_is_refused(rt: HostRuntime) {
    assert!(rt; is_right(is_page_printed(rt.alloc())));
}
