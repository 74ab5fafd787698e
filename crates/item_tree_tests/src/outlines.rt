//! The outline of the file with an item of each kind.
use crate::lowered::{is_right, tree_of_all_kinds};
use item_tree::LowerError;
use std::alloc::Global;
use tree_walk::outline_text;

const TEXT: &str = "\
Module[0001, 0] m
    Fn[0002, 0] f
    Struct[0003, 0] S
    Impl[0004, 0]
ExternBlock[0005, 0]
    MacroCall[0006, 0]
Trait[0007, 0] T
MacroRules[0008, 0] m
Module[0009, 0] n
Union[000A, 0] U
Enum[000B, 0] E
TypeAlias[000C, 0] A
Static[000D, 0] X
Const[000E, 0] C
MacroDef[000F, 0] d
ExternCrate[0010, 0]
Use[0011, 0]
Module[0012, 0] o
";

fn is_text_written(alloc: Global) -> Result<bool, LowerError> {
    let tree = tree_of_all_kinds(alloc)?;
    let text = outline_text(alloc, &tree)?;
    Ok(text.as_str() == TEXT)
}

#[test]
fn outlines_are_whole_or_refused_when_memory_is_refused(rt: HostRuntime) {
    assert!(rt; is_right(is_text_written(rt.alloc())));
}
