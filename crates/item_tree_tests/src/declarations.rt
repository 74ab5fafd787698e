//! What the file with an item of each kind declares.
use crate::lowered::{is_right, tree_of_all_kinds};
use item_tree::{ItemTree, LowerError};
use std::alloc::{AllocError, Global};
use tree_walk::{Declaration, Declares, collect};

const DECLARED: &str = "\
Module m
m::Fn f
m::Struct S
Trait T
MacroRules m
Module n
Union U
Enum E
TypeAlias A
Static X
Const C
MacroDef d
Use 4
Module o
";

fn push_path(text: &mut String, declaration: &Declaration<'_>) -> Result<(), AllocError> {
    for name in declaration.path.as_slice() {
        let name = name.text();
        write!(text, "{name}::")?;
    }
    Ok(())
}

fn push(text: &mut String, declaration: &Declaration<'_>) -> Result<(), AllocError> {
    push_path(text, declaration)?;
    let kind = declaration.kind;
    match &declaration.declares {
        Declares::Name(name) => {
            let name = name.text();
            writeln!(text, "{kind} {name}")
        }
        Declares::Imports(imports) => {
            let count = imports.len();
            writeln!(text, "{kind} {count}")
        }
    }
}

fn show(alloc: Global, tree: &ItemTree) -> Result<String, AllocError> {
    let mut text = String::new(alloc);
    for declaration in &collect(alloc, tree)?.declarations {
        push(&mut text, declaration)?;
    }
    Ok(text)
}

fn are_collected(alloc: Global) -> Result<bool, LowerError> {
    let tree = tree_of_all_kinds(alloc)?;
    let text = show(alloc, &tree)?;
    Ok(text.as_str() == DECLARED)
}

#[test]
fn declarations_are_whole_or_refused_when_memory_is_refused(rt: HostRuntime) {
    assert!(rt; is_right(are_collected(rt.alloc())));
}
