//! As many modules as a tree may have: unproved, this takes too long.
use crate::lowered::bare_crate;
use hir_input::EditionYear;
use item_tree::{ItemTree, lower_syntax};
use module_tree::{KnownFiles, KnownPath, ModuleChoice, ModuleTreeError, module_tree};
use rust_items::read_source_file;
use std::alloc::{AllocError, Global};
use std::collections::BTreeMap;

pub(crate) fn tree_of(alloc: Global, text: &str) -> Result<ItemTree, AllocError> {
    let file = read_source_file(alloc, text, EditionYear::E2024)?;
    match lower_syntax(alloc, &file.syntax, false, &bare_crate(alloc), &[]) {
        Ok(tree) => Ok(tree),
        Err(_) => Err(AllocError),
    }
}

pub(crate) fn lent_of(alloc: Global, trees: &[ItemTree]) -> Result<Vec<&ItemTree>, AllocError> {
    let mut lent = Vec::new(alloc);
    for tree in trees {
        lent.push(tree)?;
    }
    Ok(lent)
}

// Each file has the next one twice, and so the last one stands at 2^29 places.
fn found_on_ladder(alloc: Global) -> Result<usize, ModuleTreeError> {
    let mut trees = Vec::new(alloc);
    let mut paths = BTreeMap::new(alloc);
    for file in 0..30_u32 {
        let next = file + 1;
        let text = format!(in alloc; "#[path = \"{next}\"] mod a; #[path = \"{next}\"] mod b;")?;
        trees.push(tree_of(alloc, text.as_str())?)?;
        paths.insert(format!(in alloc; "{file}")?, KnownPath::File(file))?;
    }
    let lent = lent_of(alloc, &trees)?;
    let known = KnownFiles {
        paths: &paths,
        trees: &lent,
    };
    let found = module_tree(alloc, 0, "0", &known, ModuleChoice::Enabled)?;
    Ok(found.modules.len())
}

#[test]
fn a_ladder_of_paths_has_too_many_modules(rt: HostRuntime) {
    assert_eq!(rt;
        found_on_ladder(rt.alloc()),
        Err(ModuleTreeError::TooManyModules)
    );
}
