//! Lists the imports of a use by the public calls of `item_tree` alone.
ghost use Rattle.std.specs.Prelude.{◌≡◌, ◌++◌, [], ◌∷◌, false, map, IfOk};
ghost use Rattle.item_tree.specs.Imports.{imports};
ghost use Rattle.item_tree.specs.Calls.{import};
ghost use Rattle.tree_walk.specs.Listed.{listed_import};

use hir_input::ModPath;
use item_tree::{ImportAlias, ImportKind, Use, UseTreeIdx};
use std::alloc::{AllocError, Global};

/// An import, as `Use::expand` calls for it.
#[derive(Debug, Drop, PartialEq, Eq)]
pub struct Listed {
    pub index: UseTreeIdx,
    pub path: ModPath,
    pub kind: ImportKind,
    pub alias: Option<ImportAlias>,
}

/// The imports of a use, in order.
///
/// # Errors
///
/// Only if memory runs out.
pub fn list_imports(alloc: Global, item: &Use) -> Result<Vec<Listed>, AllocError>
    ensures { IfOk result (λ list. map listed_import list.items ≡ imports item.now.tree) }
{
    let mut list = Vec::new(alloc);
    let mut is_refused = false;
    let mut visit = |index: UseTreeIdx, path: ModPath, kind: ImportKind, alias: Option<ImportAlias>|
        ensures { is_refused.exit ≡ false
            → (is_refused.entry ≡ false)
            × (map listed_import list.exit.items
            ≡ map listed_import list.entry.items ++ import index path kind alias ∷ []) }
    {
        if !is_refused {
            let listed = Listed {
                index,
                path,
                kind,
                alias,
            };
            is_refused = list.push(listed).is_err();
        }
    };
    item.expand(alloc, &mut visit)?;
    if is_refused {
        return Err(AllocError);
    }
    Ok(list)
}
