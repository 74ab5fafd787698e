//! Copies of items that have lists of ids, and of uses.
ghost use Rattle.std.specs.Prelude.{◌≡◌};
ghost use Rattle.item_tree.specs.Items.{block_value, inline_ids, mod_value, struct_value};
ghost use Rattle.item_tree.specs.Shown.{ctor_ids};

use crate::items::{ExternBlock, Mod, ModKind, Struct, StructValueNsCtor, Use};
use std::alloc::AllocError;

impl Clone for ExternBlock {
    ghost is_clone = { λ block copy. block_value copy ≡ block_value block };

    fn clone(&self) -> Result<ExternBlock, AllocError> {
        Ok(ExternBlock {
            children: self.children.clone()?,
        })
    }
}

impl Clone for ModKind {
    ghost is_clone = { λ kind copy. inline_ids copy ≡ inline_ids kind };

    fn clone(&self) -> Result<ModKind, AllocError> {
        match self {
            ModKind::Inline { items } => Ok(ModKind::Inline {
                items: items.clone()?,
            }),
            ModKind::Outline => Ok(ModKind::Outline),
        }
    }
}

impl Clone for Mod {
    ghost is_clone = { λ item copy. mod_value copy ≡ mod_value item };

    fn clone(&self) -> Result<Mod, AllocError> {
        Ok(Mod {
            name: self.name.clone()?,
            visibility: self.visibility,
            kind: self.kind.clone()?,
        })
    }
}

impl Clone for StructValueNsCtor {
    ghost is_clone = { λ ctor copy. ctor_ids copy ≡ ctor_ids ctor };

    fn clone(&self) -> Result<StructValueNsCtor, AllocError> {
        match self {
            StructValueNsCtor::NoValueNsCtor => Ok(StructValueNsCtor::NoValueNsCtor),
            StructValueNsCtor::ValueNsCtorWithVis(id) => {
                Ok(StructValueNsCtor::ValueNsCtorWithVis(*id))
            }
            StructValueNsCtor::ValueNsCtorWithMinVis(ids) => {
                Ok(StructValueNsCtor::ValueNsCtorWithMinVis(ids.clone()?))
            }
        }
    }
}

impl Clone for Struct {
    ghost is_clone = { λ item copy. struct_value copy ≡ struct_value item };

    fn clone(&self) -> Result<Struct, AllocError> {
        Ok(Struct {
            name: self.name.clone()?,
            visibility: self.visibility,
            shape: self.shape,
            value_ns_ctor: self.value_ns_ctor.clone()?,
        })
    }
}

impl Clone for Use {
    ghost is_clone = { λ item copy. copy ≡ item };

    fn clone(&self) -> Result<Use, AllocError> {
        let visibility = self.visibility;
        let tree = self.tree.clone()?;
        Ok(Use { visibility, tree })
    }
}
