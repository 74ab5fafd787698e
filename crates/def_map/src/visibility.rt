//! Who sees an item.
ghost use Rattle.std.specs.Prelude.{◌≡◌, map, nat_eq, Some, option_copied};
ghost use Rattle.std.specs.{Cmp.Lexicographic.pointwise, Option.option_eq};
ghost use Rattle.item_tree.specs.{Layout.vis_at, Shown.ctor_ids};
ghost use Rattle.def_map.specs.Tables as spec;
ghost use Rattle.def_map.specs.Inner.Walking.{seen_at};
ghost use Rattle.def_map.specs.Views.{sources_view};

use crate::ctx::Ctx;
use crate::kinds::Visibility;
use crate::sight::{module_above, parent_of, smaller_visibility};
use hir_input::{ModPath, Name, PathKind};
use item_tree::{ItemTree, RawVisibility, RawVisibilityId, StructValueNsCtor};
use module_tree::ModuleData;

/// Of a module and those around it the one that stands in `m`.
fn child_toward(parents: &[Option<u32>], m: u32, at: u32) -> Option<u32>
    ensures { result ≡ spec.child_toward parents.now m at at }
{
    let mut child = at;
    for _ in 0..at {
        let parent = parent_of(parents, child)?;
        if parent == m {
            return Some(child);
        }
        child = parent;
    }
    None
}

fn is_named(modules: &[ModuleData], m: u32, name: &Name) -> bool
    ensures { let is_it = option_eq (pointwise nat_eq) in
        result ≡ is_it (spec.module_name modules.now m) (Some name.now) }
{
    let Some(found) = modules.get(m as usize) else {
        return false;
    };
    match &found.name {
        Some(own) => own == name,
        None => false,
    }
}

/// Of those around a module the one to which names lead.
fn around_by_names(ctx: &Ctx<'_, '_>, at: u32, names: &[Name], start: u32) -> Option<u32>
    ensures { result ≡ spec.around_by_names ctx.now.parents.now (sources_view ctx.now.sources) at names.now start }
{
    let mut m = start;
    for name in names {
        let child = child_toward(ctx.parents, m, at)?;
        if !is_named(ctx.sources.modules, child, name) {
            return None;
        }
        m = child;
    }
    Some(m)
}

fn around_start(ctx: &Ctx<'_, '_>, kind: PathKind, at: u32) -> Option<u32>
    ensures { result ≡ spec.around_start ctx.now.parents.now (sources_view ctx.now.sources) kind at }
{
    match kind {
        PathKind::Crate => Some(0),
        PathKind::Super(count) => module_above(ctx.parents, count, at),
        PathKind::DollarCrate(_) => None,
        PathKind::Plain | PathKind::Abs => {
            if ctx.sources.manifest.is_2015 {
                Some(0)
            } else {
                None
            }
        }
    }
}

fn module_around(ctx: &Ctx<'_, '_>, at: u32, path: &ModPath) -> Option<u32>
    ensures { result ≡ spec.named_module_around ctx.now.parents.now (sources_view ctx.now.sources) at path.now }
{
    let start = around_start(ctx, path.kind(), at)?;
    around_by_names(ctx, at, path.segments(), start)
}

/// Who sees what has this visibility in a module.
fn visibility_in(ctx: &Ctx<'_, '_>, at: u32, visibility: &RawVisibility) -> Visibility
    ensures { result ≡ spec.visibility_in ctx.now.parents.now (sources_view ctx.now.sources) at visibility.now }
{
    match visibility {
        RawVisibility::Public => Visibility::Public,
        RawVisibility::PubCrate => Visibility::Module(0),
        RawVisibility::PubSelf(_) => Visibility::Module(at),
        RawVisibility::Module(path, _) => match module_around(ctx, at, path) {
            Some(m) => Visibility::Module(m),
            None => Visibility::Public,
        },
    }
}

/// Lends the visibility of an id, if it is one of the tree.
fn raw_at(tree: &ItemTree, id: RawVisibilityId) -> Option<&RawVisibility>
    ensures { option_copied result ≡ vis_at tree.now.forest id }
{
    if !tree.has_visibility(id) {
        return None;
    }
    Some(&tree[id])
}

/// Who sees what has the visibility of this id in a module.
pub(crate) fn seen_by(
    ctx: &Ctx<'_, '_>,
    tree: &ItemTree,
    at: u32,
    id: RawVisibilityId,
) -> Visibility
    ensures { result ≡ seen_at ctx.now tree.now at id }
{
    match raw_at(tree, id) {
        Some(visibility) => visibility_in(ctx, at, visibility),
        None => Visibility::Public,
    }
}

/// Who sees what needs all of these.
fn least_visibility(
    ctx: &Ctx<'_, '_>,
    tree: &ItemTree,
    at: u32,
    ids: &[RawVisibilityId],
) -> Visibility
    ensures { result ≡ spec.least_visibility ctx.now.parents.now (map (seen_at ctx.now tree.now at) ids.now) }
{
    let mut all = Visibility::Public;
    for id in ids {
        all = smaller_visibility(ctx.parents, all, seen_by(ctx, tree, at, *id));
    }
    all
}

/// Who sees the constructor of a struct.
pub(crate) fn ctor_visibility(
    ctx: &Ctx<'_, '_>,
    tree: &ItemTree,
    at: u32,
    ctor: &StructValueNsCtor,
) -> Option<Visibility>
    ensures { result ≡ spec.ctor_visibility ctx.now.parents.now (seen_at ctx.now tree.now at) (ctor_ids ctor.now) }
{
    match ctor {
        StructValueNsCtor::NoValueNsCtor => None,
        StructValueNsCtor::ValueNsCtorWithVis(id) => Some(seen_by(ctx, tree, at, *id)),
        StructValueNsCtor::ValueNsCtorWithMinVis(ids) => {
            let all = least_visibility(ctx, tree, at, ids);
            Some(all)
        }
    }
}
