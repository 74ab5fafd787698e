//! The cfgs under which uses stand, and which imports are listed by these.
ghost use Rattle.std.specs.Prelude.{◌≡◌, ◌++◌, ◌∷◌, [], map, flat_map, IfOk, OnOk, option_copied};
ghost use Rattle.hir_input.specs.Attr.{meta_view, metas_from};
ghost use Rattle.hir_input.specs.Cfg.{cfg_view, truth};
ghost use Rattle.item_tree_attrs.specs.Collected.{is_false};
ghost use Rattle.source_rows.specs.Places.{is_id};
ghost use Rattle.hir_input.specs.Syntax.{item_view, items_view, module_view, node_from, syntax_view};
ghost use Rattle.source_imports.specs.ImportCfgs as spec;
ghost use Rattle.source_imports.specs.Views.{import_choice_view, use_cfgs_view};
ghost use Rattle.source_listing.specs.MetaCfgs.{meta_cfgs};

use hir_input::ast::{Item, Module, Syntax, Use};
use hir_input::{AstIdKind, CfgExpr, CfgOptions, FileAstId};
use source_listing::meta_cfgs::{cfgs_inside, holds_no_false};
use std::alloc::{AllocError, Global};

/// A use, and the cfgs under which it stands, of which there are some.
#[derive(Debug, Drop)]
pub struct UseCfgs {
    pub id: FileAstId,
    /// Those of the file and of the modules around it come first, from the outermost on.
    pub cfgs: Vec<CfgExpr>,
}

/// Adds a use, if it stands under cfgs.
fn push_use(
    alloc: Global,
    around: &[CfgExpr],
    item: &Use,
    out: &mut Vec<UseCfgs>,
) -> Result<(), AllocError>
    ensures { let i = item.now in
        let node = node_from i.hash i.number i.attrs.items i.body in
        let more = spec.use_under node (map cfg_view around.now ++ flat_map meta_cfgs node.attrs) in
        OnOk result (map use_cfgs_view out.new.items ≡ map use_cfgs_view out.old.items ++ more) }
{
    let cfgs = cfgs_inside(alloc, around, &item.attrs)?;
    if cfgs.is_empty() {
        return Ok(());
    }
    let id = FileAstId {
        kind: AstIdKind::Use,
        hash: item.hash,
        number: item.number,
    };
    out.push(UseCfgs { id, cfgs })?;
    Ok(())
}

/// Adds the uses of a module that stand under cfgs.
#[cycle(items)]
#[tactic(auto, using(crate::proofs::ImportCfgLists::modules))]
fn push_of_module(
    alloc: Global,
    item: &Module,
    around: &[CfgExpr],
    out: &mut Vec<UseCfgs>,
) -> Result<(), AllocError>
    ensures { let more = spec.item_cfgs (map cfg_view around.now) (module_view item.now) in
        OnOk result (map use_cfgs_view out.new.items ≡ map use_cfgs_view out.old.items ++ more) }
{
    match &item.items {
        None => Ok(()),
        Some(items) => {
            let cfgs = cfgs_inside(alloc, around, &item.attrs)?;
            push_of_items(alloc, items, &cfgs, out)
        }
    }
}

/// Adds the uses of an item that stand under cfgs.
#[cycle(items)]
#[tactic(auto, using(hir_input::proofs::SyntaxViews::item_views))]
fn push_of_item(
    alloc: Global,
    item: &Item,
    around: &[CfgExpr],
    out: &mut Vec<UseCfgs>,
) -> Result<(), AllocError>
    ensures { let more = spec.item_cfgs (map cfg_view around.now) (item_view item.now) in
        OnOk result (map use_cfgs_view out.new.items ≡ map use_cfgs_view out.old.items ++ more) }
{
    match item {
        Item::Module(item) => push_of_module(alloc, item, around, out),
        Item::Use(item) => push_use(alloc, around, item, out),
        _ => Ok(()),
    }
}

/// Adds the uses of items that stand under cfgs.
#[cycle(items)]
fn push_of_items(
    alloc: Global,
    items: &[Item],
    around: &[CfgExpr],
    out: &mut Vec<UseCfgs>,
) -> Result<(), AllocError>
    ensures { let more = spec.items_cfgs (map cfg_view around.now) (items_view items.now) in
        OnOk result (map use_cfgs_view out.new.items ≡ map use_cfgs_view out.old.items ++ more) }
{
    for item in items {
        push_of_item(alloc, item, around, out)?;
    }
    Ok(())
}

/// The uses of a file that stand under cfgs, in the order of the text.
///
/// # Errors
///
/// Only if memory runs out.
pub fn file_cfgs(alloc: Global, syntax: &Syntax) -> Result<Vec<UseCfgs>, AllocError>
    ensures { IfOk result (λ v. map use_cfgs_view v.items ≡ spec.file_cfgs (syntax_view syntax.now)) }
{
    let mut uses = Vec::new(alloc);
    match syntax {
        Syntax::SourceFile { attrs, items } => {
            let cfgs = cfgs_inside(alloc, &[], attrs)?;
            push_of_items(alloc, items, &cfgs, &mut uses)?;
            Ok(uses)
        }
        _ => Ok(uses),
    }
}

// ---- which imports are listed

/// Which imports of a file are listed.
#[derive(Clone, Copy)]
pub struct ImportChoice<'a> {
    /// The uses that stand under cfgs.
    pub uses: &'a [UseCfgs],
    /// The cfgs that are set, if what a cfg disables is left out.
    pub active_under: Option<&'a CfgOptions>,
}

#[tactic(auto, using(source_rows::proofs::ItemPlaces::same_id))]
fn is_of(id: FileAstId, item: &UseCfgs) -> bool
    ensures { result ≡ is_id id item.now.id }
{
    id == item.id
}

/// The cfgs of the use of an id, of these.
fn cfgs_in(uses: &[UseCfgs], id: FileAstId) -> &[CfgExpr]
    ensures { map cfg_view result.now ≡ spec.cfgs_in (map use_cfgs_view uses.now) id }
{
    for item in uses {
        if is_of(id, item) {
            return &item.cfgs;
        }
    }
    &[]
}

impl<'a> ImportChoice<'a> {
    /// The cfgs of the use of an id.
    pub(crate) fn cfgs(self, id: FileAstId) -> &'a [CfgExpr]
        ensures { map cfg_view result.now ≡ spec.cfgs_at (import_choice_view self.entry) id }
    {
        cfgs_in(self.uses, id)
    }

    /// Whether an import under these cfgs is listed.
    pub(crate) fn lists(self, cfgs: &[CfgExpr]) -> bool
        ensures { result ≡ spec.is_import_listed (option_copied self.entry.active_under) (map cfg_view cfgs.now) }
    {
        match self.active_under {
            None => true,
            Some(options) => holds_no_false(options, cfgs),
        }
    }
}
