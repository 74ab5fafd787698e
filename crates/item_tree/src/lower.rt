//! Lowering of a syntax to its item tree.
ghost use Rattle.std.specs.Prelude.{◌≡◌, ◌≤◌, IfOk, IfErr, OnOk, [], ◌∷◌, false, length, option_copied};
ghost use Rattle.hir_input.specs.Syntax.{impl_item, impl_view, use_item, use_view, macro_items, module_view, item_view};
ghost use Rattle.hir_input.specs.Syntax.{items_view, syntax_view, block_view};
ghost use Rattle.item_tree_attrs.specs.Collected.{attr_limit, collection_of};
ghost use Rattle.item_tree.specs.Layout.{head_of_key};
ghost use Rattle.item_tree.specs.Lowered.{kept_in, kept_without_bodies, FitsIn, IsTooLargeIn};
ghost use Rattle.item_tree.specs.Sees.{CtorsAreSeen};
ghost use Rattle.item_tree.specs.KeptUse.{use_tree_limit};
ghost use Rattle.item_tree.specs.Size.{Fits, IsTooLarge, IsPassed, only_attributes, items_written};
ghost use Rattle.item_tree.specs.Stored.{key_in, item_row};
ghost use Rattle.item_tree.specs.Inner.Growth.{IsWithinLimits, IsLowered, AreLowered, Meets, Pushes, sizes_meeting};
ghost use Rattle.item_tree.specs.Inner.Growth.{sizes_pushing, attrs_in, top_attrs_in, tree_in, items_below};
ghost use Rattle.item_tree.specs.Inner.Statements.{body_items};
ghost use Rattle.item_tree.specs.Visibility.{read_visibility};

/// Ends the lowering of a node, whatever its type: its item goes into a new row.
macro_rules! push_item {
    ($ctx:expr, $rows:expr, $node:expr, $item:expr) => {
        Ok(Some($crate::lower::push_row(
            $ctx,
            $rows,
            $crate::rows::AstKey {
                hash: $node.hash,
                number: $node.number,
            },
            &$node.attrs,
            $item,
        )?))
    };
}

pub(crate) use push_item;

mod constructor;
mod each;
mod extern_block;
mod macros;
mod named;
mod stmts;
mod use_tree;

use crate::crate_data::CrateData;
use crate::fault::LowerError;
use crate::items::{Impl, Mod, ModItem, ModItemId, ModKind, Use};
use crate::lower::constructor::lower_struct;
use crate::lower::extern_block::lower_extern_block;
use crate::lower::macros::{lower_macro_call, lower_macro_rules};
use crate::lower::named::{lower_const, lower_extern_crate, lower_named};
use crate::lower::stmts::lower_stmts;
use crate::rows::{AstKey, Rows, push_attrs};
use crate::tree::ItemTree;
use crate::visibility::{RawVisibilityId, visibility_from_ast};
use hir_input::ast::PlainKind;
use hir_input::{Meta, Name, ast};
use item_tree_attrs::AttrsOrCfg;
use std::alloc::Global;
pub use use_tree::lower_use_tree;

/// The id of what is kept of an item, if it is kept.
type LoweredItem = Result<Option<ModItemId>, LowerError>;

/// The ids of what is kept of several items.
type LoweredItems = Result<Vec<ModItemId>, LowerError>;

// The most rows.
const ROW_LIMIT: usize = 2_147_483_647;

/// What lowering has at hand everywhere: the allocator, the crate, and the skipped names.
#[derive(Clone, Copy)]
struct Ctx<'a> {
    alloc: Global,
    krate: &'a CrateData,
    skipped: &'a [Name],
}

/// What a tree is lowered from.
#[derive(Clone, Copy)]
enum Body<'a> {
    Items(&'a [ast::Item]),
    Stmts(&'a [ast::Stmt], &'a ast::Tail),
}

/// The tree of a syntax in a crate: exactly its kept items, with the attributes that their metas collect under the
/// crate's options, without those of the skipped names. `is_root` says whether the syntax is that of the crate's
/// root file, whose top attributes come after the crate's own. A macro's result has no top attributes.
///
/// Stands for rust-analyzer's `file_item_tree_query`.
///
/// # Errors
///
/// `TooManyItems`, `TooManyVisibilities`, `TooManyUseTrees`, `TooManyAttributes` and `TooManySupers` only where that
/// size is passed, and `OutOfMemory`.
#[tactic(auto, using(crate::proofs::BodyTexts::kept_without_bodies, crate::proofs::ConstructorVisibility::ctors_are_seen))]
pub fn lower_syntax(
    alloc: Global,
    syntax: &ast::Syntax,
    is_root: bool,
    krate: &CrateData,
    skipped: &[Name],
) -> Result<ItemTree, LowerError>
    ensures kept { IfOk result
        (λ tree. tree ≡ kept_in krate.now is_root skipped.now (syntax_view syntax.now)) }
    ensures bodies { IfOk result
        (λ tree. tree ≡ kept_without_bodies krate.now is_root skipped.now (syntax_view syntax.now)) }
    ensures constructors { OnOk result (CtorsAreSeen (syntax_view syntax.now)) }
    ensures fits { OnOk result (FitsIn krate.now is_root skipped.now (syntax_view syntax.now)) }
    ensures too_large { IfErr result
        (IsTooLargeIn krate.now is_root skipped.now (syntax_view syntax.now)) }
{
    let ctx = Ctx {
        alloc,
        krate,
        skipped,
    };
    lower_whole(ctx, syntax, is_root)
}

// The tree of a syntax.
fn lower_whole(ctx: Ctx, syntax: &ast::Syntax, is_root: bool) -> Result<ItemTree, LowerError>
    ensures kept { IfOk result
        (λ tree. tree ≡ kept_in ctx.entry.krate.now is_root ctx.entry.skipped.now
        (syntax_view syntax.now)) }
    ensures fits { OnOk result
        (FitsIn ctx.entry.krate.now is_root ctx.entry.skipped.now (syntax_view syntax.now)) }
    ensures too_large { IfErr result
        (IsTooLargeIn ctx.entry.krate.now is_root ctx.entry.skipped.now (syntax_view syntax.now)) }
{
    match syntax {
        ast::Syntax::SourceFile { attrs, items } => {
            let top_attrs = lower_top_attrs(ctx, attrs, is_root)?;
            lower_body(ctx, top_attrs, Body::Items(items))
        }
        ast::Syntax::MacroItems { items } => {
            lower_body(ctx, AttrsOrCfg::empty(ctx.alloc), Body::Items(items))
        }
        ast::Syntax::MacroStmts { stmts, tail } => {
            lower_body(ctx, AttrsOrCfg::empty(ctx.alloc), Body::Stmts(stmts, tail))
        }
        ast::Syntax::Error => Ok(ItemTree::empty(ctx.alloc)),
    }
}

/// The tree of a block in a crate: its item statements, and its macro calls in the place of statements, in order, and
/// a macro call in the tail last. The top attributes are the block's own.
///
/// Stands for rust-analyzer's `block_item_tree_query`.
///
/// # Errors
///
/// As `lower_syntax`.
#[tactic(auto, using(crate::proofs::BodyTexts::kept_without_bodies, crate::proofs::ConstructorVisibility::ctors_are_seen))]
pub fn lower_block(
    alloc: Global,
    block: &ast::BlockExpr,
    krate: &CrateData,
    skipped: &[Name],
) -> Result<ItemTree, LowerError>
    ensures kept { IfOk result
        (λ tree. tree ≡ kept_in krate.now false skipped.now (block_view block.now)) }
    ensures bodies { IfOk result
        (λ tree. tree ≡ kept_without_bodies krate.now false skipped.now (block_view block.now)) }
    ensures constructors { OnOk result (CtorsAreSeen (block_view block.now)) }
    ensures fits { OnOk result (FitsIn krate.now false skipped.now (block_view block.now)) }
    ensures too_large { IfErr result
        (IsTooLargeIn krate.now false skipped.now (block_view block.now)) }
{
    let ctx = Ctx {
        alloc,
        krate,
        skipped,
    };
    let top_attrs = lower_attrs(ctx, &block.attrs)?;
    lower_body(ctx, top_attrs, Body::Stmts(&block.stmts, &block.tail))
}

// What metas collect.
fn lower_attrs(ctx: Ctx, attrs: &[Meta]) -> Result<AttrsOrCfg, LowerError>
    ensures value { IfOk result (λ lowered. collection_of lowered ≡ attrs_in ctx.entry attrs.now) }
    ensures fits { OnOk result (length (attrs_in ctx.entry attrs.now).attrs ≤ attr_limit) }
    ensures fault { IfErr result
        (IsPassed (only_attributes (length (attrs_in ctx.entry attrs.now).attrs))) }
{
    Ok(AttrsOrCfg::lower(ctx.alloc, attrs, &ctx.krate.cfg, ctx.skipped)?)
}

// The top attributes of a source file. Where a cfg of the crate is false, those of the root file are not collected.
fn lower_top_attrs(ctx: Ctx, attrs: &[Meta], is_root: bool) -> Result<AttrsOrCfg, LowerError>
    ensures value { IfOk result (λ top. collection_of top ≡ top_attrs_in ctx.entry is_root attrs.now) }
    ensures fits { OnOk result
        (length (top_attrs_in ctx.entry is_root attrs.now).attrs ≤ attr_limit) }
    ensures fault { IfErr result
        (IsPassed (only_attributes (length (top_attrs_in ctx.entry is_root attrs.now).attrs))) }
{
    if !is_root {
        return lower_attrs(ctx, attrs);
    }
    let of_crate = lower_attrs(ctx, &ctx.krate.attrs)?;
    match of_crate {
        AttrsOrCfg::Enabled { attrs: before } => {
            let own = lower_attrs(ctx, attrs)?;
            let before = AttrsOrCfg::Enabled { attrs: before };
            Ok(before.merge(own)?)
        }
        AttrsOrCfg::CfgDisabled(both) => Ok(AttrsOrCfg::CfgDisabled(both)),
    }
}

// The id of a new row at the end, with the attributes that metas collect.
fn push_row(
    ctx: Ctx,
    rows: &mut Rows,
    key: AstKey,
    attrs: &[Meta],
    item: ModItem,
) -> Result<ModItemId, LowerError>
    requires { IsWithinLimits rows.old }
    ensures fits { OnOk result (length (attrs_in ctx.entry attrs.now).attrs ≤ attr_limit) }
    ensures pushed { IfOk result
        (Pushes rows.old rows.new
        (head_of_key (key_in key) (attrs_in ctx.entry attrs.now), item_row item)) }
    ensures fault { IfErr result
        (IsPassed (sizes_pushing rows.old (attrs_in ctx.entry attrs.now))) }
{
    let row = rows.items.len();
    let kind = item.kind();
    // The item goes in first, so that no way out below has it to drop.
    rows.items.push(item)?;
    if row >= ROW_LIMIT {
        return Err(LowerError::TooManyItems);
    }
    let place = push_attrs(&mut rows.column, lower_attrs(ctx, attrs)?)?;
    rows.tags.push(kind)?;
    rows.keys.push(key)?;
    rows.places.push(place)?;
    Ok(ModItemId::from_row(row as u32, kind))
}

// The tree of a body under these top attributes.
fn lower_body(ctx: Ctx, top_attrs: AttrsOrCfg, body: Body) -> Result<ItemTree, LowerError>
    requires { length (collection_of top_attrs).attrs ≤ attr_limit }
    ensures kept { IfOk result
        (λ tree. tree ≡ tree_in ctx.entry (collection_of top_attrs) (body_items body.entry)) }
    ensures fits { OnOk result
        (Fits (tree_in ctx.entry (collection_of top_attrs) (body_items body.entry))) }
    ensures use_trees { OnOk result (items_written (body_items body.entry) ≤ use_tree_limit) }
    ensures too_large { IfErr result (IsTooLarge (macro_items (body_items body.entry))
        (tree_in ctx.entry (collection_of top_attrs) (body_items body.entry))) }
{
    let mut rows = Rows::new(ctx.alloc);
    let top_level = lower_top_level(ctx, &mut rows, body)?;
    let top_place = push_attrs(&mut rows.column, top_attrs)?;
    Ok(ItemTree::from_rows(top_level, top_place, rows))
}

fn lower_top_level(ctx: Ctx, rows: &mut Rows, body: Body) -> LoweredItems
    requires { IsWithinLimits rows.old }
    ensures { AreLowered ctx.entry rows.old rows.new (body_items body.entry) result }
{
    match body {
        Body::Items(items) => lower_items(ctx, rows, items),
        Body::Stmts(stmts, tail) => lower_stmts(ctx, rows, stmts, tail),
    }
}

#[cycle(lower)]
fn lower_items(ctx: Ctx, rows: &mut Rows, items: &[ast::Item]) -> LoweredItems
    requires { IsWithinLimits rows.old }
    ensures { AreLowered ctx.entry rows.old rows.new (items_view items.now) result }
{
    let mut ids = Vec::with_capacity(ctx.alloc, items.len())?;
    for item in items {
        if let Some(id) = lower_item(ctx, rows, item)? {
            ids.push(id)?;
        }
    }
    Ok(ids)
}

#[cycle(lower)]
#[tactic(auto, using(hir_input::proofs::SyntaxViews::item_views))]
fn lower_item(ctx: Ctx, rows: &mut Rows, item: &ast::Item) -> LoweredItem
    requires { IsWithinLimits rows.old }
    ensures { IsLowered ctx.entry rows.old rows.new (item_view item.now) result }
{
    match item {
        ast::Item::AsmExpr(_) => Ok(None),
        ast::Item::Const(node) => lower_const(ctx, rows, node),
        ast::Item::Enum(node) => lower_named(ctx, rows, PlainKind::Enum, node),
        ast::Item::ExternBlock(node) => lower_extern_block(ctx, rows, node),
        ast::Item::ExternCrate(node) => lower_extern_crate(ctx, rows, node),
        ast::Item::Fn(node) => lower_named(ctx, rows, PlainKind::Fn, node),
        ast::Item::Impl(node) => lower_impl(ctx, rows, node),
        ast::Item::MacroCall(node) => lower_macro_call(ctx, rows, node),
        ast::Item::MacroDef(node) => lower_named(ctx, rows, PlainKind::MacroDef, node),
        ast::Item::MacroRules(node) => lower_macro_rules(ctx, rows, node),
        ast::Item::Module(node) => lower_module(ctx, rows, node),
        ast::Item::Static(node) => lower_named(ctx, rows, PlainKind::Static, node),
        ast::Item::Struct(node) => lower_struct(ctx, rows, node),
        ast::Item::Trait(node) => lower_named(ctx, rows, PlainKind::Trait, node),
        ast::Item::TypeAlias(node) => lower_named(ctx, rows, PlainKind::TypeAlias, node),
        ast::Item::Union(node) => lower_named(ctx, rows, PlainKind::Union, node),
        ast::Item::Use(node) => lower_use(ctx, rows, node),
    }
}

#[cycle(lower)]
fn lower_module(ctx: Ctx, rows: &mut Rows, mod_node: &ast::Module) -> LoweredItem
    requires { IsWithinLimits rows.old }
    ensures { IsLowered ctx.entry rows.old rows.new (module_view mod_node.now) result }
{
    let Some(name) = &mod_node.name else {
        return Ok(None);
    };
    let visibility = lower_visibility(ctx.alloc, rows, mod_node.visibility.as_ref())?;
    if mod_node.semicolon {
        let name = name.clone()?;
        let item = ModItem::Mod(Mod {
            name,
            visibility,
            kind: ModKind::Outline,
        });
        return push_item!(ctx, rows, mod_node, item);
    }
    let items = lower_module_items(ctx, rows, mod_node)?;
    let name = name.clone()?;
    let item = ModItem::Mod(Mod {
        name,
        visibility,
        kind: ModKind::Inline { items },
    });
    push_item!(ctx, rows, mod_node, item)
}

#[cycle(lower)]
fn lower_module_items(ctx: Ctx, rows: &mut Rows, mod_node: &ast::Module) -> LoweredItems
    requires { IsWithinLimits rows.old }
    ensures { AreLowered ctx.entry rows.old rows.new
        (items_below (module_view mod_node.now)) result }
{
    match &mod_node.items {
        Some(items) => lower_items(ctx, rows, items),
        None => Ok(Vec::new(ctx.alloc)),
    }
}

fn lower_impl(ctx: Ctx, rows: &mut Rows, impl_node: &ast::Impl) -> LoweredItem
    requires { IsWithinLimits rows.old }
    ensures { IsLowered ctx.entry rows.old rows.new
        (impl_item (impl_view impl_node.now) impl_node.now.is_trait_impl) result }
{
    let item = ModItem::Impl(Impl {
        is_trait_impl: impl_node.is_trait_impl,
    });
    push_item!(ctx, rows, impl_node, item)
}

// A use is dropped before its visibility is met.
fn lower_use(ctx: Ctx, rows: &mut Rows, use_node: &ast::Use) -> LoweredItem
    requires { IsWithinLimits rows.old }
    ensures { IsLowered ctx.entry rows.old rows.new (use_item (use_view use_node.now)) result }
{
    let Some(tree) = &use_node.use_tree else {
        return Ok(None);
    };
    let Some((tree, _)) = lower_use_tree(ctx.alloc, tree)? else {
        return Ok(None);
    };
    let visibility = lower_visibility(ctx.alloc, rows, use_node.visibility.as_ref())?;
    let item = ModItem::Use(Use::new(visibility, tree));
    push_item!(ctx, rows, use_node, item)
}

// The id of a written visibility.
fn lower_visibility(
    alloc: Global,
    rows: &mut Rows,
    visibility: Option<&ast::Visibility>,
) -> Result<RawVisibilityId, LowerError>
    requires { IsWithinLimits rows.old }
    ensures met { IfOk result
        (Meets rows.old rows.new (read_visibility (option_copied visibility.entry))) }
    ensures fault { IfErr result
        (IsPassed (sizes_meeting rows.old (read_visibility (option_copied visibility.entry) ∷ []))) }
{
    let visibility = visibility_from_ast(alloc, visibility)?;
    rows.alloc_visibility(alloc, visibility)
}
