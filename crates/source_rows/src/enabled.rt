//! What a cfg disables.
ghost use Rattle.std.specs.Prelude.{◌≡◌, map};
ghost use Rattle.hir_input.specs.Attr.{meta_view, metas_from};
ghost use Rattle.hir_input.specs.Cfg.{cfg_view, truth};
ghost use Rattle.item_tree_attrs.specs.Collected.{is_false};
ghost use Rattle.source_rows.specs.Enabled as spec;

use hir_input::{CfgExpr, CfgOptions, Meta};

fn is_false(cfg: &CfgExpr, options: &CfgOptions) -> bool
    ensures { result ≡ is_false (truth options.now (cfg_view cfg.now)) }
{
    options.check(cfg) == Some(false)
}

/// Whether a meta holds a cfg that disables what it stands at.
#[cycle(disables)]
fn disables(meta: &Meta, options: &CfgOptions) -> bool
    ensures { result ≡ spec.disables options.now (meta_view meta.now) }
{
    match meta {
        Meta::Cfg(cfg) => is_false(cfg, options),
        Meta::CfgAttr { condition, metas } => {
            !is_false(condition, options) && any_disables(metas, options)
        }
        Meta::Unsafe(inner) => disables(inner, options),
        Meta::Path { .. } | Meta::KeyValue { .. } | Meta::TokenTree { .. } => false,
    }
}

#[cycle(disables)]
pub(crate) fn any_disables(metas: &[Meta], options: &CfgOptions) -> bool
    ensures { result ≡ spec.any_disables options.now (metas_from (map meta_view metas.now)) }
{
    for meta in metas {
        if disables(meta, options) {
            return true;
        }
    }
    false
}
