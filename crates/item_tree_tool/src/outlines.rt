//! The texts of shows: outlines, and the lines of what changed.
ghost use Rattle.std.specs.Prelude.{◌≡◌, ◌++◌, IfOk, OnErr, OnOk, string_bytes};
ghost use Rattle.item_tree_db.specs.State.{IsKnown};
ghost use Rattle.item_tree_tool.specs.Outlines.{show_text, IsOutlined};

use hir_input::Edition;
use item_tree_db::Sources;
use item_tree_request::request::show::{Show, ShowKind, TreeShow};
use item_tree_request::show::{push_change, push_changes};
use item_tree_request::show_writer::ShowWriter;
use std::alloc::{AllocError, Global};
use tree_walk::outline_text;

#[tactic(auto, unfolding(crate::specs::Outlines::outline_of))]
fn tree_text(alloc: Global, sources: &Sources, show: TreeShow) -> Result<String, AllocError>
    requires { IsKnown sources.now show.krate }
    ensures { IfOk result (λ text. string_bytes text ≡ show_text sources.now show) }
{
    let tree = sources.tree(show.place, show.krate);
    match show.kind {
        ShowKind::Tree => {
            let changed = sources.changed(show.place, show.krate);
            let mut text = String::new(alloc);
            push_change(alloc, show.place, show.krate, changed, &mut text)?;
            text.push_str(&outline_text(alloc, tree)?)?;
            Ok(text)
        }
        ShowKind::Page | ShowKind::Imports => outline_text(alloc, tree),
    }
}

fn push_tree(
    alloc: Global,
    sources: &Sources,
    show: TreeShow,
    text: &mut String,
) -> Result<(), AllocError>
    requires { IsKnown sources.now show.krate }
    ensures added { OnOk result (string_bytes text.new ≡ string_bytes text.old
        ++ show_text sources.now show) }
    ensures same { OnErr result (string_bytes text.new ≡ string_bytes text.old) }
{
    let outline = tree_text(alloc, sources, show)?;
    text.push_str(&outline)
}

/// The outline of a tree, and the lines of what changed as in `Pages`.
pub(crate) struct Outlines;

impl ShowWriter for Outlines {
    ghost is_text = { IsOutlined };

    fn push_show(
        &self,
        alloc: Global,
        sources: &Sources,
        _edition: &Edition,
        show: Show,
        text: &mut String,
    ) -> Result<(), AllocError> {
        match show {
            Show::OfTree(show) => push_tree(alloc, sources, show, text),
            Show::Changed { since } => push_changes(alloc, sources, since, text),
        }
    }

    fn are_fixed() {}
}
