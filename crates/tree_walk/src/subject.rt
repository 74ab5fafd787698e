//! What items without names are told by.
ghost use Rattle.std.specs.Prelude.{◌≡◌, None};
ghost use Rattle.item_tree.specs.Shown.{IsContained, lent_kind};
ghost use Rattle.tree_walk.specs.Inner.Rows as spec;
ghost use Rattle.item_tree.specs.Walk.{of_id};
ghost use Rattle.tree_walk.specs.Declarations.{node_visibility};
ghost use Rattle.tree_walk.specs.Views.{IsVisibleAs, subject_view};

use hir_input::ModPath;
use item_tree::{ItemTree, ModItemId, ModItemKind, Use};

/// What an item without a name is told by.
#[derive(Clone, Copy, Debug)]
pub enum Subject<'tree> {
    /// It has a name, or nothing.
    Nothing,
    /// A use, by its tree.
    Use(&'tree Use),
    /// The path of the macro that is called.
    Call(&'tree ModPath),
}

fn subject_of(item: ModItemKind<'_>) -> Subject<'_>
    ensures subject { subject_view result ≡ spec.lent_subject (lent_kind item.entry) }
    ensures visible { spec.HasLentVisibility (lent_kind item.entry) result }
{
    match item {
        ModItemKind::Use(_, item) => Subject::Use(item),
        ModItemKind::MacroCall(_, item) => Subject::Call(&item.path),
        _ => Subject::Nothing,
    }
}

/// What the item of an id is told by if it has no name: a use has its visibility. Takes no memory.
#[tactic(auto, using(crate::proofs::Subjects::lent_subjects))]
pub fn subject_at(tree: &ItemTree, id: ModItemId) -> Subject<'_>
    requires { IsContained tree.now id }
    ensures subject { subject_view result ≡ spec.subject_at tree.now id }
    ensures visible { IsVisibleAs tree.now (of_id tree.now None node_visibility id) result }
{
    subject_of(tree.index(id))
}
