//! Outlines as lines of text.
ghost use Rattle.std.specs.Prelude.{◌≡◌, ◌++◌, [], All, map, string_bytes, IfOk, OnOk, option_copied, flat_map};
ghost use Rattle.item_tree.specs.Shown.{IsContained};
ghost use Rattle.tree_walk.specs.{Lines.line, Lines.forest_lines, Inner.Outlines.level_indent};
ghost use Rattle.tree_walk.specs.{Inner.Outlines.step_line, Inner.Steps.step_view};

use crate::names::name_at;
use crate::steps::{Step, steps};
use hir_input::{FileAstId, Name};
use item_tree::ItemTree;
use std::alloc::{AllocError, Global};

/// A line for each item of a tree, before those of the items in it: four spaces for each item that it stands in, its
/// id, which begins with the word of its kind, and its name, if it has one.
///
/// # Errors
///
/// Only if memory runs out.
#[tactic(auto, using(crate::proofs::OutlineSteps::tree_lines))]
pub fn outline_text(alloc: Global, tree: &ItemTree) -> Result<String, AllocError>
    ensures { IfOk result (λ text. string_bytes text ≡ forest_lines [] tree.now.forest) }
{
    let steps = steps(alloc, tree)?;
    let mut text = String::new(alloc);
    push_lines(tree, &steps, &mut text)?;
    Ok(text)
}

/// Adds the lines of items.
fn push_lines(tree: &ItemTree, steps: &[Step<'_>], text: &mut String) -> Result<(), AllocError>
    requires { All (λ s. IsContained tree.now s.id) steps.now }
    ensures { OnOk result (string_bytes text.new ≡ string_bytes text.old
        ++ flat_map (step_line tree.now) (map step_view steps.now)) }
{
    for step in steps {
        push_step(tree, step, text)?;
    }
    Ok(())
}

#[tactic(auto, using(crate::proofs::OutlineSteps::id_line))]
fn push_step(tree: &ItemTree, step: &Step<'_>, text: &mut String) -> Result<(), AllocError>
    requires { IsContained tree.now step.now.id }
    ensures { OnOk result (string_bytes text.new ≡ string_bytes text.old
        ++ step_line tree.now (step_view step.now)) }
{
    let id = step.id;
    push_indent(step.around.level, text)?;
    push_line(id.ast_id(tree), name_at(tree, id), text)
}

fn push_indent(level: usize, text: &mut String) -> Result<(), AllocError>
    ensures { OnOk result (string_bytes text.new ≡ string_bytes text.old ++ level_indent level) }
{
    for _level in 0..level {
        text.push_str("    ")?;
    }
    Ok(())
}

#[tactic(auto, unfolding(crate::specs::Lines::line))]
fn push_line(ast_id: FileAstId, name: Option<&Name>, text: &mut String) -> Result<(), AllocError>
    ensures { OnOk result (string_bytes text.new ≡ string_bytes text.old
        ++ line ast_id (option_copied name.entry)) }
{
    match name {
        None => writeln!(text, "{ast_id}"),
        Some(name) => {
            let name = name.text();
            writeln!(text, "{ast_id} {name}")
        }
    }
}
