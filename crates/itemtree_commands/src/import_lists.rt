//! What `itemtree imports` answers for one file.
ghost use Rattle.std.specs.Prelude.{◌≡◌, ◌≤◌, ◌^◌, length, map, IfOk, IfErr, OnOk, option_copied, string_bytes};
ghost use Rattle.itemtree_commands.specs.Answers as spec;
ghost use Rattle.source_imports.specs.Views.{import_choice_view, repeated_import_view, use_cfgs_view};
ghost use Rattle.source_listing.specs.Views.{source_view};

use crate::Options;
use crate::listed::listed_uses;
use crate::trees::SourceError;
use hir_input::CfgOptions;
use list_forms::Form;
use source_imports::{ImportChoice, RepeatedImport, UseCfgs, repeat_lines};
use source_listing::Source;
use std::alloc::Global;

impl Options {
    /// The cfgs that are set, if what a cfg disables is left out.
    fn active_under(&self) -> Option<&CfgOptions>
        ensures { option_copied result ≡ spec.if_active self.now }
    {
        if self.only_active {
            Some(&self.krate.cfg)
        } else {
            None
        }
    }

    /// Which imports are listed, by the uses that stand under cfgs.
    fn import_choice<'a>(&'a self, uses: &'a [UseCfgs]) -> ImportChoice<'a>
        ensures { let uses = map use_cfgs_view uses.entry.now in
            import_choice_view result ≡ spec.import_choice self.now uses }
    {
        ImportChoice {
            uses,
            active_under: self.active_under(),
        }
    }
}

/// `itemtree imports`: a line or a JSON object for each import, or for those that no cfg disables.
///
/// # Errors
///
/// Those of `source_tree`.
#[tactic(auto, using(crate::proofs::Refusals::no_list))]
pub fn imports(
    alloc: Global,
    source: Source<'_>,
    options: &Options,
    form: Form,
) -> Result<String, SourceError>
    ensures text { IfOk result
        (λ out. spec.AreImports options.now form (source_view source.entry) (string_bytes out)) }
    ensures refused { IfErr result (spec.HasNoList options.now source.entry.text.now) }
{
    let file = listed_uses(alloc, source.text, options)?;
    let edition = &options.edition;
    let choice = options.import_choice(&file.uses);
    let listed = &file.listed.source;
    let text = source_imports::import_lines(
        alloc,
        source,
        &listed.places,
        &listed.use_trees,
        &listed.tree,
        edition,
        form,
        choice,
    )?;
    Ok(text)
}

/// The imports of a text that repeat an earlier one of their module, or of those that no cfg disables.
///
/// # Errors
///
/// Those of `source_tree`.
#[tactic(auto, using(crate::proofs::Refusals::no_list))]
pub fn repeated_imports(
    alloc: Global,
    text: &str,
    options: &Options,
) -> Result<Vec<RepeatedImport>, SourceError>
    ensures repeats { IfOk result
        (λ found. spec.AreRepeats options.now text.now (map repeated_import_view found.items)) }
    ensures short { OnOk result (length text.now ≤ 2 ^ 32) }
    ensures refused { IfErr result (spec.HasNoList options.now text.now) }
{
    let file = listed_uses(alloc, text, options)?;
    let edition = &options.edition;
    let choice = options.import_choice(&file.uses);
    let listed = &file.listed.source;
    let found = source_imports::repeated_imports(
        alloc,
        text,
        &listed.places,
        &listed.use_trees,
        &listed.tree,
        edition,
        choice,
    )?;
    Ok(found)
}

/// `itemtree imports --duplicates`: a line for each import that repeats an earlier one of its module, or for those that
/// no cfg disables; in colours or not.
///
/// # Errors
///
/// Those of `source_tree`.
#[tactic(auto, using(crate::proofs::Refusals::no_list))]
pub fn duplicates(
    alloc: Global,
    source: Source<'_>,
    options: &Options,
    is_colored: bool,
) -> Result<String, SourceError>
    ensures text { IfOk result
        (λ out. spec.AreRepeated options.now is_colored (source_view source.entry) (string_bytes out)) }
    ensures refused { IfErr result (spec.HasNoList options.now source.entry.text.now) }
{
    let repeats = repeated_imports(alloc, source.text, options)?;
    let text = repeat_lines(alloc, source.path, &repeats, is_colored)?;
    Ok(text)
}
