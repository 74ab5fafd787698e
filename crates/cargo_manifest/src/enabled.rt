//! Which features are enabled.
ghost use Rattle.std.specs.Prelude.{◌≡◌, ◌++◌, None, IfErr, IfOk, OnOk, length, map, option_copied, string_bytes};
ghost use Rattle.std.specs.{List.list_any, Option.option_to_list};
ghost use Rattle.cargo_manifest.specs.Dependencies.{is_optional_key};
ghost use Rattle.cargo_manifest.specs.Features as spec;
ghost use Rattle.cargo_manifest.specs.Inner.{IsUnknown, is_enabled_by as is_enabled_by_steps, is_new as is_new_step};
ghost use Rattle.cargo_manifest.specs.Inner.{step_names as names_in_steps};
ghost use Rattle.cargo_manifest.specs.Inner.{step_marked, step_after as step_after_steps};
ghost use Rattle.cargo_manifest.specs.Inner.{feature_node_view, feature_step_view};
ghost use Rattle.cargo_manifest.specs.Views.{asked_features_view, dependency_view, feature_view, manifest_view};
ghost use Rattle.cargo_manifest.specs.declared.enabled.FeatureError.TheVariants.{OutOfMemory};

use crate::dependencies::Dependency;
use crate::features::{Feature, has_feature};
use crate::manifest::Manifest;
use std::alloc::{AllocError, AllocFailed, Global};
use thiserror::Error;

/// Which features are asked for, as options of cargo do.
#[derive(Clone, Copy)]
pub struct FeatureChoice<'a> {
    /// `--all-features`
    pub all: bool,
    /// `--no-default-features`: not the feature `default`.
    pub no_default: bool,
    /// The names of `--features`.
    pub named: &'a [&'a str],
}

/// Why features are not enabled.
#[derive(Debug, Drop, Error)]
pub enum FeatureError {
    /// The first name that is asked for and is that of no feature.
    #[error("no feature {name}")]
    Unknown { name: String },
    /// The allocator refused memory.
    #[error("out of memory")]
    OutOfMemory,
}

impl<T: Drop> From<AllocFailed<T>> for FeatureError {
    ghost from_gives = { λ _ e. e ≡ OutOfMemory };

    fn from(_failed: AllocFailed<T>) -> FeatureError {
        FeatureError::OutOfMemory
    }
}

impl From<AllocError> for FeatureError {
    ghost from_gives = { λ _ e. e ≡ OutOfMemory };

    fn from(_failed: AllocError) -> FeatureError {
        FeatureError::OutOfMemory
    }
}

// A feature, and the names that it enables.
#[derive(Drop)]
pub(crate) struct Node<'a> {
    pub(crate) name: &'a str,
    pub(crate) enables: Vec<&'a str>,
}

// A node, and whether it is enabled so far.
#[derive(Clone, Copy)]
pub(crate) struct Step<'s, 'a> {
    pub(crate) node: &'s Node<'a>,
    pub(crate) is_enabled: bool,
}

fn is_optional(dependencies: &[Dependency], key: &str) -> bool
    ensures { result ≡ is_optional_key (map dependency_view dependencies.now) key.now }
{
    dependencies.iter().any(|dependency| dependency.is_optional && dependency.key.as_str() == key)
}

// The name that an entry enables of the package's own features.
fn entry_feature<'a>(dependencies: &[Dependency], entry: &'a str) -> Option<&'a str>
    ensures { option_copied result ≡ spec.entry_feature (map dependency_view dependencies.now) entry.now }
{
    match entry.split_once('/') {
        Some((key, _)) if is_optional(dependencies, key) => Some(key),
        Some(_) => None,
        None if entry.starts_with("dep:") => None,
        None => Some(entry),
    }
}

fn push_some<'a>(names: &mut Vec<&'a str>, name: Option<&'a str>) -> Result<(), AllocError>
    ensures { OnOk result (map (λ name. name.now) names.new.items
        ≡ map (λ name. name.now) names.old.items ++ option_to_list (option_copied name.entry)) }
{
    let Some(name) = name else {
        return Ok(());
    };
    names.push(name)?;
    Ok(())
}

fn feature_node<'a>(
    alloc: Global,
    dependencies: &[Dependency],
    feature: &'a Feature,
) -> Result<Node<'a>, AllocError>
    ensures { IfOk result (λ n. feature_node_view n
        ≡ spec.feature_node (map dependency_view dependencies.now) (feature_view feature.now)) }
{
    let mut enables = Vec::new(alloc);
    for entry in &feature.entries {
        push_some(&mut enables, entry_feature(dependencies, entry))?;
    }
    let name = feature.name.as_str();
    Ok(Node { name, enables })
}

fn nodes<'a>(
    alloc: Global,
    dependencies: &[Dependency],
    features: &'a [Feature],
) -> Result<Vec<Node<'a>>, AllocError>
    ensures { IfOk result (λ nodes. map feature_node_view nodes.items
        ≡ map (spec.feature_node (map dependency_view dependencies.now)) (map feature_view features.now)) }
{
    let mut nodes = Vec::with_capacity(alloc, features.len())?;
    for feature in features {
        nodes.push(feature_node(alloc, dependencies, feature)?)?;
    }
    Ok(nodes)
}

fn is_among(texts: &[&str], text: &str) -> bool
    ensures { result ≡ spec.is_text_among (map (λ t. t.now) texts.now) text.now }
{
    texts.iter().any(|one| *one == text)
}

fn is_asked(choice: &FeatureChoice<'_>, name: &str) -> bool
    ensures { result ≡ spec.is_asked (asked_features_view choice.now) name.now }
{
    choice.all || is_among(choice.named, name) || (!choice.no_default && name == "default")
}

// Each node, with whether it is asked for.
fn first_steps<'s, 'a>(
    alloc: Global,
    nodes: &'s [Node<'a>],
    choice: &FeatureChoice<'_>,
) -> Result<Vec<Step<'s, 'a>>, AllocError>
    ensures { IfOk result (λ steps. map feature_step_view steps.items
        ≡ map (step_marked (spec.is_asked (asked_features_view choice.now))) (map feature_node_view nodes.now)) }
{
    let mut steps = Vec::with_capacity(alloc, nodes.len())?;
    for node in nodes {
        let is_enabled = is_asked(choice, node.name);
        steps.push(Step { node, is_enabled })?;
    }
    Ok(steps)
}

// Whether one that is enabled enables a name.
fn is_enabled_by(steps: &[Step<'_, '_>], name: &str) -> bool
    ensures { result ≡ is_enabled_by_steps (map feature_step_view steps.now) name.now }
{
    steps.iter().any(|step| step.is_enabled && is_among(&step.node.enables, name))
}

fn step_after<'s, 'a>(steps: &[Step<'s, 'a>], step: &Step<'s, 'a>) -> Step<'s, 'a>
    ensures { feature_step_view result
        ≡ step_after_steps (map feature_step_view steps.now) (feature_step_view step.now) }
{
    let is_enabled = step.is_enabled || is_enabled_by(steps, step.node.name);
    Step {
        node: step.node,
        is_enabled,
    }
}

// Each with those that are enabled one step on.
fn next_steps<'s, 'a>(
    alloc: Global,
    steps: &[Step<'s, 'a>],
) -> Result<Vec<Step<'s, 'a>>, AllocError>
    ensures { IfOk result (λ next. map feature_step_view next.items
        ≡ map (step_after_steps (map feature_step_view steps.now)) (map feature_step_view steps.now)) }
{
    let mut next = Vec::with_capacity(alloc, steps.len())?;
    for step in steps {
        next.push(step_after(steps, step))?;
    }
    Ok(next)
}

fn is_new(steps: &[Step<'_, '_>], step: &Step<'_, '_>) -> bool
    ensures { result ≡ is_new_step (map feature_step_view steps.now) (feature_step_view step.now) }
{
    !step.is_enabled && is_enabled_by(steps, step.node.name)
}

// Whether one is enabled one step on that is not so far.
fn has_new(steps: &[Step<'_, '_>]) -> bool
    ensures { result ≡ list_any (is_new_step (map feature_step_view steps.now)) (map feature_step_view steps.now) }
{
    steps.iter().any(|step| is_new(steps, step))
}

// Each with whether it is enabled in the end.
fn last_steps<'s, 'a>(
    alloc: Global,
    nodes: &'s [Node<'a>],
    choice: &FeatureChoice<'_>,
) -> Result<Vec<Step<'s, 'a>>, AllocError>
    ensures { let all = map feature_node_view nodes.now in IfOk result (λ steps. map feature_step_view steps.items
        ≡ map (step_marked (spec.is_enabled_within all (asked_features_view choice.now) (length all))) all) }
{
    let mut steps = first_steps(alloc, nodes, choice)?;
    for _turn in 0..nodes.len() {
        if !has_new(&steps) {
            return Ok(steps);
        }
        steps = next_steps(alloc, &steps)?;
    }
    Ok(steps)
}

// The names of those that are enabled.
fn step_names<'a>(alloc: Global, steps: &[Step<'_, 'a>]) -> Result<Vec<&'a str>, AllocError>
    ensures { IfOk result (λ names. map (λ name. name.now) names.items
        ≡ names_in_steps (map feature_step_view steps.now)) }
{
    let mut names = Vec::new(alloc);
    for step in steps {
        if step.is_enabled {
            names.push(step.node.name)?;
        }
    }
    Ok(names)
}

#[tactic(auto, using(crate::proofs::Enabling::names_marked))]
fn enabled_names<'a>(
    alloc: Global,
    nodes: &[Node<'a>],
    choice: &FeatureChoice<'_>,
) -> Result<Vec<&'a str>, AllocError>
    ensures { IfOk result (λ names. map (λ name. name.now) names.items
        ≡ map (λ f. f.name) (spec.enabled_nodes (map feature_node_view nodes.now) (asked_features_view choice.now))) }
{
    let steps = last_steps(alloc, nodes, choice)?;
    step_names(alloc, &steps)
}

fn unknown_name<'n>(features: &[Feature], named: &[&'n str]) -> Option<&'n str>
    ensures { option_copied result ≡ spec.unknown_name (map feature_view features.now) (map (λ t. t.now) named.now) }
{
    for name in named {
        if !has_feature(features, name) {
            return Some(name);
        }
    }
    None
}

impl Manifest {
    /// The names of the features that are enabled, in their order: those that are asked for, and those that enabled
    /// ones enable. `x/y` enables the feature `x` if `x` is an optional dependency, and `dep:x` and `x?/y` enable none.
    /// A feature may enable itself, and an entry that names no feature enables none; cargo refuses both.
    ///
    /// As the Cargo Book has it, in "Features".
    ///
    /// # Errors
    ///
    /// `Unknown` with the first name that is asked for and is that of no feature; `OutOfMemory` if memory runs out.
    pub fn enabled_features(
        &self,
        alloc: Global,
        choice: &FeatureChoice<'_>,
    ) -> Result<Vec<&str>, FeatureError>
        ensures enabled { let m = manifest_view self.now in
            IfOk result (λ names. map (λ name. name.now) names.items
            ≡ spec.enabled_features m.features m.dependencies (asked_features_view choice.now)) }
        ensures known { let unknown = spec.unknown_name (manifest_view self.now).features in
            IfOk result (λ _. unknown (asked_features_view choice.now).named ≡ None) }
        ensures refused { let unknown = spec.unknown_name (manifest_view self.now).features in
            IfErr result (λ e. IsUnknown e (unknown (asked_features_view choice.now).named)) }
    {
        if let Some(name) = unknown_name(&self.features, choice.named) {
            let name = String::from_str(alloc, name)?;
            return Err(FeatureError::Unknown { name });
        }
        let nodes = nodes(alloc, &self.dependencies, &self.features)?;
        Ok(enabled_names(alloc, &nodes, choice)?)
    }
}
