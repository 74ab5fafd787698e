//! Whether two cfgs are never true together.
ghost use Rattle.std.specs.Prelude.{◌≡◌, true, map};
ghost use Rattle.std.specs.List.{list_any};
ghost use Rattle.hir_input.specs.Cfg.{atom_view, cfg_view};
ghost use Rattle.hir_input.specs.Name.{is_among};
ghost use Rattle.source_imports.specs.ImportExclusion as spec;

use hir_input::{CfgAtom, CfgExpr};

/// The keys of which rustc sets one value each.
const SINGLE_KEYS: [&str; 6] = [
    "target_arch",
    "target_endian",
    "target_env",
    "target_os",
    "target_pointer_width",
    "target_vendor",
];

fn is_single_key(key: &str) -> bool
    ensures { result ≡ is_among spec.single_keys key.now }
{
    SINGLE_KEYS.contains(&key)
}

fn are_rivals(atom: &CfgAtom, other: &CfgAtom) -> bool
    ensures { result ≡ spec.are_rivals (atom_view atom.now) (atom_view other.now) }
{
    match (atom, other) {
        (
            CfgAtom::KeyValue { key, value },
            CfgAtom::KeyValue {
                key: other_key,
                value: other_value,
            },
        ) => {
            let is_one_key = is_single_key(key.text()) && key.text() == other_key.text();
            is_one_key && value.as_str() != other_value.as_str()
        }
        _ => false,
    }
}

/// Whether an atom cannot have one truth where another has a second one.
fn atoms_exclude(is_true: bool, atom: &CfgAtom, is_other_true: bool, other: &CfgAtom) -> bool
    ensures { result ≡ spec.atoms_exclude is_true (atom_view atom.now) is_other_true (atom_view other.now) }
{
    match (is_true, is_other_true) {
        (true, true) => are_rivals(atom, other),
        (true, false) | (false, true) => *atom == *other,
        (false, false) => false,
    }
}

/// Whether an atom cannot have one truth where a condition has a second one.
#[cycle(atom)]
#[tactic(auto, using(crate::proofs::ImportExclusions::exclusions), unfolding(crate::specs::ImportExclusion::atom_excludes, crate::specs::ImportExclusion::atom_exclusions),)]
fn atom_excludes(is_true: bool, atom: &CfgAtom, is_other_true: bool, other: &CfgExpr) -> bool
    ensures { result ≡ spec.atom_excludes is_true (atom_view atom.now) is_other_true (cfg_view other.now) }
{
    match other {
        CfgExpr::Invalid => false,
        CfgExpr::Atom(other) => atoms_exclude(is_true, atom, is_other_true, other),
        CfgExpr::All(members) => {
            atom_excludes_members(is_true, atom, is_other_true, members, is_other_true)
        }
        CfgExpr::Any(members) => {
            atom_excludes_members(is_true, atom, is_other_true, members, !is_other_true)
        }
        CfgExpr::Not(inner) => atom_excludes(is_true, atom, !is_other_true, inner),
    }
}

/// The same of one member, or of each.
#[cycle(atom)]
fn atom_excludes_members(
    is_true: bool,
    atom: &CfgAtom,
    is_other_true: bool,
    members: &[CfgExpr],
    is_some: bool,
) -> bool
    ensures { let excludes = spec.atom_excludes is_true (atom_view atom.now) is_other_true in
        let exclusions = map (λ c. excludes (cfg_view c)) members.now in
        result ≡ spec.some_or_each is_some exclusions }
{
    for member in members {
        if atom_excludes(is_true, atom, is_other_true, member) == is_some {
            return is_some;
        }
    }
    !is_some
}

/// Whether a condition cannot have one truth where another has a second one.
#[cycle(condition)]
#[tactic(auto, using(crate::proofs::ImportExclusions::exclusions), unfolding(crate::specs::ImportExclusion::cfg_excludes, crate::specs::ImportExclusion::cfg_exclusions),)]
fn cfg_excludes(is_true: bool, cfg: &CfgExpr, is_other_true: bool, other: &CfgExpr) -> bool
    ensures { result ≡ spec.cfg_excludes is_true (cfg_view cfg.now) is_other_true (cfg_view other.now) }
{
    match cfg {
        CfgExpr::Invalid => false,
        CfgExpr::Atom(atom) => atom_excludes(is_true, atom, is_other_true, other),
        CfgExpr::All(members) => members_exclude(is_true, members, is_other_true, other, is_true),
        CfgExpr::Any(members) => members_exclude(is_true, members, is_other_true, other, !is_true),
        CfgExpr::Not(inner) => cfg_excludes(!is_true, inner, is_other_true, other),
    }
}

/// The same of one member, or of each.
#[cycle(condition)]
fn members_exclude(
    is_true: bool,
    members: &[CfgExpr],
    is_other_true: bool,
    other: &CfgExpr,
    is_some: bool,
) -> bool
    ensures { let other = cfg_view other.now in
        let exclusions = map (λ c. spec.cfg_excludes is_true (cfg_view c) is_other_true other) members.now in
        result ≡ spec.some_or_each is_some exclusions }
{
    for member in members {
        if cfg_excludes(is_true, member, is_other_true, other) == is_some {
            return is_some;
        }
    }
    !is_some
}

/// Whether the members of one of two conditions tell that the two are never true together.
fn exclude_by_members(cfg: &CfgExpr, other: &CfgExpr) -> bool
    ensures { result ≡ spec.exclude (cfg_view cfg.now) (cfg_view other.now) }
{
    cfg_excludes(true, cfg, true, other) || cfg_excludes(true, other, true, cfg)
}

/// The same. If they do, the two are not, whatever is set, if each of those keys has one value at most.
fn exclude(cfg: &CfgExpr, other: &CfgExpr) -> bool
    ensures answer { result ≡ spec.exclude (cfg_view cfg.now) (cfg_view other.now) }
    ensures law { result ≡ true → spec.AreNeverTrue (cfg_view cfg.now) (cfg_view other.now) }
{
    exclude_by_members(cfg, other)
}

/// Whether a condition and one of these are.
fn excludes_one(cfg: &CfgExpr, others: &[CfgExpr]) -> bool
    ensures { result ≡ list_any (spec.exclude (cfg_view cfg.now)) (map cfg_view others.now) }
{
    for other in others {
        if exclude(cfg, other) {
            return true;
        }
    }
    false
}

/// Whether a condition among these and one among those are never true together.
pub(crate) fn exclude_each_other(cfgs: &[CfgExpr], others: &[CfgExpr]) -> bool
    ensures { result ≡ spec.exclude_each_other (map cfg_view cfgs.now) (map cfg_view others.now) }
{
    for cfg in cfgs {
        if excludes_one(cfg, others) {
            return true;
        }
    }
    false
}
