//! Conditions on the options of a crate.
ghost use Rattle.std.specs.Prelude.{◌≡◌, IfOk, Some, map};
ghost use Rattle.std.specs.Fmt.{WritesOnOk};
ghost use Rattle.hir_input.specs.Cfg.{atom_view, by_commas, cfg_view, shown_cfg, truth, holds, is_set, first_but};

use crate::name::Name;
use std::alloc::AllocError;
use std::fmt;
use std::fmt::Display;
use std::marker::Model;

/// An atom of a condition: a flag, or a key with a value.
///
/// Stands for rust-analyzer's `CfgAtom`.
#[derive(Debug, Drop, PartialEq, Eq)]
pub enum CfgAtom {
    /// `name`
    Flag(Name),
    /// `key = "value"`
    KeyValue { key: Name, value: String },
}

/// A condition on the options of a crate.
///
/// Stands for rust-analyzer's `CfgExpr`.
#[derive(Debug, Drop, PartialEq, Eq)]
pub enum CfgExpr {
    /// One that could not be read; whether it is true is unknown.
    Invalid,
    /// A flag, or a key with a value: true where it is set, otherwise false.
    Atom(CfgAtom),
    /// `all(..)`: the value of the first member that is not true, or true if there is none.
    All(Vec<CfgExpr>),
    /// `any(..)`: the value of the first member that is not false, or false if there is none.
    Any(Vec<CfgExpr>),
    /// `not(..)`: true for false, false for true, unknown for unknown.
    Not(Box<CfgExpr>),
}

impl fmt::Display for CfgAtom {
    ghost use Rattle.hir_input.specs.Cfg.{atom_view, shown_atom};

    ghost output = { λ atom. Some (shown_atom (atom_view atom)) };

    fn fmt<W: fmt::Write>(&self, f: &mut fmt::Formatter<W>) -> fmt::Result {
        match self {
            CfgAtom::Flag(name) => f.write_str(name.text()),
            CfgAtom::KeyValue { key, value } => {
                f.write_str(key.text())?;
                f.write_str(" = \"")?;
                f.write_str(value.as_str())?;
                f.write_str("\"")
            }
        }
    }
}

// A condition.
#[cycle(write_cfg)]
#[tactic(auto, using(crate::proofs::CfgLemmas::cfg_texts, std::proofs::lemmas::Grind::common_steps), unfolding(crate::specs::Cfg::shown_cfg, crate::specs::Cfg::shown_cfgs),)]
fn write_cfg<W: fmt::Write>(cfg: &CfgExpr, f: &mut fmt::Formatter<W>) -> fmt::Result
    ensures { WritesOnOk W.write_str_gives f.old result (shown_cfg (cfg_view cfg.now)) f.new }
{
    match cfg {
        CfgExpr::Invalid => f.write_str("invalid"),
        CfgExpr::Atom(atom) => atom.fmt(f),
        CfgExpr::All(members) => {
            f.write_str("all(")?;
            write_members(members, f)?;
            f.write_str(")")
        }
        CfgExpr::Any(members) => {
            f.write_str("any(")?;
            write_members(members, f)?;
            f.write_str(")")
        }
        CfgExpr::Not(inner) => {
            f.write_str("not(")?;
            write_cfg(inner, f)?;
            f.write_str(")")
        }
    }
}

// Members, with a comma and a space between them.
#[cycle(write_cfg)]
#[tactic(auto, using(crate::proofs::CfgLemmas::cfg_texts, std::proofs::lemmas::Grind::common_steps), unfolding(crate::specs::Cfg::shown_cfg, crate::specs::Cfg::shown_cfgs),)]
fn write_members<W: fmt::Write>(members: &[CfgExpr], f: &mut fmt::Formatter<W>) -> fmt::Result
    ensures { let texts = map (λ c. shown_cfg (cfg_view c)) members.now in
        WritesOnOk W.write_str_gives f.old result (by_commas texts) f.new }
{
    if members.is_empty() {
        return Ok(());
    }
    write_cfg(&members[0], f)?;
    for i in 1..members.len() {
        f.write_str(", ")?;
        write_cfg(&members[i], f)?;
    }
    Ok(())
}

/// Shown as it is written in an attribute, as `all(test, feature = "a", not(unix))`.
impl fmt::Display for CfgExpr {
    ghost use Rattle.hir_input.specs.Cfg.{cfg_view, shown_cfg};

    ghost output = { λ cfg. Some (shown_cfg (cfg_view cfg)) };

    fn fmt<W: fmt::Write>(&self, f: &mut fmt::Formatter<W>) -> fmt::Result {
        write_cfg(self, f)
    }
}

impl Clone for CfgAtom {
    ghost is_clone = { λ atom copy. atom_view copy ≡ atom_view atom };

    fn clone(&self) -> Result<CfgAtom, AllocError> {
        match self {
            CfgAtom::Flag(name) => Ok(CfgAtom::Flag(name.clone()?)),
            CfgAtom::KeyValue { key, value } => {
                let key = key.clone()?;
                let value = value.clone()?;
                Ok(CfgAtom::KeyValue { key, value })
            }
        }
    }
}

// A copy of a condition.
#[cycle(clone_cfg)]
#[tactic(auto, using(crate::proofs::CfgLemmas::cfg_views))]
fn clone_cfg(cfg: &CfgExpr) -> Result<CfgExpr, AllocError>
    ensures { IfOk result (λ copy. cfg_view copy ≡ cfg_view cfg.now) }
{
    match cfg {
        CfgExpr::Invalid => Ok(CfgExpr::Invalid),
        CfgExpr::Atom(atom) => Ok(CfgExpr::Atom(atom.clone()?)),
        CfgExpr::All(members) => Ok(CfgExpr::All(clone_members(members)?)),
        CfgExpr::Any(members) => Ok(CfgExpr::Any(clone_members(members)?)),
        CfgExpr::Not(inner) => {
            let copy = clone_cfg(inner)?;
            Ok(CfgExpr::Not(Box::new(*Box::allocator(inner), copy)?))
        }
    }
}

// Copies of members.
#[cycle(clone_cfg)]
#[tactic(auto, using(crate::proofs::CfgLemmas::cfg_views, std::proofs::lemmas::Grind::common_steps))]
fn clone_members(members: &Vec<CfgExpr>) -> Result<Vec<CfgExpr>, AllocError>
    ensures { IfOk result (λ copies. map cfg_view copies.items ≡ map cfg_view members.now.items) }
{
    let mut copies = Vec::new(*members.allocator());
    for i in 0..members.len() {
        let copy = clone_cfg(&members[i])?;
        copies.push(copy)?;
    }
    Ok(copies)
}

impl Clone for CfgExpr {
    ghost is_clone = { λ cfg copy. cfg_view copy ≡ cfg_view cfg };

    fn clone(&self) -> Result<CfgExpr, AllocError> {
        clone_cfg(self)
    }
}

/// The options of a crate: the atoms that are set.
///
/// Stands for rust-analyzer's `CfgOptions`. `==` is that of the lists: order and repetition count.
#[derive(Debug)]
pub struct CfgOptions {
    atoms: Vec<CfgAtom>,
}

// (Written out: what is derived is proved anew, field by field, in each crate that drops one.)
impl Drop for CfgOptions {
    fn drop(self) {
        let CfgOptions { atoms: _ } = self;
    }
}

impl Model for CfgOptions {
    ghost use Rattle.std.specs.Prelude.{List, map};
    ghost use Rattle.hir_input.specs.Cfg.{AtomView, atom_view};
    ghost use Rattle.hir_input.specs.Code.Attr.{options_code};

    ghost Value = { List AtomView };

    ghost coded = { options_code };

    ghost view = { λ o. map atom_view o.atoms.items };
}

impl CfgOptions {
    /// The options under which these atoms are set. The flags `true` and `false` need not be: the one is always true,
    /// the other never.
    pub fn new(atoms: Vec<CfgAtom>) -> CfgOptions
        ensures { result ≡ map atom_view atoms.items }
    {
        CfgOptions { atoms }
    }

    /// Whether the condition is true under these options, or `None` where that is unknown, as of `CfgExpr::Invalid`.
    /// rust-analyzer's `CfgOptions::check`.
    pub fn check(&self, cfg: &CfgExpr) -> Option<bool>
        ensures { result ≡ truth self.now (cfg_view cfg.now) }
    {
        check_cfg(self, cfg)
    }

    // Whether an atom is one of those that are set.
    fn contains(&self, atom: &CfgAtom) -> bool
        ensures { result ≡ is_set self.now (atom_view atom.now) }
    {
        self.atoms.contains(atom)
    }
}

// Whether an atom is true.
fn check_atom(options: &CfgOptions, atom: &CfgAtom) -> bool
    ensures { result ≡ holds options.now (atom_view atom.now) }
{
    if let CfgAtom::Flag(name) = atom {
        match name.text() {
            "true" => return true,
            "false" => return false,
            _ => {}
        }
    }
    options.contains(atom)
}

// Whether a condition is true.
#[cycle(check_cfg)]
#[tactic(auto, using(crate::proofs::CfgLemmas::cfg_truths, std::proofs::lemmas::Grind::common_steps), unfolding(crate::specs::Cfg::truth, crate::specs::Cfg::truths),)]
fn check_cfg(options: &CfgOptions, cfg: &CfgExpr) -> Option<bool>
    ensures { result ≡ truth options.now (cfg_view cfg.now) }
{
    match cfg {
        CfgExpr::Invalid => None,
        CfgExpr::Atom(atom) => Some(check_atom(options, atom)),
        CfgExpr::All(members) => check_members(options, members, true),
        CfgExpr::Any(members) => check_members(options, members, false),
        CfgExpr::Not(inner) => check_cfg(options, inner).map(|answer| !answer),
    }
}

// The first answer of the members that is not the neutral one, or the neutral one if there is none.
#[cycle(check_cfg)]
#[tactic(auto, using(crate::proofs::CfgLemmas::cfg_truths, std::proofs::lemmas::Grind::common_steps))]
fn check_members(options: &CfgOptions, members: &[CfgExpr], neutral: bool) -> Option<bool>
    ensures { let answers = map (λ c. truth options.now (cfg_view c)) members.now in
        result ≡ first_but neutral answers }
{
    for member in members {
        let answer = check_cfg(options, member);
        if answer != Some(neutral) {
            return answer;
        }
    }
    Some(neutral)
}

#[tactic(auto, using(crate::proofs::CfgEq::atoms_copied))]
impl Clone for CfgOptions {
    ghost is_clone = { λ options copy. copy ≡ options };

    fn clone(&self) -> Result<CfgOptions, AllocError> {
        let atoms = self.atoms.clone()?;
        Ok(CfgOptions { atoms })
    }
}

#[tactic(auto, using(crate::proofs::CfgEq::options_eq))]
impl PartialEq for CfgOptions {
    ghost use Rattle.std.specs.Cmp.Lexicographic.{pointwise, nat_list_eq_equiv};
    ghost use Rattle.std.specs.Cmp.Rules.{comparing};
    ghost use Rattle.hir_input.specs.Cfg.{is_atom};

    ghost eq = { pointwise is_atom };

    ghost laws = { Prim.search (comparing, nat_list_eq_equiv) depth 7 };

    fn eq(&self, other: &CfgOptions) -> bool {
        self.atoms == other.atoms
    }
}

impl Eq for CfgOptions {
    ghost use Rattle.std.specs.Cmp.Lexicographic.{nat_list_eq_equiv};
    ghost use Rattle.std.specs.Cmp.Rules.{comparing};

    ghost laws = { Prim.search (comparing, nat_list_eq_equiv) depth 7 };
}
