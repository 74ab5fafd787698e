//! The verdict on each import.

ghost use Rattle.std.specs.Prelude.{◌≡◌, IfOk, length, map, replicate};
ghost use Rattle.def_map.specs.Verdicts.{is_at_least};
ghost use Rattle.def_map.specs.Found as spec;

use crate::facts::{Fact, ImportTable, Thing};
use crate::kinds::Visibility;
use crate::rules::is_glob;
use crate::sight::is_within;
use std::alloc::{AllocError, Global};

/// What is told of an import.
#[derive(Clone, Copy, Debug, PartialEq, Eq)]
pub enum Verdict {
    /// It leads to nothing.
    Unresolved,
    /// All that it gives is seen, and less visible than it.
    TooWide,
    /// All that it leads to is unseen.
    Unknown,
    /// It leads to what is seen.
    Resolved,
    /// It has no name.
    Nameless,
}

/// Where an import leads.
#[derive(Clone, Copy, PartialEq, Eq)]
pub struct Lead {
    /// To anything.
    pub leads: bool,
    /// To something that is seen.
    pub is_seen: bool,
    /// To something that is not less visible than it.
    pub is_wide: bool,
}

/// The verdict on each import, by all facts that follow.
pub fn verdicts(
    alloc: Global,
    table: &ImportTable,
    facts: &[Fact],
) -> Result<Vec<Verdict>, AllocError>
    ensures { IfOk result (λ told. spec.AreVerdicts table.now (length table.now.imports.items) facts.now told.items) }
{
    let known = leads(alloc, table, facts)?;
    tell(alloc, &known)
}

fn tell(alloc: Global, leads: &[Lead]) -> Result<Vec<Verdict>, AllocError>
    ensures { IfOk result (λ told. told.items ≡ map spec.verdict_by leads.now) }
{
    let mut told = Vec::new(alloc);
    for lead in leads {
        told.push(verdict_by(*lead)).map_err(AllocError::from)?;
    }
    Ok(told)
}

fn verdict_by(lead: Lead) -> Verdict
    ensures { result ≡ spec.verdict_by lead }
{
    if !lead.leads {
        return Verdict::Unresolved;
    }
    if !lead.is_wide {
        return Verdict::TooWide;
    }
    if lead.is_seen {
        return Verdict::Resolved;
    }
    Verdict::Unknown
}

// Where each import leads.
fn leads(alloc: Global, table: &ImportTable, facts: &[Fact]) -> Result<Vec<Lead>, AllocError>
    ensures { IfOk result (λ leads.
        spec.AreLeadsKnown table.now (length table.now.imports.items) facts.now leads.items) }
{
    let mut leads = no_leads(alloc, table.imports.len())?;
    for fact in facts {
        note(lead_by(table, *fact), &mut leads);
    }
    Ok(leads)
}

fn no_leads(alloc: Global, count: usize) -> Result<Vec<Lead>, AllocError>
    ensures { IfOk result (λ leads. leads.items ≡ replicate count spec.no_lead) }
{
    let none = Lead {
        leads: false,
        is_seen: false,
        is_wide: false,
    };
    let mut leads = Vec::new(alloc);
    leads.resize(count, none)?;
    Ok(leads)
}

fn note(said: Option<(u32, Lead)>, leads: &mut Vec<Lead>)
    ensures { spec.Notes said leads.old.items leads.new.items }
{
    let Some((number, lead)) = said else {
        return;
    };
    let Some(old) = leads.get_mut(number as usize) else {
        return;
    };
    *old = join(*old, lead);
}

fn join(a: Lead, b: Lead) -> Lead
    ensures { result ≡ spec.join_leads a b }
{
    Lead {
        leads: a.leads || b.leads,
        is_seen: a.is_seen || b.is_seen,
        is_wide: a.is_wide || b.is_wide,
    }
}

// What a fact says of an import.
#[tactic(auto, unfolding(crate::specs::Found::lead_by))]
pub(crate) fn lead_by(table: &ImportTable, fact: Fact) -> Option<(u32, Lead)>
    ensures { result ≡ spec.lead_by table.now fact }
{
    match fact {
        Fact::Gives(number, _, thing, visibility) => {
            let import = table.imports.get(number as usize)?;
            let seen = is_seen(thing);
            let wide = is_at_least(&table.parents, visibility, import.visibility);
            Some((
                number,
                Lead {
                    leads: true,
                    is_seen: seen,
                    is_wide: !seen || wide,
                },
            ))
        }
        Fact::Stands(number, count, thing) => {
            let import = table.imports.get(number as usize)?;
            if is_glob(import.name) && count == import.path.len() && has_names(thing) {
                return Some((
                    number,
                    Lead {
                        leads: true,
                        is_seen: is_seen(thing),
                        is_wide: true,
                    },
                ));
            }
            None
        }
        _ => None,
    }
}

fn is_seen(thing: Thing) -> bool
    ensures { result ≡ spec.is_seen thing }
{
    !matches!(thing, Thing::Unseen)
}

// Whether a glob may stand there.
fn has_names(thing: Thing) -> bool
    ensures { result ≡ spec.has_names thing }
{
    !matches!(thing, Thing::Item(_))
}

/// Whether who sees the second has the first.
pub(crate) fn is_at_least(parents: &[Option<u32>], first: Visibility, second: Visibility) -> bool
    ensures { result ≡ is_at_least parents.now first second }
{
    let Visibility::Module(outer) = first else {
        return true;
    };
    let Visibility::Module(inner) = second else {
        return false;
    };
    is_within(parents, inner, outer)
}
