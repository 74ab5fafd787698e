//! What the first name of a path may stand for outside of all modules.
ghost use Rattle.std.specs.Prelude.{ℕ, true, ◌≡◌, ◌==◌, ◌++◌, [], ◌∷◌, if◌then◌else◌, nat_eq, IfOk, OnOk, filter_map};
ghost use Rattle.std.specs.Prelude.{map};
ghost use Rattle.std.specs.{List.list_any, Option.option_map_or, Option.option_to_list};
ghost use Rattle.def_map.specs.CrateView.{macro_view};
ghost use Rattle.def_map.specs.Lowering.{crate_by, macro_by, number_by};
ghost use Rattle.def_map.specs.Numbering.{Interns};
ghost use Rattle.def_map.specs.Seeding.{is_other_name, macro_named, macros_in, macros_named, other_in};

use crate::numbers::Numbers;
use crate::rows::{CrateRows, MacroName};
use indexmap::IndexSet;
use std::alloc::{AllocError, Global};
use std::collections::HashMap;

/// Names of other crates and the like, if they are known, and each `macro_rules` by its name.
#[derive(Drop)]
pub(crate) struct Outside {
    alloc: Global,
    others: Option<IndexSet<u32>>,
    macros: HashMap<u32, Vec<u32>>,
}

impl Outside {
    pub(crate) fn is_other(&self, name: u32) -> bool
        ensures { result ≡ other_in self.now name }
    {
        match &self.others {
            Some(others) => others.contains(&name),
            None => true,
        }
    }

    /// The items of the `macro_rules` of a name.
    pub(crate) fn macros(&self, name: u32) -> &[u32]
        ensures { result.now ≡ macros_in self.now name }
    {
        match self.macros.get(&name) {
            Some(items) => items.as_slice(),
            None => &[],
        }
    }

    fn put_macro(&mut self, name: u32, item: u32) -> Result<(), AllocError>
        ensures others { OnOk result (self.new.others ≡ self.old.others) }
        ensures macros { OnOk result ((n : ℕ) →
            macros_in self.new n ≡ macros_in self.old n ++ (if n == name then item ∷ [] else [])) }
    {
        if let Some(items) = self.macros.get_mut(&name) {
            return items.push(item).map_err(AllocError::from);
        }
        let mut items = Vec::new(self.alloc);
        items.push(item).map_err(AllocError::from)?;
        self.macros.insert(name, items).map_err(AllocError::from)?;
        Ok(())
    }

    // Puts a `macro_rules`, if a path has its name.
    fn push_macro(&mut self, numbers: &Numbers<'_>, found: &MacroName<'_>) -> Result<(), AllocError>
        ensures others { OnOk result (self.new.others ≡ self.old.others) }
        ensures macros { OnOk result ((n : ℕ) → macros_in self.new n ≡ macros_in self.old n
            ++ filter_map (macro_named n) (option_to_list (macro_by numbers.now (macro_view found.now)))) }
    {
        let Some(name) = numbers.symbol(found.name.text()) else {
            return Ok(());
        };
        self.put_macro(name, numbers.item(&found.key))
    }

    fn push_macros(
        &mut self,
        numbers: &Numbers<'_>,
        macros: &[MacroName<'_>],
    ) -> Result<(), AllocError>
        ensures others { OnOk result (self.new.others ≡ self.old.others) }
        ensures macros { OnOk result ((n : ℕ) → macros_in self.new n ≡ macros_in self.old n
            ++ filter_map (macro_named n) (filter_map (macro_by numbers.now) (map macro_view macros.now))) }
    {
        for found in macros {
            self.push_macro(numbers, found)?;
        }
        Ok(())
    }
}

/// Puts a number, if there is one.
pub(crate) fn put_number(number: Option<u32>, others: &mut IndexSet<u32>) -> Result<(), AllocError>
    ensures { OnOk result (Interns nat_eq (λ n. n) others.old.keys others.new.keys (option_to_list number)) }
{
    let Some(number) = number else {
        return Ok(());
    };
    others.insert(number)?;
    Ok(())
}

fn push_others(
    numbers: &Numbers<'_>,
    names: &[&str],
    others: &mut IndexSet<u32>,
) -> Result<(), AllocError>
    ensures { OnOk result (Interns nat_eq (λ n. n) others.old.keys others.new.keys
        (filter_map (λ name. number_by numbers.now name.now) names.now)) }
{
    for name in names {
        put_number(numbers.symbol(*name), others)?;
    }
    Ok(())
}

// The numbers of names of other crates and the like, if they are known.
fn other_numbers(
    alloc: Global,
    numbers: &Numbers<'_>,
    rows: &CrateRows<'_>,
) -> Result<Option<IndexSet<u32>>, AllocError>
    ensures { IfOk result (λ others. (n : ℕ) → option_map_or (λ s. list_any (nat_eq n) s.keys) others true
        ≡ is_other_name (crate_by numbers.now rows.now) n) }
{
    let Some(names) = &rows.others else {
        return Ok(None);
    };
    let mut others = IndexSet::new(alloc);
    push_others(numbers, names.as_slice(), &mut others)?;
    Ok(Some(others))
}

/// What the first names of the paths of a crate may stand for outside of all modules.
pub(crate) fn outside_of(
    alloc: Global,
    numbers: &Numbers<'_>,
    rows: &CrateRows<'_>,
) -> Result<Outside, AllocError>
    ensures others { IfOk result (λ outside. (n : ℕ) →
        other_in outside n ≡ is_other_name (crate_by numbers.now rows.now) n) }
    ensures macros { IfOk result (λ outside. (n : ℕ) →
        macros_in outside n ≡ macros_named (crate_by numbers.now rows.now) n) }
{
    let mut outside = Outside {
        alloc,
        others: other_numbers(alloc, numbers, rows)?,
        macros: HashMap::new(alloc),
    };
    outside.push_macros(numbers, &rows.macro_rules)?;
    Ok(outside)
}
