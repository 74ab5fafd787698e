//! What a crate is made of.
ghost use Rattle.std.specs.Prelude.{◌≡◌, ◌++◌, ◌∷◌, [], IfOk, OnOk, true};
ghost use Rattle.hir_input.specs.Name.{is_name};
ghost use Rattle.def_map.specs.Language.{root_crates};

use hir_input::Name;
use item_tree::ItemTree;
use module_tree::ModuleData;
use std::alloc::{AllocError, Global};

/// What the manifest of a crate says.
#[derive(Debug, Drop)]
pub struct Manifest {
    /// The crate is of edition 2015.
    pub is_2015: bool,
    pub features: Vec<String>,
    /// The names of the other crates; none: any name may be one.
    pub crates: Option<Vec<Name>>,
    old_crates: Vec<Name>,
    ghost old_are: { old_crates.items ≡ root_crates is_2015 },
}

fn push_name(alloc: Global, text: &str, list: &mut Vec<Name>) -> Result<(), AllocError>
    requires { is_name text.now ≡ true }
    ensures { OnOk result (list.new.items ≡ list.old.items ++ text.now ∷ []) }
{
    let text = String::from_str(alloc, text)?;
    list.push(Name::new(text).unwrap())?;
    Ok(())
}

/// The names of the crates that the root has by its edition.
fn old_crates(alloc: Global, is_2015: bool) -> Result<Vec<Name>, AllocError>
    ensures { IfOk result (λ list. list.items ≡ root_crates is_2015) }
{
    let mut list = Vec::new(alloc);
    if !is_2015 {
        return Ok(list);
    }
    push_name(alloc, "std", &mut list)?;
    push_name(alloc, "core", &mut list)?;
    Ok(list)
}

impl Manifest {
    /// What a manifest says by these parts.
    ///
    /// # Errors
    ///
    /// Only if memory runs out.
    pub fn new(
        alloc: Global,
        is_2015: bool,
        features: Vec<String>,
        crates: Option<Vec<Name>>,
    ) -> Result<Manifest, AllocError>
        ensures edition { IfOk result (λ m. m.is_2015 ≡ is_2015) }
        ensures features { IfOk result (λ m. m.features ≡ features) }
        ensures crates { IfOk result (λ m. m.crates ≡ crates) }
    {
        let old_crates = old_crates(alloc, is_2015)?;
        Ok(Manifest {
            is_2015,
            features,
            crates,
            old_crates,
        })
    }

    /// The names of the crates that the root has by its edition.
    pub(crate) fn root_crates(&self) -> &[Name]
        ensures { result.now ≡ root_crates self.now.is_2015 }
    {
        self.old_crates.as_slice()
    }
}

/// What a crate is made of.
#[derive(Clone, Copy)]
pub struct CrateSources<'a> {
    /// Those that are enabled, as `ModuleTree` has them.
    pub modules: &'a [ModuleData],
    /// The tree of each file, by its number.
    pub trees: &'a [&'a ItemTree],
    /// How often the word `macro_export` stands in the text of each file. (Items in bodies are in no tree.) Of a file
    /// with no count macros may be exported that are not seen.
    pub export_words: &'a [u32],
    /// A text has the word `macro_expanded_macro_exports_accessed_by_absolute_paths`.
    pub allows_expanded: bool,
    pub manifest: &'a Manifest,
}
