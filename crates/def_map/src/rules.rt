//! What follows from a fact, and from two of them.

ghost use Rattle.std.specs.Prelude.{◌≡◌, ◌<◌, length};
ghost use Rattle.def_map.specs.Closure as spec;

use crate::facts::{Declared, Fact, Import, ImportName, ImportTable, Thing};
use crate::kinds::{Namespace, Visibility};
use crate::sight::{sees, smaller_visibility};

impl ImportTable {
    // Whether a module declares a name for sure.
    #[tactic(auto, using(crate::proofs::Deciding::hides_of))]
    pub(crate) fn hides(&self, home: u32, namespace: Namespace, name: u32) -> bool
        ensures { result ≡ spec.hides self.now home namespace name }
    {
        self.declared.contains(&Declared {
            home,
            namespace,
            name,
        })
    }

    // What a named import names.
    fn name_of(
        &self,
        import: &Import,
        namespace: Namespace,
        thing: Thing,
        visibility: Visibility,
    ) -> Option<Fact>
        ensures { result ≡ spec.named_fact self.now import.now import.now.name namespace thing visibility }
    {
        let ImportName::Named(name) = import.name else {
            return None;
        };
        let visibility = smaller_visibility(&self.parents, visibility, import.visibility);
        Some(Fact::Names(import.home, namespace, name, thing, visibility))
    }

    /// What follows from a fact alone, in a namespace.
    #[tactic(auto, unfolding(crate::specs::Closure::follows))]
    pub fn follow(&self, namespace: Namespace, fact: Fact) -> Option<Fact>
        ensures { result ≡ spec.follows self.now namespace fact }
    {
        match fact {
            Fact::Stands(number, count, thing) => {
                let import = self.imports.get(number as usize)?;
                stand_of(import, number, count, namespace, thing)
            }
            Fact::Gives(number, own, thing, visibility) => {
                let import = self.imports.get(number as usize)?;
                if same_namespace(namespace, own) {
                    return self.name_of(import, namespace, thing, visibility);
                }
                None
            }
            _ => None,
        }
    }

    // A path stands where a name does.
    fn step_by_name(
        &self,
        number: u32,
        count: usize,
        namespace: Namespace,
        name: u32,
        thing: Thing,
        visibility: Visibility,
    ) -> Option<Fact>
        ensures { result ≡ spec.step_by_name self.now number count namespace name thing visibility }
    {
        let import = self.imports.get(number as usize)?;
        let wanted = import.path.get(count)?;
        if *wanted == name && sees(&self.parents, import.home, visibility) {
            return pass(import, number, count, namespace, thing, visibility);
        }
        None
    }

    // A path stands in a module that has a veil.
    fn step_by_veil(
        &self,
        number: u32,
        count: usize,
        home: u32,
        namespace: Namespace,
        visibility: Visibility,
    ) -> Option<Fact>
        ensures { result ≡ spec.step_by_veil self.now number count home namespace visibility }
    {
        let import = self.imports.get(number as usize)?;
        let wanted = import.path.get(count)?;
        if sees(&self.parents, import.home, visibility) && !self.hides(home, namespace, *wanted) {
            return pass(import, number, count, namespace, Thing::Unseen, visibility);
        }
        None
    }

    // A path stands in a module.
    fn step_of(&self, number: u32, count: usize, at: u32, naming: Fact) -> Option<Fact>
        ensures { result ≡ spec.step_of self.now number count at naming }
    {
        match naming {
            Fact::Names(home, namespace, name, thing, visibility) => {
                if home == at {
                    return self.step_by_name(number, count, namespace, name, thing, visibility);
                }
                None
            }
            Fact::EveryName(home, namespace, visibility) => {
                if home == at {
                    return self.step_by_veil(number, count, home, namespace, visibility);
                }
                None
            }
            _ => None,
        }
    }

    // A glob copies from a module.
    fn copy_of(&self, from: u32, into: u32, glob: Visibility, naming: Fact) -> Option<Fact>
        ensures { result ≡ spec.copy_of self.now from into glob naming }
    {
        match naming {
            Fact::Names(home, namespace, name, thing, visibility) => {
                if home == from
                    && sees(&self.parents, into, visibility)
                    && !self.hides(into, namespace, name)
                {
                    let least = smaller_visibility(&self.parents, visibility, glob);
                    return Some(Fact::Names(into, namespace, name, thing, least));
                }
                None
            }
            Fact::EveryName(home, namespace, visibility) => {
                if home == from && sees(&self.parents, into, visibility) {
                    let least = smaller_visibility(&self.parents, visibility, glob);
                    return Some(Fact::EveryName(into, namespace, least));
                }
                None
            }
            _ => None,
        }
    }

    /// What follows from a fact that names, and one that stands in a module or copies from it.
    #[tactic(auto, unfolding(crate::specs::Closure::concludes))]
    pub fn conclude(&self, naming: Fact, standing: Fact) -> Option<Fact>
        ensures { result ≡ spec.concludes self.now naming standing }
    {
        match standing {
            Fact::Stands(number, count, Thing::Module(at)) => {
                self.step_of(number, count, at, naming)
            }
            Fact::Copies(from, into, glob) => self.copy_of(from, into, glob, naming),
            _ => None,
        }
    }
}

// Whether two namespaces are one.
fn same_namespace(left: Namespace, right: Namespace) -> bool
    ensures { result ≡ spec.same_namespace left right }
{
    match left {
        Namespace::Types => are_types(right),
        Namespace::Values => matches!(right, Namespace::Values),
        Namespace::Macros => matches!(right, Namespace::Macros),
    }
}

pub(crate) fn are_types(namespace: Namespace) -> bool
    ensures { result ≡ spec.are_types namespace }
{
    matches!(namespace, Namespace::Types)
}

fn are_macros(namespace: Namespace) -> bool
    ensures { result ≡ spec.are_macros namespace }
{
    matches!(namespace, Namespace::Macros)
}

pub(crate) fn is_glob(name: ImportName) -> bool
    ensures { result ≡ spec.is_glob_name name }
{
    matches!(name, ImportName::Glob)
}

// A name of a path stands for a thing.
fn pass(
    import: &Import,
    number: u32,
    count: usize,
    namespace: Namespace,
    thing: Thing,
    visibility: Visibility,
) -> Option<Fact>
    requires { count < length import.now.path.items }
    ensures { result ≡ spec.passed_name import.now number count namespace thing visibility }
{
    if is_glob(import.name) || count + 1 < import.path.len() {
        if are_types(namespace) {
            return Some(Fact::Stands(number, count + 1, thing));
        }
        return None;
    }
    if are_types(namespace) || !import.types_alone {
        return Some(Fact::Gives(number, namespace, thing, visibility));
    }
    None
}

// A path stands before its end.
fn way_on(
    import: &Import,
    number: u32,
    count: usize,
    namespace: Namespace,
    thing: Thing,
) -> Option<Fact>
    requires { count < length import.now.path.items }
    ensures { result ≡ spec.way_on import.now number count namespace thing }
{
    match thing {
        Thing::Scope(_) | Thing::Unseen => pass(
            import,
            number,
            count,
            namespace,
            Thing::Unseen,
            Visibility::Public,
        ),
        _ => None,
    }
}

// A glob stands at its end.
fn glob_of(import: &Import, namespace: Namespace, thing: Thing) -> Option<Fact>
    ensures { result ≡ spec.glob_of import.now namespace thing }
{
    match thing {
        Thing::Module(at) => {
            if are_types(namespace) {
                return Some(Fact::Copies(at, import.home, import.visibility));
            }
            if are_macros(namespace) && at == 0 {
                return Some(Fact::EveryName(import.home, namespace, import.visibility));
            }
            None
        }
        Thing::Item(_) => None,
        _ => Some(Fact::EveryName(import.home, namespace, import.visibility)),
    }
}

// A path stands at its end.
fn end_of(
    import: &Import,
    number: u32,
    count: usize,
    namespace: Namespace,
    thing: Thing,
) -> Option<Fact>
    ensures { result ≡ spec.path_end import.now number count namespace thing }
{
    if is_glob(import.name) {
        return glob_of(import, namespace, thing);
    }
    if count == 0 && are_types(namespace) {
        return Some(Fact::Gives(number, Namespace::Types, thing, Visibility::Public));
    }
    None
}

// A path stands somewhere.
fn stand_of(
    import: &Import,
    number: u32,
    count: usize,
    namespace: Namespace,
    thing: Thing,
) -> Option<Fact>
    ensures { result ≡ spec.stand_of import.now number count namespace thing }
{
    if count < import.path.len() {
        return way_on(import, number, count, namespace, thing);
    }
    if count == import.path.len() {
        return end_of(import, number, count, namespace, thing);
    }
    None
}
