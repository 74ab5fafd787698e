//! What is asked of the attributes of an item.
ghost use Rattle.std.specs.Prelude.{◌≡◌};
ghost use Rattle.item_tree_attrs.specs.Key.{has_key};
ghost use Rattle.def_map.specs.Attributes as spec;

use hir_input::Attr;
use language_names::{are_core_derives, is_language};

/// What the attributes of an item do to its names.
#[derive(Clone, Copy)]
pub(crate) struct Marks {
    /// Something that is not the language's may rewrite it.
    pub(crate) is_foreign: bool,
    /// Names may stand beside it that are not seen.
    pub(crate) is_veiling: bool,
    /// It may be missing.
    pub(crate) is_test: bool,
    pub(crate) is_exported: bool,
    pub(crate) is_non_exhaustive: bool,
}

/// Whether an attribute has this name.
pub(crate) fn is_keyed(attr: &Attr, key: &str) -> bool
    ensures { result ≡ has_key key.now attr.now }
{
    match attr.path.as_ident() {
        Some(name) => name.text() == key,
        None => false,
    }
}

fn have_foreign(attrs: &[Attr]) -> bool
    ensures { result ≡ spec.have_foreign attrs.now }
{
    attrs.iter().any(|attr| !is_language(attr))
}

fn have(key: &str, attrs: &[Attr]) -> bool
    ensures { result ≡ spec.have key.now attrs.now }
{
    attrs.iter().any(|attr| is_keyed(attr, key))
}

fn have_test(attrs: &[Attr]) -> bool
    ensures { result ≡ spec.have_test attrs.now }
{
    have("bench", attrs) || have("test", attrs) || have("test_case", attrs)
}

fn is_foreign_derive(attr: &Attr) -> bool
    ensures { result ≡ spec.is_foreign_derive attr.now }
{
    if !is_keyed(attr, "derive") {
        return false;
    }
    match attr.token_tree_value() {
        Some(tokens) => !are_core_derives(tokens.rendered.as_bytes()),
        None => false,
    }
}

fn have_foreign_derive(attrs: &[Attr]) -> bool
    ensures { result ≡ spec.have_foreign_derive attrs.now }
{
    attrs.iter().any(is_foreign_derive)
}

/// What attributes do.
pub(crate) fn marks_of(attrs: &[Attr]) -> Marks
    ensures { result ≡ spec.attr_marks attrs.now }
{
    let is_foreign = have_foreign(attrs);
    Marks {
        is_foreign,
        is_veiling: is_foreign || have_foreign_derive(attrs),
        is_test: have_test(attrs),
        is_exported: have("macro_export", attrs),
        is_non_exhaustive: have("non_exhaustive", attrs),
    }
}
