//! Names that are the language's own: attributes, tools, derives, and cfgs that the compiler sets.
#![tactic(auto)]

ghost use Rattle.std.specs.Prelude.{◌≡◌, [], map, nat_eq, string_bytes};
ghost use Rattle.std.specs.{List.list_any, Cmp.Lexicographic.pointwise};
ghost use Rattle.hir_input.specs.{Cfg.atom_view, Cfg.cfg_view, Name.is_among};
ghost use Rattle.language_names.specs.LanguageNames as spec;

use hir_input::{Attr, CfgAtom, CfgExpr, ModPath, PathKind};

const LANGUAGE_ATTRIBUTES: [&str; 70] = [
    "allow",
    "allow_internal_unsafe",
    "allow_internal_unstable",
    "automatically_derived",
    "bench",
    "cfg",
    "cfg_attr",
    "cold",
    "collapse_debuginfo",
    "compiler_builtins",
    "coroutine",
    "coverage",
    "crate_name",
    "crate_type",
    "debugger_visualizer",
    "default_lib_allocator",
    "deny",
    "deprecated",
    "derive",
    "doc",
    "expect",
    "export_name",
    "feature",
    "forbid",
    "fundamental",
    "global_allocator",
    "ignore",
    "inline",
    "instruction_set",
    "lang",
    "link",
    "link_name",
    "link_ordinal",
    "link_section",
    "linkage",
    "macro_export",
    "macro_use",
    "marker",
    "may_dangle",
    "must_use",
    "naked",
    "needs_allocator",
    "needs_panic_runtime",
    "no_builtins",
    "no_core",
    "no_implicit_prelude",
    "no_link",
    "no_main",
    "no_mangle",
    "no_std",
    "non_exhaustive",
    "optimize",
    "panic_handler",
    "panic_runtime",
    "path",
    "profiler_runtime",
    "recursion_limit",
    "repr",
    "should_panic",
    "stable",
    "target_feature",
    "test",
    "test_case",
    "thread_local",
    "track_caller",
    "type_length_limit",
    "unstable",
    "used",
    "warn",
    "windows_subsystem",
];

/// Tools, whose attributes are read by them alone.
pub const TOOLS: [&str; 5] = ["clippy", "diagnostic", "miri", "rust_analyzer", "rustfmt"];

const CORE_DERIVES: [&str; 9] = [
    "Clone",
    "Copy",
    "Debug",
    "Default",
    "Eq",
    "Hash",
    "Ord",
    "PartialEq",
    "PartialOrd",
];

const COMPILER_CFGS: [&str; 29] = [
    "clippy",
    "debug_assertions",
    "doc",
    "doctest",
    "false",
    "fmt_debug",
    "miri",
    "overflow_checks",
    "panic",
    "relocation_model",
    "rustfmt",
    "sanitize",
    "target_abi",
    "target_arch",
    "target_endian",
    "target_env",
    "target_family",
    "target_feature",
    "target_has_atomic",
    "target_object_format",
    "target_os",
    "target_pointer_width",
    "target_thread_local",
    "target_vendor",
    "test",
    "true",
    "ub_checks",
    "unix",
    "windows",
];

/// Whether a text is one of several words.
fn is_word(words: &[&str], wanted: &[u8]) -> bool
    ensures { result ≡ list_any (λ word. pointwise nat_eq word.now wanted.now) words.now }
{
    for word in words {
        if word.as_bytes() == wanted {
            return true;
        }
    }
    false
}

fn is_language_attribute(name: &str) -> bool
    ensures { result ≡ is_among spec.language_attributes name.now }
{
    is_word(&LANGUAGE_ATTRIBUTES, name.as_bytes())
}

/// Whether a name is that of a tool.
pub fn is_tool(name: &str) -> bool
    ensures { result ≡ is_among spec.tools name.now }
{
    is_word(&TOOLS, name.as_bytes())
}

fn is_core_derive_name(name: &[u8]) -> bool
    ensures { result ≡ is_among spec.core_derives name.now }
{
    is_word(&CORE_DERIVES, name)
}

fn is_compiler_cfg(name: &str) -> bool
    ensures { result ≡ is_among spec.compiler_cfgs name.now }
{
    is_word(&COMPILER_CFGS, name.as_bytes())
}

// ---- attributes

fn is_of_rustc(name: &str) -> bool
    ensures { result ≡ spec.is_of_rustc name.now }
{
    name.as_bytes().starts_with(b"rustc_")
}

/// Whether a name that stands alone is an attribute of the language's.
pub fn is_language_name(name: &str) -> bool
    ensures { result ≡ spec.is_language_name name.now }
{
    is_language_attribute(name) || is_of_rustc(name)
}

/// Whether the attribute of a path is the language's: what is not may rewrite its item.
pub fn is_language_path(path: &ModPath) -> bool
    ensures { result ≡ spec.is_language_by path.now.kind path.now.names }
{
    let PathKind::Plain = path.kind() else {
        return false;
    };
    let Some((name, more)) = path.segments().split_first() else {
        return false;
    };
    if more.is_empty() {
        return is_language_attribute(name.text()) || is_of_rustc(name.text());
    }
    is_tool(name.text())
}

/// The same of an attribute.
pub fn is_language(attr: &Attr) -> bool
    ensures { result ≡ spec.is_language attr.now }
{
    is_language_path(&attr.path)
}

// ---- derives

fn is_between(b: u8) -> bool
    ensures { result ≡ spec.is_derive_gap b }
{
    matches!(b, b'(' | b')' | b',' | b' ' | b'\n' | b'\t' | b'\r')
}

/// Whether a part of a text is empty, or the name of a derive that is core's.
fn is_core_derive(part: &[u8]) -> bool
    ensures { result ≡ spec.is_core_derive part.now }
{
    part.is_empty() || is_core_derive_name(part)
}

/// Whether the words of a text are names of derives that are core's.
pub fn are_core_derives(text: &[u8]) -> bool
    ensures { result ≡ spec.are_core_derives [] text.now }
{
    let mut start = 0;
    for at in 0..text.len() {
        if is_between(text[at]) {
            if !is_core_derive(&text[start..at]) {
                return false;
            }
            start = at + 1;
        }
    }
    is_core_derive(&text[start..])
}

// ---- cfgs

fn is_text(texts: &[String], wanted: &str) -> bool
    ensures { let is_it = pointwise nat_eq in
        result ≡ list_any (λ text. is_it (string_bytes text) wanted.now) texts.now }
{
    texts.iter().any(|text| text.as_str() == wanted)
}

/// Whether a key and a value are one of the features.
#[tactic(auto, using(crate::proofs::Cfgs::among_texts))]
fn is_feature(features: &[String], key: &str, value: &str) -> bool
    ensures { result ≡ spec.is_feature (map string_bytes features.now) key.now value.now }
{
    key == "feature" && is_text(features, value)
}

/// Whether an atom is neither one of the features nor the compiler's: a build script may set it.
pub fn is_unknown_atom(features: &[String], atom: &CfgAtom) -> bool
    ensures { result ≡ spec.is_unknown_atom (map string_bytes features.now) (atom_view atom.now) }
{
    match atom {
        CfgAtom::Flag(name) => !is_compiler_cfg(name.text()),
        CfgAtom::KeyValue { key, value } => {
            if is_feature(features, key.text(), value.as_str()) {
                return false;
            }
            !is_compiler_cfg(key.text())
        }
    }
}

/// Whether a condition has such an atom.
#[cycle(unknown)]
#[tactic(auto, using(hir_input::proofs::CfgLemmas::cfg_views, crate::proofs::Cfgs::unknown_members))]
pub fn has_unknown(features: &[String], cfg: &CfgExpr) -> bool
    ensures { result ≡ spec.has_unknown (map string_bytes features.now) (cfg_view cfg.now) }
{
    match cfg {
        CfgExpr::Invalid => false,
        CfgExpr::Atom(atom) => is_unknown_atom(features, atom),
        CfgExpr::All(members) => have_unknown(features, members),
        CfgExpr::Any(members) => have_unknown(features, members),
        CfgExpr::Not(inner) => has_unknown(features, inner),
    }
}

/// Whether one of several has.
#[cycle(unknown)]
fn have_unknown(features: &[String], members: &[CfgExpr]) -> bool
    ensures { let unknown = spec.has_unknown (map string_bytes features.now) in
        result ≡ list_any (λ cfg. unknown (cfg_view cfg)) members.now }
{
    for member in members {
        if has_unknown(features, member) {
            return true;
        }
    }
    false
}
