//! The words of kinds, and parts of a text.

ghost use Rattle.std.specs.Prelude.{◌≡◌, is_some, option_map};
ghost use Rattle.source_rows.specs.Labels as spec;

use hir_input::AstIdKind;
use rust_items::{MemberKind, TextRange, cut_out};

/// What is written of the items of a kind.
#[derive(Clone, Copy)]
pub struct KindTexts {
    /// The word that lists have, as `fn`, `type` or `macro call`.
    pub word: &'static str,
    /// The letter in a tags file, as Universal Ctags has it, if the items have tags.
    pub letter: Option<&'static str>,
    /// What Universal Ctags calls what their members stand in, as `interface`, if they have members.
    pub scope: Option<&'static str>,
}

fn texts(word: &'static str, letter: Option<&'static str>, scope: Option<&'static str>) -> KindTexts
    ensures { result ≡ record { word = word.entry; letter = letter.entry; scope = scope.entry } }
{
    KindTexts {
        word,
        letter,
        scope,
    }
}

/// What is written of the items of a kind.
pub fn kind_texts(kind: AstIdKind) -> KindTexts
    ensures word { result.word.now ≡ spec.item_word kind }
    ensures letter { option_map (λ s. s.now) result.letter ≡ (spec.kind_texts kind).letter }
    ensures scope { option_map (λ s. s.now) result.scope ≡ (spec.kind_texts kind).scope }
    ensures members { is_some result.scope ≡ spec.has_members kind }
{
    match kind {
        AstIdKind::Const => texts("const", Some("C"), None),
        AstIdKind::Enum => texts("enum", Some("g"), Some("enum")),
        AstIdKind::ExternBlock => texts("extern", None, None),
        AstIdKind::ExternCrate => texts("extern crate", None, None),
        AstIdKind::Fn => texts("fn", Some("f"), None),
        AstIdKind::Impl => texts("impl", None, Some("implementation")),
        AstIdKind::MacroDef => texts("macro", Some("M"), None),
        AstIdKind::MacroCall => texts("macro call", None, None),
        AstIdKind::MacroRules => texts("macro_rules", Some("M"), None),
        AstIdKind::Module => texts("mod", Some("n"), None),
        AstIdKind::Static => texts("static", Some("v"), None),
        AstIdKind::Struct => texts("struct", Some("s"), Some("struct")),
        AstIdKind::Trait => texts("trait", Some("i"), Some("interface")),
        AstIdKind::TypeAlias => texts("type", Some("t"), None),
        AstIdKind::Union => texts("union", Some("s"), Some("struct")),
        AstIdKind::Use => texts("use", None, None),
    }
}

/// The word of an item's kind.
pub fn item_word(kind: AstIdKind) -> &'static str
    ensures { result.now ≡ spec.item_word kind }
{
    kind_texts(kind).word
}

/// The word of a member's kind.
pub fn member_word(kind: MemberKind) -> &'static str
    ensures { result.now ≡ spec.member_word kind }
{
    match kind {
        MemberKind::Function => "fn",
        MemberKind::Constant => "const",
        MemberKind::TypeAlias => "type",
        MemberKind::MacroCall => "macro call",
        MemberKind::Variant => "variant",
        MemberKind::Field => "field",
    }
}

/// What stands in a range of a text; nothing, where it cuts a character.
pub fn text_at(text: &str, range: TextRange) -> &str
    ensures { result.now ≡ spec.text_at text.now range }
{
    match cut_out(text, range) {
        Some(part) => part,
        None => "",
    }
}

/// The same of a range that there may be; nothing without one.
pub fn text_at_some(text: &str, range: Option<TextRange>) -> &str
    ensures { result.now ≡ spec.text_at_some text.now range }
{
    match range {
        Some(range) => text_at(text, range),
        None => "",
    }
}
