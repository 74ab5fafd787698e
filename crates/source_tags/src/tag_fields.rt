//! What stands behind the address of a tag: fields, as Universal Ctags calls them.
ghost use Rattle.std.specs.Prelude.{◌≡◌, ◌++◌, ◌+◌, ◌<◌, ◌^◌, ◌≤◌, IfOk, OnOk, decimal, false, length, map};
ghost use Rattle.std.specs.Prelude.{option_copied, option_map, string_bytes};
ghost use Rattle.rust_lexer.specs.Symbol.{symbol_of};
ghost use Rattle.rust_lexer.specs.Tokens.{tokens};
ghost use Rattle.source_tags.specs.Inner.{head_view, tag_item_view, tag_place_view};
ghost use Rattle.source_tags.specs.TagFields as spec;

use crate::safe_texts::safe_text;
use hir_input::{AstIdKind, Name};
use item_tree::{RawVisibility, VisibilityExplicitness};
use itoa::Buffer;
use rust_items::MemberKind;
use rust_lexer::{Lexer, Token, TokenKind};
use source_listing::push_scope;
use std::alloc::{AllocError, Global};

/// How many bytes the fields of a tag have room for before they grow.
const ROOM: usize = 64;

/// Which fields tags have.
#[derive(Clone, Copy, Debug)]
pub struct TagFields {
    /// The letter of the kind.
    pub has_kind: bool,
    /// The line on which the name begins, as `line:`.
    pub has_line: bool,
    /// `language:Rust`
    pub has_language: bool,
    /// What it stands in.
    pub has_scope: bool,
    /// Who sees it, as `access:`.
    pub has_access: bool,
    /// What stands between the name and the body of a function, as `signature:`.
    pub has_signature: bool,
    /// The last line, as `end:`.
    pub has_end: bool,
}

/// What a tag is of.
#[derive(Clone, Copy)]
pub(crate) struct TagItem<'a> {
    pub(crate) name: &'a Name,
    /// Where its name begins.
    pub(crate) at: usize,
    /// Where all of it ends.
    pub(crate) end: usize,
    pub(crate) letter: &'static str,
    /// Who sees it, if that is told.
    pub(crate) access: Option<&'static str>,
    pub(crate) is_function: bool,
}

/// Where what a tag is of stands.
#[derive(Clone, Copy)]
pub(crate) struct TagPlace<'a> {
    /// The line of its name.
    pub(crate) line: usize,
    /// Its last line, if that is asked for.
    pub(crate) last: Option<usize>,
    /// The text from its name to its end.
    pub(crate) head: &'a str,
}

/// Who sees what has this visibility.
fn access_word(visibility: &RawVisibility) -> &'static str
    ensures { result.now ≡ spec.access_word visibility.now }
{
    match visibility {
        RawVisibility::Public => "public",
        RawVisibility::PubSelf(_) => "private",
        RawVisibility::PubCrate | RawVisibility::Module(_, _) => "protected",
    }
}

/// Who sees an item, if it can have a visibility.
pub(crate) fn item_access(visibility: Option<&RawVisibility>) -> Option<&'static str>
    ensures { option_map (λ s. s.now) result
        ≡ option_map spec.access_word (option_copied visibility.entry) }
{
    match visibility {
        Some(visibility) => Some(access_word(visibility)),
        None => None,
    }
}

/// Who sees a member, if its own visibility tells that.
pub(crate) fn member_access(kind: MemberKind, visibility: &RawVisibility) -> Option<&'static str>
    ensures { option_map (λ s. s.now) result ≡ spec.member_access kind visibility.now }
{
    match (kind, visibility) {
        (MemberKind::Field, _) => Some(access_word(visibility)),
        (_, RawVisibility::PubSelf(VisibilityExplicitness::Implicit)) => None,
        _ => Some(access_word(visibility)),
    }
}

pub(crate) fn is_function(kind: AstIdKind) -> bool
    ensures { result ≡ spec.is_function kind }
{
    matches!(kind, AstIdKind::Fn)
}

pub(crate) fn is_method(kind: MemberKind) -> bool
    ensures { result ≡ spec.is_method kind }
{
    matches!(kind, MemberKind::Function)
}

/// White space and comments, also those that document something.
fn is_gap(token: &Token<'_>) -> bool
    ensures { result ≡ spec.is_gap token.now }
{
    !token.is_significant()
        || matches!(
            token.kind(),
            TokenKind::LineComment(_) | TokenKind::BlockComment(_)
        )
}

/// Whether a symbol ends the head of a function, where so many brackets are open.
fn ends_head(depth: usize, symbol: u8) -> bool
    ensures { result ≡ spec.ends_head depth symbol }
{
    depth == 0 && (symbol == b'{' || symbol == b';')
}

/// How many brackets are open behind a symbol.
fn brackets_behind(depth: usize, symbol: u8) -> usize
    requires { depth < 2 ^ 63 }
    ensures value { result ≡ spec.brackets_behind depth symbol }
    ensures step { result ≤ depth + 1 }
{
    if symbol == b'(' || symbol == b'[' {
        return depth + 1;
    }
    if symbol == b')' || symbol == b']' {
        return depth.saturating_sub(1);
    }
    depth
}

fn gap_before(is_apart: bool) -> &'static str
    ensures { result.now ≡ spec.gap_before is_apart }
{
    if is_apart { " " } else { "" }
}

/// What is written of a signature.
#[derive(Drop)]
struct HeadText {
    text: String,
    /// Whether a blank comes behind it.
    is_apart: bool,
    /// How many brackets are open there.
    depth: usize,
}

impl HeadText {
    /// Adds a token that is no gap.
    fn push_text(&mut self, token: &Token<'_>) -> Result<(), AllocError>
        requires { self.old.depth < 2 ^ 63 }
        ensures text { let text = spec.gap_before self.old.is_apart ++ token.now.text in
            OnOk result (string_bytes self.new.text ≡ string_bytes self.old.text ++ text) }
        ensures apart { OnOk result (self.new.is_apart ≡ false) }
        ensures depth { let depth = spec.brackets_behind self.old.depth (symbol_of token.now) in
            OnOk result (self.new.depth ≡ depth) }
        ensures step { OnOk result (self.new.depth ≤ self.old.depth + 1) }
    {
        self.text.push_str(gap_before(self.is_apart))?;
        self.text.push_str(token.text())?;
        self.is_apart = false;
        self.depth = brackets_behind(self.depth, token.symbol());
        Ok(())
    }

    /// Adds a token.
    fn push(&mut self, token: &Token<'_>) -> Result<(), AllocError>
        requires { self.old.depth < 2 ^ 63 }
        ensures value { OnOk result
            (head_view self.new ≡ spec.and_token (head_view self.old) token.now) }
        ensures step { OnOk result (self.new.depth ≤ self.old.depth + 1) }
    {
        if is_gap(token) {
            self.is_apart = !self.text.is_empty();
            return Ok(());
        }
        self.push_text(token)
    }
}

/// The tokens of a text behind its first one.
fn behind_first(text: &str) -> Lexer<'_>
    ensures value { result ≡ spec.behind_first (tokens text.now) }
    ensures few { length result ≤ length text.now }
{
    let mut lexer = Lexer::new(text);
    match lexer.next() {
        Some(_first) => lexer,
        None => lexer,
    }
}

/// What stands between the name of a function, with which a text begins, and its body.
fn signature(alloc: Global, text: &str) -> Result<String, AllocError>
    ensures { IfOk result (λ out. string_bytes out ≡ spec.signature text.now) }
{
    let mut lexer = behind_first(text);
    let mut head = HeadText {
        text: String::new(alloc),
        is_apart: false,
        depth: 0,
    };
    'tokens: while let Some(token) = lexer.next() {
        if ends_head(head.depth, token.symbol()) {
            return Ok(head.text);
        }
        head.push(&token)?;
    }
    Ok(head.text)
}

/// The same as a field has it.
fn safe_signature(alloc: Global, text: &str) -> Result<String, AllocError>
    ensures { IfOk result (λ out. string_bytes out ≡ spec.safe_text (spec.signature text.now)) }
{
    let signature = signature(alloc, text)?;
    safe_text(alloc, &signature)
}

/// Adds a field that is asked for.
fn push_text_field(
    is_asked: bool,
    key: &str,
    value: &str,
    out: &mut String,
) -> Result<(), AllocError>
    ensures { let field = spec.text_field is_asked key.now value.now in
        OnOk result (string_bytes out.new ≡ string_bytes out.old ++ field) }
{
    if !is_asked {
        return Ok(());
    }
    out.push_str("\t")?;
    out.push_str(key)?;
    out.push_str(value)
}

fn push_number_field(
    is_asked: bool,
    key: &str,
    number: usize,
    out: &mut String,
) -> Result<(), AllocError>
    ensures { let field = spec.text_field is_asked key.now (decimal number) in
        OnOk result (string_bytes out.new ≡ string_bytes out.old ++ field) }
{
    push_text_field(is_asked, key, Buffer::new().format(number), out)
}

/// What a tag stands in: the word for the innermost, and the names.
fn push_scope_field(word: &str, scope: &[&Name], out: &mut String) -> Result<(), AllocError>
    ensures { let field = spec.scope_field word.now (map (λ n. n.now) scope.now) in
        OnOk result (string_bytes out.new ≡ string_bytes out.old ++ field) }
{
    let Some((first, rest)) = scope.split_first() else {
        return Ok(());
    };
    out.push_str("\t")?;
    out.push_str(word)?;
    out.push_str(":")?;
    out.push_str(first.text())?;
    push_scope(rest, out)
}

fn push_scope_if(
    is_asked: bool,
    word: &str,
    scope: &[&Name],
    out: &mut String,
) -> Result<(), AllocError>
    ensures { let field = spec.scope_if is_asked word.now (map (λ n. n.now) scope.now) in
        OnOk result (string_bytes out.new ≡ string_bytes out.old ++ field) }
{
    if is_asked {
        push_scope_field(word, scope, out)
    } else {
        Ok(())
    }
}

fn push_access_field(
    is_asked: bool,
    access: Option<&'static str>,
    out: &mut String,
) -> Result<(), AllocError>
    ensures { let field = spec.access_field is_asked (option_map (λ s. s.now) access.entry) in
        OnOk result (string_bytes out.new ≡ string_bytes out.old ++ field) }
{
    match access {
        Some(word) => push_text_field(is_asked, "access:", word, out),
        None => Ok(()),
    }
}

fn push_signature_field(
    alloc: Global,
    is_asked: bool,
    head: &str,
    out: &mut String,
) -> Result<(), AllocError>
    ensures { let field = spec.signature_field is_asked head.now in
        OnOk result (string_bytes out.new ≡ string_bytes out.old ++ field) }
{
    if !is_asked {
        return Ok(());
    }
    let signature = safe_signature(alloc, head)?;
    push_text_field(is_asked, "signature:", &signature, out)
}

fn push_end_field(last: Option<usize>, out: &mut String) -> Result<(), AllocError>
    ensures { OnOk result (string_bytes out.new ≡ string_bytes out.old ++ spec.end_field last) }
{
    match last {
        Some(line) => push_number_field(true, "end:", line, out),
        None => Ok(()),
    }
}

impl TagFields {
    /// Those of what stands there that are asked for, in the order of Universal Ctags.
    pub(crate) fn text(
        self,
        alloc: Global,
        item: TagItem<'_>,
        place: TagPlace<'_>,
        word: &str,
        scope: &[&Name],
    ) -> Result<String, AllocError>
        ensures { let fields = spec.fields_text self (tag_item_view item.entry)
            (tag_place_view place.entry) word.now (map (λ n. n.now) scope.now) in
            IfOk result (λ text. string_bytes text ≡ fields) }
    {
        let mut out = String::with_capacity(alloc, ROOM)?;
        push_text_field(self.has_kind, "", item.letter, &mut out)?;
        push_number_field(self.has_line, "line:", place.line, &mut out)?;
        push_text_field(self.has_language, "language:", "Rust", &mut out)?;
        push_scope_if(self.has_scope, word, scope, &mut out)?;
        push_access_field(self.has_access, item.access, &mut out)?;
        let has_signature = self.has_signature && item.is_function;
        push_signature_field(alloc, has_signature, place.head, &mut out)?;
        push_end_field(place.last, &mut out)?;
        Ok(out)
    }
}

/// Adds fields behind a mark, if there are any.
pub(crate) fn push_behind_address(fields: &str, out: &mut String) -> Result<(), AllocError>
    ensures { OnOk result (string_bytes out.new ≡ string_bytes out.old ++ spec.behind_address fields.now) }
{
    if fields.is_empty() {
        return Ok(());
    }
    out.push_str(";\"")?;
    out.push_str(fields)
}
