//! Lines of a text, and the marks on them.

ghost use Rattle.std.specs.Prelude.{◌≡◌, ◌++◌, [], IfOk, OnOk};
ghost use Rattle.rust_lexer.specs.Symbol.{symbol_of};
ghost use Rattle.rust_mended.specs.Marks as spec;

use crate::bracket::bracket_of;
use crate::mark::{Mark, MarkKind};
use rust_lexer::{DocStyle, Lexer, Token, TokenKind};
use std::alloc::{AllocError, Global};

/// Where a token stands.
#[derive(Clone, Copy, Debug)]
pub(crate) struct Line {
    /// How far in its line begins.
    pub indent: usize,
    /// Whether only white space stands before it on its line.
    pub is_first: bool,
    /// The place behind the token before it that is no comment.
    pub behind: usize,
}

/// The marks of a text, and the place behind its last token that is no comment.
#[derive(Drop)]
pub(crate) struct Marks {
    pub items: Vec<Mark>,
    pub last: usize,
}

/// Passes a byte of white space.
fn pass_blank(line: Line, byte: u8) -> Line
    ensures { result ≡ spec.blank_behind line byte }
{
    if byte == b'\n' {
        return Line {
            indent: 0,
            is_first: true,
            behind: line.behind,
        };
    }
    if !line.is_first {
        return line;
    }
    let width = if byte == b'\t' { 4 } else { 1 };
    Line {
        indent: line.indent.saturating_add(width),
        is_first: true,
        behind: line.behind,
    }
}

/// Passes white space.
fn pass_blanks(line: Line, text: &[u8]) -> Line
    ensures { result ≡ spec.blanks_behind line text.now }
{
    let mut line = line;
    let mut rest = text;
    'blanks: while let Some((byte, behind)) = rest.split_first() {
        line = pass_blank(line, *byte);
        rest = behind;
    }
    line
}

/// Passes a token; but the place behind it.
fn pass_line(line: Line, token: &Token<'_>) -> Line
    ensures { result ≡ spec.line_by token.now.kind line token.now.text }
{
    match token.kind() {
        TokenKind::Whitespace => pass_blanks(line, token.text().as_bytes()),
        TokenKind::ByteOrderMark => line,
        _ => Line {
            indent: line.indent,
            is_first: false,
            behind: line.behind,
        },
    }
}

/// Whether a closer is put before such a token rather than behind it.
fn is_between(kind: TokenKind) -> bool
    ensures { result ≡ spec.is_between kind }
{
    matches!(
        kind,
        TokenKind::Whitespace
            | TokenKind::LineComment(_)
            | TokenKind::BlockComment(_)
            | TokenKind::ByteOrderMark
            | TokenKind::Shebang
            | TokenKind::Frontmatter
    )
}

/// The place behind the last token that is no comment.
fn place_behind(line: Line, token: &Token<'_>) -> usize
    ensures { result ≡ spec.place_behind line token.now }
{
    if is_between(token.kind()) {
        return line.behind;
    }
    token.end()
}

/// Passes a token.
fn pass(line: Line, token: &Token<'_>) -> Line
    ensures { result ≡ spec.line_behind line token.now }
{
    let passed = pass_line(line, token);
    Line {
        indent: passed.indent,
        is_first: passed.is_first,
        behind: place_behind(line, token),
    }
}

/// Whether an item may begin with a token.
fn may_begin(token: &Token<'_>) -> bool
    ensures { result ≡ spec.may_begin_item token.now.kind (symbol_of token.now) }
{
    match token.kind() {
        TokenKind::Ident
        | TokenKind::RawIdent
        | TokenKind::LineComment(Some(DocStyle::Outer))
        | TokenKind::BlockComment(Some(DocStyle::Outer)) => true,
        TokenKind::Punct => token.symbol() == b'#',
        _ => false,
    }
}

/// What a token is, if it tells where brackets end.
fn kind_of(line: Line, token: &Token<'_>) -> Option<MarkKind>
    ensures { result ≡ spec.mark_kind_of line token.now }
{
    let symbol = token.symbol();
    match symbol {
        b'{' | b'(' | b'[' => Some(MarkKind::Open(bracket_of(symbol))),
        b'}' | b')' | b']' => Some(MarkKind::Close(bracket_of(symbol))),
        _ => {
            if line.is_first && may_begin(token) {
                return Some(MarkKind::Item);
            }
            None
        }
    }
}

/// Adds the mark of a token, if it is one.
fn push_mark(line: Line, token: &Token<'_>, marks: &mut Vec<Mark>) -> Result<(), AllocError>
    ensures { OnOk result (marks.new.items ≡ marks.old.items
        ++ spec.and_marks (spec.mark_kind_of line token.now) line token.now []) }
{
    let Some(kind) = kind_of(line, token) else {
        return Ok(());
    };
    marks.push(Mark {
        kind,
        at: token.at(),
        behind: line.behind,
        indent: line.indent,
        begins_line: line.is_first,
    })?;
    Ok(())
}

/// The marks of a text.
#[tactic(auto, using(crate::proofs::MarkSteps::marks_step))]
pub(crate) fn read_marks(alloc: Global, text: &str) -> Result<Marks, AllocError>
    ensures items { IfOk result (λ m. m.items.items ≡ spec.marks text.now) }
    ensures last { IfOk result (λ m. m.last ≡ spec.last_end text.now) }
{
    let mut items = Vec::new(alloc);
    let mut line = Line {
        indent: 0,
        is_first: true,
        behind: 0,
    };
    let mut lexer = Lexer::new(text);
    'tokens: while let Some(token) = lexer.next() {
        push_mark(line, &token, &mut items)?;
        line = pass(line, &token);
    }
    Ok(Marks {
        items,
        last: line.behind,
    })
}
