//! Cuts Rust source text into its tokens, and loses none of it.
#![tactic(auto)]

mod bytes;
mod comment;
mod cut;
mod depth;
mod frontmatter;
mod identifier;
mod kind;
mod lexer;
mod number;
mod prefix;
mod quoted;
mod stops;
mod token;
mod words;

pub use depth::Depth;
pub use identifier::is_identifier;
pub use kind::{DocStyle, LiteralKind, TokenKind};
pub use lexer::{Lexer, tokenize};
pub use token::Token;
