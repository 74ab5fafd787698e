//! The syntax of a file, written as the JSON that is read here.
//!
//! What is written is read again as exactly the syntax that was handed in, or as that syntax without its body texts. A
//! syntax that no JSON is read as has no form: one with a rename to a name `_`, or with a literal whose span is in
//! another context than its meta.

pub mod cfg;
mod context;
mod extern_block;
pub mod fault;
mod item;
mod kinds;
mod literal;
mod meta;
pub mod name;
mod node;
pub mod object;
mod path;
mod plain;
pub mod syntax;
mod use_tree;
mod values;
mod visibility;

pub use context::year_number;
pub use fault::WriteFault;
pub use syntax::syntax_value;
