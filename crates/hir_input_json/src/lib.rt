//! Syntax, conditions, attributes and editions, read from their forms in JSON, and syntaxes written in them (`write`).
//!
//! A form is a definition in `specs/`: from a JSON value to plain data, or to a pointer. Each function here that reads
//! one answers exactly its reading (`Reads`), or says where the first value stands that is not of its form, or that
//! memory ran out. Texts are moved and not copied: what is read is taken out of its object, which leaves a null.
#![tactic(auto)]

pub mod atom;
mod cfg;
mod context;
pub mod edition;
mod fault;
pub mod float;
mod item;
mod literal;
pub mod member;
pub mod meta;
pub mod name;
mod path;
mod pointer;
mod stmt;
pub mod syntax;
mod use_tree;
mod visibility;
pub mod write;

pub use fault::{Fault, ReadIn};
pub use pointer::Pointer;
