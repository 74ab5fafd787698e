//! Written syntaxes for the tests, made of plain words and numbers.
//!
//! Nothing is promised of their values: a test is run. Each error is that memory ran out.

pub mod attributes;
pub mod blocks;
pub mod file;
pub mod items;
pub mod memory;
pub mod use_trees;
pub mod words;
mod written;
