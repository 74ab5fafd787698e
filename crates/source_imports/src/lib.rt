//! Lists of the imports of Rust source, with the place of each; those that repeat an earlier one; and the bytes that
//! must go for one to go.
#![tactic(auto)]

mod import_cfgs;
mod import_exclusion;
mod import_objects;
mod import_repeats;
mod imports;
mod laws;
mod removals;
mod repeated;

pub use import_cfgs::{ImportChoice, UseCfgs, file_cfgs};
pub use import_objects::import_items;
pub use import_repeats::repeat_lines;
pub use imports::import_lines;
pub use repeated::{RepeatedImport, repeated_imports};
