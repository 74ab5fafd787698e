//! The imports of a crate: what each leads to, and which lead nowhere whatever macros and other crates hold.
#![tactic(auto)]

mod attributes;
mod closure;
mod collect;
mod ctx;
mod def_map;
mod fact_index;
mod facts;
mod files;
mod gather;
mod kinds;
mod language;
mod laws;
mod leaves;
mod lower;
mod module_index;
mod numbers;
mod outside;
mod private;
mod push;
mod row_laws;
mod rows;
mod rules;
mod seeds;
mod sight;
mod sources;
mod targets;
mod told;
mod verdict;
mod visibility;
mod walk;

pub use closure::{ClosureError, MOST_FACTS, MOST_JOINS};
pub use def_map::{DefMapError, ResolvedImport, resolve_imports};
pub use kinds::{Namespace, Visibility};
pub use numbers::NumbersError;
pub use sources::{CrateSources, Manifest};
pub use targets::Target;
pub use verdict::Verdict;
