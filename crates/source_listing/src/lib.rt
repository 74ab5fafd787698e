//! Lists of the items and of the problems of Rust source, with the line and the column of each.
#![tactic(auto)]

mod entries;
mod entry_lines;
mod found_texts;
mod import_texts;
mod json;
mod laws;
mod lines;
pub mod meta_cfgs;
mod objects;
mod outlines;
mod pages;
mod paths;
mod patterns;
mod place_finder;
mod printer;
mod problems;
pub mod scopes;
mod search;
mod sought;
mod subjects;
mod use_places;
mod uses;
mod values;

pub use entries::{Item, item_of};
pub use found_texts::found_lines;
pub use import_texts::push_import_text;
pub use json::{outline_items, outline_json};
pub use lines::{Choice, push_spot};
pub use outlines::{Look, outline};
pub use pages::without_ids;
pub use paths::{is_sought_path, push_scope, push_segment};
pub use patterns::{Pattern, sought_pattern};
pub use place_finder::PlaceFinder;
pub use problems::{problem_items, problem_lines, problem_message};
pub use search::{Candidate, Query, found_in, holder};
pub use sought::{SoughtPath, joined_scope, sought_path};
pub use source_rows::{Reading, Source};
pub use uses::UseTrees;
pub use values::{bytes_value, column_value, line_value, put_text, range_value, visibility_value};
