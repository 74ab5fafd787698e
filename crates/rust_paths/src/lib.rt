//! Names, paths, visibilities and use trees, read from the tokens of Rust source text.
#![tactic(auto)]

mod laws;
mod meaning;
mod names;
mod paths;
mod use_trees;
mod visibilities;

pub use names::{
    KEYWORDS, KEYWORDS_SINCE_2018, KEYWORDS_SINCE_2024, PlacedName, TextRange, behind_hash,
    has_name, is_path_keyword, may_be_keyword, name, placed_name,
};
pub use paths::{is_segment, path};
pub use use_trees::{FoundUseTree, TreeStarts, pass_comma, use_tree};
pub use visibilities::visibility;
