//! What lists read of a text, also of a damaged one, and tell of items beside the tree, as the type and the trait of an
//! impl, and members that have a name.
#![tactic(auto)]

mod blanks;
mod enabled;
mod finder;
mod headers;
mod labels;
mod laws;
mod listed;
mod listed_files;
mod members;
mod mended;
mod mended_file;
mod places;
mod read_texts;
mod reading;
mod source;
mod types;

pub use finder::{Finder, Spot, stand_of, stands_at};
pub use headers::header;
pub use labels::{KindTexts, item_word, kind_texts, member_word, text_at, text_at_some};
pub use listed::ListedMember;
pub use listed_files::{ListedFile, read_listed};
pub use members::members_in;
pub use mended::told_item;
pub use mended_file::MendedFile;
pub use places::Places;
pub use read_texts::{ReadError, read_text};
pub use reading::Reading;
pub use source::{Source, push_place};
pub use types::is_of_trait;
