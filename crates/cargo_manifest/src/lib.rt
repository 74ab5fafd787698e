//! What a Cargo manifest tells of its package: its edition, the files that its crates begin with, its features and the
//! crates that these know. Only texts are read, no file and no folder.
#![tactic(auto)]

mod dependencies;
mod enabled;
mod error;
mod features;
mod laws;
mod manifest;
mod package_fields;
mod read;
mod roots;
mod texts;

pub use dependencies::{Dependency, DependencyKind};
pub use enabled::{FeatureChoice, FeatureError};
pub use error::{Expected, ManifestError};
pub use features::Feature;
pub use manifest::Manifest;
pub use roots::{Root, RootKind};
