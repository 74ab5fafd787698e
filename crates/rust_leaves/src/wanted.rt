//! What is wanted of items.

use rust_metas::WantedMetas;

/// What of items is wanted beside what they declare.
#[derive(Clone, Copy)]
pub struct Wanted {
    /// The texts of their bodies; else these are empty.
    pub bodies: bool,
    /// Their metas.
    pub metas: WantedMetas,
}
