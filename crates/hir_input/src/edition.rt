//! Editions.
ghost use Rattle.std.specs.Prelude.{◌≡◌};
ghost use Rattle.hir_input.specs.Name.{is_among};
ghost use Rattle.hir_input.specs.Edition.{edition_view};

use crate::name::Name;
use std::alloc::AllocError;

/// The year of an edition. rust-analyzer's `Edition`.
#[derive(Clone, Copy, Debug, PartialEq, Eq)]
pub enum EditionYear {
    /// Rust 2015.
    E2015,
    /// Rust 2018.
    E2018,
    /// Rust 2021.
    E2021,
    /// Rust 2024.
    E2024,
}

/// An edition: its year, which changes no text, and its reserved words, which are displayed with `r#`.
/// rust-analyzer has the words in its tables of syntax kinds.
#[derive(Debug, Drop, PartialEq, Eq)]
pub struct Edition {
    pub year: EditionYear,
    pub reserved: Vec<Name>,
}

impl Edition {
    // Whether the name is a reserved word.
    pub(crate) fn reserves(&self, name: &Name) -> bool
        ensures { result ≡ is_among self.now.reserved.items name.now }
    {
        self.reserved.iter().any(|word| word == name)
    }
}

impl Clone for Edition {
    ghost is_clone = { λ edition copy. edition_view copy ≡ edition_view edition };

    fn clone(&self) -> Result<Edition, AllocError> {
        let reserved = self.reserved.clone()?;
        Ok(Edition {
            year: self.year,
            reserved,
        })
    }
}
