//! Names.
ghost use Rattle.std.specs.Prelude.{◌≡◌, ◌↔◌, IsTrue, nat_eq};
ghost use Rattle.std.specs.Option.{SomeIff};
ghost use Rattle.std.specs.String.{string_bytes};
ghost use Rattle.std.specs.Hash as fed;
ghost use Rattle.std.specs.Cmp.Lexicographic.{pointwise, nat_list_eq_equiv};
ghost use Rattle.std.specs.Cmp.{partial_equiv_from_equiv};
ghost use Rattle.std.specs.Cmp.Rules.{hashing};
ghost use Rattle.std.proofs.Common.{rules};
ghost use Rattle.hir_input.specs.Name.{IsName, name_in};

use std::alloc::AllocError;
use std::hash::{Hash, Hasher};
use std::marker::Model;

/// A name: a text that is not empty and holds no line feed.
///
/// Stands for rust-analyzer's `Name`. Two names are equal, and hash alike, where their texts are.
#[derive(Debug)]
pub struct Name {
    text: String,
}

// (Written out: what is derived is proved anew, field by field, in each crate that drops one.)
impl Drop for Name {
    fn drop(self) {
        let Name { text: _ } = self;
    }
}

impl Model for Name {
    ghost use Rattle.std.specs.Prelude.{ℕ, List};
    ghost use Rattle.std.specs.String.{string_bytes};
    ghost use Rattle.hir_input.specs.Name.{IsName};

    ghost Value = { List ℕ };

    ghost view = { λ n. string_bytes n.text };

    ghost invariant = { λ n. IsName (string_bytes n.text) };
}

impl Name {
    /// The name with this text, or `None` where the text is empty or holds a line feed.
    #[tactic(auto, using(crate::proofs::Naming::new_name))]
    pub fn new(text: String) -> Option<Name>
        ensures some { SomeIff result (IsName (string_bytes text)) (string_bytes text) }
        ensures is { result ≡ name_in (string_bytes text) }
    {
        if text.is_empty() || text.as_bytes().contains(&b'\n') {
            return None;
        }
        Some(Name { text })
    }

    /// The text. rust-analyzer's `Name::as_str`.
    pub fn text(&self) -> &str
        ensures value { result.now ≡ self.now }
        ensures name { IsName self.now }
    {
        self.text.as_str()
    }
}

impl Clone for Name {
    ghost is_clone = { λ name copy. copy ≡ name };

    fn clone(&self) -> Result<Name, AllocError> {
        let text = self.text.clone()?;
        Ok(Name { text })
    }
}

impl PartialEq for Name {
    ghost eq = { pointwise nat_eq };

    ghost laws = { partial_equiv_from_equiv nat_list_eq_equiv };

    fn eq(&self, other: &Name) -> bool
        ensures decides { IsTrue result ↔ (self.now ≡ other.now) }
        ensures gives { result ≡ pointwise nat_eq self.now other.now }
    {
        self.text() == other.text()
    }
}

impl Eq for Name {
    ghost laws = { nat_list_eq_equiv };
}

impl Hash for Name {
    ghost hash_input = { fed.str };

    ghost respects_eq = { Prim.search (hashing, rules) };

    fn hash<H: Hasher>(&self, state: &mut H) {
        self.text().hash(state);
    }
}
