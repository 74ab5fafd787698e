//! What holds of the types and the tests here: `==` decides whether two values are one, and a copy is its source. The
//! derives are held to it by clauses. And no keyword is missed. The functions do nothing.
ghost use Rattle.std.specs.Prelude.{ℕ, ◌≡◌, List, false};
ghost use Rattle.hir_input.specs.Equality.{DecidesEq, IsCopied};
ghost use Rattle.rust_paths.specs.Names.{is_keyword, may_be_keyword};

use crate::names::TextRange;
use hir_input::EditionYear;

fn ranges()
    ensures equal { DecidesEq ⟦<TextRange as PartialEq>⟧.eq }
    ensures copied { IsCopied ⟦<TextRange as Clone>⟧.is_clone }
{}

// What can be no keyword is none of any edition.
#[tactic(auto, using(crate::proofs::Naming::no_keyword))]
fn no_keyword_is_missed()
    ensures { (edition : EditionYear) (w : List ℕ) → may_be_keyword w ≡ false
        → is_keyword edition w ≡ false }
{}
