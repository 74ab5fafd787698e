//! Mended texts.

ghost use Rattle.std.specs.Prelude.{◌≡◌, ◌<◌, [], IfOk, MatchOption, string_bytes, vec_len};
ghost use Rattle.std.specs.List.Sorted.{IsNonDecreasing};
ghost use Rattle.rust_mended.specs.Texts as spec;

use crate::edit::Edit;
use crate::ends::{end_all, take};
use crate::line::read_marks;
use crate::reached::with_closers;
use crate::replaced::with_edits;
use std::alloc::{AllocError, Global};
use std::collections::VecDeque;

/// The edits that mend a text, in the order of their places: all that is wrong with its brackets.
///
/// # Errors
///
/// Only if memory runs out.
#[tactic(auto, using(crate::proofs::MarkSteps::walked_whole), unfolding(crate::specs::Texts::edits))]
pub fn edits(alloc: Global, text: &str) -> Result<Vec<Edit>, AllocError>
    ensures { IfOk result (λ v. v.items ≡ spec.edits text.now) }
{
    let marks = read_marks(alloc, text)?;
    let mut marked = with_closers(alloc, &marks.items)?;
    let mut opened = VecDeque::new(alloc);
    let mut edits = Vec::new(alloc);
    'marks: while let Some(next) = marked.pop_front() {
        take(next, &mut opened, &mut edits)?;
    }
    end_all(marks.last, opened, &mut edits)?;
    Ok(edits)
}

/// The mended text of a text, and the way back.
#[derive(Drop)]
pub struct Mended {
    pub text: String,
    /// What was done to the text, in the order of the places.
    pub edits: Vec<Edit>,
    /// The places in the mended text of the closers that were put.
    pub puts: Vec<usize>,
    ghost rising: { IsNonDecreasing puts.items },
}

/// Mends the brackets of a text. Which bracket nothing closes is seen by the order of brackets, and for a brace that is
/// directly in such a bracket by the indentation of its `}` too. It is closed where lines show that it ends, and a
/// closer that closes nothing is left out. Lines stay. It is `None` where nothing has to be done, as where all brackets
/// match. A closer that is put after a literal that nothing closes falls into that, also in the middle of a text: a `'`
/// that nothing closes ends with its line.
///
/// # Errors
///
/// Only if memory runs out.
#[tactic(auto, unfolding(crate::specs::Texts::mended_text, crate::specs::Texts::puts), using(crate::proofs::Puts::text_edits_fit),)]
pub fn mend(alloc: Global, text: &str) -> Result<Option<Mended>, AllocError>
    ensures text { IfOk result (λ found. MatchOption found (spec.mended_text text.now ≡ text.now)
        (λ m. string_bytes m.text ≡ spec.mended_text text.now)) }
    ensures edits { IfOk result (λ found. MatchOption found (spec.edits text.now ≡ [])
        (λ m. (m.edits.items ≡ spec.edits text.now) × (0 < vec_len m.edits))) }
    ensures puts { IfOk result (λ found. MatchOption found (spec.puts text.now ≡ [])
        (λ m. m.puts.items ≡ spec.puts text.now)) }
{
    let edits = edits(alloc, text)?;
    if edits.is_empty() {
        return Ok(None);
    }
    let (mended, puts) = with_edits(alloc, text, &edits)?;
    Ok(Some(Mended {
        text: mended,
        edits,
        puts,
    }))
}

impl Mended {
    /// The place in the text of what stands here in the mended one. A closer that was put stands where it was put.
    pub fn place(&self, at: usize) -> usize
        ensures { result ≡ spec.place_back_by self.now.puts.items at }
    {
        at.saturating_sub(self.puts.partition_point(|put| *put < at))
    }
}
