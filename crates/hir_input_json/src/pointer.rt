//! Where a value of wrong form stands.
ghost use Rattle.std.specs.Prelude.{◌≡◌, ◌++◌, [], IfOk, OnOk, decimal, encode_utf8, string_bytes};
ghost use Rattle.hir_input_json.specs.Reading.{pointer_behind, pointer_step};

use std::alloc::{AllocError, Global};
use std::marker::Model;

/// Where a value stands in another one that it is part of: a JSON Pointer (RFC 6901), which is empty for the other one
/// itself.
#[derive(Debug, Drop)]
pub struct Pointer {
    text: String,
}

impl Model for Pointer {
    ghost use Rattle.std.specs.Prelude.{ℕ, List};
    ghost use Rattle.std.specs.String.{string_bytes};

    ghost Value = { List ℕ };

    ghost view = { λ p. string_bytes p.text };
}

#[tactic(auto, using(crate::proofs::Pointers::char_steps))]
fn push_char(c: char, step: &mut String) -> Result<(), AllocError>
    ensures { OnOk result (string_bytes step.new ≡ string_bytes step.old
        ++ pointer_step (encode_utf8 c)) }
{
    match c {
        '~' => step.push_str("~0"),
        '/' => step.push_str("~1"),
        _ => step.push(c),
    }
}

// A key as a pointer has it.
fn step_of(alloc: Global, key: &str) -> Result<String, AllocError>
    ensures { IfOk result (λ step. string_bytes step ≡ pointer_step key.now) }
{
    let mut step = String::new(alloc);
    for c in key.chars() {
        push_char(c, &mut step)?;
    }
    Ok(step)
}

impl Pointer {
    /// To the value itself. Takes no memory.
    pub fn new(alloc: Global) -> Pointer
        ensures { result ≡ [] }
    {
        Pointer {
            text: String::new(alloc),
        }
    }

    /// To the same value, from the object that holds the other one at this key, whatever key it is.
    ///
    /// # Errors
    ///
    /// Only if memory runs out.
    pub fn in_member(self, alloc: Global, key: &str) -> Result<Pointer, AllocError>
        ensures { IfOk result (λ p. p ≡ pointer_behind key.now self) }
    {
        let step = step_of(alloc, key)?;
        let text = format!(in alloc; "/{step}{}", self.text)?;
        Ok(Pointer { text })
    }

    /// To the same value, from the array that holds the other one at this place, counted from 0.
    ///
    /// # Errors
    ///
    /// Only if memory runs out.
    #[tactic(auto, using(crate::proofs::Pointers::digits_stay))]
    pub fn in_item(self, alloc: Global, place: usize) -> Result<Pointer, AllocError>
        ensures { IfOk result (λ p. p ≡ pointer_behind (decimal place) self) }
    {
        let text = format!(in alloc; "/{place}{}", self.text)?;
        Ok(Pointer { text })
    }

    /// Its text.
    pub fn text(&self) -> &str
        ensures { result.now ≡ self.now }
    {
        self.text.as_str()
    }
}
