//! What follows from what ids are; the function does nothing.

ghost use Rattle.rust_ids.specs.Ids.{AreDetermined};

// The items determine the ids.
#[tactic(auto, using(crate::proofs::Consequences::determined))]
fn ids_are_determined()
    ensures { AreDetermined }
{}
