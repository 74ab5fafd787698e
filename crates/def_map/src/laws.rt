//! What holds of the imports of every crate. The functions do nothing.
ghost use Rattle.std.specs.Prelude.{List, Option, ℕ};
ghost use Rattle.def_map.specs.Closing.{ClosesAlike};
ghost use Rattle.def_map.specs.Crates.{Crate};
ghost use Rattle.def_map.specs.Laws.{CompletesItself, StaysTooWide, StaysWrong};
ghost use Rattle.def_map.specs.Numbers.{NumbersKeep};
ghost use Rattle.def_map.specs.Told.{ArePrivate, FindsAllFacts, IsToldRightly, VerdictsAlike};
ghost use Rattle.def_map.specs.declared.facts.{Fact.Fact as LoopFact, ImportTable.ImportTable};

// What is told as wrong is wrong in each completion.
fn stays_wrong<N, I>()
    ensures fails { (c d : Crate N I) → StaysWrong c d }
    ensures too_wide { (c d : Crate N I) → StaysTooWide c d }
{}

fn completions<N, I>()
    ensures { (c : Crate N I) → CompletesItself c }
{}

// By numbers for names and items the same is derived, but for names that no path asks for, and the same is told.
fn by_numbers<N, I, M, J>()
    ensures facts { (number : N → Option M) (item : I → J) (c : Crate N I) → NumbersKeep number item c }
    ensures verdicts { (number : N → Option M) (item : I → J) (c : Crate N I) → VerdictsAlike number item c }
{}

// The loop finds what is derived.
fn by_loop()
    ensures closes { (c : Crate ℕ ℕ) (t : ImportTable) (seeds : List LoopFact) → ClosesAlike c t seeds }
    ensures finds { (c : Crate ℕ ℕ) (t : ImportTable) (seeds facts : List LoopFact) → FindsAllFacts c t seeds facts }
    ensures private { (c : Crate ℕ ℕ) (t : ImportTable) (facts : List LoopFact) → ArePrivate c t facts }
    ensures told { (c : Crate ℕ ℕ) (t : ImportTable) (facts : List LoopFact) → IsToldRightly c t facts }
{}
