//! The tests that run where memory is refused, with what they share with the other tests of the libraries, and one that
//! takes too long unproved. The others are in `tests/library`, run without a proof.
//!
//! They are one crate, since each crate that drops a tree or a syntax proves anew how each of its parts is dropped;
//! `samples` has the syntaxes that the tests share. They call what is public, so no library has any.
//!
//! A test asserts what a function of its own answers: a test that holds a tree, fails by `Fail` or compares texts
//! itself is proved slowly.
//!
//! A plain run refuses no memory, and compares each answer. `tests/refused_memory.sh` runs the tests whose names hold
//! `when_memory_is_refused` once for each request that they make, with that one refused, and those whose names hold
//! `where_no_memory_is_left` with all refused from a mark on.
#![tactic(auto)]

#[cfg(test)]
mod copies;
#[cfg(test)]
mod db;
#[cfg(test)]
mod declarations;
#[cfg(test)]
mod imports;
#[cfg(test)]
mod items;
#[cfg(test)]
mod ladder;
#[cfg(test)]
mod long_lines;
#[cfg(test)]
mod lowered;
#[cfg(test)]
mod no_memory;
#[cfg(test)]
mod outlines;
#[cfg(test)]
mod read_blocks;
#[cfg(test)]
mod read_texts;
#[cfg(test)]
mod refusals;
#[cfg(test)]
mod rests;
#[cfg(test)]
mod runs;
#[cfg(test)]
mod samples;
#[cfg(test)]
mod streams;
#[cfg(test)]
mod trees;
#[cfg(test)]
mod use_trees;
#[cfg(test)]
mod values;
