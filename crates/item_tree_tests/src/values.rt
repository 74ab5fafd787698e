//! Tests of `hir_input` and `item_tree_attrs`: copies, written use trees, what metas collect, and what stands where a
//! request for memory is refused.

mod copies;
mod no_memory;
mod refusals;
