//! Tests of what only a call can show of the table of trees: an example of use, the texts of refusals, and what stands
//! where a request for memory is refused.

pub(crate) mod example;
mod indexes;
mod no_memory;
mod options;
mod refusals;
pub(crate) mod table;
