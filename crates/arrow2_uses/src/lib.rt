//! Small callers of the memory layer, each with a contract of its own. They name the crate `arrow2` alone.
#![tactic(auto)]

pub mod buffers;
pub mod columns;
pub mod comparisons;
pub mod dictionary;
pub mod first;
pub mod generic;
pub mod kernels;
pub mod loops;
pub mod runs;
pub mod schemas;
pub mod texts;
pub mod validity;
