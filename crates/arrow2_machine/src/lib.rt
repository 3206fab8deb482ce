//! The machine of a script: sixteen slots, the effect of each line on them, and the replies to all lines.
#![tactic(auto)]

mod arrays;
mod bitmaps;
mod growth;
mod kernels;
pub mod line_error;
pub mod machine;
mod offsets;
mod ranges;
mod replies;
mod slot;
mod storage;
mod values;
