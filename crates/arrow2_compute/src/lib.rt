//! Functions on whole arrays of any type: those that select, join or choose items, and those that find nulls; and
//! comparisons, least and greatest items of arrays of byte strings, of texts and of booleans. Which value a result of
//! numbers or of booleans stores under a null is not specified, except by `comparison::binary::compare_each`.
#![tactic(auto)]

pub mod aggregate;
mod binary;
pub mod boolean;
pub mod comparison;
pub mod concatenate;
pub mod filter;
pub mod if_then_else;
pub mod take;
