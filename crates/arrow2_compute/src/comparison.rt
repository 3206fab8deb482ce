//! Comparisons of byte strings, of texts and of booleans. Those of numbers are in `arrow2_numeric`.

pub mod binary;
pub mod boolean;
