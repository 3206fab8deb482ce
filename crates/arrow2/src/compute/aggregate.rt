//! Sums, and the least and the greatest item: of numbers by `sum`, `min` and `max`, of byte strings and of texts by
//! `min_binary` and `max_binary`, of booleans by `min_boolean` and `max_boolean`.

pub use arrow2_compute::aggregate::{max_binary, max_boolean, min_binary, min_boolean};
pub use arrow2_numeric::aggregate::{WholeNumber, max, min, sum};
