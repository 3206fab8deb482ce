//! Functions on whole arrays. The modules have the names that they have in arrow2, except that `comparison` has no
//! `primitive` and no `utf8`: it compares numbers itself, and texts in `comparison::binary`.

pub mod aggregate;
pub mod comparison;

pub use arrow2_compute::{boolean, concatenate, filter, if_then_else, take};
pub use arrow2_numeric::cast;
