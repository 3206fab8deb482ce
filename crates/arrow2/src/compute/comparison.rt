//! Comparisons: of numbers in this module, of byte strings and of texts in `binary`, of booleans in `boolean`.

pub use arrow2_compute::comparison::{binary, boolean};
pub use arrow2_numeric::comparison::{
    compare_each, eq, eq_scalar, gt, gt_eq, gt_eq_scalar, gt_scalar, lt, lt_eq, lt_eq_scalar,
    lt_scalar, neq, neq_scalar,
};
