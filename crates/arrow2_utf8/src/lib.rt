//! The test that the bytes between offsets are texts.
#![tactic(auto)]

mod specification;

pub use specification::{
    BrokenTextArray, BrokenTexts, text_at, try_check_offsets_and_utf8, try_check_offsets_bounds,
    try_check_utf8,
};
