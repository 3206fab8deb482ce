//! Checks of offsets and of the values between them.

pub use arrow2_utf8::{
    BrokenTextArray, BrokenTexts, text_at, try_check_offsets_and_utf8, try_check_offsets_bounds,
    try_check_utf8,
};
