//! Which items of an array are not null: an optional bitmap and the number of items.
#![tactic(auto)]

pub mod fmt;
mod validity;

pub use validity::{Validity, check_same_length};
