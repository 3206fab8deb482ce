//! Offsets, which are where the values of binary, text and list arrays begin: offsets that grow, and offsets that are
//! shared.

pub use arrow2_index::{Offset, OffsetNumber};
pub use arrow2_offset::{BrokenRule, Lengths, Offsets, OffsetsBuffer, broken_rule};
