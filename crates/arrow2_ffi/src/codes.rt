//! The codes that an export returns. With any code but [`ARROW2_OK`] nothing was written, with one exception: a check
//! that returns `ARROW2_SPEC_FALLING`, `ARROW2_PAST`, `ARROW2_UTF8` or `ARROW2_INDEX`, and has an argument `index` or
//! `slot`, writes there the position of the first fault.

/// The call succeeded.
pub const ARROW2_OK: u32 = 0;

/// An index or a range is out of bounds, or the number of a truth table is too large.
pub const ARROW2_RANGE: u32 = 1;

/// An output slice does not have exactly the number of items that the call needs, or two paired slices differ in
/// length. In a rebase call: `out` has no item.
pub const ARROW2_LENGTH: u32 = 2;

/// A number is above the greatest offset: 2147483647 for 32 bits, 9223372036854775807 for 64 bits.
pub const ARROW2_OVERFLOW: u32 = 3;

/// An allocation failed. No call allocates, so none returns it.
pub const ARROW2_MEMORY: u32 = 4;

/// The slice of offsets is empty: at least one is needed.
pub const ARROW2_SPEC_EMPTY: u32 = 5;

/// The first offset is negative.
pub const ARROW2_SPEC_NEGATIVE: u32 = 6;

/// The first offset is not negative, and some offset is below the one before it.
pub const ARROW2_SPEC_FALLING: u32 = 7;

/// The number of nulls is not the declared one.
pub const ARROW2_NULLS: u32 = 8;

/// An offset is greater than the number of bytes, or of child items, that the offsets point into.
pub const ARROW2_PAST: u32 = 9;

/// The bytes of a slot are not UTF-8.
pub const ARROW2_UTF8: u32 = 10;

/// An index that is not null is negative, or not below the number of items that it points into.
pub const ARROW2_INDEX: u32 = 11;

// The header and callers have these numbers.
const _: () = prove!(ARROW2_OK == 0);

const _: () = prove!(ARROW2_RANGE == 1);

const _: () = prove!(ARROW2_LENGTH == 2);

const _: () = prove!(ARROW2_OVERFLOW == 3);

const _: () = prove!(ARROW2_MEMORY == 4);

const _: () = prove!(ARROW2_SPEC_EMPTY == 5);

const _: () = prove!(ARROW2_SPEC_NEGATIVE == 6);

const _: () = prove!(ARROW2_SPEC_FALLING == 7);

const _: () = prove!(ARROW2_NULLS == 8);

const _: () = prove!(ARROW2_PAST == 9);

const _: () = prove!(ARROW2_UTF8 == 10);

const _: () = prove!(ARROW2_INDEX == 11);
