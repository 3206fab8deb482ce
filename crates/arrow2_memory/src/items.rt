//! The items that calls are made on.
use arrow2_bitmap::{Bitmap, MutableBitmap};
use arrow2_types::{Error, Result};
use std::alloc::Global;

/// Eighty bits that follow no pattern.
pub(crate) const BYTES: [u8; 10] = [0xb6, 0x5b, 0x0f, 0xe1, 0x27, 0x99, 0xd4, 0x3c, 0x72, 0xad];

/// Seventy of these bits, from bit `offset % 8` on. Where an allocation fails, the error is `Overflow`, as for each
/// input.
pub(crate) fn items(alloc: Global, offset: usize) -> Result<Bitmap> {
    let Ok(whole) = Bitmap::from_u8_slice(alloc, &BYTES, 80) else {
        return Err(Error::Overflow);
    };
    Ok(whole.sliced(offset % 8, 70))
}

/// A growing bitmap of seventy of these bits, from bit 1 on.
pub(crate) fn growing_items(alloc: Global) -> Result<MutableBitmap> {
    items(alloc, 1)?.make_mut()
}
