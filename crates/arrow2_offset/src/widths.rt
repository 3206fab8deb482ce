//! Numbers of 32 bits written as numbers of 64 bits, and back. Neither function allocates.
//!
//! arrow2 has these loops only inside its conversions.
ghost use Rattle.std.specs.Prelude.{◌≡◌, length};
ghost use Rattle.arrow2_offset.specs.Offsets.{AreOffsetsUpTo};

/// Writes the numbers to `out`, in 64 bits each. Requires slices of equal length.
pub fn write_wide(numbers: &[i32], out: &mut [i64])
    requires same_length { length out.old ≡ length numbers.now }
    ensures { out.new ≡ numbers.now }
{
    for i in 0..out.len() {
        out[i] = i64::from(numbers[i]);
    }
}

/// Writes the offsets to `out`, in 32 bits each. Requires slices of equal length, that the numbers are offsets (so at
/// least one), and that the last one is at most `i32::MAX`.
pub fn write_narrow(offsets: &[i64], out: &mut [i32])
    requires same_length { length out.old ≡ length offsets.now }
    requires fits { AreOffsetsUpTo 2147483647 offsets.now }
    ensures { out.new ≡ offsets.now }
{
    for i in 0..out.len() {
        out[i] = offsets[i] as i32;
    }
}
