//! For a list of offsets: where a slot starts and ends, and the sum of all lengths.
ghost use Rattle.std.specs.Prelude.{◌≡◌, ◌+◌, ◌<◌, ◌≤◌, length, map, sum, slice_index_or};
ghost use Rattle.arrow2_offset.specs.Offsets.{AreOffsets, offset_at, start_of, lengths_of, last_of};

use arrow2_index::OffsetNumber;

/// Returns the sum of the lengths between the offsets. Requires that the numbers are offsets.
pub(crate) fn total_length<O: OffsetNumber>(offsets: &[O]) -> usize
    requires { AreOffsets (map O.value offsets.now) }
    ensures { result ≡ sum (lengths_of (map O.value offsets.now)) }
{
    offsets[0].distance(offsets[offsets.len() - 1])
}

/// Returns where slot `index` starts and where it ends. The end is at most the last offset. Requires that the numbers
/// are offsets, and that `index` is below the number of slots.
#[tactic(auto, using(crate::proofs::BufferParts::frozen))]
pub(crate) fn slot_span<O: OffsetNumber>(offsets: &[O], index: usize) -> (usize, usize)
    requires valid { AreOffsets (map O.value offsets.now) }
    requires inside { index < length (lengths_of (map O.value offsets.now)) }
    ensures start { result.0 ≡ offset_at (start_of (map O.value offsets.now))
        (lengths_of (map O.value offsets.now)) index }
    ensures end { result.1 ≡ result.0
        + slice_index_or (lengths_of (map O.value offsets.now)) index 0 }
    ensures within { result.1 ≤ last_of (map O.value offsets.now) }
{
    (offsets[index].as_usize(), offsets[index + 1].as_usize())
}
