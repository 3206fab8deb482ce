//! Laws of the definitions of offsets. Each is the contract of a function with an empty body.
ghost use Rattle.std.specs.Prelude.{◌≡◌, ℕ, ℤ, ◌+◌, ◌≤◌, ◌++◌, ◌↔◌, List, length, map, pos, slice_index_or};
ghost use Rattle.arrow2_model.specs.Lists.{BufferStorage, buffer_items, whole_buffer};
ghost use Rattle.arrow2_offset.specs.Offsets.{running_sums, offsets_list, offset_at, last_offset, AreOffsets, start_of, lengths_of, GrowingOffsets, SameOffsets, offsets_of};

/// A list of signed numbers is a list of offsets exactly if it is the `offsets_list` of some start and some lengths.
/// Then the start is its `start_of`, and the lengths are its `lengths_of`.
#[tactic(auto, using(crate::proofs::OffsetLaws::listed))]
pub fn offsets_are_a_start_and_lengths()
    ensures list { (xs : List ℤ) → AreOffsets xs →
        xs ≡ map pos (offsets_list (start_of xs) (lengths_of xs)) }
    ensures offsets { (start : ℕ) (lengths : List ℕ) →
        AreOffsets (map pos (offsets_list start lengths)) }
    ensures start { (start : ℕ) (lengths : List ℕ) →
        start_of (map pos (offsets_list start lengths)) ≡ start }
    ensures lengths { (start : ℕ) (lengths : List ℕ) →
        lengths_of (map pos (offsets_list start lengths)) ≡ lengths }
{}

/// Item k of the list of offsets is `offset_at`: the start plus the sum of the first k lengths. No offset is above the
/// last one. There is one offset more than there are lengths.
#[tactic(auto, using(crate::proofs::OffsetLaws::listed))]
pub fn offset_is_a_sum()
    ensures sum { (start : ℕ) (lengths : List ℕ) (k : ℕ) → k ≤ length lengths →
        slice_index_or (offsets_list start lengths) k 0 ≡ offset_at start lengths k }
    ensures last { (start : ℕ) (lengths : List ℕ) (k : ℕ) →
        offset_at start lengths k ≤ last_offset start lengths }
    ensures count { (start : ℕ) (lengths : List ℕ) →
        length (offsets_list start lengths) ≡ length lengths + 1 }
{}

/// Appending lengths keeps all old offsets, and appends one offset for each new length: the old last offset plus the
/// sum of the new lengths up to and including this one.
#[tactic(auto, using(crate::proofs::OffsetLaws::listed))]
pub fn appended_lengths_append_offsets()
    ensures { (start : ℕ) (lengths others : List ℕ) →
        offsets_list start (lengths ++ others) ≡ offsets_list start lengths
        ++ running_sums (last_offset start lengths) others }
{}

/// Lists of offsets are equal exactly if their starts and their lengths are.
#[tactic(auto, using(crate::proofs::OffsetLaws::listed))]
pub fn lists_tell_starts_and_lengths_apart()
    ensures { (a b : ℕ) (ms ns : List ℕ) →
        offsets_list a ms ≡ offsets_list b ns ↔ ((a ≡ b) × (ms ≡ ns)) }
{}

/// Converting offsets of 32 bits to 64 bits and back gives the same list, if both conversions succeed. `growing` is
/// about `Offsets`, `shared` about `OffsetsBuffer`. The premises are what the contracts of the conversions state.
#[tactic(auto, using(crate::proofs::OffsetLaws::listed))]
pub fn offsets_converted_back_are_equal()
    ensures growing { (narrow wide back : GrowingOffsets) → SameOffsets narrow wide →
        SameOffsets wide back → offsets_of back ≡ offsets_of narrow }
    ensures shared { (narrow wide back : BufferStorage ℤ) →
        wide ≡ whole_buffer (buffer_items narrow) → back ≡ whole_buffer (buffer_items wide) →
        buffer_items back ≡ buffer_items narrow }
{}
