//! Aggregates of all items of an array: the sum, the least item and the greatest item.
ghost use Rattle.std.specs.Prelude.{◌≡◌, ◌<◌, ◌≤◌, ◌+◌, ◌-◌, ◌*◌, ◌^◌, ◌≤ℤ◌, ◌+ℤ◌, ◌*ℤ◌, [], ◌∷◌, None, ℤ, length, pos, negsuc, FitsSigned, IsTrue};
ghost use Rattle.std.specs.Int.{w128};
ghost use Rattle.std.specs.Option.{option_map_or};
ghost use Rattle.std.specs.Ordering.{is_le, is_ge, ord_min, ord_max};
ghost use Rattle.arrow2_numeric.specs.Aggregates.{best_from, sum_of, sum_of_non_null, IsExtremum, IsInSumRange};
ghost use Rattle.arrow2_model.specs.Lists.{unnum, items_of};
ghost use Rattle.arrow2_primitive.specs.Primitive.{primitive_items};
ghost use Rattle.arrow2_walks.specs.Selections.{non_null_values, selection};

use crate::masked_blocks::MaskedBlocks;
use arrow2_bitmap::Bitmap;
use arrow2_chunk::BitChunkOnes;
use arrow2_primitive::PrimitiveArray;
use arrow2_types::NativeType;

/// The greatest number of values that [`sum_of_block`] takes. Up to it, the sum of the upper halves fits an `i64`, and
/// the sum of the lower halves, of 32 bits each, fits a `u64`.
const BLOCK: usize = 1 << 31;

/// A native type of whole numbers of at most 64 bits. The sum of the values of any slice fits an `i128`.
pub trait WholeNumber: NativeType {
    // The number that a value stands for.
    ghost integer: { Self → ℤ };

    /// Returns the number as an `i128`.
    fn to_i128(self) -> i128
        ensures value { result ≡ integer self }
        ensures low { negsuc (2 ^ 63 - 1) ≤ℤ result }
        ensures high { result ≤ℤ pos (2 ^ 64 - 1) };

    /// Returns the number of values. It is below 2⁶³, since a slice has fewer than 2⁶³ bytes, and each value has at
    /// least one. The proofs of `sum_of_values` and of `sum_of_valid` need this bound.
    fn count(values: &[Self]) -> usize
        ensures value { result ≡ length values.now }
        ensures few { result < 2 ^ 63 };
}

impl WholeNumber for i8 {
    ghost integer = { λ x. x };

    fn to_i128(self) -> i128 {
        self as i128
    }

    fn count(values: &[i8]) -> usize {
        values.len()
    }
}

impl WholeNumber for i16 {
    ghost integer = { λ x. x };

    fn to_i128(self) -> i128 {
        self as i128
    }

    fn count(values: &[i16]) -> usize {
        values.len()
    }
}

impl WholeNumber for i32 {
    ghost integer = { λ x. x };

    fn to_i128(self) -> i128 {
        self as i128
    }

    fn count(values: &[i32]) -> usize {
        values.len()
    }
}

impl WholeNumber for i64 {
    ghost integer = { λ x. x };

    fn to_i128(self) -> i128 {
        self as i128
    }

    fn count(values: &[i64]) -> usize {
        values.len()
    }
}

impl WholeNumber for u8 {
    ghost integer = { λ x. pos x };

    fn to_i128(self) -> i128 {
        self as i128
    }

    fn count(values: &[u8]) -> usize {
        values.len()
    }
}

impl WholeNumber for u16 {
    ghost integer = { λ x. pos x };

    fn to_i128(self) -> i128 {
        self as i128
    }

    fn count(values: &[u16]) -> usize {
        values.len()
    }
}

impl WholeNumber for u32 {
    ghost integer = { λ x. pos x };

    fn to_i128(self) -> i128 {
        self as i128
    }

    fn count(values: &[u32]) -> usize {
        values.len()
    }
}

impl WholeNumber for u64 {
    ghost integer = { λ x. pos x };

    fn to_i128(self) -> i128 {
        self as i128
    }

    fn count(values: &[u64]) -> usize {
        values.len()
    }
}

/// Returns the exact sum of the items that are not null, or 0 where each item is null. Does not allocate.
///
/// Stands for arrow2's `sum_primitive`, whose result has the type of the items, wraps, and is `None` where each item is
/// null.
pub fn sum<T: WholeNumber>(array: &PrimitiveArray<T>) -> i128
    ensures { result ≡ sum_of_non_null T.integer (primitive_items array.now) }
{
    let values = array.values().as_slice();
    match array.optional_validity().bitmap() {
        Some(validity) => sum_of_valid(values, validity),
        None => sum_of_values(values),
    }
}

/// Returns the sum of these values.
fn sum_of_values<T: WholeNumber>(values: &[T]) -> i128
    ensures { result ≡ sum_of T.integer values.now }
{
    let count = T::count(values);
    let mut total = 0i128;
    let mut start = 0;
    while count - start > BLOCK {
        total = exact_sum(total, sum_of_block(&values[start..start + BLOCK]));
        start += BLOCK;
    }
    exact_sum(total, sum_of_block(&values[start..]))
}

/// Returns the sum of at most [`BLOCK`] values. Adds up their upper and their lower halves, each sum in 64 bits: this
/// loop vectorizes, and a sum in 128 bits does not.
fn sum_of_block<T: WholeNumber>(values: &[T]) -> i128
    requires few { length values.now ≤ 2 ^ 31 }
    ensures sum { result ≡ sum_of T.integer values.now }
    ensures range { IsInSumRange (length values.now) result }
{
    let mut sums = (0i64, 0u64);
    for value in values {
        sums = with_halves(sums, value.to_i128());
    }
    i128::from(sums.0) * (1 << 32) + i128::from(sums.1)
}

/// Adds the upper half of `number` to the first of `sums`, and its lower half to the second. Returns both.
fn with_halves(sums: (i64, u64), number: i128) -> (i64, u64)
    // The number has 64 bits, with or without a sign, and neither sum is near an end of its range.
    requires low { negsuc (2 ^ 63 - 1) ≤ℤ number }
    requires high { number ≤ℤ pos (2 ^ 64 - 1) }
    requires upper_low { negsuc (2 ^ 62 - 1) ≤ℤ sums.0 }
    requires upper_high { sums.0 ≤ℤ pos (2 ^ 63 - 2 ^ 32) }
    requires lower { sums.1 < 2 ^ 63 }
    // Both sums together grow by the number. The upper sum falls by at most 2³¹ and rises by less than 2³², and the
    // lower one rises by less than 2³².
    ensures whole { (result.0 *ℤ pos (2 ^ 32)) +ℤ pos result.1
        ≡ ((sums.0 *ℤ pos (2 ^ 32)) +ℤ pos sums.1) +ℤ number }
    ensures upper_low { sums.0 ≤ℤ (result.0 +ℤ pos (2 ^ 31)) }
    ensures upper_high { result.0 ≤ℤ (sums.0 +ℤ pos (2 ^ 32 - 1)) }
    ensures lower { result.1 ≤ sums.1 + (2 ^ 32 - 1) }
{
    let (upper, lower) = halves(number);
    (sums.0 + upper, sums.1 + lower)
}

/// Returns the halves of a number of 64 bits, with or without a sign. The upper half is the quotient of the number and
/// 2³², rounded down. The lower half is the lowest 32 bits of the number.
fn halves(number: i128) -> (i64, u64)
    requires low { negsuc (2 ^ 63 - 1) ≤ℤ number }
    requires high { number ≤ℤ pos (2 ^ 64 - 1) }
    ensures whole { (result.0 *ℤ pos (2 ^ 32)) +ℤ pos result.1 ≡ number }
    ensures lower { result.1 < 2 ^ 32 }
{
    let upper = number >> 32;
    let lower = number - upper * (1 << 32);
    (upper as i64, lower as u64)
}

/// Returns the sum of all valid values. Requires that values and validity have equal lengths.
fn sum_of_valid<T: WholeNumber>(values: &[T], validity: &Bitmap) -> i128
    requires same_length { length (items_of validity.now) ≡ length values.now }
    ensures { result ≡ sum_of T.integer (selection values.now (items_of validity.now)) }
{
    // For the proof alone: there are fewer than 2⁶³ values, so the sum fits. `count` is not read.
    let count = T::count(values);
    let mut total = 0i128;
    let mut blocks = MaskedBlocks::new(values, validity);
    while let Some((block, word)) = blocks.next_block() {
        total = exact_sum(total, sum_of_word(block, word));
    }
    total
}

/// Returns the sum of the values whose bit in `word` is set. Requires at most 64 values.
#[tactic(auto, using(crate::proofs::Sums::sums, crate::proofs::Selecting::selecting))]
fn sum_of_word<T: WholeNumber>(values: &[T], word: u64) -> i128
    requires few { length values.now ≤ 64 }
    ensures sum { result ≡ sum_of T.integer (selection values.now (unnum 64 word)) }
    ensures range { IsInSumRange (length (selection values.now (unnum 64 word))) result }
{
    if word == u64::MAX {
        return sum_of_block(values);
    }
    let mut total = 0i128;
    for position in BitChunkOnes::new(word) {
        if let Some(value) = values.get(position) {
            total = exact_sum(total, value.to_i128());
        }
    }
    total
}

/// Returns the sum of two numbers, which fits. It is a function for the proof alone: in a loop, the prover treats the
/// result of a call as a number, and the result of `+` as bits.
fn exact_sum(total: i128, more: i128) -> i128
    requires { FitsSigned w128 (total +ℤ more) }
    ensures { result ≡ total +ℤ more }
{
    total + more
}

/// A choice between two values.
trait Choice<T> {
    // The one that is kept.
    ghost kept: { T → T → T };

    /// Returns the value that is kept.
    fn of_two(first: T, second: T) -> T
        ensures { result ≡ kept first second };
}

/// Keeps the lesser value.
struct Lesser;

impl<T: NativeType + Ord> Choice<T> for Lesser {
    ghost kept = { ord_min T.Ord.cmp };

    fn of_two(first: T, second: T) -> T {
        first.min(second)
    }
}

/// Keeps the greater value.
struct Greater;

impl<T: NativeType + Ord> Choice<T> for Greater {
    ghost kept = { ord_max T.Ord.cmp };

    fn of_two(first: T, second: T) -> T {
        first.max(second)
    }
}

/// Returns the least of the items that are not null, or `None` where each item is null. Of items that compare equal it
/// returns the first. Does not allocate.
///
/// Stands for arrow2's `min_primitive`, which takes floats too.
pub fn min<T: NativeType + Ord>(array: &PrimitiveArray<T>) -> Option<T>
    ensures least { IsExtremum (λ x y. IsTrue (is_le (T.Ord.cmp x y))) (primitive_items array.now) result }
    ensures kept { result ≡ best_from (ord_min T.Ord.cmp) None (non_null_values (primitive_items array.now)) }
{
    best_item::<T, Lesser>(array)
}

/// Returns the greatest of the items that are not null, or `None` where each item is null. Of items that compare equal
/// it returns the last. Does not allocate.
///
/// Stands for arrow2's `max_primitive`, which takes floats too.
pub fn max<T: NativeType + Ord>(array: &PrimitiveArray<T>) -> Option<T>
    ensures greatest { IsExtremum (λ x y. IsTrue (is_ge (T.Ord.cmp x y))) (primitive_items array.now) result }
    ensures kept { result ≡ best_from (ord_max T.Ord.cmp) None (non_null_values (primitive_items array.now)) }
{
    best_item::<T, Greater>(array)
}

/// Combines the items that are not null by `C::of_two`, from the first to the last. Returns `None` where each item is
/// null. Requires that the choice is associative.
fn best_item<T: NativeType, C: Choice<T>>(array: &PrimitiveArray<T>) -> Option<T>
    requires associative { (x y z : T) → C.kept (C.kept x y) z ≡ C.kept x (C.kept y z) }
    ensures { result ≡ best_from C.kept None (non_null_values (primitive_items array.now)) }
{
    let values = array.values().as_slice();
    match array.optional_validity().bitmap() {
        Some(validity) => best_valid::<T, C>(values, validity),
        None => best_of_halves::<T, C>(values),
    }
}

/// Returns the result of combining the values by `C::of_two`, from the first to the last, or `None` where there is no
/// value. Requires that the choice is associative. Reads both halves at once: the processor fetches two streams of
/// values faster than one.
fn best_of_halves<T: NativeType, C: Choice<T>>(values: &[T]) -> Option<T>
    requires associative { (x y z : T) → C.kept (C.kept x y) z ≡ C.kept x (C.kept y z) }
    ensures { result ≡ best_from C.kept None values.now }
{
    let (front, back) = values.split_at(values.len() / 2);
    let (Some((first, front)), Some((middle, back))) = (front.split_first(), back.split_first())
    else {
        return best_of::<T, C>(None, values);
    };
    let mut best = *first;
    let mut other = *middle;
    for index in 0..front.len() {
        best = C::of_two(best, front[index]);
        other = C::of_two(other, back[index]);
    }
    // The back half has the length of the front half, or one value more.
    best_of::<T, C>(Some(C::of_two(best, other)), &back[front.len()..])
}

/// Combines the valid values by `C::of_two`, from the first to the last. Returns `None` where none is valid. Requires
/// that values and validity have equal lengths.
fn best_valid<T: NativeType, C: Choice<T>>(values: &[T], validity: &Bitmap) -> Option<T>
    requires same_length { length (items_of validity.now) ≡ length values.now }
    ensures { result ≡ best_from C.kept None (selection values.now (items_of validity.now)) }
{
    let mut best = None;
    let mut blocks = MaskedBlocks::new(values, validity);
    while let Some((block, word)) = blocks.next_block() {
        best = best_of_word::<T, C>(best, block, word);
    }
    best
}

/// Combines by `C::of_two`, from the first to the last, the values whose bit in `word` is set. If there is a `best`, it
/// comes before them. Requires at most 64 values.
#[tactic(auto, using(crate::proofs::Best::best, crate::proofs::Selecting::selecting))]
fn best_of_word<T: NativeType, C: Choice<T>>(best: Option<T>, values: &[T], word: u64) -> Option<T>
    requires few { length values.now ≤ 64 }
    ensures { result ≡ best_from C.kept best (selection values.now (unnum 64 word)) }
{
    if word == u64::MAX {
        return best_of::<T, C>(best, values);
    }
    let mut best = best;
    for position in BitChunkOnes::new(word) {
        if let Some(value) = values.get(position) {
            best = Some(better::<T, C>(best, *value));
        }
    }
    best
}

/// Returns the value that the choice keeps of `best`, if there is one, and of these values.
#[tactic(auto, using(crate::proofs::Best::best))]
fn best_of<T: NativeType, C: Choice<T>>(best: Option<T>, values: &[T]) -> Option<T>
    ensures { result ≡ best_from C.kept best values.now }
{
    let Some((first, others)) = values.split_first() else {
        return best;
    };
    let mut best = better::<T, C>(best, *first);
    for value in others {
        best = C::of_two(best, *value);
    }
    Some(best)
}

/// Returns the value that the choice keeps of `best`, if there is one, and of `value`.
fn better<T: NativeType, C: Choice<T>>(best: Option<T>, value: T) -> T
    ensures { result ≡ option_map_or (λ other. C.kept other value) best value }
{
    match best {
        Some(other) => C::of_two(other, value),
        None => value,
    }
}
