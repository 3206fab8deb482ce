//! Words as lists of bits.
ghost use Rattle.std.specs.Bool.{xor};
ghost use Rattle.std.proofs.Common.{lit≤, ◌≡◌, ◌+◌, ◌-◌, ◌*◌, ◌<◌, ◌≤◌, ◌^◌, ◌++◌, ◌&&◌, ◌||◌, ℕ, List, length, take, drop, replicate, map, not, false, pos, refl, reverse, [], ◌∷◌};
ghost use lib.Lanes.{zip2};
ghost use Rattle.num_traits.specs.Laws.{bit_len};
ghost use Rattle.arrow2_model.specs.Lists.{bit, bits, unnum, falses};
ghost use Rattle.arrow2_chunk.specs.Ones.{ones};
ghost use Rattle.arrow2_model.specs.Digits.{digits, natural_from};

use arrow2_types::{NativeType, array_of};
use num_traits::PrimInt;

/// A word: a list of `WIDTH` bits, the lowest first.
///
/// Differs from arrow2: `to_ne_bytes` and `from_ne_bytes` are always little-endian, and calls such as `bit_and` replace
/// the operators of each type.
///
/// For a `word` of a type such as `u64`, `word.to_ne_bytes()` calls the type's own method, which has another contract.
/// Write `BitChunk::to_ne_bytes(word)` instead.
pub trait BitChunk: PrimInt + NativeType {
    // The number of bits of a word.
    ghost WIDTH: { ℕ };

    // The number of a word. The list of the word's bits is `unnum WIDTH` of that number.
    ghost number: { Self → ℕ };

    /// The number of bits of a word.
    const WIDTH: usize;

    /// Returns the bytes of the word in little-endian order.
    fn to_ne_bytes(self) -> Self::Bytes
        ensures digits { Self.Bytes.items result ≡ digits Self.SIZE (pos (number self)) }
        ensures size { length (Self.Bytes.items result) ≡ Self.SIZE }
        ensures bits { bits (Self.Bytes.items result) ≡ unnum WIDTH (number self) }
        ensures read_back { natural_from Self.SIZE (Self.Bytes.items result)
            ≡ number self };

    /// Returns the word with these bytes in little-endian order.
    fn from_ne_bytes(bytes: Self::Bytes) -> Self
        ensures fits { number result < 2 ^ WIDTH }
        ensures value { number result ≡ natural_from Self.SIZE (Self.Bytes.items bytes) };

    /// Returns the word with these bytes in little-endian order. Requires exactly `SIZE` bytes.
    fn from_ne_slice(bytes: &[u8]) -> Self
        requires { length bytes.now ≡ Self.SIZE }
        ensures fits { number result < 2 ^ WIDTH }
        ensures bits { unnum WIDTH (number result) ≡ bits bytes.now };

    /// Returns bit `i`. Requires that `i` is below `WIDTH`.
    fn bit(self, i: usize) -> bool
        requires { i < WIDTH }
        ensures { result ≡ bit (number self) i };

    /// Returns the lowest `len` bits of the word, with false above them. Requires that `len` is at most `WIDTH`.
    fn masked(self, len: usize) -> Self
        requires { len ≤ WIDTH }
        ensures fits { number result < 2 ^ WIDTH }
        ensures bits { unnum WIDTH (number result)
            ≡ take len (unnum WIDTH (number self)) ++ replicate (WIDTH - len) false };

    /// Returns the bits that are set in both words.
    fn bit_and(self, other: Self) -> Self
        ensures fits { number result < 2 ^ WIDTH }
        ensures bits { unnum WIDTH (number result)
            ≡ zip2 (λ a b. a && b) (unnum WIDTH (number self)) (unnum WIDTH (number other)) };

    /// Returns the bits that are set in at least one of the words.
    fn bit_or(self, other: Self) -> Self
        ensures fits { number result < 2 ^ WIDTH }
        ensures bits { unnum WIDTH (number result)
            ≡ zip2 (λ a b. a || b) (unnum WIDTH (number self)) (unnum WIDTH (number other)) };

    /// Returns the bits that are set in exactly one of the words.
    fn bit_xor(self, other: Self) -> Self
        ensures fits { number result < 2 ^ WIDTH }
        ensures bits { unnum WIDTH (number result)
            ≡ zip2 xor (unnum WIDTH (number self)) (unnum WIDTH (number other)) };

    /// Returns the word with each bit inverted.
    fn bit_not(self) -> Self
        ensures fits { number result < 2 ^ WIDTH }
        ensures bits { unnum WIDTH (number result) ≡ map not (unnum WIDTH (number self)) };

    /// Returns the word with each bit `i` moved to `i + k`. Bits that leave the word are dropped, and the lowest `k`
    /// bits are false. Requires that `k` is below `WIDTH`.
    fn up(self, k: usize) -> Self
        requires { k < WIDTH }
        ensures fits { number result < 2 ^ WIDTH }
        ensures bits { unnum WIDTH (number result)
            ≡ replicate k false ++ take (WIDTH - k) (unnum WIDTH (number self)) };

    /// Returns the word with each bit `i` moved to `i - k`. Bits that leave the word are dropped, and the highest `k`
    /// bits are false. Requires that `k` is below `WIDTH`.
    fn down(self, k: usize) -> Self
        requires { k < WIDTH }
        ensures fits { number result < 2 ^ WIDTH }
        ensures bits { unnum WIDTH (number result)
            ≡ drop k (unnum WIDTH (number self)) ++ replicate k false };

    /// Returns the index of the lowest set bit. Requires that a bit is set.
    fn first_one(self) -> usize
        requires { 0 < length (ones (unnum WIDTH (number self))) }
        ensures { ones (unnum WIDTH (number self))
            ≡ result ∷ drop 1 (ones (unnum WIDTH (number self))) };

    /// Returns the word with its lowest set bit cleared, or the word as it is where no bit is set.
    fn without_first_one(self) -> Self
        ensures fits { number result < 2 ^ WIDTH }
        ensures ones { ones (unnum WIDTH (number result))
            ≡ drop 1 (ones (unnum WIDTH (number self))) };

    /// Returns the number of set bits.
    fn ones_count(self) -> usize
        ensures ones { result
            ≡ length (ones (unnum WIDTH (number self))) }
        ensures counted { result
            + falses (unnum WIDTH (number self)) ≡ WIDTH };

    // A word has eight bits a byte.
    ghost size_law: { 8 * Self.SIZE ≡ WIDTH };

    // A word has at least one byte, and at most eight.
    ghost width_bounds: { (8 ≤ WIDTH) × (WIDTH ≤ 64) };

    // The contracts of `PrimInt` speak of the same width, the same bits and the same number.
    ghost width_law: { bit_len Self.width ≡ WIDTH };

    ghost bits_law: { (x : Self) → Self.bits_of x ≡ number x };

    ghost value_law: { (x : Self) → Self.value x ≡ pos (number x) };

    // The bytes of `NativeType` are those of the number, in both orders.
    ghost digits_law: { (x : Self) → Self.le_digits x ≡ digits Self.SIZE (pos (number x)) };

    ghost be_digits_law: { (x : Self) → Self.be_digits x
        ≡ reverse (digits Self.SIZE (pos (number x))) };

    ghost number_law: { (bytes : List ℕ) → number (Self.of_le bytes)
        ≡ natural_from Self.SIZE bytes };
}

#[tactic(auto, using(crate::proofs::WordFunctions::byte_functions))]
impl BitChunk for u8 {
    ghost WIDTH = { 8 };

    ghost number = { λ x. x };

    ghost size_law = { refl };

    ghost width_bounds = { (lit≤ tt, lit≤ tt) };

    ghost width_law = { refl };

    ghost bits_law = { λ x. refl };

    ghost value_law = { λ x. refl };

    ghost digits_law = { λ x. refl };

    ghost be_digits_law = { λ x. refl };

    ghost number_law = { λ bytes. refl };

    const WIDTH: usize = 8;

    fn to_ne_bytes(self) -> [u8; 1] {
        u8::to_le_bytes(self)
    }

    fn from_ne_bytes(bytes: [u8; 1]) -> u8 {
        u8::from_le_bytes(bytes)
    }

    fn from_ne_slice(bytes: &[u8]) -> u8 {
        u8::from_le_bytes(array_of(bytes))
    }

    fn bit(self, i: usize) -> bool {
        (self >> i) & 1u8 == 1
    }

    fn masked(self, len: usize) -> u8 {
        if len < 8 { self % (1 << len) } else { self }
    }

    fn bit_and(self, other: u8) -> u8 {
        self & other
    }

    fn bit_or(self, other: u8) -> u8 {
        self | other
    }

    fn bit_xor(self, other: u8) -> u8 {
        self ^ other
    }

    fn bit_not(self) -> u8 {
        !self
    }

    fn up(self, k: usize) -> u8 {
        self << k
    }

    fn down(self, k: usize) -> u8 {
        self >> k
    }

    fn first_one(self) -> usize {
        u8::trailing_zeros(self) as usize
    }

    fn without_first_one(self) -> u8 {
        self & self.wrapping_sub(1)
    }

    fn ones_count(self) -> usize {
        u8::count_ones(self) as usize
    }
}

#[tactic(auto, using(crate::proofs::WordFunctions::word_functions))]
impl BitChunk for u16 {
    ghost WIDTH = { 16 };

    ghost number = { λ x. x };

    ghost size_law = { refl };

    ghost width_bounds = { (lit≤ tt, lit≤ tt) };

    ghost width_law = { refl };

    ghost bits_law = { λ x. refl };

    ghost value_law = { λ x. refl };

    ghost digits_law = { λ x. refl };

    ghost be_digits_law = { λ x. refl };

    ghost number_law = { λ bytes. refl };

    const WIDTH: usize = 16;

    fn to_ne_bytes(self) -> [u8; 2] {
        u16::to_le_bytes(self)
    }

    fn from_ne_bytes(bytes: [u8; 2]) -> u16 {
        u16::from_le_bytes(bytes)
    }

    fn from_ne_slice(bytes: &[u8]) -> u16 {
        u16::from_le_bytes(array_of(bytes))
    }

    fn bit(self, i: usize) -> bool {
        (self >> i) & 1u16 == 1
    }

    fn masked(self, len: usize) -> u16 {
        if len < 16 { self % (1 << len) } else { self }
    }

    fn bit_and(self, other: u16) -> u16 {
        self & other
    }

    fn bit_or(self, other: u16) -> u16 {
        self | other
    }

    fn bit_xor(self, other: u16) -> u16 {
        self ^ other
    }

    fn bit_not(self) -> u16 {
        !self
    }

    fn up(self, k: usize) -> u16 {
        self << k
    }

    fn down(self, k: usize) -> u16 {
        self >> k
    }

    fn first_one(self) -> usize {
        u16::trailing_zeros(self) as usize
    }

    fn without_first_one(self) -> u16 {
        self & self.wrapping_sub(1)
    }

    fn ones_count(self) -> usize {
        u16::count_ones(self) as usize
    }
}

#[tactic(auto, using(crate::proofs::WordFunctions::word_functions))]
impl BitChunk for u32 {
    ghost WIDTH = { 32 };

    ghost number = { λ x. x };

    ghost size_law = { refl };

    ghost width_bounds = { (lit≤ tt, lit≤ tt) };

    ghost width_law = { refl };

    ghost bits_law = { λ x. refl };

    ghost value_law = { λ x. refl };

    ghost digits_law = { λ x. refl };

    ghost be_digits_law = { λ x. refl };

    ghost number_law = { λ bytes. refl };

    const WIDTH: usize = 32;

    fn to_ne_bytes(self) -> [u8; 4] {
        u32::to_le_bytes(self)
    }

    fn from_ne_bytes(bytes: [u8; 4]) -> u32 {
        u32::from_le_bytes(bytes)
    }

    fn from_ne_slice(bytes: &[u8]) -> u32 {
        u32::from_le_bytes(array_of(bytes))
    }

    fn bit(self, i: usize) -> bool {
        (self >> i) & 1u32 == 1
    }

    fn masked(self, len: usize) -> u32 {
        if len < 32 { self % (1 << len) } else { self }
    }

    fn bit_and(self, other: u32) -> u32 {
        self & other
    }

    fn bit_or(self, other: u32) -> u32 {
        self | other
    }

    fn bit_xor(self, other: u32) -> u32 {
        self ^ other
    }

    fn bit_not(self) -> u32 {
        !self
    }

    fn up(self, k: usize) -> u32 {
        self << k
    }

    fn down(self, k: usize) -> u32 {
        self >> k
    }

    fn first_one(self) -> usize {
        u32::trailing_zeros(self) as usize
    }

    fn without_first_one(self) -> u32 {
        self & self.wrapping_sub(1)
    }

    fn ones_count(self) -> usize {
        u32::count_ones(self) as usize
    }
}

#[tactic(auto, using(crate::proofs::WordFunctions::word_functions))]
impl BitChunk for u64 {
    ghost WIDTH = { 64 };

    ghost number = { λ x. x };

    ghost size_law = { refl };

    ghost width_bounds = { (lit≤ tt, lit≤ tt) };

    ghost width_law = { refl };

    ghost bits_law = { λ x. refl };

    ghost value_law = { λ x. refl };

    ghost digits_law = { λ x. refl };

    ghost be_digits_law = { λ x. refl };

    ghost number_law = { λ bytes. refl };

    const WIDTH: usize = 64;

    fn to_ne_bytes(self) -> [u8; 8] {
        u64::to_le_bytes(self)
    }

    fn from_ne_bytes(bytes: [u8; 8]) -> u64 {
        u64::from_le_bytes(bytes)
    }

    fn from_ne_slice(bytes: &[u8]) -> u64 {
        u64::from_le_bytes(array_of(bytes))
    }

    fn bit(self, i: usize) -> bool {
        (self >> i) & 1u64 == 1
    }

    fn masked(self, len: usize) -> u64 {
        if len < 64 { self % (1 << len) } else { self }
    }

    fn bit_and(self, other: u64) -> u64 {
        self & other
    }

    fn bit_or(self, other: u64) -> u64 {
        self | other
    }

    fn bit_xor(self, other: u64) -> u64 {
        self ^ other
    }

    fn bit_not(self) -> u64 {
        !self
    }

    fn up(self, k: usize) -> u64 {
        self << k
    }

    fn down(self, k: usize) -> u64 {
        self >> k
    }

    fn first_one(self) -> usize {
        u64::trailing_zeros(self) as usize
    }

    fn without_first_one(self) -> u64 {
        self & self.wrapping_sub(1)
    }

    fn ones_count(self) -> usize {
        u64::count_ones(self) as usize
    }
}
