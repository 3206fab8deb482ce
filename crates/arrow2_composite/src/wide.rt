//! Signed numbers of 256 bits.
ghost use Rattle.std.specs.Int.{w128};
ghost use Rattle.std.specs.Ordering.{int_cmp, int_eq, as_partial_cmp};
ghost use Rattle.std.specs.Cmp.{partial_order_from_own_ties};
ghost use Rattle.std.specs.Cmp.Rules.{comparing, hashing};
ghost use Rattle.std.specs.Hash as fed;
ghost use Rattle.std.specs.Hash.{same_Alike};
ghost use Rattle.std.proofs.lemmas.Bool.Decides.{Decides-int_eq};
ghost use Rattle.std.proofs.Common.{rules, ◌≡◌, ◌≢◌, ◌<◌, ◌++◌, ◌^◌, ℕ, ℤ, List, length, pos, neg_ℤ, reverse, slice_index, drop, FitsSigned};
ghost use Rattle.arrow2_model.specs.Digits.{digits, integer_from, words_value, high_word, low_word};
ghost use Rattle.arrow2_model.proofs.Words256.{digits_of_words, digits_of_words_high};
ghost use Rattle.arrow2_types.specs.declared.primitive.PrimitiveType.TheVariants.{Int256};

use arrow2_types::{NativeType, PrimitiveType, array_of, join};
use std::cmp::Ordering;
use std::hash::{Hash, Hasher};
use std::marker::Model;
use std::ops::Neg;

/// A signed integer of 256 bits: contracts see the number. Equality and order are those of that number. A hasher gets
/// its high word, then its low word.
///
/// Differs from arrow2: the words are private, `to_le_bytes` has the lowest byte first, and negation is exact.
#[allow(non_camel_case_types)]
#[derive(Debug, Clone, Copy)]
pub struct i256 {
    high: i128,
    low: i128,
}

impl Model for i256 {
    ghost use Rattle.std.specs.Prelude.{ℤ, FitsSigned, refl};
    ghost use Rattle.std.specs.Int.{w128};
    ghost use Rattle.arrow2_model.specs.Digits.{words_value, high_word, low_word};
    ghost use Rattle.arrow2_model.proofs.Words256.{high_word-words, low_word-words};

    ghost Value = { ℤ };

    ghost view = { λ n. words_value n.high n.low };

    ghost invariant = { λ n. FitsSigned w128 n.high × FitsSigned w128 n.low };

    ghost inverse = { λ v. record { high = high_word v; low = low_word v } };

    ghost inverse_ok = { λ n fits. Prim.rw
        (high_word-words n.high n.low, low_word-words n.high n.low fits.1) refl };
}

impl i256 {
    /// Returns the number `hi * 2^128 + (lo mod 2^128)`.
    pub fn from_words(hi: i128, lo: i128) -> i256
        ensures { result ≡ words_value hi lo }
    {
        i256 { high: hi, low: lo }
    }

    /// Returns the two words from which [`i256::from_words`] makes the number, the higher one first.
    pub fn into_words(self) -> (i128, i128)
        ensures { words_value result.0 result.1 ≡ self }
    {
        (self.high, self.low)
    }
}

/// Returns the number 0.
impl Default for i256 {
    ghost is_default = { λ n. n ≡ pos 0 };

    fn default() -> i256 {
        i256 { high: 0, low: 0 }
    }
}

#[tactic(auto, using(arrow2_model::proofs::Words256::words256))]
impl PartialEq for i256 {
    ghost eq = { int_eq };

    ghost laws = { Prim.search (comparing, rules) };

    fn eq(&self, other: &i256) -> bool {
        self.high == other.high && self.low == other.low
    }
}

impl Eq for i256 {
    ghost laws = { Prim.search (comparing, rules) };
}

#[tactic(auto, using(arrow2_model::proofs::Words256::words256))]
impl Ord for i256 {
    ghost cmp = { int_cmp };

    ghost total = { Prim.search (comparing, rules) };

    ghost matches_partial_cmp = { Prim.search (comparing, rules) };

    ghost matches_eq = { Prim.search (comparing, rules) };

    fn cmp(&self, other: &i256) -> Ordering {
        let low = self.low.cast_unsigned();
        self.high
            .cmp(&other.high)
            .then(low.cmp(&other.low.cast_unsigned()))
    }
}

impl PartialOrd for i256 {
    ghost partial_cmp = { as_partial_cmp int_cmp };

    ghost laws = { partial_order_from_own_ties (Prim.search (comparing, rules))
        (Prim.search (comparing, rules)) };

    fn partial_cmp(&self, other: &i256) -> Option<Ordering> {
        Some(self.cmp(other))
    }
}

#[tactic(auto, using(arrow2_model::proofs::Words256::words256))]
impl Hash for i256 {
    ghost hash_input = { λ v. fed.i128 (high_word v) ++ fed.i128 (low_word v) };

    ghost respects_eq = { (same_Alike (λ v. fed.i128 (high_word v)
        ++ fed.i128 (low_word v)) Decides-int_eq).fed };

    fn hash<H: Hasher>(&self, state: &mut H) {
        self.high.hash(state);
        self.low.hash(state);
    }
}

/// Returns the number negated. Requires that the number is not -2^255, whose negation does not fit the type.
#[tactic(auto, using(arrow2_model::proofs::Words256::words256))]
impl Neg for i256 {
    type Output = i256;

    ghost can_neg = { λ v. v ≢ neg_ℤ (pos (2 ^ 255)) };

    ghost neg_gives = { λ v r. r ≡ neg_ℤ v };

    fn neg(self) -> i256 {
        if self.low == 0 {
            i256 {
                high: -self.high,
                low: 0,
            }
        } else {
            i256 {
                high: -1 - self.high,
                low: self.low.wrapping_neg(),
            }
        }
    }
}

#[tactic(auto, using(arrow2_model::proofs::Words256::words256))]
impl NativeType for i256 {
    ghost PRIMITIVE = { Int256 };

    ghost SIZE = { 32 };

    ghost le_digits = { digits 32 };

    ghost be_digits = { λ v. reverse (digits 32 v) };

    ghost of_le = { λ bytes. words_value (integer_from 16 (drop 16 bytes))
        (integer_from 16 bytes) };

    ghost of_be = { λ bytes. words_value (integer_from 16 (drop 16 (reverse bytes)))
        (integer_from 16 (reverse bytes)) };

    ghost le_law = { digits_of_words };

    ghost be_law = { digits_of_words_high };

    const PRIMITIVE: PrimitiveType = PrimitiveType::Int256;

    const SIZE: usize = 32;

    type Bytes = [u8; 32];

    fn to_le_bytes(&self) -> [u8; 32] {
        let low = NativeType::to_le_bytes(&self.low);
        let high = NativeType::to_le_bytes(&self.high);
        join(&low, &high)
    }

    fn to_be_bytes(&self) -> [u8; 32] {
        let mut bytes = NativeType::to_le_bytes(self);
        bytes.reverse();
        bytes
    }

    fn from_le_bytes(bytes: [u8; 32]) -> i256 {
        <i256 as NativeType>::from_le_slice(&bytes)
    }

    fn from_be_bytes(bytes: [u8; 32]) -> i256 {
        <i256 as NativeType>::from_be_slice(&bytes)
    }

    fn bytes_of_slice(bytes: &[u8]) -> [u8; 32] {
        array_of(bytes)
    }

    fn from_le_slice(bytes: &[u8]) -> i256 {
        let low = <i128 as NativeType>::from_le_slice(&bytes[..16]);
        let high = <i128 as NativeType>::from_le_slice(&bytes[16..]);
        i256::from_words(high, low)
    }

    fn from_be_slice(bytes: &[u8]) -> i256 {
        let mut array: [u8; 32] = array_of(bytes);
        array.reverse();
        <i256 as NativeType>::from_le_slice(&array)
    }
}
