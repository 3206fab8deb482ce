//! The value of a word of a line.
ghost use Rattle.std.specs.Prelude.{true, ◌≡◌, ◌<◌, ◌^◌, ◌↔◌, IfSome, IfNone, List, Bool, Option, ℕ, length, slice_index, IsTrue};
ghost use Rattle.arrow2_script.specs.Words.{number_of, below_of, width_of, optional_slot_of, bit_of, bits_of, is_bit_byte, items_of_digits, is_number, number_list, is_hex_digit, hex_value, bytes_of_digits, bytes_of};
ghost use Rattle.std.specs.Iterator.{YieldsFirst, item_count};
ghost use Rattle.std.specs.List.{list_all};
ghost use Rattle.std.specs.Str.Parse.{AllDigits, digits_value};

use crate::lines::Parts;
use std::marker::Model;

/// A value that one word spells.
pub trait Word<'a>: Drop {
    // The value of each word, where it spells one of this type.
    ghost parsed: { List ℕ → Option Self };

    /// Returns the value that a word spells, or `None` if it spells none.
    fn parse(word: &'a [u8]) -> Option<Self>
        ensures { result ≡ parsed word.entry.now };
}

/// Returns whether the word has at least two bytes and begins with `0`.
fn has_leading_zero(word: &[u8]) -> bool
    ensures { IsTrue result ↔ (1 < length word.now × slice_index word.now 0 ≡ 48) }
{
    matches!(word, [b'0', _, ..])
}

/// Returns the number that decimal digits spell, or `None` where a byte is no digit or the number is above `u64::MAX`.
fn digits_number(digits: &[u8]) -> Option<u64>
    ensures some { IfSome result (λ n. AllDigits 10 digits.now × (n ≡ digits_value 10 digits.now)) }
    ensures fits { IfSome result (λ n. n < 2 ^ 64) }
    ensures none { IfNone result
        (¬ (AllDigits 10 digits.now × digits_value 10 digits.now < 2 ^ 64)) }
{
    let mut number = 0u64;
    for byte in digits {
        if !byte.is_ascii_digit() {
            return None;
        }
        number = number
            .checked_mul(10)?
            .checked_add(u64::from(*byte - b'0'))?;
    }
    Some(number)
}

/// Returns the number that a word spells: decimal digits without a leading zero, except `0`, and at most `u64::MAX`.
fn number(word: &[u8]) -> Option<u64>
    ensures { result ≡ number_of word.now }
{
    if word.is_empty() || has_leading_zero(word) {
        return None;
    }
    digits_number(word)
}

/// A number: decimal digits without a leading zero, except `0`, at most `u64::MAX`.
impl<'a> Word<'a> for u64 {
    ghost parsed = { number_of };

    fn parse(word: &'a [u8]) -> Option<u64> {
        number(word)
    }
}

/// A bit: `0` or `1`.
impl<'a> Word<'a> for bool {
    ghost parsed = { bit_of };

    #[tactic(auto, unfolding(crate::specs::Words::bit_of))]
    fn parse(word: &'a [u8]) -> Option<bool> {
        if word == b"0".as_slice() {
            Some(false)
        } else if word == b"1".as_slice() {
            Some(true)
        } else {
            None
        }
    }
}

/// A number below a bound.
#[derive(Clone, Copy, Debug)]
pub struct Below<const BOUND: usize> {
    number: usize,
}

impl<const BOUND: usize> Model for Below<BOUND> {
    ghost Value = { ℕ };

    ghost view = { λ b. b.number };

    ghost invariant = { λ b. b.number < BOUND };

    ghost inverse = { λ n. record { number = n } };
}

impl<const BOUND: usize> Below<BOUND> {
    /// Returns the number.
    pub fn get(self) -> usize
        ensures value { result ≡ self.entry }
        ensures in_range { result < BOUND }
    {
        self.number
    }
}

/// A number below the bound.
impl<'a, const BOUND: usize> Word<'a> for Below<BOUND> {
    ghost parsed = { below_of BOUND };

    fn parse(word: &'a [u8]) -> Option<Below<BOUND>> {
        let number = number(word)? as usize;
        if number < BOUND {
            Some(Below { number })
        } else {
            None
        }
    }
}

/// The index of one of the sixteen slots. The first slot has index 0.
pub type SlotIndex = Below<16>;

/// A slot that may be left out: `-` for none, or the slot's index.
impl<'a> Word<'a> for Option<SlotIndex> {
    ghost parsed = { optional_slot_of };

    #[tactic(auto, unfolding(crate::specs::Words::optional_slot_of))]
    fn parse(word: &'a [u8]) -> Option<Option<SlotIndex>> {
        if word == b"-".as_slice() {
            return Some(None);
        }
        let slot = SlotIndex::parse(word)?;
        Some(Some(slot))
    }
}

/// A width: the number of bits of a word, for a command that reads or changes a bitmap by words.
#[derive(Clone, Copy, Debug, PartialEq, Eq)]
pub enum Width {
    /// 8 bits.
    Bits8,
    /// 16 bits.
    Bits16,
    /// 32 bits.
    Bits32,
    /// 64 bits.
    Bits64,
}

/// A width: `8`, `16`, `32` or `64`.
impl<'a> Word<'a> for Width {
    ghost parsed = { width_of };

    #[tactic(auto, unfolding(crate::specs::Words::width_of))]
    fn parse(word: &'a [u8]) -> Option<Width> {
        if word == b"8".as_slice() {
            Some(Width::Bits8)
        } else if word == b"16".as_slice() {
            Some(Width::Bits16)
        } else if word == b"32".as_slice() {
            Some(Width::Bits32)
        } else if word == b"64".as_slice() {
            Some(Width::Bits64)
        } else {
            None
        }
    }
}

/// Returns whether each byte is `0` or `1`.
fn are_bits(bytes: &[u8]) -> bool
    ensures { result ≡ list_all is_bit_byte bytes.now }
{
    bytes.iter().all(|byte| matches!(byte, b'0' | b'1'))
}

/// A text of bits: a byte `0` or `1` for each item, the first item first.
#[derive(Drop)]
pub struct BitText<'a> {
    digits: &'a [u8],
}

impl<'a> Model for BitText<'a> {
    ghost use Rattle.std.specs.Prelude.{◌≡◌, true, List, Bool};
    ghost use Rattle.std.specs.List.{list_all};
    ghost use Rattle.arrow2_script.specs.Words.{is_bit_byte, items_of_digits};

    ghost Value = { List Bool };

    ghost view = { λ t. items_of_digits t.digits.now };

    ghost invariant = { λ t. list_all is_bit_byte t.digits.now ≡ true };
}

impl<'a> BitText<'a> {
    /// Returns a byte for each item: `1` where the item is true, else `0`.
    pub fn digits(&self) -> &'a [u8]
        ensures items { items_of_digits result.now ≡ self.now }
        ensures bits { list_all is_bit_byte result.now ≡ true }
    {
        self.digits
    }
}

/// Items: `-` for none, or a byte `0` or `1` for each item.
impl<'a> Word<'a> for BitText<'a> {
    ghost parsed = { bits_of };

    #[tactic(auto, unfolding(crate::specs::Words::bits_of))]
    fn parse(word: &'a [u8]) -> Option<BitText<'a>> {
        if word == b"-".as_slice() {
            return Some(BitText { digits: &[] });
        }
        if word.is_empty() {
            return None;
        }
        if are_bits(word) {
            Some(BitText { digits: word })
        } else {
            None
        }
    }
}

/// Returns whether each byte is a hexadecimal digit, `0` to `9` or `a` to `f`.
fn are_hex_digits(bytes: &[u8]) -> bool
    ensures { result ≡ list_all is_hex_digit bytes.now }
{
    bytes
        .iter()
        .all(|byte| matches!(byte, b'0'..=b'9' | b'a'..=b'f'))
}

/// Returns the value of a hexadecimal digit.
fn hex_digit_value(digit: u8) -> u8
    requires { IsTrue (is_hex_digit digit) }
    ensures value { result ≡ hex_value digit }
    ensures fits { result < 16 }
{
    if digit <= b'9' {
        digit - b'0'
    } else {
        digit - b'a' + 10
    }
}

/// Bytes that are spelled in hexadecimal: an iterator over the remaining bytes.
#[derive(Drop)]
pub struct HexText<'a> {
    digits: &'a [u8],
}

impl<'a> Model for HexText<'a> {
    ghost use Rattle.std.specs.Prelude.{◌≡◌, true, ℕ, List};
    ghost use Rattle.std.specs.List.{list_all};
    ghost use Rattle.arrow2_script.specs.Words.{is_hex_digit, bytes_of_digits};

    ghost Value = { List ℕ };

    ghost view = { λ t. bytes_of_digits t.digits.now };

    ghost invariant = { λ t. list_all is_hex_digit t.digits.now ≡ true };
}

impl<'a> HexText<'a> {
    /// Returns the number of remaining bytes.
    #[tactic(auto, using(crate::proofs::HexLemmas::hex_bytes))]
    pub fn len(&self) -> usize
        ensures { result ≡ length self.now }
    {
        self.digits.len() / 2
    }
}

/// Bytes: `-` for none, or two digits for each byte, from `0` to `9` and `a` to `f`.
impl<'a> Word<'a> for HexText<'a> {
    ghost parsed = { bytes_of };

    #[tactic(auto, unfolding(crate::specs::Words::bytes_of, crate::specs::Words::bytes_of_digits))]
    fn parse(word: &'a [u8]) -> Option<HexText<'a>> {
        if word == b"-".as_slice() {
            return Some(HexText { digits: &[] });
        }
        if word.is_empty() || word.len() % 2 != 0 {
            return None;
        }
        if are_hex_digits(word) {
            Some(HexText { digits: word })
        } else {
            None
        }
    }
}

impl Iterator for HexText<'_> {
    type Item = u8;

    ghost next_gives = { YieldsFirst (λ bytes. bytes) };

    ghost remaining = { item_count (λ bytes. bytes) };

    #[tactic(auto, using(crate::proofs::HexLemmas::hex_bytes))]
    fn next(&mut self) -> Option<u8> {
        let (high, rest) = self.digits.split_first()?;
        let (low, rest) = rest.split_first()?;
        let byte = 16 * hex_digit_value(*high) + hex_digit_value(*low);
        self.digits = rest;
        Some(byte)
    }
}

/// A list of numbers: an iterator over the remaining numbers. It returns each as a `usize`, which has 64 bits.
#[derive(Drop)]
pub struct NumberText<'a> {
    words: Parts<'a>,
}

impl<'a> Model for NumberText<'a> {
    ghost use Rattle.std.specs.Prelude.{◌≡◌, true, ℕ, List};
    ghost use Rattle.std.specs.List.{list_all};
    ghost use Rattle.arrow2_script.specs.Words.{is_number, numbers_of_words};

    ghost Value = { List ℕ };

    ghost view = { λ t. numbers_of_words t.words };

    ghost invariant = { λ t. list_all is_number t.words ≡ true };
}

/// Numbers: `-` for none, or numbers joined by `,`.
impl<'a> Word<'a> for NumberText<'a> {
    ghost parsed = { number_list };

    #[tactic(auto, unfolding(crate::specs::Words::number_list))]
    fn parse(word: &'a [u8]) -> Option<NumberText<'a>> {
        if word == b"-".as_slice() {
            return Some(NumberText {
                words: Parts::none(),
            });
        }
        let words = Parts::new(word, b',');
        if are_numbers(words.again()) {
            Some(NumberText { words })
        } else {
            None
        }
    }
}

/// Returns whether each word is a number.
fn are_numbers(words: Parts<'_>) -> bool
    ensures { result ≡ list_all is_number words.entry }
{
    let mut words = words;
    words.all(|word| number(word).is_some())
}

impl Iterator for NumberText<'_> {
    type Item = usize;

    ghost next_gives = { YieldsFirst (λ numbers. numbers) };

    ghost remaining = { item_count (λ numbers. numbers) };

    #[tactic(auto, using(crate::proofs::NumberListLemmas::numbers))]
    fn next(&mut self) -> Option<usize> {
        let number = number(self.words.next()?)?;
        Some(number as usize)
    }
}
