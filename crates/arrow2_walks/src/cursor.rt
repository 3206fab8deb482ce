//! Finds the next index of a set bit, or of an unset one, by words.
ghost use Rattle.std.specs.Prelude.{◌≡◌, ℕ, ◌+◌, ◌*◌, ◌<◌, ◌≤◌, not, get_or, false, length};
ghost use Rattle.arrow2_model.specs.Lists.{bit, bits};
ghost use Rattle.arrow2_walks.specs.Cursor.{IsFirst, IsRead};

use arrow2_bits::word_from;

/// An index, and some bits from this index on that were read already, as the lowest bits of a word.
#[derive(Clone, Copy, Debug)]
pub struct BitCursor {
    /// The index.
    pub index: usize,
    /// Bit `i` is the bit at `index + i`, for each `i` below `buffered`. The bits above these are unspecified.
    pub word: u64,
    /// How many of the lowest bits of `word` are bits from `index` on: at most 64.
    pub buffered: usize,
}

impl BitCursor {
    /// Returns the cursor at an index, with no bit read.
    pub fn at(index: usize) -> BitCursor
        ensures index { result.index ≡ index }
        ensures word { result.word ≡ 0 }
        ensures none { result.buffered ≡ 0 }
    {
        BitCursor {
            index,
            word: 0,
            buffered: 0,
        }
    }
}

/// Returns a cursor at the first index in `at.index..end` whose bit is `value`, or at `end` where there is none. The
/// bit at index `i` is bit `offset + i` of the bytes. Reads each word once, and shifts out the bits that are tested.
///
/// Requires that `offset + end` is at most eight times the number of bytes. Requires that `at.buffered` is at most 64,
/// that `at.index + at.buffered` is at most `end`, and that the lowest `at.buffered` bits of `at.word` are the bits
/// from `at.index` on.
///
/// arrow2 has this loop only inside its iterator over runs.
pub fn find_bit(bytes: &[u8], offset: usize, end: usize, at: BitCursor, value: bool) -> BitCursor
    requires inside { offset + end ≤ 8 * length bytes.now }
    requires read { IsRead (bits bytes.now) offset end at.index at.word at.buffered }
    ensures first { IsFirst (bits bytes.now) offset at.index end value result.index }
    ensures read { IsRead (bits bytes.now) offset end result.index result.word result.buffered }
{
    let BitCursor {
        mut index,
        mut word,
        mut buffered,
    } = at;
    'words: loop {
        let passed = first_bit(word, value);
        if passed < buffered {
            return BitCursor {
                index: index + passed,
                word: word >> passed,
                buffered: buffered - passed,
            };
        }
        index += buffered;
        buffered = (end - index).min(64);
        if buffered == 0 {
            return BitCursor {
                index,
                word,
                buffered,
            };
        }
        word = word_from(bytes, offset, index);
    }
}

/// Returns the index of the lowest bit of the word that is `value`, or 64 where there is none.
fn first_bit(word: u64, value: bool) -> usize
    ensures within { result ≤ 64 }
    ensures others { (i : ℕ) → i < result → bit word i ≡ not value }
    ensures there { result < 64 → bit word result ≡ value }
{
    if value {
        return word.trailing_zeros() as usize;
    }
    word.trailing_ones() as usize
}
