//! Lists of booleans, zipped and read by words.
ghost use Rattle.std.specs.Prelude.{◌≡◌, ◌+◌, ◌<◌, ◌++◌, ℕ, List, [], ◌∷◌, length};
ghost use Rattle.arrow2_model.specs.Lists.{word, WordCursor};
ghost use Rattle.arrow2_model.specs.Kernels.{AreWords};
ghost use Rattle.arrow2_model.specs.Rows.{GivesRow};

use arrow2_bits::{BitChunkIterExact, BitChunks};
use arrow2_chunk::BitChunk;

/// Lists that are read row by row: a row has the next word of each list. Each call that reads requires that all lists
/// have equal lengths.
pub trait WordRows<B: BitChunk>: Drop {
    /// The next word of each list.
    type Row: Copy;

    // The words of a row.
    ghost words: { Self.Row → List ℕ };

    // The number of items of each list still to come.
    ghost len: { Self → ℕ };

    // Row j of those still to come. Items past the end count as false.
    ghost row_at: { Self → ℕ → List ℕ };

    // All lists have equal lengths.
    ghost same_lengths: { Self → Type 0 };

    /// Returns the next row, or `None` where fewer items are left than a word has; then these items stay. Requires that
    /// all lists have equal lengths.
    fn next_row(&mut self) -> Option<Self::Row>
        requires { same_lengths self.old }
        ensures same_lengths { same_lengths self.new }
        ensures row { GivesRow B.WIDTH words (len self.old) (row_at self.old) result
            (len self.new) (row_at self.new) };

    /// Returns the row of the remaining items. Each word has the items of its list, and false above them. Requires that
    /// all lists have equal lengths, and that fewer items remain than a word has.
    fn rest_row(&self) -> Self::Row
        requires same_lengths { same_lengths self.now }
        requires short { len self.now < B.WIDTH }
        ensures row { words result ≡ row_at self.now 0 }
        ensures fits { AreWords B.WIDTH (words result) };
}

/// Rows of no list, for `left` items: a row without words for each full word, and one for the items after the full
/// words.
#[derive(Drop)]
pub struct NoList {
    /// The number of items still to come.
    pub left: usize,
}

impl<B: BitChunk> WordRows<B> for NoList {
    type Row = ();

    ghost words = { λ r. [] };

    ghost len = { λ s. s.left };

    ghost row_at = { λ s j. [] };

    ghost same_lengths = { λ s. Unit {0} };

    fn next_row(&mut self) -> Option<()> {
        if self.left < B::WIDTH {
            return None;
        }
        self.left -= B::WIDTH;
        Some(())
    }

    fn rest_row(&self) {}
}

/// Rows of one list, read by an iterator over its words.
#[derive(Drop)]
pub struct OneList<I> {
    /// The iterator over the words.
    pub chunks: I,
}

impl<B: BitChunk, I: BitChunkIterExact<B> + Drop> WordRows<B> for OneList<I> {
    type Row = B;

    ghost words = { λ x. B.number x ∷ [] };

    ghost len = { λ s. length (I.cursor s.chunks).items };

    ghost row_at = { λ s j. word B.WIDTH (I.cursor s.chunks).items j ∷ [] };

    ghost same_lengths = { λ s. Unit {0} };

    fn next_row(&mut self) -> Option<B> {
        self.chunks.next()
    }

    fn rest_row(&self) -> B {
        self.chunks.remainder().masked(self.chunks.remainder_len())
    }
}

/// Rows of two sides, zipped: each row has the words of the left side, then those of the right side.
#[derive(Drop)]
pub struct ZipRows<L, R> {
    /// The lists of the left side, whose words come first in a row.
    pub left: L,
    /// The lists of the right side.
    pub right: R,
}

impl<B: BitChunk, L: WordRows<B>, R: WordRows<B>> WordRows<B> for ZipRows<L, R> {
    type Row = (L::Row, R::Row);

    ghost words = { λ r. L.words r.0 ++ R.words r.1 };

    ghost len = { λ s. L.len s.left };

    ghost row_at = { λ s j. L.row_at s.left j ++ R.row_at s.right j };

    ghost same_lengths = { λ s. L.same_lengths s.left × R.same_lengths s.right × (L.len s.left ≡ R.len s.right) };

    fn next_row(&mut self) -> Option<(L::Row, R::Row)> {
        let left = self.left.next_row()?;
        let right = self.right.next_row()?;
        Some((left, right))
    }

    fn rest_row(&self) -> (L::Row, R::Row) {
        (self.left.rest_row(), self.right.rest_row())
    }
}

/// Rows of two lists, read by words of 64 bits, the word of the left list first. A `ZipRows` of two `Pair`s gives the
/// rows of four lists. It is a type of its own, without type parameters, since the Rattle kit rejects a `ZipRows` of
/// two `ZipRows`.
#[derive(Drop)]
pub struct Pair<'a> {
    /// The lists.
    pub lists: ZipRows<OneList<BitChunks<'a, u64>>, OneList<BitChunks<'a, u64>>>,
}

impl<'a> WordRows<u64> for Pair<'a> {
    type Row = (u64, u64);

    ghost words = { λ r. r.0 ∷ r.1 ∷ [] };

    ghost len = { λ p. length p.lists.left.chunks.items };

    ghost row_at = { λ p j. word 64 p.lists.left.chunks.items j
        ∷ word 64 p.lists.right.chunks.items j ∷ [] };

    ghost same_lengths = { λ p. length p.lists.left.chunks.items ≡ length p.lists.right.chunks.items };

    fn next_row(&mut self) -> Option<(u64, u64)> {
        self.lists.next_row()
    }

    fn rest_row(&self) -> (u64, u64) {
        self.lists.rest_row()
    }
}
