//! A bitmap that is cut into consecutive slices, and the number of bytes that the cuts counted as read.
ghost use Rattle.std.specs.Prelude.{◌≡◌, ◌+◌, ◌-◌, ◌*◌, ◌<◌, ◌≤◌, ◌∷◌, [], length, map, IfOk, OnOk, OnErr};
ghost use Rattle.arrow2_model.specs.Lists.{BitmapStorage, items_of};
ghost use Rattle.arrow2_model.specs.Touched.{cut_reads, lg, slice_reads};
ghost use Rattle.arrow2_types.specs.Failures.{OnlyOutOfMemory};
ghost use Rattle.arrow2_types.specs.declared.error.Error.TheVariants.{OutOfMemory};
ghost use Rattle.arrow2_walks.specs.Cuts.{IsWithinBudget, back, cut_at, front, all_items, piece_at, piece_of};

use arrow2_bitmap::Bitmap;
use arrow2_bits::Reads;
use arrow2_types::Result;
use std::alloc::Global;
use std::marker::Model;

/// A bitmap that is cut into consecutive slices, its pieces. A cut reads bytes to count the false items of both new
/// pieces. Contracts see the items of each piece, its bytes, the bit at which its items begin, and how many bytes the
/// cuts have counted as read.
///
/// The `k` cuts of a bitmap of `L` items, in any order, count at most `(2 * L * lg L + 30 * k) / 8` bytes as read. Here
/// `lg` is the logarithm to the base 2, rounded down. It is not proved that the cuts read only the bytes that they
/// count.
///
/// arrow2 has no such type: there a cut is two slices of a clone.
#[derive(Drop)]
pub struct Pieces {
    bitmaps: Vec<Bitmap>,
    reads: Reads,
}

impl Model for Pieces {
    ghost use Rattle.std.specs.Prelude.{map};
    ghost use Rattle.arrow2_walks.specs.Cuts.{CutPieces, IsWithinBudget, piece_of};

    ghost Value = { CutPieces };

    ghost view = { λ p. record { pieces = map piece_of p.bitmaps.items; reads = p.reads } };

    ghost invariant = { λ p. IsWithinBudget (map piece_of p.bitmaps.items) p.reads };
}

#[tactic(auto, using(crate::proofs::Cuts::cuts))]
impl Pieces {
    /// Returns the bitmap as one piece.
    ///
    /// # Errors
    ///
    /// Only `OutOfMemory`. The bitmap is then dropped.
    pub fn new(alloc: Global, bitmap: Bitmap) -> Result<Pieces>
        ensures ok { IfOk result (λ p. p ≡ record { pieces = piece_of bitmap ∷ []; reads = 0 }) }
        ensures only { OnlyOutOfMemory result }
    {
        let mut bitmaps = Vec::new(alloc);
        bitmaps.push(bitmap)?;
        Ok(Pieces {
            bitmaps,
            reads: Reads::new(),
        })
    }

    /// Returns the number of pieces: at least one.
    pub fn len(&self) -> usize
        ensures pieces { result ≡ length self.now.pieces }
        ensures some { 0 < result }
        // The bound on the bytes that the cuts so far have counted as read. It holds for every `Pieces`: this call
        // counts no byte.
        ensures bound { let n = length (all_items self.now.pieces) in
            8 * self.now.reads ≤ 2 * (n * lg n) + 30 * (result - 1) }
    {
        // For the proof alone: reading a field gives the type's invariant, from which `bound` follows.
        let _ = &self.reads;
        self.bitmaps.len()
    }

    /// Returns piece `p`. Requires that `p` is below the number of pieces.
    pub fn get(&self, p: usize) -> &Bitmap
        requires below { p < length self.now.pieces }
        ensures { piece_of result.now ≡ piece_at self.now.pieces p }
    {
        &self.bitmaps[p]
    }

    /// Returns the pieces, in order.
    pub fn into_inner(self) -> Vec<Bitmap>
        ensures { map piece_of result.items ≡ self.pieces }
    {
        let Pieces { bitmaps, reads: _ } = self;
        bitmaps
    }

    /// Cuts piece `p` in two: a piece of its first `i` items and a piece of the others replace it, over the same bytes.
    /// Requires that `p` is below the number of pieces, and that piece `p` has at least `i` items.
    ///
    /// # Errors
    ///
    /// Only `OutOfMemory`. After it, the pieces and the number of counted bytes are as they were.
    pub fn cut(&mut self, p: usize, i: usize) -> Result<()>
        requires below { p < length self.old.pieces }
        requires inside { i ≤ length (piece_at self.old.pieces p).items }
        // The pieces with this one cut in two, and the reads of both slices.
        ensures ok { OnOk result (self.new.pieces ≡ cut_at self.old.pieces p i) }
        ensures reads { OnOk result (let old = piece_at self.old.pieces p in
            self.new.reads ≡ self.old.reads + cut_reads old.offset (length old.items) i) }
        // In any case the items of all pieces together stay, and the bound on reads holds.
        ensures joined { all_items self.new.pieces ≡ all_items self.old.pieces }
        ensures bound { let n = length (all_items self.old.pieces) in
            8 * self.new.reads ≤ 2 * (n * lg n) + 30 * (length self.new.pieces - 1) }
        // A cut that fails changes and counts nothing.
        ensures err { OnErr result (self.new ≡ self.old) }
        ensures only { OnlyOutOfMemory result }
    {
        cut_in_two(&mut self.bitmaps, p, i, &mut self.reads)
    }
}

/// Cuts bitmap `p` in two at item `i`, and adds the reads of both slices. Requires that there is a bitmap `p`, and that
/// `i` is at most its length.
fn cut_in_two(bitmaps: &mut Vec<Bitmap>, p: usize, i: usize, reads: &mut Reads) -> Result<()>
    requires below { p < length bitmaps.old.items }
    requires inside { i ≤ length (piece_at (map piece_of bitmaps.old.items) p).items }
    // The pieces with this one cut in two, and the reads of both slices.
    ensures ok { OnOk result (map piece_of bitmaps.new.items
        ≡ cut_at (map piece_of bitmaps.old.items) p i) }
    ensures reads { OnOk result (let old = piece_at (map piece_of bitmaps.old.items) p in
        reads.new ≡ reads.old + cut_reads old.offset (length old.items) i) }
    // If the reads were within the budget before the call, they are within it afterwards, also after an error.
    ensures paid { IsWithinBudget (map piece_of bitmaps.old.items) reads.old →
        IsWithinBudget (map piece_of bitmaps.new.items) reads.new }
    // A cut that fails changes and counts nothing.
    ensures err { OnErr result (bitmaps.new.items ≡ bitmaps.old.items) }
    ensures uncounted { OnErr result (reads.new ≡ reads.old) }
    ensures only { OnlyOutOfMemory result }
{
    let whole = bitmaps[p].clone()?;
    bitmaps.insert(p + 1, whole)?;
    keep_front(&mut bitmaps[p], i, reads);
    keep_back(&mut bitmaps[p + 1], i, reads);
    Ok(())
}

/// Keeps the first `i` items of a bitmap, and adds the reads of the slice.
fn keep_front(bitmap: &mut Bitmap, i: usize, reads: &mut Reads)
    requires inside { i ≤ length (items_of bitmap.old) }
    ensures piece { piece_of bitmap.new ≡ front (piece_of bitmap.old) i }
    ensures reads { reads.new ≡ reads.old
        + slice_reads bitmap.old.offset (length (items_of bitmap.old)) 0 i }
{
    bitmap.slice_counted(0, i, reads);
}

/// Keeps the items of a bitmap from item `i` on, and adds the reads of the slice.
fn keep_back(bitmap: &mut Bitmap, i: usize, reads: &mut Reads)
    requires inside { i ≤ length (items_of bitmap.old) }
    ensures piece { piece_of bitmap.new ≡ back (piece_of bitmap.old) i }
    ensures reads { let n = length (items_of bitmap.old) in
        reads.new ≡ reads.old + slice_reads bitmap.old.offset n i (n - i) }
{
    let rest = bitmap.len() - i;
    bitmap.slice_counted(i, rest, reads);
}
