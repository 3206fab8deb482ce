//! How many bytes slices and cuts read. These are facts that are proved, since a counter has no value when a test runs.
ghost use Rattle.std.specs.Prelude.{◌≡◌, ◌+◌, ◌/◌, ◌<◌, ◌≤◌, ◌^◌, length};
ghost use Rattle.arrow2_model.specs.Touched.{slice_reads, cut_reads};
ghost use Rattle.arrow2_walks.specs.Cuts.{all_items};

use super::checks::{assert_that, has, ok};
use arrow2_bitmap::Bitmap;
use arrow2_bits::{Reads, Stored, count_zeros_counted, recount};
use arrow2_walks::Pieces;
use std::alloc::Global;
use std::mem::size_of;
use std::process::Abort;

// A counter, which these hold, takes no bytes when the program runs.
const _: () = prove!(size_of::<Reads>() == 0);

/// Returns the reads of a slice of `len` bits from bit `offset` on. They are at most `bound`.
fn read_by_slice(
    rt: &impl Abort,
    alloc: Global,
    offset: usize,
    len: usize,
    start: usize,
    count: usize,
    bound: u64,
) -> Reads
    requires small { offset + len < 2 ^ 16 }
    requires inside { start + count ≤ len }
    requires bound { bound ≡ len / 16 + 4 }
    ensures reads { result ≡ slice_reads offset len start count }
    ensures within { result ≤ bound }
{
    let zeros = ok(rt, Bitmap::new_zeroed(alloc, offset + len));
    let mut bitmap = zeros.sliced(offset, len);
    let mut reads = Reads::new();
    bitmap.slice_counted(start, count, &mut reads);
    assert_that(rt, bitmap.unset_bits() == count);
    reads
}

/// Requires that `bytes` bytes were read.
fn is_read(reads: Reads, bytes: u64)
    requires { reads ≡ bytes }
{
    let _ = reads;
}

#[tactic(auto, using(crate::proofs::ReadRows::slices))]
#[test]
fn slices_read_no_more_than_half(rt: HostRuntime) {
    let alloc = rt.alloc();
    is_read(read_by_slice(&rt, alloc, 0, 1600, 400, 799, 104), 100);
    is_read(read_by_slice(&rt, alloc, 0, 1600, 1, 1599, 104), 1);
    is_read(read_by_slice(&rt, alloc, 0, 1600, 400, 800, 104), 100);
    is_read(read_by_slice(&rt, alloc, 0, 1600, 0, 1600, 104), 0);
    is_read(read_by_slice(&rt, alloc, 0, 1600, 800, 0, 104), 0);
    is_read(read_by_slice(&rt, alloc, 0, 1, 0, 0, 4), 1);
    is_read(read_by_slice(&rt, alloc, 3, 16, 0, 7, 5), 2);
    is_read(read_by_slice(&rt, alloc, 3, 16, 1, 8, 5), 3);
    is_read(read_by_slice(&rt, alloc, 3, 16, 4, 8, 5), 3);
}

/// Cuts piece `p`, which has `len` items and begins with a byte.
fn cut(rt: &impl Abort, pieces: &mut Pieces, p: usize, len: usize, i: usize)
    requires { i ≤ len }
    ensures reads { pieces.new.reads ≡ pieces.old.reads + cut_reads 0 len i }
    ensures joined { all_items pieces.new.pieces ≡ all_items pieces.old.pieces }
{
    assert!(rt; p < pieces.len());
    let piece = pieces.get(p);
    let (_, within, _) = piece.as_slice();
    assert!(rt; within == 0);
    assert!(rt; piece.len() == len);
    pieces.cut(p, i).expect(rt, "no memory");
}

/// Requires that the cuts have read `bytes` bytes.
fn have_read(pieces: &Pieces, bytes: u64)
    requires { pieces.now.reads ≡ bytes }
{}

/// Requires that there are four pieces, of 1600 items in all. Their cuts have read at most 4011 bytes.
fn are_within_the_bound(pieces: &Pieces)
    requires pieces { length pieces.now.pieces ≡ 4 }
    requires items { length (all_items pieces.now.pieces) ≡ 1600 }
    ensures { pieces.now.reads ≤ 4011 }
{
    let _ = pieces.len();
}

#[tactic(auto, using(crate::proofs::ReadRows::cuts))]
#[test]
fn cuts_read_what_they_count(rt: HostRuntime) {
    let zeros = ok(&rt, Bitmap::new_zeroed(rt.alloc(), 1600));
    let mut pieces = ok(&rt, Pieces::new(rt.alloc(), zeros));
    cut(&rt, &mut pieces, 0, 1600, 800);
    have_read(&pieces, 200);
    cut(&rt, &mut pieces, 0, 800, 400);
    have_read(&pieces, 300);
    cut(&rt, &mut pieces, 2, 800, 1);
    have_read(&pieces, 302);
    assert!(&rt; pieces.len() == 4);
    are_within_the_bound(&pieces);
    for (p, len) in [(0, 400), (1, 400), (2, 1), (3, 799)] {
        assert_that(&rt, pieces.len() == 4);
        assert_that(&rt, pieces.get(p).unset_bits() == len);
    }
}

#[test]
fn bits_are_counted_through_stored_bytes(rt: HostRuntime) {
    let mut stored = Stored::new(&[0xf0, 0xff, 0x0f, 0xff], Reads::new());
    assert_that(&rt, count_zeros_counted(&mut stored, 0, 32) == 8);
    let few = count_zeros_counted(&mut stored, 3, 5);
    let most = recount(&mut stored, 0, 32, 8, 2, 28);
    let middle = recount(&mut stored, 0, 32, 8, 20, 4);
    has(&rt, &[few, most, middle], &[1, 6, 4]);
    has(&rt, &stored.fetch::<2>(2), &[0x0f, 0xff]);
    has(&rt, &[stored.len()], &[4]);
}

#[tactic(auto, using(crate::proofs::ReadRows::counts))]
#[test]
fn counts_fetch_each_byte_once(rt: HostRuntime) {
    let mut bytes = [0; 40];
    for (i, byte) in bytes.iter_mut().enumerate() {
        *byte = i as u8;
    }
    let mut stored = Stored::new(&bytes, Reads::new());
    assert_that(&rt, count_zeros_counted(&mut stored, 0, 320) == 220);
    is_read(stored.into_reads(), 40);
    let mut stored = Stored::new(&bytes, Reads::new());
    assert_that(&rt, count_zeros_counted(&mut stored, 3, 300) == 207);
    is_read(stored.into_reads(), 38);
}
