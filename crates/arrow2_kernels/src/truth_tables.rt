//! Truth tables as word functions: bit `a1 + 2 * a2 + 4 * a3 + 8 * a4` of a table is its output for inputs `a1` to
//! `a4`. Bits of a table past its last output are not read.
ghost use Rattle.std.specs.Prelude.{◌≡◌, ◌<◌, ◌^◌, ℕ, [], ◌∷◌, if◌then◌else◌};
ghost use Rattle.arrow2_model.specs.Lists.{bit};
ghost use Rattle.arrow2_model.specs.Tables.{answer};

use arrow2_chunk::BitChunk;

/// Returns, bit by bit, the outputs of a table of one input: bit `a` of `table`, where `a` is the bit of `x` as 0 or 1.
pub fn unary_outputs<T: BitChunk>(table: u16, x: T) -> T
    ensures results { (i : ℕ) → i < T.WIDTH →
        bit (T.number result) i ≡ answer table (bit (T.number x) i ∷ []) }
{
    let yes = splat_bit(x, BitChunk::bit(table, 1));
    let no = splat_bit(x, BitChunk::bit(table, 0));
    select(x, yes, no)
}

/// Returns, bit by bit, the outputs of a table of two inputs: bit `a + 2 * b` of `table`, where `a` and `b` are the
/// bits of `x` and `y` as 0 or 1.
pub fn binary_outputs<T: BitChunk>(table: u16, x: T, y: T) -> T
    ensures results { (i : ℕ) → i < T.WIDTH →
        bit (T.number result) i
        ≡ answer table (bit (T.number x) i ∷ bit (T.number y) i ∷ []) }
{
    let yes = unary_outputs(table >> 2, x);
    let no = unary_outputs(table, x);
    select(y, yes, no)
}

/// Returns, bit by bit, the outputs of a table of three inputs: bit `a + 2 * b + 4 * c` of `table`, where `a`, `b` and
/// `c` are the bits of `x`, `y` and `z` as 0 or 1.
pub fn ternary_outputs<T: BitChunk>(table: u16, x: T, y: T, z: T) -> T
    ensures results { (i : ℕ) → i < T.WIDTH →
        bit (T.number result) i
        ≡ answer table (bit (T.number x) i ∷ bit (T.number y) i
        ∷ bit (T.number z) i ∷ []) }
{
    let yes = binary_outputs(table >> 4, x, y);
    let no = binary_outputs(table, x, y);
    select(z, yes, no)
}

/// Returns, bit by bit, the outputs of a table of four inputs: bit `a + 2 * b + 4 * c + 8 * d` of `table`, where `a` to
/// `d` are the bits of `x`, `y`, `z` and `v` as 0 or 1.
pub fn quaternary_outputs<T: BitChunk>(table: u16, x: T, y: T, z: T, v: T) -> T
    ensures results { (i : ℕ) → i < T.WIDTH →
        bit (T.number result) i
        ≡ answer table (bit (T.number x) i ∷ bit (T.number y) i
        ∷ bit (T.number z) i ∷ bit (T.number v) i ∷ []) }
{
    let yes = ternary_outputs(table >> 8, x, y, z);
    let no = ternary_outputs(table, x, y, z);
    select(v, yes, no)
}

/// Returns, at each bit, the bit of `yes` where the bit of `which` is set, and the bit of `no` elsewhere.
fn select<T: BitChunk>(which: T, yes: T, no: T) -> T
    ensures { (i : ℕ) → i < T.WIDTH →
        bit (T.number result) i
        ≡ (if bit (T.number which) i then bit (T.number yes) i else bit
        (T.number no) i) }
{
    yes.bit_and(which).bit_or(no.bit_and(which.bit_not()))
}

/// Returns the word whose bits are all `value`, of the type of `like`.
fn splat_bit<T: BitChunk>(like: T, value: bool) -> T
    ensures { (i : ℕ) → i < T.WIDTH → bit (T.number result) i ≡ value }
{
    let zeros = like.bit_xor(like);
    if value { zeros.bit_not() } else { zeros }
}
