//! Laws of the definitions. Each is the contract of a function with an empty body.
ghost use Rattle.std.specs.Prelude.{◌≡◌, ◌↔◌, ℕ, ◌+◌, ◌-◌, ◌*◌, ◌/◌, ◌%◌, ◌<◌, ◌≤◌, ◌^◌, List, ◌∷◌, [], ◌++◌, Bool, true, length, codes, count_by, false, replicate, slice_get, slice_index, Some, take, IsTrue, flat_map};
ghost use Rattle.std.specs.Bool.{beq};
ghost use Rattle.std.specs.Cmp.Lexicographic.{pointwise};
ghost use Rattle.std.specs.Int.{div_ceil};
ghost use Rattle.arrow2_model.specs.Lists.{bit, bits, num, unnum, sum_of_powers, part, falses, BitmapStorage, items_of, words, full_words, rest, word, canonical_bytes};
ghost use Rattle.arrow2_model.specs.Kernels.{kernel};
ghost use Rattle.arrow2_model.specs.Touched.{touched, slice_reads, cut_reads, lg, cut_budget, HoldsBit};
ghost use Rattle.arrow2_model.specs.Tables.{each, IsBitwise};
ghost use Rattle.arrow2_model.specs.Shown.{shown, items_text};

/// A part of a part of a list is a part of that list, and starts at the sum of both indices.
#[tactic(auto, using(crate::proofs::Cursors::parts))]
pub fn part_of_a_part()
    ensures { (items : List Bool) (a n b m : ℕ) → b + m ≤ n →
        part (part items a n) b m ≡ part items (a + b) m }
{}

/// The number of false items of a list is at most its length.
#[tactic(auto, using(crate::proofs::Counts::counts))]
pub fn false_items_are_items()
    ensures { (items : List Bool) → falses items ≤ length items }
{}

/// The number of true items plus the number of false items is the length of the list.
#[tactic(auto, using(crate::proofs::Counts::counting))]
pub fn true_and_false_items_are_all()
    ensures { (items : List Bool) → count_by (λ b. b) items + falses items ≡ length items }
{}

/// The numbers of false items add up: over two lists, one after the other, and over the two parts into which a list is
/// cut.
#[tactic(auto, using(crate::proofs::Counts::counting))]
pub fn false_items_are_added()
    ensures lists { (xs ys : List Bool) → falses (xs ++ ys) ≡ falses xs + falses ys }
    ensures parts { (items : List Bool) (m n : ℕ) → length items ≡ m + n →
        falses (part items 0 m) + falses (part items m n) ≡ falses items }
{}

/// The number of false items is 0 exactly where every item is true.
#[tactic(auto, using(crate::proofs::Counts::counting))]
pub fn no_false_item_where_all_are_true()
    ensures { (items : List Bool) → (falses items ≡ 0) ↔ (items ≡ replicate (length items) true) }
{}

/// Item `i` of a number's list of bits is bit `i` of the number. Item `k` of the list of bits of bytes is bit `k % 8`
/// of byte `k / 8`.
pub fn a_bit_is_an_item()
    ensures number { (w x i : ℕ) → i < w → slice_get (unnum w x) i ≡ Some (bit x i) }
    ensures bytes { (bytes : List ℕ) (k : ℕ) → k < 8 * length bytes →
        slice_get (bits bytes) k ≡ Some (bit (slice_index bytes (k / 8)) (k % 8)) }
{}

/// The bits of the full words of a list, followed by its rest, are the list.
#[tactic(auto, using(crate::proofs::Words::by_words))]
pub fn words_and_the_rest_are_the_list()
    ensures { (w : ℕ) (items : List Bool) → 0 < w →
        flat_map (unnum w) (full_words w items) ++ rest w items ≡ items }
{}

/// A list is the bits of its first full word, followed by the list that has its other full words and its rest. A list
/// without a full word is its rest.
#[tactic(auto, using(crate::proofs::Words::by_words))]
pub fn a_step_takes_the_first_word()
    ensures word { (w : ℕ) (items left : List Bool) (x : ℕ) → 0 < w →
        full_words w items ≡ x ∷ full_words w left → rest w left ≡ rest w items →
        items ≡ unnum w x ++ left }
    ensures end { (w : ℕ) (items : List Bool) → 0 < w →
        full_words w items ≡ [] → rest w items ≡ items }
{}

/// The number of a list is the sum of 2 ^ i over the indices i of its true items.
#[tactic(auto, using(crate::proofs::Numbers::numbers))]
pub fn number_is_a_sum_of_powers()
    ensures { (items : List Bool) → num items ≡ sum_of_powers 0 items }
{}

/// Each number below 2 ^ w is the number of one list of w items, and of no other.
#[tactic(auto, using(crate::proofs::Numbers::numbers))]
pub fn one_list_of_a_number()
    ensures list { (w x : ℕ) → length (unnum w x) ≡ w }
    ensures number { (w x : ℕ) → x < 2 ^ w → num (unnum w x) ≡ x }
    ensures only { (items : List Bool) → unnum (length items) (num items) ≡ items }
{}

/// Lists of equal length whose canonical bytes are equal are equal.
#[tactic(auto, using(crate::proofs::Canonical::canonical))]
pub fn canonical_bytes_tell_lists_apart()
    ensures { (xs ys : List Bool) → length xs ≡ length ys →
        canonical_bytes xs ≡ canonical_bytes ys → xs ≡ ys }
{}

/// The text of zero bits is a pair of brackets, at any bit offset.
#[tactic(auto, using(crate::proofs::Shown::texts))]
pub fn no_bits_are_two_brackets()
    ensures { (bytes : List ℕ) (offset : ℕ) → shown bytes offset 0 ≡ codes "[]" }
{}

/// The text of the first `n` bits of bytes is the text of the list of these bits, whatever bits come after them.
#[tactic(auto, using(crate::proofs::Shown::texts))]
pub fn first_bits_are_shown_as_their_list()
    ensures { (bytes : List ℕ) (n : ℕ) → n ≤ 8 * length bytes →
        shown bytes 0 n ≡ items_text (take n (bits bytes)) }
{}

/// The printed text of a bitmap that grows, and of one whose items begin at bit 0, is the text of its items.
#[tactic(auto, using(crate::proofs::Texts::texts_of_lists))]
pub fn a_bitmap_is_shown_as_its_list()
    ensures growing { (items : List Bool) →
        shown (canonical_bytes items) 0 (length items) ≡ items_text items }
    ensures stored { (b : BitmapStorage) → b.offset ≡ 0 → b.len ≤ 8 * length b.bytes →
        shown (part b.bytes (b.offset / 8) ((b.offset % 8 + b.len + 7) / 8)) (b.offset % 8) b.len
        ≡ items_text (items_of b) }
{}

/// A comparison item by item, which is what `==` of bitmaps returns, is true exactly where the lists are equal.
#[tactic(auto, using(crate::proofs::Same::comparing))]
pub fn a_comparison_tells_lists_apart()
    ensures { (xs ys : List Bool) → IsTrue (pointwise beq xs ys) ↔ (xs ≡ ys) }
{}

/// The words that a word function is given are the words of the list: word `j` is item `j` of `words`.
#[tactic(auto, using(crate::proofs::Kernels::kernels))]
pub fn kernels_go_by_the_words_of_a_list()
    ensures { (w : ℕ) (items : List Bool) (j : ℕ) → j < div_ceil (length items) w →
        slice_index (words w items) j ≡ word w items j }
{}

/// A word function that acts on each bit by one table gives the output of that table item by item.
#[tactic(auto, using(crate::proofs::Kernels::kernels))]
pub fn a_function_bit_by_bit_is_its_table()
    ensures { (w t : ℕ) (f : List ℕ → ℕ) (lists : List (List Bool)) → 0 < w → IsBitwise t w f →
        kernel w f lists ≡ each t lists }
{}

/// Two word functions that act bit by bit by the same table give the same list, whatever their widths are.
#[tactic(auto, using(crate::proofs::Kernels::kernels))]
pub fn a_table_is_the_same_at_each_width()
    ensures { (v w t : ℕ) (f g : List ℕ → ℕ) (lists : List (List Bool)) → 0 < v → 0 < w →
        IsBitwise t v f → IsBitwise t w g → kernel v f lists ≡ kernel w g lists }
{}

/// `not (a and b)` is `(not a) or (not b)`, item by item.
#[tactic(auto, using(crate::proofs::Tables::operators))]
pub fn not_of_and_is_or_of_nots()
    ensures { (xs ys : List Bool) → length xs ≡ length ys →
        each 1 (each 8 (xs ∷ ys ∷ []) ∷ []) ≡ each 14 (each 1 (xs ∷ []) ∷ each 1 (ys ∷ []) ∷ []) }
{}

/// Exclusive or of a list with itself is false everywhere.
#[tactic(auto, using(crate::proofs::Tables::operators))]
pub fn xor_with_itself_is_false()
    ensures { (xs : List Bool) → each 6 (xs ∷ xs ∷ []) ≡ replicate (length xs) false }
{}

/// Not, applied twice, gives the list itself.
#[tactic(auto, using(crate::proofs::Tables::operators))]
pub fn not_twice_is_the_list()
    ensures { (xs : List Bool) → each 1 (each 1 (xs ∷ []) ∷ []) ≡ xs }
{}

/// The touched bytes of some bits are exactly the bytes that hold at least one of these bits.
pub fn touched_bytes_hold_one_of_the_bits()
    ensures { (o n j : ℕ) → (o / 8 ≤ j) × (j < o / 8 + touched o n) ↔ HoldsBit o n j }
{}

/// A slice reads at most `len / 16 + 4` bytes, where `len` is the number of items of the bitmap that is sliced.
#[tactic(auto, using(crate::proofs::Touched::reads))]
pub fn a_slice_reads_half_the_bytes_at_most()
    ensures { (o len a n : ℕ) → a + n ≤ len → slice_reads o len a n ≤ len / 16 + 4 }
{}

/// The number of bytes that a slice or a cut reads depends on the bit within a byte at which the items begin, and not
/// on which byte that is.
#[tactic(auto, using(crate::proofs::Touched::reads))]
pub fn reads_depend_on_the_bit_of_a_byte()
    ensures slice { (o len a n : ℕ) → slice_reads o len a n ≡ slice_reads (o % 8) len a n }
    ensures cut { (o n i : ℕ) → cut_reads o n i ≡ cut_reads (o % 8) n i }
{}

/// The logarithm of a number is the greatest exponent whose power of 2 is at most that number, and 0 for 0.
#[tactic(auto, using(crate::proofs::Touched::reads))]
pub fn the_logarithm_is_the_greatest_exponent()
    ensures power { (n : ℕ) → 0 < n → 2 ^ lg n ≤ n }
    ensures greatest { (n e : ℕ) → 2 ^ e ≤ n → e ≤ lg n }
    ensures none { lg 0 ≡ 0 }
{}

/// Eight times the number of bytes that a cut reads, plus `cut_budget` of both parts, is at most `cut_budget` of the
/// whole plus 30.
#[tactic(auto, using(crate::proofs::Touched::reads))]
pub fn cuts_pay_for_themselves()
    ensures { (o n i : ℕ) → i ≤ n →
        8 * cut_reads o n i + cut_budget i + cut_budget (n - i) ≤ cut_budget n + 30 }
{}
