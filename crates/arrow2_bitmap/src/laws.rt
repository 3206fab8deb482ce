//! Laws of bitmaps that grow: of their bytes, and of appended items. Each is the contract of a function with
//! an empty body.
ghost use Rattle.std.specs.Prelude.{◌≡◌, ◌↔◌, ◌++◌, ℕ, List, Bool, length, take, drop};
ghost use Rattle.arrow2_model.specs.Lists.{canonical_bytes, BitmapStorage, GrowingBitmap, items_of};
ghost use Rattle.arrow2_bitmap.specs.PackedBitmaps.{packed_storage};

/// Two bitmaps that grow, of equal length, have equal items exactly if their canonical bytes are equal.
#[tactic(auto, using(crate::proofs::Bytes::canonical))]
pub fn bytes_tell_growing_bitmaps_apart()
    ensures { (m n : GrowingBitmap) → length m.items ≡ length n.items →
        (m.items ≡ n.items) ↔ (canonical_bytes m.items ≡ canonical_bytes n.items) }
{}

/// Freezing keeps the items: a bitmap that is stored as `packed_storage` of a list, as `TryFrom` stores it, has the
/// items of that list. Two growing bitmaps have equal items exactly if their frozen bitmaps are equal in bytes, bit
/// offset and length.
#[tactic(auto, using(crate::proofs::Bytes::canonical))]
pub fn equal_items_freeze_to_equal_bytes()
    ensures items { (m : GrowingBitmap) (a : BitmapStorage) →
        a ≡ packed_storage m.items → items_of a ≡ m.items }
    ensures equal { (m n : GrowingBitmap) (a b : BitmapStorage) →
        a ≡ packed_storage m.items → b ≡ packed_storage n.items →
        (m.items ≡ n.items) ↔ (a ≡ b) }
{}

/// Appending one list and then another appends their concatenation. So a list may be appended in two parts, cut at any
/// index.
pub fn two_appended_lists_are_one()
    ensures items { (old middle new : GrowingBitmap) (front back : List Bool) →
        middle.items ≡ old.items ++ front → new.items ≡ middle.items ++ back →
        new.items ≡ old.items ++ (front ++ back) }
    ensures cut { (old middle new : GrowingBitmap) (items : List Bool) (n : ℕ) →
        middle.items ≡ old.items ++ take n items → new.items ≡ middle.items ++ drop n items →
        new.items ≡ old.items ++ items }
{}
