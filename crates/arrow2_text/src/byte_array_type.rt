//! What the slots of an array hold: byte strings, or texts.
ghost use Rattle.std.specs.Prelude.{◌≡◌, ◌<◌, ◌≤◌, ◌↔◌, [], All, Bool, ℕ, ℤ, List, Option, Some, ⊤, length, IsOk, IsTrue, IsUtf8};
ghost use Rattle.std.specs.Fmt.{DisplaysOnOk};
ghost use Rattle.std.proofs.lemmas.Str.{IsUtf8-nil};
ghost use Rattle.arrow2_model.specs.Lists.{buffer_items};
ghost use Rattle.arrow2_offset.specs.Offsets.{last_of};
ghost use Rattle.arrow2_types.specs.Failures.{FailsOnlyWith};
ghost use Rattle.arrow2_datatypes.specs.Types.{physical};
ghost use Rattle.arrow2_datatypes.specs.declared.DataType.{DataType as LogicalType};
ghost use Rattle.arrow2_datatypes.specs.declared.physical_type.PhysicalType.{PhysicalType as Layout};
ghost use Rattle.arrow2_utf8.specs.Texts.{AreTexts, slot_values};
ghost use Rattle.arrow2_text.specs.ArrayTexts.{binary_head, bytes_output, text_head};
ghost use Rattle.arrow2_text.specs.Binary.{binary_layout, default_binary, default_text, text_layout};
ghost use Rattle.arrow2_text.specs.Failures.{not_utf8, other_binary_layout_message, other_text_layout_message, past_the_values_message};

use crate::checks::{check_bounds, check_texts};
use arrow2_datatypes::{DataType, PhysicalType};
use arrow2_index::OffsetNumber;
use arrow2_offset::OffsetsBuffer;
use arrow2_types::Result;
use std::alloc::Global;
use std::{fmt, str};

/// What the slots of a [`GenericByteArray`](crate::GenericByteArray) hold: [`BinaryType`] for byte strings, or
/// [`Utf8Type`] for texts. Its functions serve these arrays. A caller needs the trait only as a bound.
///
/// arrow2 has no such trait. arrow-rs has one of this name, which also fixes the type of the offsets: there
/// `BinaryType` and `Utf8Type` have 32-bit offsets.
pub trait ByteArrayType {
    // What the bytes of each slot are: any bytes, or UTF-8.
    ghost IsValue: { List ℕ → Type 0 };

    // What holds of the offsets and the bytes of each array: no offset is past the bytes, and `IsValue` holds of the
    // bytes of each slot.
    ghost Fits: { List ℤ → List ℕ → Type 0 };

    // The next three state that `Fits` is exactly this.
    ghost inside: { (offsets : List ℤ) (bytes : List ℕ) → Fits offsets bytes
        → last_of offsets ≤ length bytes };

    ghost each: { (offsets : List ℤ) (bytes : List ℕ) → Fits offsets bytes
        → All IsValue (slot_values offsets bytes) };

    ghost fits: { (offsets : List ℤ) (bytes : List ℕ) → last_of offsets ≤ length bytes
        → All IsValue (slot_values offsets bytes) → Fits offsets bytes };

    // No bytes are a value, so that a null can be stored without bytes.
    ghost no_bytes: { IsValue [] };

    // The physical type of the arrays, and their default logical type, by whether their offsets have 64 bits.
    ghost layout: { Bool → Layout };

    ghost default_type: { Bool → LogicalType };

    // The message for a logical type of another layout.
    ghost other_layout_message: { List ℕ };

    // What `{:?}` writes before the items, by whether the offsets have 64 bits, and of the bytes of an item.
    ghost head: { Bool → List ℕ };

    ghost output: { List ℕ → Option (List ℕ) };

    /// Returns the default logical type of arrays with 64-bit offsets if `large`, else with 32-bit offsets.
    fn default_data_type(large: bool) -> DataType
        ensures value { result ≡ default_type large }
        ensures layout { physical result ≡ layout large };

    /// Returns whether this is the physical type of the arrays: with 64-bit offsets if `large`, else with 32-bit
    /// offsets.
    fn is_layout(physical_type: PhysicalType, large: bool) -> bool
        ensures { IsTrue result ↔ (physical_type ≡ layout large) };

    /// Returns the message for a logical type of another layout.
    fn other_layout() -> &'static str
        ensures { result.now ≡ other_layout_message };

    /// Returns an error exactly if the last offset is past the bytes, or the bytes of a slot are not allowed by this
    /// type. The error is `InvalidArgumentError` or `OutOfMemory`. In the code `OutOfMemory` comes only if the message
    /// cannot be allocated.
    fn check<O: OffsetNumber>(alloc: Global, offsets: &OffsetsBuffer<O>, bytes: &[u8]) -> Result<()>
        ensures accepted { IsOk result ↔ Fits (buffer_items offsets.now) bytes.now }
        ensures past { length bytes.now < last_of (buffer_items offsets.now) →
            FailsOnlyWith result past_the_values_message }
        ensures broken { last_of (buffer_items offsets.now) ≤ length bytes.now →
            FailsOnlyWith result not_utf8 };

    /// Returns the name that `{:?}` writes before the items of an array with 64-bit offsets if `large`, else with
    /// 32-bit offsets.
    fn name(large: bool) -> &'static str
        ensures { result.now ≡ head large };

    /// Writes the bytes of a slot as `{:?}` of an array shows them: a byte string as the list of its bytes, a text as
    /// it is. Requires for texts that the bytes are UTF-8.
    fn write_value<W: fmt::Write>(bytes: &[u8], f: &mut fmt::Formatter<W>) -> fmt::Result
        requires { IsValue bytes.now }
        ensures { DisplaysOnOk W.write_str_gives f.old result (output bytes.entry.now) f.new };
}

/// The [`ByteArrayType`] of [`BinaryArray`](crate::BinaryArray): a slot holds any bytes.
pub struct BinaryType;

/// The [`ByteArrayType`] of [`Utf8Array`](crate::Utf8Array): a slot holds UTF-8.
pub struct Utf8Type;

impl ByteArrayType for BinaryType {
    ghost IsValue = { λ bytes. ⊤ };

    ghost Fits = { λ offsets bytes. last_of offsets ≤ length bytes };

    ghost inside = { λ offsets bytes within. within };

    ghost each = { λ offsets bytes within k d below. tt };

    ghost fits = { λ offsets bytes within any. within };

    ghost no_bytes = { tt };

    ghost layout = { binary_layout };

    ghost default_type = { default_binary };

    ghost other_layout_message = { other_binary_layout_message };

    ghost head = { binary_head };

    ghost output = { bytes_output };

    fn default_data_type(large: bool) -> DataType {
        if large {
            DataType::LargeBinary
        } else {
            DataType::Binary
        }
    }

    fn is_layout(physical_type: PhysicalType, large: bool) -> bool {
        match physical_type {
            PhysicalType::Binary => !large,
            PhysicalType::LargeBinary => large,
            _ => false,
        }
    }

    fn other_layout() -> &'static str {
        "BinaryArray can only be initialized with DataType::Binary or DataType::LargeBinary"
    }

    fn check<O: OffsetNumber>(
        alloc: Global,
        offsets: &OffsetsBuffer<O>,
        bytes: &[u8],
    ) -> Result<()> {
        check_bounds(alloc, offsets, bytes.len())
    }

    fn name(large: bool) -> &'static str {
        if large {
            "LargeBinaryArray"
        } else {
            "BinaryArray"
        }
    }

    fn write_value<W: fmt::Write>(bytes: &[u8], f: &mut fmt::Formatter<W>) -> fmt::Result {
        write!(f, "{bytes:?}")
    }
}

impl ByteArrayType for Utf8Type {
    ghost IsValue = { IsUtf8 };

    ghost Fits = { AreTexts };

    ghost inside = { λ offsets bytes fit. fit.inside };

    ghost each = { λ offsets bytes fit. fit.texts };

    ghost fits = { λ offsets bytes within texts. record { inside = within; texts = texts } };

    ghost no_bytes = { IsUtf8-nil };

    ghost layout = { text_layout };

    ghost default_type = { default_text };

    ghost other_layout_message = { other_text_layout_message };

    ghost head = { text_head };

    ghost output = { λ text. Some text };

    fn default_data_type(large: bool) -> DataType {
        if large {
            DataType::LargeUtf8
        } else {
            DataType::Utf8
        }
    }

    fn is_layout(physical_type: PhysicalType, large: bool) -> bool {
        match physical_type {
            PhysicalType::Utf8 => !large,
            PhysicalType::LargeUtf8 => large,
            _ => false,
        }
    }

    fn other_layout() -> &'static str {
        "Utf8Array can only be initialized with DataType::Utf8 or DataType::LargeUtf8"
    }

    fn check<O: OffsetNumber>(
        alloc: Global,
        offsets: &OffsetsBuffer<O>,
        bytes: &[u8],
    ) -> Result<()> {
        check_texts(alloc, offsets, bytes)
    }

    fn name(large: bool) -> &'static str {
        if large { "LargeUtf8Array" } else { "Utf8Array" }
    }

    fn write_value<W: fmt::Write>(bytes: &[u8], f: &mut fmt::Formatter<W>) -> fmt::Result {
        let text = unsafe { str::from_utf8_unchecked(bytes) };
        f.write_str(text)
    }
}
