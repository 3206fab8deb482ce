//! The parts of replies.
ghost use Rattle.std.specs.Prelude.{◌≡◌, ◌++◌, ℕ, length, map, unsigned_abs, OnOk, decimal};
ghost use Rattle.arrow2.specs.Items.{boolean_items};
ghost use Rattle.arrow2.specs.Zipped.{slot, zipped};
ghost use Rattle.arrow2.specs.Lists.{words};
ghost use Rattle.arrow2_script.specs.Words.{bit_byte as byte_of, bits_text};
ghost use Rattle.arrow2_machine.specs.Replies.{array_byte as array_byte_of, array_items_text, item_reply, listed_word, offset_reply, run_word, slot_word, words_text};

use arrow2::array::BooleanArray;
use arrow2::bitmap::utils::{BitChunk, BitChunks, BitmapIter, SlicesIterator};
use arrow2::offset::Lengths;
use std::alloc::AllocError;

/// Returns the byte of a bit in a text of bits.
fn bit_byte(bit: bool) -> u8
    ensures { result ≡ byte_of bit }
{
    if bit { b'1' } else { b'0' }
}

/// Appends a number's digits.
pub(crate) fn write_number(number: usize, reply: &mut Vec<u8>) -> Result<(), AllocError>
    ensures { OnOk result (reply.new.items ≡ reply.old.items ++ decimal number) }
{
    let text = number.to_string(*reply.allocator())?;
    reply.extend_from_slice(text.as_bytes())
}

/// Appends the byte of an item, or `none` if there is no item.
pub(crate) fn write_item(item: Option<bool>, reply: &mut Vec<u8>) -> Result<(), AllocError>
    ensures { OnOk result (reply.new.items ≡ reply.old.items ++ item_reply item) }
{
    match item {
        Some(item) => reply.push(bit_byte(item))?,
        None => reply.extend_from_slice(b"none")?,
    }
    Ok(())
}

/// Appends the text of items, `-` if there are none.
pub(crate) fn write_items(items: BitmapIter<'_>, out: &mut Vec<u8>) -> Result<(), AllocError>
    ensures { OnOk result (out.new.items ≡ out.old.items ++ bits_text items.entry) }
{
    let mut items = items;
    let Some(first) = items.next() else {
        return out.extend_from_slice(b"-");
    };
    out.push(bit_byte(first))?;
    for item in items {
        out.push(bit_byte(item))?;
    }
    Ok(())
}

/// Appends the digits of the absolute value of a number. Offsets are never negative.
fn write_magnitude(number: &i32, out: &mut Vec<u8>) -> Result<(), AllocError>
    ensures { OnOk result (out.new.items ≡ out.old.items ++ decimal (unsigned_abs number.now)) }
{
    write_number(number.unsigned_abs() as usize, out)
}

/// Appends the digits of an offset, or `none` if there is no offset.
pub(crate) fn write_offset(offset: Option<i32>, reply: &mut Vec<u8>) -> Result<(), AllocError>
    ensures { OnOk result (reply.new.items ≡ reply.old.items ++ offset_reply offset) }
{
    match offset {
        Some(offset) => write_magnitude(&offset, reply)?,
        None => reply.extend_from_slice(b"none")?,
    }
    Ok(())
}

/// Appends the text of a list of offsets, `-` if it is empty.
#[tactic(auto, unfolding(crate::specs::Replies::words_text))]
pub(crate) fn write_offsets(offsets: &[i32], out: &mut Vec<u8>) -> Result<(), AllocError>
    ensures { OnOk result (out.new.items ≡ out.old.items
        ++ words_text (map (λ x. decimal (unsigned_abs x)) offsets.now)) }
{
    let Some((first, others)) = offsets.split_first() else {
        out.extend_from_slice(b"-")?;
        return Ok(());
    };
    write_magnitude(first, out)?;
    for offset in others {
        out.push(b' ')?;
        write_magnitude(offset, out)?;
    }
    Ok(())
}

/// Appends the digits of the length of a slot, or `null` if the slot is not valid.
fn write_slot(len: usize, valid: bool, out: &mut Vec<u8>) -> Result<(), AllocError>
    ensures { OnOk result (out.new.items ≡ out.old.items ++ slot_word (slot len valid)) }
{
    if valid {
        write_number(len, out)
    } else {
        out.extend_from_slice(b"null")
    }
}

/// Appends the text of slots: for each slot its length, or `null` if it is not valid. Requires that `lengths` and
/// `validity` have equal lengths.
pub(crate) fn write_slots(
    lengths: Lengths<'_, i32>,
    validity: BitmapIter<'_>,
    out: &mut Vec<u8>,
) -> Result<(), AllocError>
    requires { length lengths ≡ length validity }
    ensures { OnOk result (out.new.items ≡ out.old.items
        ++ words_text (map slot_word (zipped lengths.entry validity.entry))) }
{
    let mut slots = lengths.zip(validity);
    let Some((len, valid)) = slots.next() else {
        out.extend_from_slice(b"-")?;
        return Ok(());
    };
    write_slot(len, valid, out)?;
    for (len, valid) in slots {
        out.push(b' ')?;
        write_slot(len, valid, out)?;
    }
    Ok(())
}

/// Appends a number's digits, after a space unless it is the first one of a list.
fn write_listed(number: usize, first: bool, out: &mut Vec<u8>) -> Result<(), AllocError>
    ensures { OnOk result (out.new.items ≡ out.old.items ++ listed_word first (decimal number)) }
{
    if !first {
        out.push(b' ')?;
    }
    write_number(number, out)
}

/// Appends each word of a list of items as a decimal number. Bits of the last word past the items are 0. Requires that
/// `number` may be called with any word, and returns the value of the word.
pub(crate) fn write_words<T: BitChunk, F: Fn(T) -> usize>(
    chunks: BitChunks<'_, T>,
    number: F,
    out: &mut Vec<u8>,
) -> Result<(), AllocError>
    requires callable { F.IsAlwaysCallable number }
    requires number { (x : T) (n : ℕ) → F.post number x n → n ≡ T.number x }
    ensures { OnOk result (out.new.items ≡ out.old.items
        ++ words_text (map decimal (words T.WIDTH chunks.entry.items))) }
{
    let mut chunks = chunks;
    let mut first = true;
    while let Some(word) = chunks.next() {
        write_listed(number(word), first, out)?;
        first = false;
    }
    let rest = chunks.remainder_len();
    if rest > 0 {
        let last = chunks.remainder().masked(rest);
        write_listed(number(last), first, out)?;
    } else if first {
        out.extend_from_slice(b"-")?;
    }
    Ok(())
}

/// Appends the text of a run of `len` items from index `start` on: both numbers, with `:` between them.
fn write_run(start: usize, len: usize, out: &mut Vec<u8>) -> Result<(), AllocError>
    ensures { OnOk result (out.new.items ≡ out.old.items ++ run_word (start, len)) }
{
    write_number(start, out)?;
    out.push(b':')?;
    write_number(len, out)
}

/// Appends the text of the remaining runs of an iterator, `-` if there are none.
pub(crate) fn write_runs(runs: SlicesIterator<'_>, out: &mut Vec<u8>) -> Result<(), AllocError>
    ensures { OnOk result (out.new.items ≡ out.old.items
        ++ words_text (map run_word runs.entry.runs)) }
{
    let mut runs = runs;
    let Some((start, len)) = runs.next_run() else {
        out.extend_from_slice(b"-")?;
        return Ok(());
    };
    write_run(start, len, out)?;
    while let Some((start, len)) = runs.next_run() {
        out.push(b' ')?;
        write_run(start, len, out)?;
    }
    Ok(())
}

/// Returns the byte of an item in the text of a boolean array.
fn array_byte(item: Option<bool>) -> u8
    ensures { result ≡ array_byte_of item }
{
    match item {
        Some(item) => bit_byte(item),
        None => b'n',
    }
}

/// Appends the text of a boolean array's items, `-` if there are none.
pub(crate) fn write_array_items(array: &BooleanArray, out: &mut Vec<u8>) -> Result<(), AllocError>
    ensures { OnOk result (out.new.items
        ≡ out.old.items ++ array_items_text (boolean_items array.now)) }
{
    let mut items = array.iter();
    let Some(first) = items.next() else {
        return out.extend_from_slice(b"-");
    };
    out.push(array_byte(first))?;
    for item in items {
        out.push(array_byte(item))?;
    }
    Ok(())
}
