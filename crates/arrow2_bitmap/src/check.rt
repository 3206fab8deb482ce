//! The test that bytes can hold a given number of bits.
ghost use Rattle.std.specs.Prelude.{◌≡◌, ◌*◌, ◌≤◌, ◌↔◌, IsOk, IfOk, vec_len, string_bytes};
ghost use Rattle.arrow2_types.specs.Failures.{FailsOnlyWith};
ghost use Rattle.arrow2_bitmap.specs.Failures.{too_long};

use arrow2_types::{Error, Result};
use std::alloc::{AllocError, Global};

/// Returns an error exactly where `len` is above eight times the number of bytes. The error is `InvalidArgumentError`
/// with the message `too_long`, which begins with `subject`, or it is `OutOfMemory`.
pub(crate) fn check_length(subject: &str, len: usize, bytes: &Vec<u8>) -> Result<()>
    ensures accepted { IsOk result ↔ (len ≤ 8 * vec_len bytes.now) }
    ensures rejected { FailsOnlyWith result (too_long subject.now len (vec_len bytes.now)) }
{
    if len > bytes.len().saturating_mul(8) {
        let text = message(*bytes.allocator(), subject, len, bytes.len())?;
        return Err(Error::InvalidArgumentError(text));
    }
    Ok(())
}

/// Returns the message for `len` bits in `bytes` bytes.
#[tactic(auto, unfolding(crate::specs::Failures::too_long))]
fn message(
    alloc: Global,
    subject: &str,
    len: usize,
    bytes: usize,
) -> std::result::Result<String, AllocError>
    ensures { IfOk result (λ text. string_bytes text ≡ too_long subject.now len bytes) }
{
    let bits = bytes.saturating_mul(8);
    format!(in alloc;
        "{subject} of the bitmap ({len}) must be `<=` to the number of bytes times 8 ({bits})"
    )
}
