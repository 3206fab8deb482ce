//! The words after a command's name.
ghost use Rattle.std.specs.Prelude.{◌≡◌, ℕ, List, Option};
ghost use Rattle.arrow2_script.specs.Arguments.{◌>>◌, no_words};

use crate::lines::Parts;
use crate::words::Word;

/// The values of a list of words, one for each word: a pair of the first value and the other values, or `()` for no
/// words.
pub(crate) trait Values<'a>: Drop {
    // The values of words.
    ghost parsed: { List (List ℕ) → Option Self };

    /// Returns the values of the remaining words, or `None` if there are more or fewer words than values, or a word
    /// does not spell its value.
    fn read(parts: Parts<'a>) -> Option<Self>
        ensures { result ≡ parsed parts.entry };
}

impl<'a> Values<'a> for () {
    ghost parsed = { no_words };

    fn read(parts: Parts<'a>) -> Option<()> {
        let mut parts = parts;
        match parts.next() {
            None => Some(()),
            Some(_) => None,
        }
    }
}

impl<'a, A: Word<'a>, B: Values<'a>> Values<'a> for (A, B) {
    ghost parsed = { A.parsed >> B.parsed };

    fn read(parts: Parts<'a>) -> Option<(A, B)> {
        let mut parts = parts;
        let first = A::parse(parts.next()?)?;
        let others = B::read(parts)?;
        Some((first, others))
    }
}
