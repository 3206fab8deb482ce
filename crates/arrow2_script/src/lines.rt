//! The lines of a script, and the words of a line.
ghost use Rattle.std.specs.Prelude.{false, ◌≡◌, ◌≢◌, ◌<◌, ◌⊎◌, List, [], ◌∷◌, ◌++◌, ℕ, length, MatchOption, All};
ghost use Rattle.std.specs.Iterator.{YieldsFirstRef, item_count};
ghost use Rattle.arrow2_script.specs.Lines.{lines_of, parts_between, parts_left};

use memchr::memchr;
use std::marker::Model;

/// Returns the bytes before the first `byte` and the bytes after it. If there is no `byte`, returns all bytes and
/// `None`.
fn cut_at(bytes: &[u8], byte: u8) -> (&[u8], Option<&[u8]>)
    ensures free { All (λ b. b ≢ byte) result.0.now }
    ensures joined { MatchOption result.1 (bytes.now ≡ result.0.now) (λ after.
        bytes.now ≡ result.0.now ++ byte ∷ after.now) }
{
    let Some(at) = memchr(byte, bytes) else {
        return (bytes, None);
    };
    let (before, rest) = bytes.split_at(at);
    (before, Some(&rest[1..]))
}

/// Returns the first line of a script, without its line end, and the rest of the script after that line end, which is
/// empty if there is no line end. Only `\n` ends a line. Requires that the script is not empty.
#[tactic(auto, using(crate::proofs::LineLemmas::cutting))]
pub fn next_line(script: &[u8]) -> (&[u8], &[u8])
    requires { 0 < length script.now }
    ensures lines { lines_of script.now ≡ result.0.now ∷ lines_of result.1.now }
    // The line ends at the first line end, or with the script. A line end has the number 10.
    ensures joined { (script.now ≡ result.0.now ++ 10 ∷ result.1.now)
        ⊎ ((script.now ≡ result.0.now) × (result.1.now ≡ [])) }
    ensures shorter { length result.1.now < length script.now }
{
    let (line, rest) = cut_at(script, b'\n');
    match rest {
        Some(rest) => (line, rest),
        None => (line, &[]),
    }
}

/// An iterator over the parts of some bytes between the occurrences of one byte, as Rust's `split` returns them: parts
/// may be empty, and an empty slice has one part, which is empty.
#[derive(Drop)]
pub struct Parts<'a> {
    byte: u8,
    rest: &'a [u8],
    ended: bool,
}

impl<'a> Model for Parts<'a> {
    ghost Value = { List (List ℕ) };

    ghost view = { λ p. parts_left p.byte p.ended p.rest.now };
}

impl<'a> Parts<'a> {
    /// Returns an iterator over all parts between the occurrences of `byte`.
    pub fn new(bytes: &'a [u8], byte: u8) -> Parts<'a>
        ensures { result ≡ parts_between byte bytes.entry.now }
    {
        Parts {
            byte,
            rest: bytes,
            ended: false,
        }
    }

    /// Returns an iterator that has no part left.
    pub fn none() -> Parts<'a>
        ensures { result ≡ [] }
    {
        Parts {
            byte: 0,
            rest: &[],
            ended: true,
        }
    }

    /// Returns a second iterator over the remaining parts.
    pub fn again(&self) -> Parts<'a>
        ensures { result ≡ self.now }
    {
        Parts {
            byte: self.byte,
            rest: self.rest,
            ended: self.ended,
        }
    }
}

impl<'a> Iterator for Parts<'a> {
    type Item = &'a [u8];

    ghost next_gives = { YieldsFirstRef (λ parts. parts) };

    ghost remaining = { item_count (λ parts. parts) };

    #[tactic(auto, using(crate::proofs::LineLemmas::cutting))]
    fn next(&mut self) -> Option<&'a [u8]> {
        if self.ended {
            return None;
        }
        let (part, rest) = cut_at(self.rest, self.byte);
        match rest {
            Some(rest) => {
                self.rest = rest;
                Some(part)
            }
            None => {
                self.ended = true;
                Some(part)
            }
        }
    }
}
