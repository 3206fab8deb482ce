//! The errors that the layer's calls return.
ghost use Rattle.std.specs.Prelude.{◌≡◌, ◌++◌, Some, option_map};
ghost use Rattle.std.specs.Fmt.{DisplaysOnOk};
ghost use Rattle.arrow2_types.specs.declared.error.Error.TheVariants.{OutOfMemory, Io};

use std::alloc::{AllocError, AllocFailed, Global};
use std::str::Utf8Error;
use std::string::{FromUtf8Error, ToString};
use std::{fmt, io};

/// Why a call failed.
///
/// Differs from arrow2: `External` holds a text instead of a boxed error. `OutOfMemory` replaces an abort. `Overflow`
/// means overflow alone; in arrow2 it also comes where memory cannot be reserved.
#[derive(Debug, Drop)]
#[non_exhaustive]
pub enum Error {
    /// The requested feature is not available yet.
    NotYetImplemented(String),
    /// An error of another library: a message, and the text of that error.
    External(String, String),
    /// An error of input or output.
    Io(io::Error),
    /// An argument is invalid.
    InvalidArgumentError(String),
    /// A file or a message is not in its format.
    ExternalFormat(String),
    /// A length, a count or an offset would exceed the greatest number of its type.
    Overflow,
    /// An input does not follow the Arrow specification.
    OutOfSpec(String),
    /// An allocation failed.
    OutOfMemory,
}

/// A result whose error is an [`Error`].
pub type Result<T> = std::result::Result<T, Error>;

impl Error {
    ghost use Rattle.std.specs.Prelude.{◌≡◌, IfSome, codes};
    ghost use Rattle.arrow2_types.specs.ErrorTexts.{WrapsText};

    /// Returns `External` with an empty message and the text that `error` prints, or `OutOfMemory` where the allocation
    /// of that text fails.
    ///
    /// Differs from arrow2: `error` needs to implement `Display` alone, and only its text is kept.
    pub fn from_external_error<E: fmt::Display>(alloc: Global, error: &E) -> Error
        ensures { WrapsText result
            (λ text. IfSome (E.output error.now) (λ printed. text ≡ printed)) }
    {
        match error.to_string(alloc) {
            Ok(text) => Error::External(String::new(alloc), text),
            Err(AllocError) => Error::OutOfMemory,
        }
    }

    /// Returns the same as [`Error::from_external_error`], including `OutOfMemory`, for std's error of bytes that are
    /// not UTF-8.
    pub fn from_utf8_error(alloc: Global, error: Utf8Error) -> Error
        ensures { WrapsText result (λ text.
            IfSome (⟦<Utf8Error as fmt::Display>⟧.output error) (λ printed. text ≡ printed)) }
    {
        Error::from_external_error::<Utf8Error>(alloc, &error)
    }

    /// Returns the same as [`Error::from_external_error`], including `OutOfMemory`, for the error of std's
    /// `String::from_utf8`. Drops the bytes that this error holds.
    pub fn from_string_utf8_error(alloc: Global, error: FromUtf8Error) -> Error
        ensures { WrapsText result (λ text.
            IfSome (⟦<FromUtf8Error as fmt::Display>⟧.output error) (λ printed. text ≡ printed)) }
    {
        Error::from_external_error::<FromUtf8Error>(alloc, &error)
    }

    /// Returns the same as [`Error::from_external_error`], including `OutOfMemory`, for the error of simdutf8's UTF-8
    /// validation.
    pub fn from_basic_utf8_error(alloc: Global, error: simdutf8::basic::Utf8Error) -> Error
        ensures { WrapsText result (λ text. text ≡ codes "invalid utf-8 sequence") }
    {
        Error::from_external_error::<simdutf8::basic::Utf8Error>(alloc, &error)
    }
}

/// Prints a phrase for the error's variant, followed by the error's text if it has one. [`Error::External`] prints its
/// message between the two. [`Error::OutOfSpec`] prints its text alone. The text that [`Error::Io`] prints is not
/// specified, since the standard library does not specify the texts of its own errors.
impl fmt::Display for Error {
    ghost use Rattle.arrow2_types.specs.ErrorTexts.{error_text};

    ghost output = { error_text };

    fn fmt<W: fmt::Write>(&self, f: &mut fmt::Formatter<W>) -> fmt::Result {
        match self {
            Error::NotYetImplemented(text) => write_labelled(f, "Not yet implemented: ", text),
            Error::External(message, text) => write!(f, "External error{message}: {text}"),
            Error::Io(error) => write_labelled(f, "Io error: ", error),
            Error::InvalidArgumentError(text) => {
                write_labelled(f, "Invalid argument error: ", text)
            }
            Error::ExternalFormat(text) => write_labelled(f, "External format error: ", text),
            Error::Overflow => f.write_str("Operation overflew the backing container."),
            Error::OutOfSpec(text) => f.write_str(text.as_str()),
            Error::OutOfMemory => f.write_str("Out of memory"),
        }
    }
}

/// Writes a label, and then a value.
fn write_labelled<W: fmt::Write, T: fmt::Display>(
    f: &mut fmt::Formatter<W>,
    label: &str,
    value: &T,
) -> fmt::Result
    ensures { DisplaysOnOk W.write_str_gives f.old result
        (option_map (λ text. label.now ++ text) (T.output value.now)) f.new }
{
    write!(f, "{label}{value}")
}

impl std::error::Error for Error {}

/// Returns `OutOfMemory`. Does not allocate.
impl From<AllocError> for Error {
    ghost from_gives = { λ _ e. e ≡ OutOfMemory };

    fn from(_error: AllocError) -> Error {
        Error::OutOfMemory
    }
}

/// Returns `OutOfMemory`, and drops the value that could not be stored. Does not allocate.
impl<T: Drop> From<AllocFailed<T>> for Error {
    ghost from_gives = { λ _ e. e ≡ OutOfMemory };

    fn from(_error: AllocFailed<T>) -> Error {
        Error::OutOfMemory
    }
}

/// Returns `Io` with the error. Does not allocate.
impl From<io::Error> for Error {
    ghost from_gives = { λ error e. e ≡ Io error };

    fn from(error: io::Error) -> Error {
        Error::Io(error)
    }
}
