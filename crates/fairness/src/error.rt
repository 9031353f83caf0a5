//! Why a call was refused.
ghost use Rattle.std.specs.Prelude.{◌≡◌, Some};
ghost use Rattle.fairness.specs.Refusals.ErrorTexts.{refusal_text};
ghost use Rattle.fairness.specs.declared.error.Error.TheVariants.{OutOfMemory};

use std::alloc::{AllocError, AllocFailed};
use std::fmt;

/// Why a call was refused. What a call leaves after a refusal is said at the call.
///
/// - `OutOfMemory`: no memory was left for a list, a map or a clone.
/// - `NumberTooLarge`: a fraction, or a number on the way to it, does not fit in 128 bits. Each call
///   says exactly when; those of `State` never answer it.
/// - `MomentTooLate`: an arrival would lie past the last moment, 18446744073709551615 nanoseconds.
/// - `FlowIdsUsedUp`: a message would start, and no flow id is left for it.
#[derive(Debug, Clone, Copy, PartialEq, Eq, thiserror::Error)]
pub enum Error {
    OutOfMemory,
    NumberTooLarge,
    MomentTooLate,
    FlowIdsUsedUp,
}

/// What a program says of the refusal, without a byte at its end.
impl fmt::Display for Error {
    ghost output = { λ error. Some (refusal_text error) };

    fn fmt<W: fmt::Write>(&self, f: &mut fmt::Formatter<W>) -> fmt::Result {
        match self {
            Error::OutOfMemory => write!(f, "out of memory"),
            Error::NumberTooLarge => write!(f, "number too large"),
            Error::MomentTooLate => write!(f, "moment too late"),
            Error::FlowIdsUsedUp => write!(f, "flow ids used up"),
        }
    }
}

impl From<AllocError> for Error {
    ghost from_gives = { λ _ e. e ≡ OutOfMemory };

    fn from(_error: AllocError) -> Error {
        Error::OutOfMemory
    }
}

impl<T: Drop> From<AllocFailed<T>> for Error {
    ghost from_gives = { λ _ e. e ≡ OutOfMemory };

    fn from(_error: AllocFailed<T>) -> Error {
        Error::OutOfMemory
    }
}
