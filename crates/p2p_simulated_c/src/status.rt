//! The number with which a call ends.
ghost use Rattle.std.specs.Prelude.{◌≡◌};
ghost use Rattle.fairness.specs.Refusals.ErrorTexts.{refusal_number};

use fairness::error::Error;

/// The call was made.
pub const MADE: u32 = 0;

/// No memory was left.
pub const OUT_OF_MEMORY: u32 = 1;

/// The scheduler is not open.
pub const CLOSED: u32 = 5;

/// The last call was at a later moment.
pub const GONE_BY: u32 = 6;

/// An event is due.
pub const EVENT_DUE: u32 = 7;

/// The number of a refusal, which is the one that a script prints.
pub fn number_of(why: Error) -> u32
    ensures { result ≡ refusal_number why }
{
    match why {
        Error::OutOfMemory => OUT_OF_MEMORY,
        Error::NumberTooLarge => 2,
        Error::MomentTooLate => 3,
        Error::FlowIdsUsedUp => 4,
    }
}
