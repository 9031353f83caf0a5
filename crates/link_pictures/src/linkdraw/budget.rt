//! How often what is in flight is looked up.

/// Messages that a small script may have.
const FEW: usize = 2000;

/// What a small script may spend.
const FREE: u64 = 60_000;

/// What it costs to look up a message in flight.
const COST: u64 = 2;

/// For so many rates that are found anew one more is earned, besides the one for an event.
const RATES: usize = 1024;

/// How many messages in flight may still be looked up.
///
/// To look up what is in flight takes time for each message in it, and more than the scheduler takes
/// for one. So that a picture of a large script takes not many times as long as the run itself, it
/// is looked up after each event of a small script alone, and in a large one as often as its rates
/// are many.
#[derive(Debug, Drop)]
pub(crate) struct Budget {
    /// Whether it is looked up after each event, whatever that takes.
    has_no_end: bool,
    free: u64,
    earned: u64,
}

impl Budget {
    /// Nothing is looked up yet.
    pub(crate) fn new(has_no_end: bool) -> Budget {
        Budget {
            has_no_end,
            free: FREE,
            earned: 0,
        }
    }

    /// An event, or a call, found so many rates anew.
    pub(crate) fn earn(&mut self, rates: usize) {
        let more = (rates / RATES).saturating_add(1) as u64;
        self.earned = self.earned.saturating_add(more);
    }

    /// Whether so many messages in flight, of so many in all, may be looked up. If so, they count.
    pub(crate) fn pay(&mut self, flights: usize, messages: usize) -> bool {
        let cost = (flights as u64).saturating_mul(COST).saturating_add(1);
        if self.has_no_end {
            return true;
        }
        if messages <= FEW {
            if let Some(rest) = self.free.checked_sub(cost) {
                self.free = rest;
                return true;
            }
        }
        match self.earned.checked_sub(cost) {
            Some(rest) => {
                self.earned = rest;
                true
            }
            None => false,
        }
    }
}
