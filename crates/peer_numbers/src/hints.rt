//! Guesses at the numbers of peers, by what they tell of themselves.
use std::alloc::Global;

/// There is room for at least so many guesses, once there is one.
const FEW: usize = 16;

/// 2^64 over the golden ratio. By it hints that follow one another are spread evenly over all guesses.
const SPREAD: u64 = 0x9E37_79B9_7F4A_7C15;

/// Guesses at the numbers of peers, by their hints. One guess may stand for several peers. Each is tried before it is
/// believed, so that only time hangs on it.
#[derive(Drop)]
pub(crate) struct Hints {
    guesses: Vec<u32>,
}

impl Hints {
    /// Each is guessed to have the first number.
    pub(crate) fn new(alloc: Global) -> Hints {
        Hints {
            guesses: Vec::new(alloc),
        }
    }

    /// The number that a peer with that hint is guessed to have.
    #[inline(always)]
    pub(crate) fn number(&self, hint: u64) -> usize {
        match self.guesses.get(self.place(hint)) {
            Some(number) => *number as usize,
            None => 0,
        }
    }

    /// A peer with that hint is guessed to have that number from now on.
    pub(crate) fn note(&mut self, hint: u64, number: usize) {
        let place = self.place(hint);
        if let (Some(guess), Ok(number)) = (self.guesses.get_mut(place), u32::try_from(number)) {
            *guess = number;
        }
    }

    /// Whether so many peers have too few guesses.
    pub(crate) fn are_few_for(&self, count: usize) -> bool {
        count > self.guesses.len() / 2
    }

    /// There are twice as many guesses from now on, if there is memory. Then each number is to be noted anew.
    pub(crate) fn grow(&mut self) -> bool {
        let count = self.guesses.len().saturating_mul(2).max(FEW);
        self.guesses.resize(count, 0).is_ok()
    }

    /// Where the guess for that hint stands: as far along all guesses as the product is along the numbers of 64 bits.
    #[inline(always)]
    fn place(&self, hint: u64) -> usize {
        let spread = (hint.wrapping_mul(SPREAD) >> 32) as usize;
        spread.wrapping_mul(self.guesses.len()) >> 32
    }
}
