//! Keys with a number each.
ghost use Rattle.std.specs.Prelude.{◌≡◌, true, None, Some, IfSome, IfOk, IfErr, OnOk, cond};
ghost use Rattle.std.specs.Ordering.{is_eq};
ghost use Rattle.fairness.specs.Lists.Sorted.{IsPlace, IsGap};
ghost use Rattle.fair_rates.specs.Sides.Numbers.{number_in, HaveNone, AreInOrder};

use std::alloc::{AllocError, Global};
use std::collections::BTreeMap;

/// There is room for so many keys, before their list has to move.
const FEW_KEYS: usize = 24;

/// So many keys stand in a list, in whatever order they come. To put one more among more of them would
/// move too many.
const MOST_LISTED: usize = 512;

/// Where a key stands is guessed among the first two to this power of the keys that stand in a list, or fewer
/// where there are fewer.
const GUESSED: u32 = 11;

/// What is known of a key.
#[derive(Drop)]
pub(crate) struct Found {
    /// Where it stands in the list, or where it would.
    pub(crate) place: usize,
    /// Its number, if it has one.
    pub(crate) number: Option<usize>,
}

/// Keys with a number each. They stand in a list in their order, but for those that came late, and not
/// after all others: these are in a map.
pub(crate) struct Numbers<K: Ord> {
    listed: Vec<(K, usize)>,
    later: BTreeMap<K, usize>,
}

impl<K: Ord + Drop> Drop for Numbers<K> {
    /// Lets go of what it holds.
    fn drop(self) {
        let Numbers { listed, later } = self;
        drop(listed);
        drop(later);
    }
}

impl<K: Ord + Copy> Numbers<K> {
    /// No key has a number.
    pub(crate) fn new(alloc: Global) -> Numbers<K>
        ensures none { HaveNone result }
        ensures order { AreInOrder K.cmp result }
    {
        Numbers {
            listed: Vec::new(alloc),
            later: BTreeMap::new(alloc),
        }
    }

    /// Whether no key has a number.
    pub(crate) fn is_empty(&self) -> bool
        ensures { result ≡ true → HaveNone self.now }
    {
        self.listed.is_empty() && self.later.is_empty()
    }

    /// Where the key stands in the list, or where it would.
    fn search(&self, key: &K) -> Result<usize, usize>
        requires { AreInOrder K.cmp self.now }
        ensures found { IfOk result (IsPlace K.cmp (λ entry. entry.0) self.now.listed.items key.now) }
        ensures absent { IfErr result (IsGap K.cmp (λ entry. entry.0) self.now.listed.items key.now) }
    {
        let count = self.listed.len();
        if count > 0 && self.listed[count - 1].0.cmp(key).is_lt() {
            return Err(count);
        }
        self.listed.binary_search_by_key(key, |&(listed, _)| listed)
    }

    /// Where the key stands in the list, if it is among those that are guessed at. No branch hangs on a comparison: a
    /// processor would guess it wrongly every other time.
    fn guess(&self, key: &K) -> usize {
        let mut place = 0usize;
        let most = usize::BITS.saturating_sub(self.listed.len().leading_zeros());
        let mut shift = GUESSED.min(most);
        while shift > 0 {
            shift -= 1;
            if let Some(entry) = self.listed.get(place.wrapping_add(1 << shift)) {
                let no_greater = !entry.0.cmp(key).is_gt();
                place = place.wrapping_add((no_greater as usize) << shift);
            }
        }
        place
    }

    /// The number of the key, if it stands at that place of the list.
    #[inline(always)]
    pub(crate) fn number_at(&self, place: usize, key: &K) -> Option<usize>
        requires { AreInOrder K.cmp self.now }
        ensures { IfSome result (λ number. number_in (λ other. is_eq (K.cmp key.now other)) self.now ≡ Some number) }
    {
        match self.listed.get(place) {
            Some(entry) if entry.0.cmp(key).is_eq() => Some(entry.1),
            _ => None,
        }
    }

    /// The number of the key, and its place.
    pub(crate) fn find(&self, key: &K) -> Found
        requires { AreInOrder K.cmp self.now }
        ensures number { result.number ≡ number_in (λ other. is_eq (K.cmp key.now other)) self.now }
        ensures gap { result.number ≡ None
            → IsGap K.cmp (λ entry. entry.0) self.now.listed.items key.now result.place }
    {
        let place = self.guess(key);
        if let Some(number) = self.number_at(place, key) {
            return Found {
                place,
                number: Some(number),
            };
        }
        match self.search(key) {
            Ok(place) => Found {
                place,
                number: Some(self.listed[place].1),
            },
            Err(place) => Found {
                place,
                number: self.later.get(key).copied(),
            },
        }
    }

    /// Gives a number to a key that has none, and would stand at that place of the list.
    pub(crate) fn note(&mut self, place: usize, key: K, number: usize) -> Result<(), AllocError>
        requires order { AreInOrder K.cmp self.old }
        requires gap { IsGap K.cmp (λ entry. entry.0) self.old.listed.items key place }
        ensures order { OnOk result (AreInOrder K.cmp self.new) }
        ensures numbers { OnOk result ((other : K) → number_in (λ found. is_eq (K.cmp other found)) self.new
            ≡ cond (is_eq (K.cmp key other)) (Some number)
            (number_in (λ found. is_eq (K.cmp other found)) self.old)) }
    {
        let count = self.listed.len();
        if count == 0 {
            self.listed.reserve(FEW_KEYS)?;
        }
        if place == count {
            self.listed.push((key, number))?;
        } else if count < MOST_LISTED {
            self.listed.insert(place, (key, number))?;
        } else {
            self.later.insert(key, number)?;
        }
        Ok(())
    }
}
