//! A message in flight.
ghost use Rattle.std.specs.Int.{IsGcd};
ghost use Rattle.std.specs.Prelude.{◌≡◌, ◌≢◌, ◌*◌, ◌/◌, ◌<◌, ◌==◌, IfOk, IfErr, OnOk, true, false, not, nat_le};
ghost use Rattle.fairness.specs.Fairness.Exists.{product};
ghost use Prim.Native.Nat.{◌∣◌};

use crate::rate::Rate;
use fairness::error::Error;
use fairness::peer::Peer;
use link_pairs::message::Message;
use natural::Natural;
use std::alloc::Global;
use std::sync::Arc;

/// A message in flight. What is left, and the rate, are whole numbers of the units that all
/// messages in flight share. What is looked at of each that shares an end with another stands first.
pub(crate) struct Flight<P> {
    /// As its message has it, at hand.
    pub(crate) should_deliver: bool,
    /// Whether an account has given it a rate since its start.
    pub(crate) rated: bool,
    /// The units that drain in a nanosecond from then on.
    pub(crate) rate: Rate,
    pub(crate) message: Arc<Message<P>>,
    ghost as_sent: { should_deliver ≡ message.value.should_deliver },
    /// The moment from which on nothing is left, if there is one up to the last moment.
    pub(crate) finish: Option<u64>,
    pub(crate) since: u64,
    /// Its flow id.
    pub(crate) id: u64,
    /// The units that were left at the moment `since`.
    pub(crate) left: Natural,
}

impl<P: Drop> Drop for Flight<P> {
    /// Lets go of what it holds.
    fn drop(self) {
        let Flight {
            message,
            should_deliver: _,
            rated: _,
            finish: _,
            since: _,
            rate,
            id: _,
            left,
        } = self;
        drop(message);
        drop(rate);
        drop(left);
    }
}

impl<P: Peer> Flight<P> {
    ghost use Rattle.link_flights.specs.Flights.Flight.{left_by, flight_at, has_come, IsTimed, IsFinishOf};
    ghost use Rattle.link_flights.specs.Flights.LargerUnits.{IsFactorOf, IsCountedBy};

    /// Whether nothing is left at that moment.
    pub(crate) fn is_spent_at(&self, now: u64) -> bool
        ensures { result ≡ (left_by now self.now == 0) }
    {
        let elapsed = now.saturating_sub(self.since);
        self.left
            .compare_times(1, self.rate.number(), elapsed)
            .is_le()
    }

    /// Whether it is kept as it stands at an account at `now`, where time does not go back: it has a
    /// rate, or has started at that very moment.
    pub(crate) fn stands_at(&self, now: u64) -> bool
        ensures unrated { result ≡ false → self.now.rated ≡ false }
        ensures started { result ≡ true → self.now.rated ≡ false → self.now.since ≡ now }
    {
        self.rated || self.since == now
    }

    /// Whether less than the level drains in a nanosecond at its rate.
    #[inline(always)]
    pub(crate) fn is_below(&self, level: &Rate) -> bool
        ensures { result ≡ not (nat_le level.now self.now.rate) }
    {
        self.rate.is_below(level)
    }

    /// Whether its finish has come at that moment.
    pub(crate) fn has_finished_by(&self, now: u64) -> bool
        ensures { result ≡ has_come now self.now.finish }
    {
        match self.finish {
            Some(finish) => finish <= now,
            None => false,
        }
    }

    /// What is left at the moment of an account. Without a rate that is what was left.
    pub(crate) fn left_at(&self, now: u64) -> Result<Natural, Error>
        ensures left { IfOk result (λ left. left ≡ (flight_at now self.now).left) }
        ensures refused { IfErr result (λ e. e ≡ Error.OutOfMemory) }
    {
        if !self.rated {
            return Ok(self.left.clone()?);
        }
        let elapsed = now.saturating_sub(self.since);
        Ok(self.left.left_after(self.rate.number(), elapsed)?)
    }

    /// The same message, with what is left at the moment of the last account, and `now` in the
    /// place of that moment.
    pub(crate) fn brought_to(&self, at: u64, now: u64) -> Result<Flight<P>, Error>
        ensures id { IfOk result (λ one. one.id ≡ self.now.id) }
        ensures message { IfOk result (λ one. one.message.value ≡ self.now.message.value) }
        ensures left { IfOk result (λ one. one.left ≡ (flight_at at self.now).left) }
        ensures rate { IfOk result (λ one. one.rate ≡ self.now.rate) }
        ensures since { IfOk result (λ one. one.since ≡ now) }
        ensures rated { IfOk result (λ one. one.rated ≡ self.now.rated) }
        ensures refused { IfErr result (λ e. e ≡ Error.OutOfMemory) }
    {
        Ok(Flight {
            id: self.id,
            message: self.message.clone()?,
            should_deliver: self.should_deliver,
            left: self.left_at(at)?,
            rate: self.rate.clone()?,
            since: now,
            finish: self.finish,
            rated: self.rated,
        })
    }

    /// Whether it has that rate.
    pub(crate) fn goes_on(&self, rate: &Rate) -> bool
        ensures rated { result ≡ true → self.now.rated ≡ true }
        ensures rate { result ≡ true → self.now.rate ≡ rate.now }
    {
        self.rated && self.rate.is(rate)
    }

    /// The same message at that rate from `now` on, the moment of an account.
    /// What is left counts in smaller units, of which so many times as many are needed.
    pub(crate) fn rerated(&self, rate: &Rate, growth: &[u64], now: u64) -> Result<Flight<P>, Error>
        requires { (flight_at now self.now).left * product growth.now ≢ 0 }
        ensures id { IfOk result (λ one. one.id ≡ self.now.id) }
        ensures message { IfOk result (λ one. one.message.value ≡ self.now.message.value) }
        ensures left { IfOk result (λ one. one.left ≡ (flight_at now self.now).left * product growth.now) }
        ensures rate { IfOk result (λ one. one.rate ≡ rate.now) }
        ensures since { IfOk result (λ one. one.since ≡ now) }
        ensures rated { IfOk result (λ one. one.rated ≡ true) }
        ensures timed { IfOk result (λ one. IsTimed one) }
        ensures refused { IfErr result (λ e. e ≡ Error.OutOfMemory) }
    {
        let mut left = self.left_at(now)?;
        grow(&mut left, growth)?;
        let finish = Self::finish_of(&left, rate.number(), now);
        Ok(Flight {
            id: self.id,
            message: self.message.clone()?,
            should_deliver: self.should_deliver,
            left,
            rate: rate.clone()?,
            since: now,
            finish,
            rated: true,
        })
    }

    /// The greatest factor of that number that divides what is left, and the rate.
    pub(crate) fn factor_of(&self, most: u64) -> u64
        requires { 0 < most }
        ensures part { result ∣ most }
        ensures factor { IsFactorOf self.now result }
    {
        let shared = common_factor(most, self.left.remainder(most));
        common_factor(shared, self.rate.number().remainder(shared))
    }

    /// The same message, counted in units so many times as large.
    pub(crate) fn counted_by(&self, alloc: Global, by: u64) -> Result<Flight<P>, Error>
        requires { 0 < by }
        ensures counted { IfOk result (IsCountedBy by self.now) }
        ensures refused { IfErr result (λ e. e ≡ Error.OutOfMemory) }
    {
        let mut left = self.left.clone()?;
        left.divide(by);
        let mut rate = self.rate.number().clone()?;
        rate.divide(by);
        Ok(Flight {
            id: self.id,
            message: self.message.clone()?,
            should_deliver: self.should_deliver,
            left,
            rate: Rate::of(alloc, rate)?,
            since: self.since,
            finish: self.finish,
            rated: self.rated,
        })
    }

    /// The moment from which on nothing is left, up to the last moment, if so much drains from `now` on
    /// at that rate.
    fn finish_of(left: &Natural, rate: &Natural, now: u64) -> Option<u64>
        requires { left.now ≢ 0 }
        ensures { IsFinishOf left.now rate.now now result }
    {
        let time = left.least_multiple(rate)?;
        now.checked_add(time)
    }
}

/// The greatest common divisor of two numbers, of which the first is above zero.
pub(crate) fn common_factor(first: u64, second: u64) -> u64
    requires { 0 < first }
    ensures some { 0 < result }
    ensures greatest { IsGcd first second result }
{
    let mut last = first;
    let mut rest = second;
    while rest != 0 {
        let next = last % rest;
        last = rest;
        rest = next;
    }
    last
}

/// So many units, counted in smaller ones, of which so many times as many are needed.
pub(crate) fn grow(units: &mut Natural, growth: &[u64]) -> Result<(), Error>
    ensures grown { OnOk result (units.new ≡ units.old * product growth.now) }
    ensures refused { IfErr result (λ e. e ≡ Error.OutOfMemory) }
{
    for factor in growth {
        units.multiply(*factor)?;
    }
    Ok(())
}
