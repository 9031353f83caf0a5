//! What is in flight, for who looks from outside.
ghost use Rattle.std.specs.Prelude.{◌≡◌, ◌<◌, IfOk, IfErr};
ghost use Rattle.std.specs.List.{AllZip};
ghost use Rattle.std.specs.declared.cmp.Ordering.TheVariants.{Equal};
ghost use Rattle.fairness.specs.Numbers.Amount.{reduced};
ghost use Rattle.link_flights.specs.Flights.Flight.{flight_at};
ghost use Rattle.link_flights.specs.Flights.Readings.{IsReadingOf};

use crate::flight::Flight;
use crate::flight_list::Flights;
use crate::fraction::read_fraction;
use fairness::error::Error;
use fairness::peer::Peer;
use fairness::ratio::Ratio;
use natural::Natural;
use std::sync::Arc;

/// Nanoseconds in a second.
const BILLION: u128 = 1_000_000_000;

/// An amount of bytes, or of bytes a second, as it is read.
#[derive(Clone, Copy, Debug, PartialEq, Eq)]
pub struct Reading {
    /// The amount itself where the reading is exact, and else the greatest whole number of 128
    /// bits that is not above it.
    pub amount: Ratio,
    /// Whether the reading is exact. It is just where the amount in lowest terms has a numerator
    /// and a denominator of 128 bits each.
    pub is_exact: bool,
}

/// A message in flight, as it is read.
#[derive(Debug, Drop)]
pub struct InFlight<P> {
    pub origin: P,
    pub recipient: P,
    /// The channel that it was sent with.
    pub channel: u64,
    /// What was left of it at the moment `since`, in bytes.
    pub left: Reading,
    /// What it has sent since then, in bytes a second.
    pub rate: Reading,
    /// In nanoseconds since the start.
    pub since: u64,
}

impl<P: Peer> Flights<P> {
    ghost use Rattle.link_flights.specs.Flights.InFlight.{in_flight};
    ghost use Rattle.link_flights.specs.Flights.Readings.{IsReadAs};

    /// Each as it is read, in order of start.
    pub fn read(&self) -> Result<Vec<InFlight<P>>, Error>
        ensures read { IfOk result (λ readings. AllZip (IsReadAs P.cmp) (in_flight self.now) readings.items) }
        ensures refused { IfErr result (λ e. e ≡ Error.OutOfMemory) }
    {
        let unit = self.scale.product(BILLION)?;
        let mut readings = Vec::with_capacity(self.alloc, self.list.len())?;
        for at in 0..self.list.len() {
            let one = self.list.at(at);
            readings.push(read_one(one, self.at, &unit, &self.scale)?)?;
        }
        Ok(readings)
    }
}

/// A message in flight at the moment of the last account, as it is read. Of the units that are left
/// `unit` are a byte, and of those of a rate `scale` are one a second.
fn read_one<P: Peer>(
    flight: &Flight<P>,
    at: u64,
    unit: &Natural,
    scale: &Natural,
) -> Result<InFlight<P>, Error>
    requires unit { 0 < unit.now }
    requires scale { 0 < scale.now }
    ensures origin { IfOk result (λ r. P.cmp r.origin flight.now.message.value.origin ≡ Equal) }
    ensures recipient { IfOk result (λ r. P.cmp r.recipient flight.now.message.value.recipient ≡ Equal) }
    ensures channel { IfOk result (λ r. r.channel ≡ flight.now.message.value.channel) }
    ensures left { IfOk result (λ r. IsReadingOf (reduced (flight_at at flight.now).left unit.now) r.left) }
    ensures rate { IfOk result (λ r. IsReadingOf (reduced (flight_at at flight.now).rate scale.now) r.rate) }
    ensures since { IfOk result (λ r. r.since ≡ (flight_at at flight.now).updated) }
    ensures refused { IfErr result (λ e. e ≡ Error.OutOfMemory) }
{
    let left = read_left(flight, at, unit)?;
    let rate = read_rate(flight, scale)?;
    let message = &flight.message;
    Ok(InFlight {
        origin: message.origin.clone_peer().ok_or(Error::OutOfMemory)?,
        recipient: message.recipient.clone_peer().ok_or(Error::OutOfMemory)?,
        channel: message.channel,
        left,
        rate,
        since: if flight.rated { at } else { flight.since },
    })
}

/// What is left of a message in flight at the moment of the last account, of whose units `unit` are a byte.
fn read_left<P: Peer>(flight: &Flight<P>, at: u64, unit: &Natural) -> Result<Reading, Error>
    requires { 0 < unit.now }
    ensures read { IfOk result (IsReadingOf (reduced (flight_at at flight.now).left unit.now)) }
    ensures refused { IfErr result (λ e. e ≡ Error.OutOfMemory) }
{
    let left = flight.left_at(at)?;
    read_fraction(&left, unit)
}

/// The rate of a message in flight, of whose units `scale` are a byte a second.
fn read_rate<P: Peer>(flight: &Flight<P>, scale: &Natural) -> Result<Reading, Error>
    requires { 0 < scale.now }
    ensures read { IfOk result (IsReadingOf (reduced (flight_at 0 flight.now).rate scale.now)) }
    ensures refused { IfErr result (λ e. e ≡ Error.OutOfMemory) }
{
    if flight.rated {
        return read_fraction(flight.rate.number(), scale);
    }
    Ok(Reading {
        amount: Ratio::zero(),
        is_exact: true,
    })
}
