//! What crosses to C by value: a cap, a moment, a wide number, a message to send, a completion, what is
//! in flight, and what a plan is made of.
ghost use Rattle.std.specs.Prelude.{◌≡◌, ◌<◌, ◌^◌, Option};
ghost use Rattle.p2p_simulated_c.specs.Flights.{amount_read, flight_of};
ghost use Rattle.p2p_simulated_c.specs.Plan.{flow_of, record_of_rate};
ghost use Rattle.p2p_simulated_c.specs.Records.{cap_of_record, moment_of_record, of_moment, value_of, wide_of, done_of};

use fairness::bandwidth::{Flow, Rate};
use link_scheduler::transmitter::{Completion, Contents, InFlight, Reading};

/// A cap in bytes a second, or none where `is_some` is 0.
#[repr(C)]
#[derive(Clone, Copy)]
pub struct Cap {
    pub bytes: usize,
    pub is_some: u8,
}

impl Cap {
    /// The cap of the record, if there is one.
    pub fn get(self) -> Option<usize>
        ensures { result ≡ cap_of_record self }
    {
        if self.is_some == 0 {
            None
        } else {
            Some(self.bytes)
        }
    }
}

/// A moment in nanoseconds since the start, or none where `is_some` is 0.
#[repr(C)]
#[derive(Clone, Copy)]
pub struct Moment {
    pub at: u64,
    pub is_some: u8,
}

impl Moment {
    /// The record of a moment, or of none.
    pub fn of(moment: Option<u64>) -> Moment
        ensures record { result ≡ of_moment moment }
        ensures moment { moment_of_record result ≡ moment }
    {
        match moment {
            None => Moment { at: 0, is_some: 0 },
            Some(at) => Moment { at, is_some: 1 },
        }
    }
}

/// A number of 128 bits in two halves.
#[repr(C)]
#[derive(Clone, Copy)]
pub struct Wide {
    pub low: u64,
    pub high: u64,
}

/// 2^64.
const HALF: u128 = 18446744073709551616;

impl Wide {
    /// The halves of a number.
    pub fn of(value: u128) -> Wide
        ensures record { result ≡ wide_of value }
        ensures value { value_of result ≡ value }
    {
        Wide {
            low: (value % HALF) as u64,
            high: (value / HALF) as u64,
        }
    }

    /// The number of the halves.
    pub fn get(self) -> u128
        ensures { result ≡ value_of self }
    {
        self.high as u128 * HALF + self.low as u128
    }
}

/// A message to send with others: `length` bytes, from the byte `from` on of those that are given with
/// the list, and zeros where these end before. It is dropped where `should_deliver` is 0.
#[repr(C)]
#[derive(Clone, Copy)]
pub struct Parcel {
    pub origin: u64,
    pub recipient: u64,
    pub channel: u64,
    pub from: usize,
    pub length: usize,
    pub latency: u64,
    pub should_deliver: u8,
}

/// A message that is done, without its bytes: all of it was sent at the moment `done_at`, also where it
/// is dropped, and it arrives at `deliver_at`, or not at all.
#[repr(C)]
#[derive(Clone, Copy)]
pub struct Done {
    pub origin: u64,
    pub recipient: u64,
    pub channel: u64,
    pub length: usize,
    pub done_at: u64,
    pub deliver_at: Moment,
}

impl Done {
    /// The record of a completion.
    pub fn of(completion: &Completion<u64, Contents>) -> Done
        ensures { result ≡ done_of completion.now }
    {
        Done {
            origin: completion.origin,
            recipient: completion.recipient,
            channel: completion.channel,
            length: completion.message.len(),
            done_at: completion.done_at,
            deliver_at: Moment::of(completion.deliver_at),
        }
    }
}

/// An amount of bytes, or of bytes a second, as a fraction in lowest terms. Where `is_exact` is 0 it
/// is no fraction of 128 bits, and this one is rounded down to a whole number.
#[repr(C)]
#[derive(Clone, Copy)]
pub struct Amount {
    pub numerator: Wide,
    pub denominator: Wide,
    pub is_exact: u8,
}

impl Amount {
    /// The record of an amount that was read.
    pub fn of(reading: Reading) -> Amount
        ensures { result ≡ amount_read reading }
    {
        Amount {
            numerator: Wide::of(reading.amount.numerator()),
            denominator: Wide::of(reading.amount.denominator()),
            is_exact: reading.is_exact as u8,
        }
    }
}

/// A message in flight: its pair, its channel, and what was `left` of it at the moment `since`, from which on it
/// has gone at its rate.
#[repr(C)]
#[derive(Clone, Copy)]
pub struct Flight {
    pub origin: u64,
    pub recipient: u64,
    pub channel: u64,
    pub left: Amount,
    pub rate: Amount,
    pub since: u64,
}

impl Flight {
    /// The record of a message in flight that was read.
    pub fn of(reading: &InFlight<u64>) -> Flight
        ensures { result ≡ flight_of reading.now }
    {
        Flight {
            origin: reading.origin,
            recipient: reading.recipient,
            channel: reading.channel,
            left: Amount::of(reading.left),
            rate: Amount::of(reading.rate),
            since: reading.since,
        }
    }
}

/// A flow of a plan. It is dropped where `delivered` is 0.
#[repr(C)]
#[derive(Clone, Copy)]
pub struct PlanFlow {
    pub id: u64,
    pub origin: u64,
    pub recipient: u64,
    pub delivered: u8,
}

impl PlanFlow {
    /// The flow of the record.
    pub fn get(self) -> Flow<u64>
        ensures { result ≡ flow_of self }
    {
        Flow {
            id: self.id,
            origin: self.origin,
            recipient: self.recipient,
            delivered: self.delivered != 0,
        }
    }
}

/// What a peer may send, or what it may receive, in bytes a second.
#[repr(C)]
#[derive(Clone, Copy)]
pub struct PeerCap {
    pub peer: u64,
    pub cap: Wide,
}

/// What may go from one peer to another, in bytes a second.
#[repr(C)]
#[derive(Clone, Copy)]
pub struct LinkCap {
    pub origin: u64,
    pub recipient: u64,
    pub cap: Wide,
}

/// A rate in bytes a second, as a fraction in lowest terms, or no limit where `is_limited` is 0.
#[repr(C)]
#[derive(Clone, Copy)]
pub struct PlanRate {
    pub numerator: Wide,
    pub denominator: Wide,
    pub is_limited: u8,
}

impl PlanRate {
    /// The record of the rate of a flow. Of a flow without one it is that of no limit.
    pub fn of(rate: Option<Rate>) -> PlanRate
        ensures { result ≡ record_of_rate rate }
    {
        match rate {
            Some(Rate::Finite(ratio)) => PlanRate {
                numerator: Wide::of(ratio.numerator()),
                denominator: Wide::of(ratio.denominator()),
                is_limited: 1,
            },
            Some(Rate::Unlimited) | None => PlanRate {
                numerator: Wide::of(0),
                denominator: Wide::of(1),
                is_limited: 0,
            },
        }
    }
}
