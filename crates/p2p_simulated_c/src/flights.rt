//! What is in flight.
ghost use Rattle.std.specs.Prelude.{◌≡◌, ◌≤◌, length, map};
ghost use Rattle.link_scheduler.specs.Calls.State.{planned_of, rated_at_last};
ghost use Rattle.p2p_simulated_c.specs.Asked.{OnHandle};
ghost use Rattle.p2p_simulated_c.specs.Flights.{TellsFlights, flight_of};
ghost use Rattle.p2p_simulated_c.specs.Written.{written};

use super::handle::Scheduler;
use super::opened::Opened;
use super::records::Flight;
use super::status::{CLOSED, MADE, OUT_OF_MEMORY};
use link_scheduler::transmitter::InFlight;
use std::alloc::Global;

impl Opened {
    /// `State::in_flight`: writes what is in flight, in order of start, as much as there is room for,
    /// and tells how much all of it is. A refusal writes nothing.
    pub fn in_flight(&self, out: &mut [Flight], count: &mut usize) -> u32
        ensures { TellsFlights self.now result count.new out.old out.new }
    {
        match self.state.in_flight() {
            Ok(readings) => {
                write_flights(&readings, out);
                *count = readings.len();
                MADE
            }
            Err(_) => {
                *count = 0;
                OUT_OF_MEMORY
            }
        }
    }
}

/// Writes the record of each reading, in their order, as many as there is room for.
fn write_flights(readings: &[InFlight<u64>], out: &mut [Flight])
    ensures { out.new ≡ written (map flight_of readings.now) out.old }
{
    let count = readings.len().min(out.len());
    for index in 0..count {
        out[index] = Flight::of(&readings[index]);
    }
}

/// `State::in_flight`: writes what is in flight, in order of start, as much as there is room for, and
/// tells how much all of it is.
#[unsafe(no_mangle)]
pub extern "C" fn p2p_in_flight(
    alloc: Global,
    scheduler: &mut Scheduler,
    out: &mut [Flight],
    count: &mut usize,
) -> u32
    ensures { OnHandle ((result ≡ 5) × (count.new ≡ 0) × (out.new ≡ out.old))
        (λ old new. (new ≡ old) × TellsFlights old result count.new out.old out.new)
        scheduler.old.place.opened scheduler.new.place.opened }
{
    *count = 0;
    let Some(opened) = scheduler.take(alloc) else {
        return CLOSED;
    };
    let status = opened.in_flight(out, count);
    *scheduler = Scheduler::of(opened);
    status
}

/// `State::rated_anew`, and 0 where the scheduler is not open.
#[unsafe(no_mangle)]
pub extern "C" fn p2p_rated_anew(alloc: Global, scheduler: &mut Scheduler) -> usize
    ensures { OnHandle (result ≡ 0) (λ old new. (new ≡ old) × (result ≡ rated_at_last old.state)
        × (result ≤ length (planned_of old.state).sending))
        scheduler.old.place.opened scheduler.new.place.opened }
{
    let Some(opened) = scheduler.take(alloc) else {
        return 0;
    };
    let count = opened.state.rated_anew();
    *scheduler = Scheduler::of(opened);
    count
}
