//! What a call is answered, compared with what was wanted.
use crate::calls::Parcel;
use fairness::error::Error;
use fairness::peer::Peer;
use link_scheduler::call::{Call, Reply};
use link_scheduler::transmitter::{Completion, State};
use numbered_peers::Numbered;

/// What is wanted of a completion.
#[derive(Clone, Copy)]
pub struct Arrival {
    /// The place of its message among all that are sent.
    pub place: usize,
    pub deliver_at: Option<u64>,
    /// When the message is done, where that is said.
    pub done_at: Option<u64>,
}

/// What a call is to be answered.
#[derive(Clone, Copy)]
pub enum Wanted {
    /// Of all arrivals those from the one place up to the other.
    Done(usize, usize),
    /// That moment is next, or none.
    Next(Option<u64>),
    Refused(Error),
}

/// What is to be counted at a call, where that is said.
#[derive(Clone, Copy)]
pub struct Counts {
    /// The events through which an advance goes.
    pub events: Option<u128>,
    /// The messages in flight after the call.
    pub flying: Option<usize>,
    /// The messages that were rated anew.
    pub rated: Option<usize>,
}

impl Counts {
    /// Nothing is counted.
    pub fn none() -> Counts {
        Counts {
            events: None,
            flying: None,
            rated: None,
        }
    }
}

/// Whether these are the counts, after a call that went through so many events.
pub fn are_counted<P: Peer>(state: &State<P>, events: Option<u128>, counts: Counts) -> bool {
    let are_flying = match counts.flying {
        None => true,
        Some(count) => flying(state) == Some(count),
    };
    let are_rated = match counts.rated {
        None => true,
        Some(count) => state.rated_anew() == count,
    };
    are_flying && are_rated && (counts.events.is_none() || counts.events == events)
}

/// How many messages are in flight, unless memory lacks.
fn flying<P: Peer>(state: &State<P>) -> Option<usize> {
    match state.in_flight() {
        Ok(readings) => Some(readings.len()),
        Err(_) => None,
    }
}

/// What a call is answered, and through how many events it went, if it is an advance.
pub fn answer<P: Peer>(state: &mut State<P>, call: Call<P>) -> (Reply<P>, Option<u128>) {
    let answered = match call {
        Call::Advance { now } => match state.advance_counted(now) {
            Ok((completions, events)) => return (Reply::Done(completions), Some(events)),
            Err(error) => Err(error),
        },
        call => call.make(state),
    };
    match answered {
        Ok(reply) => (reply, None),
        Err(error) => (Reply::Refused(error), None),
    }
}

/// Whether a reply is the wanted one. `sent` are the messages, and `arrivals` what completes at all
/// calls.
pub fn is_wanted<P: Numbered>(
    sent: &[Parcel],
    arrivals: &[Arrival],
    reply: &Reply<P>,
    wanted: Wanted,
) -> bool {
    match (reply, wanted) {
        (Reply::Done(completions), Wanted::Done(from, to)) => match arrivals.get(from..to) {
            Some(arrivals) => are_done(sent, completions, arrivals),
            None => false,
        },
        (Reply::Next(moment), Wanted::Next(wanted)) => *moment == wanted,
        (Reply::Refused(error), Wanted::Refused(wanted)) => *error == wanted,
        _ => false,
    }
}

/// Whether these completions, and no others, were wanted.
pub fn are_done<P: Numbered>(
    sent: &[Parcel],
    completions: &[Completion<P>],
    arrivals: &[Arrival],
) -> bool {
    completions.len() == arrivals.len()
        && completions.iter().zip(arrivals).all(|(completion, arrival)| is_done(
            sent, completion, *arrival,
        ))
}

/// Compares a completion in every field.
fn is_done<P: Numbered>(sent: &[Parcel], completion: &Completion<P>, arrival: Arrival) -> bool {
    let place = arrival.place;
    let Some(parcel) = sent.get(place) else {
        return false;
    };
    completion.origin.number() == parcel.origin
        && completion.recipient.number() == parcel.recipient
        && completion.channel == place as u64
        && completion.message.len() == parcel.length
        && completion
            .message
            .as_slice()
            .iter()
            .all(|byte| *byte == (place % 256) as u8)
        && completion.deliver_at == arrival.deliver_at
        && (arrival.done_at.is_none() || arrival.done_at == Some(completion.done_at))
}
