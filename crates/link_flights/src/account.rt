//! What is in flight, accounted for at a moment.
ghost use Rattle.std.specs.Prelude.{[], ◌≡◌, ◌≢◌, ℕ, ◌+◌, ◌<◌, ◌≤◌, true, false};
ghost use Rattle.std.specs.Prelude.{length, slice_index_or, IfOk, IfErr, OnOk};
ghost use Rattle.std.specs.List.{remove, AllZip};
ghost use Rattle.link_flights.specs.declared.flight.Flight.{Flight as AnyFlight};
ghost use Rattle.link_flights.specs.Flights.Flight.{flight_at, has_come, AreTimed, DrainsTo};
ghost use Rattle.link_flights.specs.Flights.InFlight.{in_flight, in_units, IsNextPlace, PassesNowhere};
ghost use Rattle.link_flights.specs.Flights.Rated.{ArePartedBy, is_out, are_limited, rated_ones};
ghost use Rattle.link_flights.specs.Flights.Rated.{IsFloorOf, IsNoMore};
ghost use Rattle.link_pairs.specs.Pairs.Messages.{message_of, messages};
ghost use Rattle.link_pairs.specs.Pairs.CapsOf.{caps_of};
ghost use Rattle.link_simulation.specs.Simulation.Rates.{is_unlimited as is_free};

use crate::flight_list::Flights;
use fairness::error::Error;
use fairness::peer::Peer;
use link_pairs::known_pairs::Pairs;
use link_pairs::message::Message;
use link_pairs::peers::Peers;
use natural::Natural;
use std::alloc::Global;
use std::collections::VecDeque;
use std::sync::Arc;

/// Whether the message uses no capped side.
pub fn is_unlimited<P: Peer>(message: &Message<P>, peers: &Peers<P>, pairs: &Pairs<P>) -> bool
    ensures { result ≡ is_free P.cmp (caps_of P.cmp peers.now.entries pairs.now.entries) (message_of message.now) }
{
    peers.egress(&message.origin).is_none()
        && (!message.is_delivered() || peers.ingress(&message.recipient).is_none())
        && pairs.cap(&message.origin, &message.recipient).is_none()
}

impl<P: Peer> Flights<P> {
    /// All drain to that moment. Those that have a rate, or have started at it, are only counted from
    /// then on, unless the moment goes back.
    pub fn drain(&mut self, now: u64) -> Result<(), Error>
        ensures drained { OnOk result (AllZip (DrainsTo now) (in_units self.old) (in_units self.new)) }
        ensures scale { self.new.scale ≡ self.old.scale }
        ensures at { OnOk result (self.new.at ≡ now) }
        ensures floor { self.new.floor ≡ self.old.floor }
        ensures loose { self.new.loose ≡ self.old.loose }
        ensures timed { self.old.at ≤ now → AreTimed self.old.list.items → OnOk result (AreTimed self.new.list.items) }
        ensures before { self.new.list.before ≡ self.old.list.before }
        ensures refused { IfErr result (λ e. e ≡ Error.OutOfMemory) }
    {
        let goes_back = now < self.at;
        let from = if goes_back { 0 } else { self.settled };
        for at in from..self.list.len() {
            let one = self.list.at(at);
            if goes_back || !one.stands_at(now) {
                let one = one.brought_to(self.at, now)?;
                self.put(at, one)?;
            }
        }
        self.at = now;
        Ok(())
    }

    /// Whether the message at that place is done: nothing is left of it, or it uses no capped side.
    /// Where the finishes are right, those of limited messages tell.
    fn is_done(&self, at: usize, peers: &Peers<P>, pairs: &Pairs<P>, were_rated: bool) -> bool
        requires place { at < length self.now.list.items }
        requires limited { were_rated ≡ true → are_limited P.cmp (caps_of P.cmp peers.now.entries pairs.now.entries)
            (rated_ones (in_units self.now)) ≡ true }
        requires timed { were_rated ≡ true → AreTimed self.now.list.items }
        ensures { (d : AnyFlight P) → result ≡ is_out P.cmp
            (caps_of P.cmp peers.now.entries pairs.now.entries) self.now.scale
            (flight_at self.now.at (slice_index_or self.now.list.items at d)) }
    {
        let one = self.list.at(at);
        if one.rated {
            if were_rated {
                return one.has_finished_by(self.at);
            }
            return one.is_spent_at(self.at) || is_unlimited(&one.message, peers, pairs);
        }
        one.left.is_zero() || is_unlimited(&one.message, peers, pairs)
    }

    /// The message at that place is in flight no more.
    fn remove(&mut self, at: usize) -> Result<(), Error>
        requires { at < length self.old.list.items }
        ensures list { OnOk result (self.new.list.items ≡ remove self.old.list.items at) }
        ensures length { OnOk result (length self.new.list.items + 1 ≡ length self.old.list.items) }
        ensures floor { self.new.floor ≡ self.old.floor }
        ensures loose { self.new.loose ≡ self.old.loose }
        ensures scale { self.new.scale ≡ self.old.scale }
        ensures at { self.new.at ≡ self.old.at }
        ensures before { self.new.list.before ≡ self.old.list.before }
        ensures refused { IfErr result (λ e. e ≡ Error.OutOfMemory) }
    {
        let settled = if at < self.settled {
            self.settled - 1
        } else {
            self.settled
        };
        if let Err(error) = self.list.remove(at) {
            self.settled = 0;
            self.rated_anew = 0;
            return Err(error);
        }
        self.settled = settled;
        self.rated_anew = self.rated_anew.min(self.list.len());
        Ok(())
    }

    /// The floor is no more than the rate of the message at that place, if that has got one.
    pub(crate) fn lower_floor(&mut self, at: usize) -> Result<(), Error>
        requires place { at < length self.old.list.items }
        ensures lowered { OnOk result ((d : AnyFlight P) →
            (slice_index_or self.old.list.items at d).rated ≡ true → IsNoMore self.new.floor
            (flight_at self.old.at (slice_index_or self.old.list.items at d)).rate) }
        ensures lower { OnOk result ((rate : ℕ) → IsNoMore self.old.floor rate → IsNoMore self.new.floor rate) }
        ensures list { self.new.list.items ≡ self.old.list.items }
        ensures loose { self.new.loose ≡ self.old.loose }
        ensures scale { self.new.scale ≡ self.old.scale }
        ensures at { self.new.at ≡ self.old.at }
        ensures before { self.new.list.before ≡ self.old.list.before }
        ensures refused { IfErr result (λ e. e ≡ Error.OutOfMemory) }
    {
        let one = self.list.at(at);
        if one.rated {
            let lower = match &self.floor {
                Some(floor) => one.rate.number() < floor,
                None => true,
            };
            if lower {
                self.floor = Some(one.rate.number().clone()?);
            }
        }
        Ok(())
    }

    /// Takes those that are done, in order of start. They are listed in room that is given.
    pub fn take_done(
        &mut self,
        mut done: VecDeque<Arc<Message<P>>>,
        peers: &Peers<P>,
        pairs: &Pairs<P>,
        were_rated: bool,
    ) -> Result<VecDeque<Arc<Message<P>>>, Error>
        requires empty { done.items ≡ [] }
        requires limited { were_rated ≡ true → are_limited P.cmp (caps_of P.cmp peers.now.entries pairs.now.entries)
            (rated_ones (in_units self.old)) ≡ true }
        requires timed { were_rated ≡ true → AreTimed self.old.list.items }
        ensures parted { IfOk result (λ done. ArePartedBy (is_out P.cmp
            (caps_of P.cmp peers.now.entries pairs.now.entries) self.old.scale)
            (in_units self.old) (messages done.items) (in_units self.new)) }
        ensures floor { IfOk result (λ done. IsFloorOf (is_out P.cmp
            (caps_of P.cmp peers.now.entries pairs.now.entries) self.old.scale) (in_units self.old) self.new.floor) }
        ensures lower { OnOk result ((rate : ℕ) → IsNoMore self.old.floor rate → IsNoMore self.new.floor rate) }
        ensures loose { self.new.loose ≡ self.old.loose }
        ensures scale { self.new.scale ≡ self.old.scale }
        ensures at { self.new.at ≡ self.old.at }
        ensures timed { AreTimed self.old.list.items → OnOk result (AreTimed self.new.list.items) }
        ensures before { self.new.list.before ≡ self.old.list.before }
        ensures refused { IfErr result (λ e. e ≡ Error.OutOfMemory) }
    {
        let mut at = 0;
        while let Some(next) = self.next_done(at, peers, pairs, were_rated) {
            done.push_back(self.list.at(next).message.clone()?)?;
            self.lower_floor(next)?;
            self.remove(next)?;
            at = next;
        }
        Ok(done)
    }

    /// The first place from that one on at which a message is done, if there is one.
    fn next_done(
        &self,
        from: usize,
        peers: &Peers<P>,
        pairs: &Pairs<P>,
        were_rated: bool,
    ) -> Option<usize>
        requires limited { were_rated ≡ true → are_limited P.cmp (caps_of P.cmp peers.now.entries pairs.now.entries)
            (rated_ones (in_units self.now)) ≡ true }
        requires timed { were_rated ≡ true → AreTimed self.now.list.items }
        ensures next { IsNextPlace (λ one. is_out P.cmp (caps_of P.cmp peers.now.entries pairs.now.entries)
            self.now.scale (flight_at self.now.at one)) self.now.list.items from result }
    {
        let mut start = from;
        if were_rated && from < self.settled {
            start = self.settled_finish(from);
        }
        for at in start..self.list.len() {
            if self.is_done(at, peers, pairs, were_rated) {
                return Some(at);
            }
        }
        None
    }

    /// The first place from that one on at which one that has got a rate has finished, or the place behind all that
    /// have got one.
    fn settled_finish(&self, from: usize) -> usize
        requires { from ≤ self.now.settled }
        ensures low { from ≤ result }
        ensures rated { result ≤ self.now.settled }
        ensures go_on { PassesNowhere (λ one. has_come self.now.at one.finish) self.now.list.items from result }
    {
        match self.list.next_finished(from, self.at) {
            Some(at) => at.min(self.settled),
            None => self.settled,
        }
    }

    /// Where nothing is in flight, units begin anew: one is a byte a second.
    pub fn renew_units(&mut self)
        ensures sending { in_flight self.new ≡ in_flight self.old }
        ensures list { self.new.list.items ≡ self.old.list.items }
        ensures at { self.new.at ≡ self.old.at }
        ensures floor { self.new.floor ≡ self.old.floor }
        ensures loose { self.new.loose ≡ self.old.loose }
        ensures one { length self.new.list.items ≡ 0 → self.new.scale ≡ 1 }
        ensures scale { length self.new.list.items ≢ 0 → self.new.scale ≡ self.old.scale }
        ensures before { self.new.list.before ≡ self.old.list.before }
    {
        if self.list.is_empty() {
            self.scale = Natural::from_u64(self.alloc, 1);
        }
    }
}
