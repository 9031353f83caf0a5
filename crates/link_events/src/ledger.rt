//! The state that a call works on.
ghost use Rattle.std.specs.Prelude.{◌≡◌, true, false, OnOk, IfErr};
ghost use Rattle.link_waiting.specs.Idle.Index.{IsIndexOf};
ghost use Rattle.link_flights.specs.Flights.InFlight.{in_flight};
ghost use Rattle.link_waiting.specs.Idle.Waits.{since_of};
ghost use Rattle.link_waiting.specs.Idle.AtRest.{of_pairs};
ghost use Rattle.link_pairs.specs.Pairs.CapsOf.{caps_of};
ghost use Rattle.link_flights.specs.Flights.Rated.{WereRatedUnder};
ghost use Rattle.link_simulation.specs.Rule.Planned.{rated_messages};
ghost use Rattle.link_simulation.specs.Simulation.Messages.{OneForEachPair};

use crate::spare::Spare;
use fairness::error::Error;
use fairness::peer::Peer;
use link_flights::flight_list::Flights;
use link_flights::notes::Rooms;
use link_pairs::completion::Ended;
use link_pairs::known_pairs::Pairs;
use link_pairs::pair::PeerPair;
use link_pairs::peers::Peers;
use link_waiting::waiting::Waiting;
use std::alloc::Global;

/// All that is kept between calls.
pub struct Ledger<P: Peer> {
    pub alloc: Global,
    pub(crate) peers: Peers<P>,
    pub(crate) pairs: Pairs<P>,
    pub(crate) waiting: Waiting<P>,
    pub flights: Flights<P>,
    /// Whether a limit has come.
    pub(crate) limited: bool,
    /// The id of the next flow.
    pub(crate) next_id: u64,
    /// The moment at which a message in flight finishes next.
    pub(crate) finish: Option<u64>,
    /// The moment at which a waiting message starts next.
    pub(crate) start: Option<u64>,
    /// Room for what an event needs to find rates.
    pub(crate) rooms: Rooms<P>,
    /// Room for what ends.
    pub(crate) spare_ended: Spare<Ended<P>>,
    /// Room for the pairs that are ready.
    pub(crate) spare_ready: Spare<PeerPair<P>>,
    /// Whether all have to be rated at the next account: it was refused, or what a changed cap was about is limited no more.
    pub(crate) stale: bool,
    pub ghost indexed: { IsIndexOf P.cmp (of_pairs P.cmp pairs.entries waiting.messages
        (in_flight flights)) (since_of P.cmp waiting.told) },
    pub ghost one_each: { ∥ OneForEachPair P.cmp (rated_messages (in_flight flights)) ∥₁ },
    pub ghost rated: { stale ≡ false → ∥ WereRatedUnder P.cmp (caps_of P.cmp peers.entries pairs.entries) flights ∥₁ },
}

impl<P: Peer> Drop for Ledger<P> {
    /// Lets go of what it holds.
    fn drop(self) {
        let Ledger {
            alloc: _,
            peers,
            pairs,
            waiting,
            flights,
            limited: _,
            next_id: _,
            finish: _,
            start: _,
            rooms,
            spare_ended,
            spare_ready,
            stale: _,
        } = self;
        drop(peers);
        drop(pairs);
        drop(waiting);
        drop(flights);
        drop(rooms);
        drop(spare_ended);
        drop(spare_ready);
    }
}

impl<P: Peer> Ledger<P> {
    ghost use Rattle.link_simulation.specs.Simulation.Calls.{limited_by, linked_by};
    ghost use Rattle.link_simulation.specs.Rule.Planned.{new_planned, next_event as next_of_planned};
    ghost use Rattle.link_events.specs.Steps.AsPlanned.{planned};
    ghost use Rattle.link_events.specs.Steps.Marks.{before_of, IsMarked};

    /// An empty ledger before any limit, whose first flow has that id.
    pub fn new(alloc: Global, first: u64) -> Self
        ensures planned { planned P.cmp result ≡ new_planned first }
        ensures marked { IsMarked result }
    {
        Ledger {
            alloc,
            peers: Peers::new(alloc),
            pairs: Pairs::new(alloc),
            waiting: Waiting::new(alloc),
            flights: Flights::new(alloc),
            limited: false,
            next_id: first,
            finish: None,
            start: None,
            rooms: Rooms::new(alloc),
            spare_ended: Spare::new(alloc),
            spare_ready: Spare::new(alloc),
            stale: true,
        }
    }

    /// Sets the caps of a peer.
    pub(crate) fn limit_peer(
        &mut self,
        peer: &P,
        egress: Option<usize>,
        ingress: Option<usize>,
    ) -> Result<(), Error>
        ensures limited { OnOk result (planned P.cmp self.new
            ≡ record (planned P.cmp self.old) {
              caps = limited_by P.cmp
                  (planned P.cmp self.old).caps peer.now egress ingress;
              limited = true;
            }) }
        ensures before { before_of self.new ≡ before_of self.old }
        ensures refused { IfErr result (λ e. e ≡ Error.OutOfMemory) }
    {
        let stale = self.stale;
        self.stale = true;
        self.limited = true;
        self.flights.loosen_peer(peer)?;
        self.peers.set(peer, egress, ingress)?;
        self.stale = stale || !self.flights.loose_is_limited(&self.peers, &self.pairs);
        Ok(())
    }

    /// Sets the cap of an ordered pair.
    pub(crate) fn limit_pair(
        &mut self,
        origin: &P,
        recipient: &P,
        cap: Option<usize>,
    ) -> Result<(), Error>
        ensures limited { OnOk result (planned P.cmp self.new
            ≡ record (planned P.cmp self.old) {
              caps = linked_by P.cmp
                  (planned P.cmp self.old).caps origin.now recipient.now cap;
              limited = true;
            }) }
        ensures before { before_of self.new ≡ before_of self.old }
        ensures refused { IfErr result (λ e. e ≡ Error.OutOfMemory) }
    {
        let stale = self.stale;
        self.stale = true;
        self.limited = true;
        self.flights.loosen_sent(origin)?;
        self.pairs.set_cap(origin, recipient, cap)?;
        self.stale = stale || !self.flights.loose_is_limited(&self.peers, &self.pairs);
        Ok(())
    }

    /// The earlier of the planned finish and the planned start.
    pub fn next_event(&self) -> Option<u64>
        ensures { result ≡ next_of_planned (planned P.cmp self.now) }
    {
        match (self.finish, self.start) {
            (Some(finish), Some(start)) => Some(finish.min(start)),
            (Some(finish), None) => Some(finish),
            (None, start) => start,
        }
    }
}
