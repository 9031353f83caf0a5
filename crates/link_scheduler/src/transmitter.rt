//! When each message arrives: a scheduler of messages over capped peers.
ghost use Rattle.std.specs.Prelude.{◌≡◌, ◌≤◌, length, map, IfOk, IfErr, IsOk, OnErr};
ghost use Rattle.link_simulation.specs.Laws.Orderly.{IsOrderly};
ghost use Rattle.link_events.specs.Steps.AsPlanned.{planned};
ghost use Rattle.link_events.specs.Steps.Marks.{IsMarked};
ghost use Rattle.link_simulation.specs.Simulation.Calls.{call_limit, call_limit_link, call_enqueue, call_enqueue_all};
ghost use Rattle.link_simulation.specs.Simulation.Calls.{call_advance};
ghost use Rattle.link_simulation.specs.Simulation.Messages.{CapsAlike, PairsAlike};
ghost use Rattle.link_simulation.specs.Rule.Planned.{IsPlanned};

use bytes::Bytes;
use fairness::error::Error;
use fairness::peer::Peer;
use link_events::change::Change;
use link_events::ledger::Ledger;
pub use link_events::outgoing::Outgoing;
pub use link_flights::reading::{InFlight, Reading};
pub use link_pairs::completion::Completion;
pub use link_pairs::contents::{Contents, Payload};
use std::alloc::Global;
use std::marker::PhantomData;

/// A scheduler of messages between capped peers: it tells when each completes and arrives.
///
/// It has no clock. Each call but `next` says its moment, in nanoseconds since the start, and
/// answers what completes, in order.
///
/// `M` is what a message is given as, and what comes back of it with its completion: `Bytes`, where
/// nothing else is said, or `Contents`, of which zero bytes take no memory.
///
/// Before any limit a message completes as it is enqueued. After the first `limit` or `limit_link`,
/// at most one message of each ordered pair of peers is in flight, and the others of the pair wait
/// behind it. The messages in flight share the caps max-min fairly, as `bandwidth::allocate` tells.
/// A message completes once nothing is left of it, at once where no cap holds for it, and arrives
/// its latency later. The next one of its pair starts once it can no longer overtake it. A message
/// that is to be dropped takes its part of what its origin may send, nothing of what its recipient
/// may receive, and does not arrive. Under limits the same holds of one from a peer to itself.
///
/// # An example
///
/// Peer 1 may send 1000 bytes a second. So a `message` of 500 bytes to peer 2 takes half a second,
/// and with a latency of one millisecond it arrives one millisecond later:
///
/// ```
/// let mut state = State::new(alloc);
/// state.limit(0, &1u64, Some(1000), None)?;
/// state.enqueue(0, 1, 2, 7, message, 1_000_000, true)?;
/// let next = state.next(); // Some(500_000_000)
/// let done = state.advance(500_000_000)?; // one completion: done_at: 500_000_000, deliver_at: Some(501_000_000)
/// ```
///
/// # What is promised
///
/// The *simulation* (`model`) goes nanosecond by nanosecond: all that is in flight drains at its
/// fair rate, what is done completes, and what may start starts. Where moments never go back, and
/// caps change and messages are sent only before the next event, each call does what it does in the
/// simulation (`made.simulated`). So let time go on to a moment by `advance` first, and then
/// change caps and send messages. Elsewhere a call still goes by the event rule, from one planned
/// moment to the next, which speaks of any moments (`made.by_rule`).
///
/// A message is neither lost nor doubled (`made.conserved`), and after each call those in flight have
/// their max-min fair rates under the caps now (`made.rated`). A call that is refused leaves the
/// scheduler as it was (`unchanged`).
///
/// No call is refused for a number, whatever caps, lengths and moments it is given, and however
/// many peers send. The *range* is: the first flow id and the number of messages together below
/// 2^64, moments and latencies below 2^63. There a call is refused for memory alone (`refused`), and
/// leaves the scheduler in the range (`made.in_range`).
pub struct State<P: Peer, M = Bytes> {
    ledger: Ledger<P>,
    of: PhantomData<M>,
    pub ghost caps: { CapsAlike P.cmp (planned P.cmp ledger).caps (planned P.cmp ledger).caps },
    pub ghost arrivals: { PairsAlike P.cmp (planned P.cmp ledger).last_arrival (planned P.cmp ledger).last_arrival },
    // Here and in the clauses `∥ A ∥₁` reads: there is an `A`.
    pub ghost right: { ∥ IsPlanned P.cmp (planned P.cmp ledger) ∥₁ },
    pub ghost orderly: { ∥ IsOrderly P.cmp (planned P.cmp ledger) ∥₁ },
    ghost marked: { IsMarked ledger },
}

impl<P: Peer, M: Drop> Drop for State<P, M> {
    /// Lets go of what it holds.
    fn drop(self) {
        let State { ledger, of } = self;
        drop(ledger);
        drop(of);
    }
}

impl<P: Peer> State<P> {
    ghost use Rattle.link_scheduler.specs.Calls.State.{IsNew};

    /// A scheduler at the start, moment 0, without limits and with nothing sent. Flow ids begin
    /// at 0.
    ///
    /// It stands for the new world of the simulation, and is in the range.
    pub fn new(alloc: Global) -> Self
        ensures new { IsNew result 0 }
    {
        State::with_first_id(alloc, 0)
    }

    /// As `new`, with flow ids from `first`. Each message that starts to be sent under limits takes
    /// the next id, and the last id that is given is 18446744073709551614.
    pub fn with_first_id(alloc: Global, first: u64) -> Self
        ensures new { IsNew result first }
    {
        State::with_payload(alloc, first)
    }
}

impl<P: Peer, M: Payload> State<P, M> {
    ghost use Rattle.std.specs.List.{AllZip};
    ghost use Rattle.link_flights.specs.Flights.Readings.{IsReadAs};
    ghost use Rattle.link_scheduler.specs.Calls.State.{planned_of, IsNew, IsMadeBy, IsRefused, IsAdvancedBy};
    ghost use Rattle.link_pairs.specs.Pairs.Messages.{completed_by};
    ghost use Rattle.link_events.specs.Steps.Answered.{IsAnswered};
    ghost use Rattle.link_events.specs.Steps.Changes.{call_at};
    ghost use Rattle.link_events.specs.Steps.Outgoing.{sent, outgoing_by};
    ghost use Rattle.link_scheduler.specs.Calls.State.{IsCountedBy, sends_by, AreMadeBy, IsOneRefused};
    ghost use Rattle.link_scheduler.specs.Calls.State.{IsNextOf, IsQuietUntil, rated_at_last};

    /// As `with_first_id`, where messages are of any type of `Payload`.
    ///
    /// ```
    /// let mut lengths: State<u64, Contents> = State::with_payload(alloc, 0);
    /// lengths.enqueue(0, 1, 2, 7, Contents::zeros(1 << 40), 0, true)?;
    /// ```
    pub fn with_payload(alloc: Global, first: u64) -> Self
        ensures new { IsNew result first }
    {
        State {
            ledger: Ledger::new(alloc, first),
            of: PhantomData,
        }
    }

    /// Sets the caps of a peer from `now` on, and answers what completes at that moment.
    ///
    /// `egress` is the cap on all that the peer sends and `ingress` that on all that it receives,
    /// both in bytes a second; `None` is no cap. `now` is in nanoseconds since the start. The
    /// messages in flight go on at the fair rates under the new caps, and those for which no cap
    /// holds any more complete. The first limit ends the time in which messages complete as they
    /// are enqueued, also where it sets no cap.
    ///
    /// Where moments never go back, and caps change and messages are sent only before the next
    /// event, it does what the simulation does: the same messages complete in the same order, and
    /// are done and arrive at the same moments.
    ///
    /// # Errors
    ///
    /// The scheduler then stays as it was.
    ///
    /// - `OutOfMemory` where memory was refused, for a list or for the clone of a peer.
    /// - `MomentTooLate` where a message completes and would arrive past the last moment,
    ///   18446744073709551615.
    /// - `FlowIdsUsedUp` where a message would start and no flow id is left.
    pub fn limit(
        &mut self,
        now: u64,
        peer: &P,
        egress: Option<usize>,
        ingress: Option<usize>,
    ) -> Result<Vec<Completion<P, M>>, Error>
        ensures made { IfOk result (λ done. IsMadeBy M.bytes self.old
            (call_limit now peer.now egress ingress) done.items self.new) }
        ensures refused { IfErr result (IsRefused self.old (call_limit now peer.now egress ingress)) }
        ensures unchanged { OnErr result (self.new ≡ self.old) }
    {
        let change = Change::Limit {
            peer,
            egress,
            ingress,
        };
        Ok(self.make(&now, change)?.0)
    }

    /// Sets the cap of an ordered pair of peers from `now` on, and answers what completes at that
    /// moment.
    ///
    /// `cap` is on all that `origin` sends to `recipient`, in bytes a second, beside the caps of
    /// the two peers; `None` is no cap. `now` is in nanoseconds since the start. All else is as
    /// with `limit`.
    ///
    /// Where moments never go back, and caps change and messages are sent only before the next
    /// event, it does what the simulation does: the same messages complete in the same order, and
    /// are done and arrive at the same moments.
    ///
    /// # Errors
    ///
    /// The scheduler then stays as it was.
    ///
    /// - `OutOfMemory` where memory was refused, for a list or for the clone of a peer.
    /// - `MomentTooLate` where a message completes and would arrive past the last moment,
    ///   18446744073709551615.
    /// - `FlowIdsUsedUp` where a message would start and no flow id is left.
    pub fn limit_link(
        &mut self,
        now: u64,
        origin: &P,
        recipient: &P,
        cap: Option<usize>,
    ) -> Result<Vec<Completion<P, M>>, Error>
        ensures made { IfOk result (λ done. IsMadeBy M.bytes self.old
            (call_limit_link now origin.now recipient.now cap) done.items self.new) }
        ensures refused { IfErr result (IsRefused self.old (call_limit_link now origin.now recipient.now cap)) }
        ensures unchanged { OnErr result (self.new ≡ self.old) }
    {
        let change = Change::LimitLink {
            origin,
            recipient,
            cap,
        };
        Ok(self.make(&now, change)?.0)
    }

    /// Sends a message at `now`, and answers what completes at that moment.
    ///
    /// `now` is in nanoseconds since the start, and `latency` in nanoseconds. `channel` and the
    /// message come back with the completion. It is to be dropped where `should_deliver` is
    /// false.
    ///
    /// Before any limit it completes at once, and arrives its latency later, or with the last one
    /// of its pair where that arrives after it. Under limits it waits behind the others of its
    /// pair. It starts once none of them is in flight and, were it done at once, it would arrive no
    /// earlier than the last one that completed.
    ///
    /// Where moments never go back, and caps change and messages are sent only before the next
    /// event, it does what the simulation does: the same messages complete in the same order, and
    /// are done and arrive at the same moments.
    ///
    /// # Errors
    ///
    /// The scheduler then stays as it was.
    ///
    /// - `OutOfMemory` where memory was refused, for a list or for the clone of a peer.
    /// - `MomentTooLate` where a message completes and would arrive past the last moment,
    ///   18446744073709551615.
    /// - `FlowIdsUsedUp` where a message would start and no flow id is left.
    ///
    /// Before any limit only `OutOfMemory` and `MomentTooLate` come.
    pub fn enqueue(
        &mut self,
        now: u64,
        origin: P,
        recipient: P,
        channel: u64,
        message: M,
        latency: u64,
        should_deliver: bool,
    ) -> Result<Vec<Completion<P, M>>, Error>
        ensures made { IfOk result (λ done.
            IsMadeBy M.bytes self.old (call_enqueue now
            (sent origin recipient channel (M.bytes message) latency should_deliver)) done.items self.new) }
        ensures refused { IfErr result (IsRefused self.old
            (call_enqueue now (sent origin recipient channel (M.bytes message) latency should_deliver))) }
        ensures unchanged { OnErr result (self.new ≡ self.old) }
    {
        let change = Change::Enqueue(Outgoing {
            origin,
            recipient,
            channel,
            message,
            latency,
            should_deliver,
        });
        Ok(self.make(&now, change)?.0)
    }

    /// Sends messages at `now`, one after another in their order, and answers what completes at that
    /// moment, in order.
    ///
    /// It does what as many calls of `enqueue` would do, and answers what they would answer. But it is
    /// made as a whole or not at all, and is one call where such a list is replayed (`as_one`). `now` is
    /// in nanoseconds since the start. An empty list changes nothing and is never refused.
    ///
    /// Where moments never go back, and caps change and messages are sent only before the next
    /// event, each message does what it does in the simulation, as with `enqueue`.
    ///
    /// ```
    /// let mut both = Vec::new(alloc);
    /// both.push(Outgoing { origin: 1, recipient: 2, channel: 7, message, latency: 0, should_deliver: true })?;
    /// both.push(Outgoing { origin: 1, recipient: 3, channel: 7, message: other, latency: 0, should_deliver: true })?;
    /// let done = state.enqueue_all(0, both)?;
    /// ```
    ///
    /// # Errors
    ///
    /// Those of the first message that `enqueue` would refuse, after the messages before it. The
    /// scheduler then stays as it was before all of them.
    ///
    /// - `OutOfMemory` where memory was refused, for a list or for the clone of a peer.
    /// - `MomentTooLate` where a message completes and would arrive past the last moment,
    ///   18446744073709551615.
    /// - `FlowIdsUsedUp` where a message would start and no flow id is left.
    pub fn enqueue_all(
        &mut self,
        now: u64,
        messages: Vec<Outgoing<P, M>>,
    ) -> Result<Vec<Completion<P, M>>, Error>
        ensures made { IfOk result (λ done. AreMadeBy M.bytes self.old (sends_by M.bytes now messages.items) done.items
            self.new) }
        ensures as_one { IfOk result (λ done. IsMadeBy M.bytes self.old
            (call_enqueue_all now (map (outgoing_by M.bytes) messages.items)) done.items self.new) }
        ensures refused { IfErr result (IsOneRefused self.old (sends_by M.bytes now messages.items)) }
        ensures refused_as_one { IfErr result (IsRefused self.old
            (call_enqueue_all now (map (outgoing_by M.bytes) messages.items))) }
        ensures unchanged { OnErr result (self.new ≡ self.old) }
    {
        if messages.is_empty() {
            return Ok(Vec::new(self.ledger.alloc));
        }
        Ok(self.make(&now, Change::EnqueueAll(messages))?.0)
    }

    /// Lets time go on to `now`, in nanoseconds since the start, and answers what completes up to
    /// that moment and at it, in order.
    ///
    /// Each event on the way is handled at its own moment: messages finish, and others start.
    ///
    /// Where moments never go back, and caps change and messages are sent only before the next
    /// event, it does what the simulation does: the same messages complete in the same order, and
    /// are done and arrive at the same moments. There an advance to any moment on the way, and then on,
    /// completes the same (`advanced.split`), and an origin sends no more than its egress cap lets go
    /// in the time between (`advanced.within_caps`).
    ///
    /// Where no event is due up to `now` and no waiting message may start at it, it takes no memory
    /// and is never refused (`quiet`).
    ///
    /// # Errors
    ///
    /// The scheduler then stays as it was.
    ///
    /// - `OutOfMemory` where memory was refused, for a list or for the clone of a peer.
    /// - `MomentTooLate` where a message completes and would arrive past the last moment,
    ///   18446744073709551615.
    /// - `FlowIdsUsedUp` where a message would start and no flow id is left.
    pub fn advance(&mut self, now: u64) -> Result<Vec<Completion<P, M>>, Error>
        ensures made { IfOk result (λ done. IsMadeBy M.bytes self.old (call_advance now) done.items self.new) }
        ensures advanced { IfOk result (λ done. IsAdvancedBy M.bytes self.old now done.items self.new) }
        ensures quiet { IsQuietUntil now self.old → IsOk result }
        ensures refused { IfErr result (IsRefused self.old (call_advance now)) }
        ensures unchanged { OnErr result (self.new ≡ self.old) }
    {
        Ok(self.advance_counted(now)?.0)
    }

    /// As `advance`, with the number of events that it handled: finishes and starts, each of one
    /// moment. There are at most twice as many as messages waited and once as many as were in
    /// flight.
    ///
    /// Where moments never go back, and caps change and messages are sent only before the next
    /// event, it does what the simulation does, as `advance`.
    ///
    /// # Errors
    ///
    /// Those of `advance`, and the scheduler then stays as it was.
    pub fn advance_counted(&mut self, now: u64) -> Result<(Vec<Completion<P, M>>, u128), Error>
        ensures made { IfOk result (λ answer. IsMadeBy M.bytes self.old (call_advance now) answer.0.items self.new) }
        ensures advanced { IfOk result (λ answer. IsAdvancedBy M.bytes self.old now answer.0.items self.new) }
        ensures counted { IfOk result (λ answer. IsCountedBy M.bytes self.old now answer.1 answer.0.items self.new) }
        ensures quiet { IsQuietUntil now self.old → IsOk result }
        ensures refused { IfErr result (IsRefused self.old (call_advance now)) }
        ensures unchanged { OnErr result (self.new ≡ self.old) }
    {
        if self.ledger.is_quiet(now) {
            self.ledger.pass(now);
            return Ok((Vec::new(self.ledger.alloc), 0));
        }
        self.make(&now, Change::Advance)
    }

    /// Makes a change at `now`, and answers what completes, with the number of events of an advance.
    /// Where it is refused, all is put back as it was. The moment is lent, so that a change that names
    /// no peer has a lifetime, too.
    fn make<'a>(
        &mut self,
        now: &'a u64,
        change: Change<'a, P, M>,
    ) -> Result<(Vec<Completion<P, M>>, u128), Error>
        ensures answered { IfOk result (λ answer. IsAnswered P.cmp (planned_of self.old)
            (call_at M.bytes now.now change.entry) answer.1 (map (completed_by M.bytes) answer.0.items) (planned_of self.new)) }
        ensures made { IfOk result (λ answer.
            IsMadeBy M.bytes self.old (call_at M.bytes now.now change.entry) answer.0.items self.new) }
        ensures refused { IfErr result (IsRefused self.old (call_at M.bytes now.now change.entry)) }
        ensures unchanged { OnErr result (self.new ≡ self.old) }
    {
        let kept = self.ledger.keep()?;
        let answer = self.ledger.answer(*now, change);
        self.ledger.conclude(kept, answer)
    }

    /// The moment of the next event, in nanoseconds since the start: the next at which a message
    /// finishes or starts, unless a cap changes or a message is sent before. `None` where none
    /// comes up to the last moment, 18446744073709551615.
    ///
    /// It takes no memory, changes nothing and is never refused. Where moments never went back, and
    /// caps changed and messages were sent only before the next event, it is the simulation's.
    pub fn next(&self) -> Option<u64>
        ensures next { IsNextOf self.now result }
    {
        self.ledger.next_event()
    }

    /// What is in flight, in order of start: of each message its pair, its channel, what is left of it
    /// in bytes, its rate in bytes a second, and since when.
    ///
    /// What was left of a message at the moment `since` drains at its rate from then on, until it
    /// is done or the next event or call changes the rates. The peers are cloned. An amount is
    /// exact where its fraction fits in 128 bits, and else rounded down to a whole number;
    /// `Reading` says which.
    ///
    /// It changes nothing. It takes memory for the list and on the way, and time that grows with
    /// the number of messages in flight and with the length of their numbers.
    ///
    /// # Errors
    ///
    /// `OutOfMemory` where memory was refused, for the list or for the clone of a peer.
    pub fn in_flight(&self) -> Result<Vec<InFlight<P>>, Error>
        ensures read { IfOk result (λ readings. AllZip (IsReadAs P.cmp) (planned_of self.now).sending readings.items) }
        ensures refused { IfErr result (λ e. e ≡ Error.OutOfMemory) }
    {
        self.ledger.flights.read()
    }

    /// How many messages in flight were rated anew when rates were last given, by the last call that
    /// brought rates or by the last event of an advance. Each of these drained to that moment and
    /// got a rate and a finish of its own; all others in flight were left as they were kept.
    ///
    /// It counts work, and has no part in what is answered. Where messages start or end, or a cap of
    /// theirs changes, those that share with them a sender with a cap on what it sends, or a receiver
    /// with one on what it receives, directly or through others, are looked for; but one that is slower
    /// than all of these were, and than the least share that one may get, goes on as it is, and is not
    /// looked through. Where these are found, no other is rated anew. All are rated where they are many,
    /// or few are in flight, or one loses its last cap. Where a quarter of all or more got another rate
    /// so, all are rated at the next three events, too, as a rule. It takes no memory, changes nothing
    /// and is never refused.
    pub fn rated_anew(&self) -> usize
        ensures counted { result ≡ rated_at_last self.now }
        ensures at_most_all { result ≤ length (planned_of self.now).sending }
    {
        self.ledger.flights.rated_anew
    }
}
