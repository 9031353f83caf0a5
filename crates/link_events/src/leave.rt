//! What is done leaves.
ghost use Rattle.std.specs.Prelude.{◌≡◌, ◌≤◌, ◌⊎◌, [], true, IfOk, IfErr, OnOk};
ghost use Rattle.link_simulation.specs.Simulation.Messages.{OneForEachPair};
ghost use Rattle.link_simulation.specs.Rule.Planned.{rated_messages};
ghost use Rattle.link_waiting.specs.Idle.Waits.{since_of};
ghost use Rattle.link_waiting.specs.Idle.AtRest.{of_pairs};
ghost use Rattle.link_waiting.specs.Idle.Index.{IsIndexOf};
ghost use Rattle.link_flights.specs.Flights.InFlight.{in_flight};
ghost use Rattle.link_flights.specs.Flights.Rated.{WereRatedUnder};
ghost use Rattle.link_pairs.specs.Pairs.Messages.{messages};
ghost use Rattle.link_pairs.specs.Pairs.CapsOf.{caps_of};
ghost use Rattle.link_pairs.specs.Pairs.Entries.{link_of, arrival_of};
ghost use Rattle.link_events.specs.Steps.Parting.{IsParted, done_by};
ghost use Rattle.link_events.specs.Steps.Landing.{FirstLands, IsFirstLate, since_of_first};

use crate::readiness::tell_all;
use fairness::error::Error;
use fairness::peer::Peer;
use link_flights::flight_list::Flights;
use link_pairs::known_pairs::Pairs;
use link_pairs::message::Message;
use link_pairs::peers::Peers;
use link_waiting::waiting::Waiting;
use std::collections::VecDeque;
use std::ops::Deref;
use std::sync::Arc;

/// All that is in flight drains to that moment. What is done leaves, in order of start; it is listed in room that is
/// given.
fn part<P: Peer>(
    now: u64,
    flights: &mut Flights<P>,
    peers: &Peers<P>,
    pairs: &Pairs<P>,
    were_fair: bool,
    queue: VecDeque<Arc<Message<P>>>,
) -> Result<VecDeque<Arc<Message<P>>>, Error>
    requires empty { queue.items ≡ [] }
    requires one_each { ∥ OneForEachPair P.cmp (rated_messages (in_flight flights.old)) ∥₁ }
    requires later { were_fair ≡ true → flights.old.at ≤ now }
    requires rated { were_fair ≡ true
        → ∥ WereRatedUnder P.cmp (caps_of P.cmp peers.now.entries pairs.now.entries) flights.old ∥₁ }
    ensures parted { IfOk result (λ done. IsParted P.cmp now
        (caps_of P.cmp peers.now.entries pairs.now.entries) were_fair flights.old flights.new
        (messages done.items)) }
    ensures before { flights.new.list.before ≡ flights.old.list.before }
    ensures refused { IfErr result (λ e. e ≡ Error.OutOfMemory) }
{
    flights.drain(now)?;
    flights.take_done(queue, peers, pairs, were_fair)
}

/// All that is in flight drains to that moment. What is done leaves, in order of start, and its
/// pairs are idle from now on.
pub(crate) fn leave<P: Peer>(
    now: u64,
    flights: &mut Flights<P>,
    peers: &Peers<P>,
    pairs: &Pairs<P>,
    waiting: &mut Waiting<P>,
    were_fair: bool,
    queue: VecDeque<Arc<Message<P>>>,
) -> Result<VecDeque<Arc<Message<P>>>, Error>
    requires empty { queue.items ≡ [] }
    requires indexed { IsIndexOf P.cmp (of_pairs P.cmp pairs.now.entries waiting.old.messages
        (in_flight flights.old)) (since_of P.cmp waiting.old.told) }
    requires one_each { ∥ OneForEachPair P.cmp (rated_messages (in_flight flights.old)) ∥₁ }
    requires later { were_fair ≡ true → flights.old.at ≤ now }
    requires rated { were_fair ≡ true
        → ∥ WereRatedUnder P.cmp (caps_of P.cmp peers.now.entries pairs.now.entries) flights.old ∥₁ }
    ensures parted { IfOk result (λ done. IsParted P.cmp now
        (caps_of P.cmp peers.now.entries pairs.now.entries) were_fair flights.old flights.new
        (messages done.items)) }
    ensures messages { OnOk result (waiting.new.messages ≡ waiting.old.messages) }
    ensures indexed { OnOk result (IsIndexOf P.cmp (of_pairs P.cmp pairs.now.entries waiting.new.messages
        (in_flight flights.new)) (since_of P.cmp waiting.new.told)) }
    ensures flights_before { flights.new.list.before ≡ flights.old.list.before }
    ensures waiting_before { waiting.new.before ≡ waiting.old.before }
    ensures refused { IfErr result (λ e. e ≡ Error.OutOfMemory) }
{
    let done = part(now, flights, peers, pairs, were_fair, queue)?;
    tell_all(waiting, pairs, &done)?;
    Ok(done)
}

/// What left, and what came of the first of it, which has landed.
#[derive(Drop)]
pub(crate) struct Left<P> {
    pub(crate) done: VecDeque<Arc<Message<P>>>,
    /// When the first arrives, if it does.
    pub(crate) deliver_at: Option<u64>,
    /// From when on the next message of its pair may start, if one waits.
    pub(crate) since: Option<u64>,
}

/// The first of what is done lands: no later one of its pair arrives before it. Answers when it
/// arrives, if it does.
fn land_first<P: Peer>(
    now: u64,
    pairs: &mut Pairs<P>,
    done: &VecDeque<Arc<Message<P>>>,
) -> Result<Option<u64>, Error>
    ensures link { OnOk result (link_of P.cmp pairs.new.entries ≡ link_of P.cmp pairs.old.entries) }
    ensures lands { IfOk result (λ deliver_at. FirstLands P.cmp now (messages done.now.items)
        (arrival_of P.cmp pairs.old.entries) (arrival_of P.cmp pairs.new.entries) deliver_at) }
    ensures before { pairs.new.before ≡ pairs.old.before }
    ensures refused { IfErr result (λ e. (e ≡ Error.OutOfMemory)
        ⊎ ((e ≡ Error.MomentTooLate) × IsFirstLate P.cmp now (messages done.now.items))) }
{
    let Some(first) = done.front() else {
        return Ok(None);
    };
    let first = first.deref();
    let arrival = first.arrival(now)?;
    pairs.raise(&first.origin, &first.recipient, arrival)?;
    Ok(first.is_delivered().then_some(arrival))
}

/// As `leave`; and the first of what is done lands before its pair is idle.
pub(crate) fn leave_landing<P: Peer>(
    now: u64,
    flights: &mut Flights<P>,
    peers: &Peers<P>,
    pairs: &mut Pairs<P>,
    waiting: &mut Waiting<P>,
    were_fair: bool,
    queue: VecDeque<Arc<Message<P>>>,
) -> Result<Left<P>, Error>
    requires empty { queue.items ≡ [] }
    requires indexed { IsIndexOf P.cmp (of_pairs P.cmp pairs.old.entries waiting.old.messages
        (in_flight flights.old)) (since_of P.cmp waiting.old.told) }
    requires one_each { ∥ OneForEachPair P.cmp (rated_messages (in_flight flights.old)) ∥₁ }
    requires later { were_fair ≡ true → flights.old.at ≤ now }
    requires rated { were_fair ≡ true
        → ∥ WereRatedUnder P.cmp (caps_of P.cmp peers.now.entries pairs.old.entries) flights.old ∥₁ }
    ensures parted { IfOk result (λ left. IsParted P.cmp now
        (caps_of P.cmp peers.now.entries pairs.old.entries) were_fair flights.old flights.new
        (messages left.done.items)) }
    ensures link { OnOk result (link_of P.cmp pairs.new.entries ≡ link_of P.cmp pairs.old.entries) }
    ensures lands { IfOk result (λ left. FirstLands P.cmp now (messages left.done.items)
        (arrival_of P.cmp pairs.old.entries) (arrival_of P.cmp pairs.new.entries) left.deliver_at) }
    ensures idle { IfOk result (λ left. left.since ≡ since_of_first P.cmp (of_pairs P.cmp pairs.new.entries
        waiting.new.messages (in_flight flights.new)) (messages left.done.items)) }
    ensures messages { OnOk result (waiting.new.messages ≡ waiting.old.messages) }
    ensures indexed { OnOk result (IsIndexOf P.cmp (of_pairs P.cmp pairs.new.entries waiting.new.messages
        (in_flight flights.new)) (since_of P.cmp waiting.new.told)) }
    ensures flights_before { flights.new.list.before ≡ flights.old.list.before }
    ensures pairs_before { pairs.new.before ≡ pairs.old.before }
    ensures waiting_before { waiting.new.before ≡ waiting.old.before }
    ensures refused { IfErr result (λ e. (e ≡ Error.OutOfMemory) ⊎ ((e ≡ Error.MomentTooLate)
        × IsFirstLate P.cmp now
        (done_by P.cmp now (caps_of P.cmp peers.now.entries pairs.old.entries) flights.old))) }
{
    let done = part(now, flights, peers, pairs, were_fair, queue)?;
    let deliver_at = land_first(now, pairs, &done)?;
    let since = tell_all(waiting, pairs, &done)?;
    Ok(Left {
        done,
        deliver_at,
        since,
    })
}
