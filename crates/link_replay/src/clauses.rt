//! What the promises of a scheduler's calls mean: what follows from the records that their contracts name.
//!
//! Each function here states laws and does nothing. The records are those of
//! `Rattle.link_scheduler.specs.Calls.State` and `Rattle.link_flights.specs.Flights.Readings`.
ghost use Rattle.std.specs.Prelude.{◌≡◌, ◌↔◌, ℕ, ◌+◌, ◌-◌, ◌*◌, ◌≤◌, List, [], ◌∷◌, length};
ghost use Rattle.std.specs.Prelude.{map, true, Bool, Option, Some, None};
ghost use Rattle.std.specs.List.{AllZip};
ghost use Rattle.std.specs.declared.cmp.Ordering.TheVariants.{Equal};
ghost use Rattle.fairness.specs.Numbers.Amount.{Amount, whole};
ghost use Rattle.fairness.specs.Numbers.Ratio.{amount_of};
ghost use Rattle.fairness.specs.declared.error.Error.{Error as AnyError};
ghost use Rattle.fairness.specs.declared.error.Error.TheVariants.{OutOfMemory, NumberTooLarge};
ghost use Rattle.link_pairs.specs.Pairs.Messages.{completed_of};
ghost use Rattle.link_flights.specs.Flights.Readings.{HasShortTerms, IsGreatestWhole, IsReadingOf, IsReadAs};
ghost use Rattle.link_scheduler.specs.Calls.State.{planned_of, Makes, Refuses, IsNew, IsAdvanced, IsCounted};
ghost use Rattle.link_events.specs.Steps.Outgoing.{sent};
ghost use Rattle.link_scheduler.specs.Calls.State.{IsNextOf};
ghost use Rattle.link_flights.specs.declared.reading.InFlight.{InFlight as AnyInFlight};
ghost use Rattle.link_flights.specs.declared.reading.Reading.{Reading as AnyReading};
ghost use Rattle.link_simulation.specs.Laws.MostEvents.{most_events};
ghost use Rattle.link_simulation.specs.Rule.SamePlanned.{IsSamePlanned, AdvancesByRule};
ghost use Rattle.link_simulation.specs.Rule.Simulated.{IsCalled};
ghost use Rattle.link_simulation.specs.Simulation.World.{World, Completed, goes};
ghost use Rattle.link_simulation.specs.Laws.Bytes.{bytes_from};
ghost use Rattle.link_simulation.specs.Simulation.Calls.{Call, call_advance, Runs};
ghost use Rattle.link_simulation.specs.Rule.Events.{Obeys};
ghost use Rattle.link_simulation.specs.Laws.PairCompletions.{enqueued};
ghost use Rattle.link_simulation.specs.Rule.Planned.{Planned, RatedFlight, IsRated, new_planned, next_event};
ghost use Rattle.link_simulation.specs.Rule.Range.{IsInRange, IsCallInRange};
ghost use Rattle.link_simulation.specs.Simulation.Replies.{SameCompletion};
ghost use Rattle.link_simulation.specs.Rule.StandsFor.{StandsFor};
ghost use Rattle.link_simulation.specs.Simulation.Time.{NextIs};

use fairness::peer::Peer;
use link_scheduler::transmitter::{Completion, State};

/// A call that is made has the one course of the event rule. In the simulation it has the one course from each world in
/// which it comes in turn. After it as many messages are done, in flight and waiting as there were before, with its
/// own; what is in flight has its fair rate; and from the range it leads to the range.
pub fn a_call_that_is_made_keeps_its_promises<P: Peer>()
    ensures rule { (p q r : Planned P) (call : Call P) (cs ds : List (Completed P)) → Makes P.cmp p call cs q →
        Obeys P.cmp p call (goes ds r) → AllZip (SameCompletion P.cmp) cs ds × IsSamePlanned P.cmp r q }
    ensures simulated { (p q : Planned P) (w v : World P) (call : Call P) (now : ℕ) (cs ds : List (Completed P)) →
        Makes P.cmp p call cs q → IsCalled P.cmp p call now w → Runs P.cmp w call now (goes ds v) →
        AllZip (SameCompletion P.cmp) cs ds × StandsFor P.cmp q v }
    ensures counted { (p q : Planned P) (call : Call P) (cs : List (Completed P)) → Makes P.cmp p call cs q →
        length cs + length q.sending + length q.waiting
        ≡ length p.sending + length p.waiting + length (enqueued (call ∷ [])) }
    ensures rated { (p q : Planned P) (call : Call P) (cs : List (Completed P)) → Makes P.cmp p call cs q →
        ∥ IsRated P.cmp q ∥₁ }
    ensures in_range { (p q : Planned P) (call : Call P) (cs : List (Completed P)) → Makes P.cmp p call cs q →
        IsCallInRange p call → IsInRange q }
{}

/// A call that could go, by the event rule or in the simulation, is refused for memory alone, and so is one in the
/// range. For a number none is refused.
pub fn a_call_that_is_refused_has_a_cause<P: Peer>()
    ensures rule { (p q : Planned P) (call : Call P) (why : AnyError) (cs : List (Completed P)) →
        Refuses P.cmp p call why → Obeys P.cmp p call (goes cs q) → why ≡ OutOfMemory }
    ensures simulated { (p : Planned P) (w v : World P) (call : Call P) (now : ℕ) (why : AnyError)
        (cs : List (Completed P)) → Refuses P.cmp p call why → IsCalled P.cmp p call now w →
        Runs P.cmp w call now (goes cs v) → why ≡ OutOfMemory }
    ensures in_range { (p : Planned P) (call : Call P) (why : AnyError) → Refuses P.cmp p call why →
        IsCallInRange p call → why ≡ OutOfMemory }
    ensures number { (p : Planned P) (call : Call P) → ¬ Refuses P.cmp p call NumberTooLarge }
{}

/// An advance from the one scheduler to the other has the one course of the simulation, and what an origin had to send,
/// and has sent, took as long as its cap needs for it.
pub fn an_advance_keeps_its_promises<P: Peer>(
    old: &State<P>,
    done: &[Completion<P>],
    new: &State<P>,
)
    ensures split { (w v : World P) (now : ℕ) (ds : List (Completed P)) → IsAdvanced old.now now done.now new.now →
        StandsFor P.cmp (planned_of old.now) w → w.moment ≤ now → Runs P.cmp w (call_advance now) now (goes ds v) →
        AllZip (SameCompletion P.cmp) (map completed_of done.now) ds × StandsFor P.cmp (planned_of new.now) v }
    ensures within_caps { (w v : World P) (origin : P) (bytes cap now : ℕ) →
        IsAdvanced old.now now done.now new.now → StandsFor P.cmp (planned_of old.now) w →
        StandsFor P.cmp (planned_of new.now) v → w.moment ≤ now → v.moment ≡ now →
        (planned_of old.now).caps.egress origin ≡ Some cap → bytes_from P.cmp origin w ≡ whole bytes →
        bytes_from P.cmp origin v ≡ whole 0 → bytes * 1_000_000_000 ≤ cap * (now - w.moment) }
{}

/// The events of an advance are counted as the event rule counts them, and are no more than may still come.
pub fn an_advance_counts_its_events<P: Peer>(old: &State<P>, done: &[Completion<P>], new: &State<P>)
    ensures counted { (q : Planned P) (now events other : ℕ) (ds : List (Completed P)) →
        IsCounted old.now now events done.now new.now → AdvancesByRule P.cmp now (planned_of old.now) other ds q →
        events ≡ other }
    ensures few { (now events : ℕ) → IsCounted old.now now events done.now new.now →
        events ≤ most_events (planned_of old.now) }
{}

/// A new scheduler is read as the new planned world, with its first flow id.
pub fn a_new_scheduler_is_empty<P: Peer>(state: &State<P>)
    ensures { (first : ℕ) → IsNew state.now first → planned_of state.now ≡ new_planned first }
{}

/// The next event that is told is the planned one, and the one of each world that the scheduler stands for.
pub fn the_next_event_is_told<P: Peer>(state: &State<P>)
    ensures planned { (next : Option ℕ) → IsNextOf state.now next → next ≡ next_event (planned_of state.now) }
    ensures simulated { (w : World P) (next other : Option ℕ) → IsNextOf state.now next →
        StandsFor P.cmp (planned_of state.now) w → NextIs P.cmp w other → next ≡ other }
{}

/// A completion is read field by field, and so is the message that an `enqueue` sends.
pub fn messages_are_read_field_by_field<P: Peer>(done: &Completion<P>)
    ensures completed { completed_of done.now ≡ record {
      origin = done.now.origin;
      recipient = done.now.recipient;
      channel = done.now.channel;
      bytes = done.now.message;
      done_at = done.now.done_at;
      deliver_at = done.now.deliver_at;
    } }
    ensures sent { (origin recipient : P) (channel latency : ℕ) (bytes : List ℕ) (should_deliver : Bool) →
        sent origin recipient channel bytes latency should_deliver ≡ record {
          origin = origin;
          recipient = recipient;
          channel = channel;
          bytes = bytes;
          latency = latency;
          should_deliver = should_deliver;
        } }
{}

/// An amount whose terms are numbers of 128 bits is read as it is, and any other as the greatest whole number of 128
/// bits that is not above it; and the reading says which.
pub fn an_amount_has_one_reading()
    ensures told { (amount : Amount) (reading : AnyReading) → IsReadingOf amount reading →
        (reading.is_exact ≡ true) ↔ HasShortTerms amount }
    ensures exact { (amount : Amount) (reading : AnyReading) → IsReadingOf amount reading → HasShortTerms amount →
        amount_of reading.amount ≡ amount }
    ensures rounded { (amount : Amount) (reading : AnyReading) (n : ℕ) → IsReadingOf amount reading →
        ¬ HasShortTerms amount → IsGreatestWhole amount n → amount_of reading.amount ≡ whole n }
    ensures one { (amount : Amount) (n m : ℕ) → IsGreatestWhole amount n → IsGreatestWhole amount m → n ≡ m }
{}

/// Two readings of a message in flight are of equal peers, of its channel, of one amount that is left, of one rate and
/// of one moment. One without a rate has no reading.
pub fn a_message_in_flight_has_one_reading<P: Peer>()
    ensures peers { (f : RatedFlight P) (r : AnyInFlight P) → IsReadAs P.cmp f r →
        (P.cmp r.origin f.message.origin ≡ Equal) × (P.cmp r.recipient f.message.recipient ≡ Equal) }
    ensures channel { (f : RatedFlight P) (r : AnyInFlight P) → IsReadAs P.cmp f r → r.channel ≡ f.message.channel }
    ensures amounts { (f : RatedFlight P) (rate : Amount) (r : AnyInFlight P) → IsReadAs P.cmp f r →
        f.rate ≡ Some rate → IsReadingOf f.left r.left × IsReadingOf rate r.rate × (r.since ≡ f.updated) }
    ensures no_rate { (f : RatedFlight P) (r : AnyInFlight P) → f.rate ≡ None → ¬ IsReadAs P.cmp f r }
{}
