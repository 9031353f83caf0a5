//! The next finish, which is planned at an account, and the next start.
ghost use Rattle.std.specs.Prelude.{◌≡◌, ◌≤◌, ◌↔◌, ◌⊎◌, true, false, List, IfOk, IfErr, OnOk};
ghost use Rattle.std.specs.List.{AllZip};
ghost use Rattle.link_simulation.specs.Rule.Events.{Accounts, PlansStart};
ghost use Rattle.link_simulation.specs.Rule.Leaving.{Leaves};
ghost use Rattle.link_simulation.specs.Rule.Planned.{SomeReadyAt, Planned as AnyPlanned};
ghost use Rattle.link_simulation.specs.Simulation.Messages.{Message as AnyMessage};
ghost use Rattle.link_flights.specs.Flights.Rated.{HadFairRates};
ghost use Rattle.link_pairs.specs.Pairs.CapsOf.{caps_of};
ghost use Rattle.link_pairs.specs.Pairs.Messages.{messages};
ghost use Rattle.link_events.specs.Steps.Landing.{LeavesLanding, LandsLate};

use crate::leave::{Left, leave, leave_landing};
use crate::ledger::Ledger;
use crate::marks::give_up;
use fairness::error::Error;
use fairness::peer::Peer;
use link_pairs::message::Message;
use link_pairs::pair::PeerPair;
use std::collections::VecDeque;
use std::sync::Arc;

impl<P: Peer> Ledger<P> {
    ghost use Rattle.link_events.specs.Steps.AsPlanned.{planned};
    ghost use Rattle.link_events.specs.Steps.Marks.{before_of, now_of};
    ghost use Rattle.link_waiting.specs.Idle.PairsOfMessages.{NamesPairOf};
    ghost use Rattle.link_waiting.specs.Idle.Starting.{ready_messages};

    /// All that is in flight drains to that moment. What is done leaves, in order of start, and the
    /// rest gets its fair rates. The finish is planned anew.
    pub(crate) fn account(&mut self, now: u64) -> Result<VecDeque<Arc<Message<P>>>, Error>
        ensures accounts { IfOk result (λ leavers. Accounts P.cmp now (planned P.cmp self.old)
            (messages leavers.items) (planned P.cmp self.new)) }
        ensures before { before_of self.new ≡ before_of self.old }
        ensures refused { IfErr result (λ e. e ≡ Error.OutOfMemory) }
    {
        let (done, were_fair) = self.leave_at(now)?;
        self.rate(now, &done, were_fair)?;
        Ok(done)
    }

    /// Whether those in flight have had fair rates up to that moment.
    fn were_fair_until(&self, now: u64) -> bool
        ensures rated { result ≡ true → self.now.stale ≡ false }
        ensures later { result ≡ true → self.now.flights.at ≤ now }
    {
        !self.stale && self.flights.at <= now
    }

    /// The first half of an account: all that is in flight drains to that moment, and what is done
    /// leaves, in order of start. Answers, too, whether those in flight had fair rates with it.
    pub(crate) fn leave_at(&mut self, now: u64) -> Result<(VecDeque<Arc<Message<P>>>, bool), Error>
        ensures leaves { IfOk result (λ left. Leaves P.cmp now (planned P.cmp self.old)
            (messages left.0.items) (planned P.cmp self.new)) }
        ensures fair { IfOk result (λ left. left.1 ≡ true → ∥ HadFairRates P.cmp
            (caps_of P.cmp self.new.peers.entries self.new.pairs.entries) self.new.flights (messages left.0.items) ∥₁) }
        ensures moment { OnOk result (self.new.flights.at ≡ now) }
        ensures stale { self.new.stale ≡ true }
        ensures before { before_of self.new ≡ before_of self.old }
        ensures refused { IfErr result (λ e. e ≡ Error.OutOfMemory) }
    {
        let were_fair = self.were_fair_until(now);
        self.stale = true;
        let queue = self.rooms.take_queue(self.alloc);
        let left = leave(
            now,
            &mut self.flights,
            &self.peers,
            &self.pairs,
            &mut self.waiting,
            were_fair,
            queue,
        );
        match left {
            Ok(done) => Ok((done, were_fair)),
            Err(error) => {
                give_up(&mut self.flights, &mut self.waiting);
                Err(error)
            }
        }
    }

    /// As `leave_at`; and the first of what leaves lands with it.
    pub(crate) fn leave_landing_at(&mut self, now: u64) -> Result<(Left<P>, bool), Error>
        ensures lands { IfOk result (λ left. LeavesLanding P.cmp now (planned P.cmp self.old)
            (messages left.0.done.items) left.0.deliver_at left.0.since (planned P.cmp self.new)) }
        ensures fair { IfOk result (λ left. left.1 ≡ true → ∥ HadFairRates P.cmp
            (caps_of P.cmp self.new.peers.entries self.new.pairs.entries) self.new.flights
            (messages left.0.done.items) ∥₁) }
        ensures moment { OnOk result (self.new.flights.at ≡ now) }
        ensures stale { self.new.stale ≡ true }
        ensures before { before_of self.new ≡ before_of self.old }
        ensures refused { IfErr result (λ e. (e ≡ Error.OutOfMemory) ⊎ ((e ≡ Error.MomentTooLate)
            × LandsLate P.cmp now (planned P.cmp self.old))) }
    {
        let were_fair = self.were_fair_until(now);
        self.stale = true;
        let queue = self.rooms.take_queue(self.alloc);
        let left = leave_landing(
            now,
            &mut self.flights,
            &self.peers,
            &mut self.pairs,
            &mut self.waiting,
            were_fair,
            queue,
        );
        match left {
            Ok(left) => Ok((left, were_fair)),
            Err(error) => {
                give_up(&mut self.flights, &mut self.waiting);
                Err(error)
            }
        }
    }

    /// The second half of an account at `now`: those in flight get their fair rates, and the finish is
    /// planned anew. They had fair rates with what is done, where that is said.
    pub(crate) fn rate(
        &mut self,
        now: u64,
        done: &VecDeque<Arc<Message<P>>>,
        were_fair: bool,
    ) -> Result<(), Error>
        requires stale { self.old.stale ≡ true }
        requires moment { self.old.flights.at ≡ now }
        requires leaves { (old : AnyPlanned P) × (leavers : List (AnyMessage P))
            × Leaves P.cmp now old leavers (planned P.cmp self.old) }
        requires fair { were_fair ≡ true → ∥ HadFairRates P.cmp
            (caps_of P.cmp self.old.peers.entries self.old.pairs.entries) self.old.flights (messages done.now.items) ∥₁ }
        ensures accounts { OnOk result ((old : AnyPlanned P) (leavers : List (AnyMessage P))
            → Leaves P.cmp now old leavers (planned P.cmp self.old)
            → Accounts P.cmp now old leavers (planned P.cmp self.new)) }
        ensures before { before_of self.new ≡ before_of self.old }
        ensures refused { IfErr result (λ e. e ≡ Error.OutOfMemory) }
    {
        let stay_fair = were_fair && !self.flights.is_empty();
        self.flights.renew_units();
        let rated = self
            .flights
            .rate(&self.peers, &self.pairs, done, stay_fair, &mut self.rooms);
        match rated {
            Ok(finish) => {
                self.finish = finish;
                self.stale = false;
                self.enlarge_units()
            }
            Err(error) => {
                give_up(&mut self.flights, &mut self.waiting);
                Err(error)
            }
        }
    }

    /// What is in flight counts in larger units, where that is due and can be. All are worth what they were.
    fn enlarge_units(&mut self) -> Result<(), Error>
        ensures same { OnOk result (planned P.cmp self.new ≡ planned P.cmp self.old) }
        ensures before { before_of self.new ≡ before_of self.old }
        ensures refused { IfErr result (λ e. e ≡ Error.OutOfMemory) }
    {
        if let Err(error) = self.flights.enlarge_units() {
            self.stale = true;
            give_up(&mut self.flights, &mut self.waiting);
            return Err(error);
        }
        Ok(())
    }

    /// Plans the start anew: the least moment from `now` on at which an idle pair is ready.
    pub(crate) fn plan_start(&mut self, now: u64)
        ensures plans { PlansStart P.cmp now (planned P.cmp self.old) (planned P.cmp self.new) }
        ensures flights { self.new.flights ≡ self.old.flights }
        ensures now { now_of self.new ≡ now_of self.old }
        ensures before { before_of self.new ≡ before_of self.old }
    {
        self.start = self.waiting.first_since().map(|moment| now.max(moment));
    }

    /// Whether some waiting message may start at `now`.
    pub(crate) fn is_ready(&self, now: u64) -> bool
        ensures ready { (result ≡ true) ↔ SomeReadyAt P.cmp (planned P.cmp self.now) now }
    {
        match self.waiting.first_since() {
            Some(moment) => moment <= now,
            None => false,
        }
    }

    /// The idle pairs that are ready, in the order of pairs. They are listed in room that is given.
    pub(crate) fn ready(&self, now: u64, room: Vec<PeerPair<P>>) -> Result<Vec<PeerPair<P>>, Error>
        ensures ready { IfOk result (λ keys. AllZip (NamesPairOf P.cmp) keys.items
            (ready_messages P.cmp now (planned P.cmp self.now))) }
        ensures refused { IfErr result (λ e. e ≡ Error.OutOfMemory) }
    {
        self.waiting.ready(now, room)
    }
}
