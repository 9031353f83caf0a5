//! How a call begins at a mark, and how all is put back to it where the call is refused.
ghost use Rattle.std.specs.Prelude.{◌≡◌, [], IfOk, IfErr, OnOk, OnErr};

use crate::ledger::Ledger;
use fairness::error::Error;
use fairness::peer::Peer;
use link_flights::flight_list::{Flights, Mark};
use link_waiting::waiting::Waiting;

/// All that a call may change beside what is changed in place, as it was before the call.
#[derive(Drop)]
pub struct Kept<P: Peer> {
    flights: Mark<P>,
    limited: bool,
    next_id: u64,
    finish: Option<u64>,
    start: Option<u64>,
    stale: bool,
}

/// What stopped half-way is given up: nothing is in flight, and no message waits. All can still be put back.
pub(crate) fn give_up<P: Peer>(flights: &mut Flights<P>, waiting: &mut Waiting<P>)
    ensures flights { flights.new.list.items ≡ [] }
    ensures flights_before { flights.new.list.before ≡ flights.old.list.before }
    ensures messages { waiting.new.messages ≡ [] }
    ensures told { waiting.new.told ≡ [] }
    ensures waiting_before { waiting.new.before ≡ waiting.old.before }
{
    flights.give_up();
    waiting.give_up();
}

impl<P: Peer> Ledger<P> {
    ghost use Rattle.link_events.specs.Steps.AsPlanned.{planned};
    ghost use Rattle.link_events.specs.Steps.Marks.{before_of, IsMarked, IsKeptOf, CanBePutBack, IsPutBack};

    /// What a call may change is put aside, but for what is changed in place: that stands at its mark.
    pub fn keep(&self) -> Result<Kept<P>, Error>
        requires { IsMarked self.now }
        ensures kept { IfOk result (λ kept. IsKeptOf self.now kept (before_of self.now)) }
        ensures refused { IfErr result (λ e. e ≡ Error.OutOfMemory) }
    {
        let flights = self.flights.mark()?;
        Ok(Kept {
            flights,
            limited: self.limited,
            next_id: self.next_id,
            finish: self.finish,
            start: self.start,
            stale: self.stale,
        })
    }

    /// All is put back as it was when that was kept. It takes no memory.
    fn put_back(&mut self, kept: Kept<P>)
        requires { CanBePutBack self.old kept }
        ensures { IsPutBack self.old kept self.new }
    {
        let Kept {
            flights,
            limited,
            next_id,
            finish,
            start,
            stale,
        } = kept;
        self.flights.take_back(flights);
        self.peers.undo();
        self.pairs.undo();
        self.waiting.undo();
        self.limited = limited;
        self.next_id = next_id;
        self.finish = finish;
        self.start = start;
        self.stale = stale;
    }

    /// What has been done stays. It takes no memory.
    fn commit(&mut self)
        ensures same { planned P.cmp self.new ≡ planned P.cmp self.old }
        ensures marked { IsMarked self.new }
    {
        self.flights.commit();
        self.peers.commit();
        self.pairs.commit();
        self.waiting.commit();
    }

    /// A call ends with that answer. Where it was made, what has been done stays; where it was refused,
    /// all is put back as it was when that was kept.
    pub fn conclude<T>(&mut self, kept: Kept<P>, answer: Result<T, Error>) -> Result<T, Error>
        requires { CanBePutBack self.old kept }
        ensures answer { result ≡ answer }
        ensures made { OnOk answer (planned P.cmp self.new ≡ planned P.cmp self.old) }
        ensures unchanged { OnErr answer (IsPutBack self.old kept self.new) }
        ensures marked { IsMarked self.new }
    {
        if answer.is_ok() {
            drop(kept);
            self.commit();
        } else {
            self.put_back(kept);
        }
        answer
    }
}
