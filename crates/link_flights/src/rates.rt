//! The fair rates of what is in flight.
ghost use Rattle.std.specs.Prelude.{◌≡◌, ◌≢◌, ◌∷◌, [], ℕ, ◌<◌, ◌≤◌, ◌*◌};
ghost use Rattle.std.specs.Prelude.{true, false, map, length};
ghost use Rattle.std.specs.Prelude.{All, IfOk, IfErr, IfSome, OnOk, nat_le, slice_index_or};
ghost use Rattle.std.specs.List.{list_all, list_any};
ghost use Rattle.fairness.specs.Fairness.Exists.{product};
ghost use Rattle.fair_rates.specs.Filling.FairParts.{parts_of_level};
ghost use Rattle.link_simulation.specs.Rule.Planned.{IsLeastMoment, SomeSpentAt};
ghost use Rattle.link_simulation.specs.Simulation.Messages.{OneForEachPair};
ghost use Rattle.link_simulation.specs.Simulation.World.{last_moment};
ghost use Rattle.link_pairs.specs.Pairs.Messages.{messages, message_of};
ghost use Rattle.link_pairs.specs.Pairs.CapsOf.{caps_of};
ghost use Rattle.link_flights.specs.Flights.Components.{those_of, is_of, is_closed, has_both, suits, places_of};
ghost use Rattle.link_flights.specs.Flights.Components.{AreNear, those_near, AreNoted, AreTied};
ghost use Rattle.link_flights.specs.Flights.Flight.{AreTimed, flight_at, has_come};
ghost use Rattle.link_flights.specs.Flights.InFlight.{in_units, in_flight, loose_in};
ghost use Rattle.link_flights.specs.Flights.Rated.{WereRated, AreFairOn, HaveFairRates, sent_messages};
ghost use Rattle.link_flights.specs.Flights.Rated.{rerated, rates_found, AreOthersTimed, IsReratedAt};
ghost use Rattle.link_flights.specs.Flights.Rated.{AreFairFor, GivesBeside, rates_of_levels};
ghost use Rattle.link_flights.specs.Flights.Rated.{AreKeptBut, IsCountedAt, ArePartRated};
ghost use Rattle.link_flights.specs.declared.flight.Flight.{Flight as AnyFlight};

use crate::component::Component;
use crate::flight::{Flight, grow};
use crate::flight_list::Flights;
use crate::loose::Loose;
use crate::notes::Rooms;
use crate::numbers::Numbers;
use crate::rate::{Rate, rates_of};
use fair_rates::bandwidth::{FairParts, fair_parts_in, parts_alone};
use fairness::bandwidth::FlowCaps;
use fairness::error::Error;
use fairness::peer::Peer;
use link_pairs::known_pairs::Pairs;
use link_pairs::message::Message;
use link_pairs::peers::Peers;
use natural::Natural;
use std::alloc::Global;
use std::collections::VecDeque;
use std::mem;
use std::sync::Arc;

/// So many searches for what an event touches are spared after one that joined all, or too much.
const SPARED: usize = 3;

/// No search is spared where less than this part of all in flight was rated anew.
const PART: usize = 4;

/// Where so many are in flight, or more, and all were touched, a search would mostly join too much.
const MANY: usize = 56;

/// The rate at that place, or what stands for none.
fn rate_at<'a>(rates: &'a [Rate], place: Option<usize>, none: &'a Rate) -> &'a Rate
    requires { none.now ≡ 0 }
    ensures { result.now ≡ parts_of_level rates.now place }
{
    match place {
        Some(place) => rates.get(place).unwrap_or(none),
        None => none,
    }
}

/// Whether the rate at that place is at least at the level.
fn reaches(levels: &[Natural], place: Option<usize>, level: &Natural) -> bool
    ensures { result ≡ nat_le level.now (parts_of_level levels.now place) }
{
    let Some(place) = place else {
        return level.is_zero();
    };
    match levels.get(place) {
        Some(rate) => level <= rate,
        None => level.is_zero(),
    }
}

/// Whether all these rates are at least at the level.
fn all_reach(rates: &FairParts, level: &Natural) -> bool
    ensures { result ≡ list_all (λ rate. nat_le level.now rate) (rates_found rates.now) }
{
    rates
        .level_of
        .iter()
        .all(|place| reaches(&rates.levels, *place, level))
}

/// At how many accounts in a row the scale has not grown, after one at which it has grown by these factors. Only time
/// hangs on it.
fn stood_after(stood: usize, growth: &[u64]) -> usize {
    if growth.is_empty() { stood } else { 0 }
}

impl<P: Peer> Flights<P> {
    /// Gives each its fair rate from the last account on, once some are done. Where they had fair
    /// rates before, those that are not touched by what is done, loose or new keep them. Answers the first
    /// moment at which nothing is left of one.
    pub fn rate(
        &mut self,
        peers: &Peers<P>,
        pairs: &Pairs<P>,
        done: &VecDeque<Arc<Message<P>>>,
        were_rated: bool,
        rooms: &mut Rooms<P>,
    ) -> Result<Option<u64>, Error>
        requires moment { self.old.at ≤ last_moment }
        requires left { All (λ u. u.left ≢ 0) (in_units self.old) }
        requires updated { All (λ u. u.updated ≡ self.old.at) (in_units self.old) }
        requires before { were_rated ≡ true
            → ∥ WereRated P.cmp (caps_of P.cmp peers.now.entries pairs.now.entries) self.old.scale (in_units self.old)
            (messages done.now.items) (loose_in self.old) self.old.floor ∥₁ }
        requires timed { were_rated ≡ true → AreTimed self.old.list.items }
        requires one_each { OneForEachPair P.cmp (sent_messages (in_units self.old)) }
        ensures rated { OnOk result (HaveFairRates P.cmp (caps_of P.cmp peers.now.entries pairs.now.entries)
            self.old self.new) }
        ensures kept { OnOk result (AreKeptBut self.new.rated_anew self.old.list.items self.new.list.items) }
        ensures finish { IfOk result (IsLeastMoment (λ s. SomeSpentAt (in_flight self.new) s)) }
        ensures loose { OnOk result (self.new.loose ≡ []) }
        ensures before { self.new.list.before ≡ self.old.list.before }
        ensures refused { IfErr result (λ e. e ≡ Error.OutOfMemory) }
    {
        let unsearched = self.give_rates(peers, pairs, done, were_rated, rooms)?;
        Ok(self.end_account(unsearched))
    }

    /// Gives each its fair rate from the last account on, and answers how many accounts more are made without a search.
    fn give_rates(
        &mut self,
        peers: &Peers<P>,
        pairs: &Pairs<P>,
        done: &VecDeque<Arc<Message<P>>>,
        were_rated: bool,
        rooms: &mut Rooms<P>,
    ) -> Result<usize, Error>
        requires left { All (λ u. u.left ≢ 0) (in_units self.old) }
        requires updated { All (λ u. u.updated ≡ self.old.at) (in_units self.old) }
        requires before { were_rated ≡ true
            → ∥ WereRated P.cmp (caps_of P.cmp peers.now.entries pairs.now.entries) self.old.scale (in_units self.old)
            (messages done.now.items) (loose_in self.old) self.old.floor ∥₁ }
        requires timed { were_rated ≡ true → AreTimed self.old.list.items }
        requires one_each { OneForEachPair P.cmp (sent_messages (in_units self.old)) }
        ensures rated { OnOk result (HaveFairRates P.cmp (caps_of P.cmp peers.now.entries pairs.now.entries)
            self.old self.new) }
        ensures kept { OnOk result (AreKeptBut self.new.rated_anew self.old.list.items self.new.list.items) }
        ensures before { self.new.list.before ≡ self.old.list.before }
        ensures refused { IfErr result (λ e. e ≡ Error.OutOfMemory) }
    {
        if self.list.is_empty() {
            return Ok(0);
        }
        if self.list.len() == 1 {
            self.rate_one(peers, pairs, were_rated)?;
            return Ok(0);
        }
        if were_rated {
            if let Some(unsearched) = self.rate_part(done, peers, pairs, rooms)? {
                return Ok(unsearched);
            }
        }
        self.rate_all(peers, pairs, were_rated, rooms)?;
        Ok(self.spared_after(true, 0))
    }

    /// Gives those that are touched their fair rates from the last account on, beside those that others keep, and
    /// answers how many accounts more are made without a search. None where rates are to be given to all: then all
    /// stays as it was.
    fn rate_part(
        &mut self,
        done: &VecDeque<Arc<Message<P>>>,
        peers: &Peers<P>,
        pairs: &Pairs<P>,
        rooms: &mut Rooms<P>,
    ) -> Result<Option<usize>, Error>
        requires left { All (λ u. u.left ≢ 0) (in_units self.old) }
        requires updated { All (λ u. u.updated ≡ self.old.at) (in_units self.old) }
        requires before { ∥ WereRated P.cmp (caps_of P.cmp peers.now.entries pairs.now.entries) self.old.scale
            (in_units self.old) (messages done.now.items) (loose_in self.old) self.old.floor ∥₁ }
        requires timed { AreTimed self.old.list.items }
        requires one_each { OneForEachPair P.cmp (sent_messages (in_units self.old)) }
        ensures given { IfOk result (ArePartRated P.cmp (caps_of P.cmp peers.now.entries pairs.now.entries)
            self.old self.new) }
        ensures before { self.new.list.before ≡ self.old.list.before }
        ensures refused { IfErr result (λ e. e ≡ Error.OutOfMemory) }
    {
        let mut noted = rooms.notes.take(self.alloc, self.list.len())?;
        let mut touched = mem::replace(&mut rooms.touched, Component::new(self.alloc));
        self.find_touched(done, peers, pairs, &mut noted, &mut touched)?;
        rooms.notes.give_back(noted, &touched.near);
        let found = self.rate_touched(&touched, peers, pairs, rooms)?;
        let whole = touched.whole;
        touched.clear();
        rooms.touched = touched;
        let Some(found) = found else {
            return Ok(None);
        };
        Ok(Some(self.spared_after(whole, found)))
    }

    /// Gives the only one its fair rate from the last account on: the least of its caps.
    fn rate_one(
        &mut self,
        peers: &Peers<P>,
        pairs: &Pairs<P>,
        were_timed: bool,
    ) -> Result<(), Error>
        requires one { length self.old.list.items ≡ 1 }
        requires left { All (λ u. u.left ≢ 0) (in_units self.old) }
        requires timed { were_timed ≡ true → AreTimed self.old.list.items }
        ensures rated { OnOk result (HaveFairRates P.cmp (caps_of P.cmp peers.now.entries pairs.now.entries)
            self.old self.new) }
        ensures kept { OnOk result (AreKeptBut self.new.rated_anew self.old.list.items self.new.list.items) }
        ensures before { self.new.list.before ≡ self.old.list.before }
        ensures refused { IfErr result (λ e. e ≡ Error.OutOfMemory) }
    {
        let rate = self.rate_alone(0, peers, pairs)?;
        self.rated_anew = 0;
        self.rerate(0, &rate, &[], were_timed)?;
        Ok(())
    }

    /// Gives all of them their fair rates from the last account on.
    fn rate_all(
        &mut self,
        peers: &Peers<P>,
        pairs: &Pairs<P>,
        were_timed: bool,
        rooms: &mut Rooms<P>,
    ) -> Result<(), Error>
        requires left { All (λ u. u.left ≢ 0) (in_units self.old) }
        requires timed { were_timed ≡ true → AreTimed self.old.list.items }
        requires one_each { OneForEachPair P.cmp (sent_messages (in_units self.old)) }
        ensures rated { OnOk result (HaveFairRates P.cmp (caps_of P.cmp peers.now.entries pairs.now.entries)
            self.old self.new) }
        ensures kept { OnOk result (AreKeptBut self.new.rated_anew self.old.list.items self.new.list.items) }
        ensures before { self.new.list.before ≡ self.old.list.before }
        ensures refused { IfErr result (λ e. e ≡ Error.OutOfMemory) }
    {
        let all = Component::whole(self.alloc);
        let numbers = self.numbers_rated(&all, rooms)?;
        let rates = self.rates_at(&all, &numbers, peers, pairs, rooms)?;
        let mut scale = self.scale.clone()?;
        grow(&mut scale, &rates.growth)?;
        let given = rates_of(self.alloc, &rates.levels, rooms.take_rates(self.alloc))?;
        self.set_rates(
            &all,
            numbers.places(),
            &given,
            &rates.level_of,
            &rates.growth,
            were_timed,
        )?;
        self.scale = scale;
        self.stood = stood_after(self.stood, &rates.growth);
        rooms.rates = given;
        rooms.keep(numbers);
        rooms.filling.keep(rates);
        Ok(())
    }

    /// Notes that all have got rates, that nothing is loose any more, and that so many accounts more are made without a
    /// search. Answers the first moment at which nothing is left of one.
    fn end_account(&mut self, unsearched: usize) -> Option<u64>
        requires rated { list_all (λ one. one.rated) self.old.list.items ≡ true }
        ensures finish { (t : ℕ)
            → has_come t result ≡ list_any (λ one. has_come t one.finish) self.new.list.items }
        ensures list { self.new.list.items ≡ self.old.list.items }
        ensures scale { self.new.scale ≡ self.old.scale }
        ensures at { self.new.at ≡ self.old.at }
        ensures counted { self.new.rated_anew ≡ self.old.rated_anew }
        ensures loose { self.new.loose ≡ [] }
        ensures before { self.new.list.before ≡ self.old.list.before }
    {
        self.floor = None;
        self.loose = Loose::new(self.alloc);
        self.settled = self.list.len();
        self.unsearched = unsearched;
        self.list.first_finish()
    }

    /// Gives what is touched its fair rates beside those that others keep, and answers how many it gave.
    /// None where a rate does not reach the level, or is not whole in the units that there are: then all
    /// stays as it was. Numbers are noted in room that is lent.
    fn rate_touched(
        &mut self,
        touched: &Component<P>,
        peers: &Peers<P>,
        pairs: &Pairs<P>,
        rooms: &mut Rooms<P>,
    ) -> Result<Option<usize>, Error>
        requires near { touched.now.whole ≡ false
            → AreNear P.cmp touched.now touched.now.near.items self.old.list.items }
        requires suited { list_all (suits P.cmp touched.now) (in_units self.old) ≡ true }
        requires left { All (λ u. u.left ≢ 0) (in_units self.old) }
        requires timed { AreTimed self.old.list.items }
        requires one_each { OneForEachPair P.cmp (sent_messages (in_units self.old)) }
        ensures gives { IfOk result (GivesBeside P.cmp (caps_of P.cmp peers.now.entries pairs.now.entries)
            touched.now self.old self.new) }
        ensures before { self.new.list.before ≡ self.old.list.before }
        ensures refused { IfErr result (λ e. e ≡ Error.OutOfMemory) }
    {
        let numbers = self.numbers_rated(touched, rooms)?;
        let found = self.rate_numbered(touched, &numbers, peers, pairs, rooms);
        rooms.keep(numbers);
        found
    }

    /// The same for those that are rated, which have numbers.
    fn rate_numbered(
        &mut self,
        touched: &Component<P>,
        numbers: &Numbers,
        peers: &Peers<P>,
        pairs: &Pairs<P>,
        rooms: &mut Rooms<P>,
    ) -> Result<Option<usize>, Error>
        requires places { numbers.now ≡ places_of (λ f. is_of P.cmp touched.now (flight_at 0 f)) 0 self.old.list.items }
        requires suited { list_all (suits P.cmp touched.now) (in_units self.old) ≡ true }
        requires left { All (λ u. u.left ≢ 0) (in_units self.old) }
        requires timed { AreTimed self.old.list.items }
        requires one_each { OneForEachPair P.cmp (sent_messages (in_units self.old)) }
        ensures gives { IfOk result (GivesBeside P.cmp (caps_of P.cmp peers.now.entries pairs.now.entries)
            touched.now self.old self.new) }
        ensures before { self.new.list.before ≡ self.old.list.before }
        ensures refused { IfErr result (λ e. e ≡ Error.OutOfMemory) }
    {
        match *numbers.places() {
            [] => {
                self.rated_anew = 0;
                Ok(Some(0))
            }
            [only] => self.rate_only(touched, only, numbers, peers, pairs, &mut rooms.users),
            _ => self.rate_some(touched, numbers, peers, pairs, rooms),
        }
    }

    /// The same for several.
    fn rate_some(
        &mut self,
        touched: &Component<P>,
        numbers: &Numbers,
        peers: &Peers<P>,
        pairs: &Pairs<P>,
        rooms: &mut Rooms<P>,
    ) -> Result<Option<usize>, Error>
        requires places { numbers.now ≡ places_of (λ f. is_of P.cmp touched.now (flight_at 0 f)) 0 self.old.list.items }
        requires suited { list_all (suits P.cmp touched.now) (in_units self.old) ≡ true }
        requires left { All (λ u. u.left ≢ 0) (in_units self.old) }
        requires timed { AreTimed self.old.list.items }
        requires one_each { OneForEachPair P.cmp (sent_messages (in_units self.old)) }
        ensures gives { IfOk result (GivesBeside P.cmp (caps_of P.cmp peers.now.entries pairs.now.entries)
            touched.now self.old self.new) }
        ensures before { self.new.list.before ≡ self.old.list.before }
        ensures refused { IfErr result (λ e. e ≡ Error.OutOfMemory) }
    {
        let part = self.rates_at(touched, numbers, peers, pairs, rooms)?;
        if !part.growth.is_empty() || !all_reach(&part, touched.level.number()) {
            rooms.filling.keep(part);
            return Ok(None);
        }
        let places = numbers.places();
        let given = rates_of(self.alloc, &part.levels, rooms.take_rates(self.alloc))?;
        self.set_rates(touched, places, &given, &part.level_of, &[], true)?;
        rooms.rates = given;
        rooms.filling.keep(part);
        Ok(Some(places.len()))
    }

    /// The same where only the one at that place is touched and rated anew. What the others leave of its caps is whole
    /// in the units that there are.
    fn rate_only(
        &mut self,
        touched: &Component<P>,
        at: usize,
        numbers: &Numbers,
        peers: &Peers<P>,
        pairs: &Pairs<P>,
        users: &mut Vec<usize>,
    ) -> Result<Option<usize>, Error>
        requires only { numbers.now ≡ at ∷ [] }
        requires places { numbers.now ≡ places_of (λ f. is_of P.cmp touched.now (flight_at 0 f)) 0 self.old.list.items }
        requires suited { list_all (suits P.cmp touched.now) (in_units self.old) ≡ true }
        requires left { All (λ u. u.left ≢ 0) (in_units self.old) }
        requires timed { AreTimed self.old.list.items }
        requires one_each { OneForEachPair P.cmp (sent_messages (in_units self.old)) }
        ensures gives { IfOk result (GivesBeside P.cmp (caps_of P.cmp peers.now.entries pairs.now.entries)
            touched.now self.old self.new) }
        ensures before { self.new.list.before ≡ self.old.list.before }
        ensures refused { IfErr result (λ e. e ≡ Error.OutOfMemory) }
    {
        let level = self.left_for(touched, at, numbers, peers, pairs, users)?;
        if *touched.level.number() <= level {
            let rate = Rate::of(self.alloc, level)?;
            self.set_rates(touched, numbers.places(), &[rate], &[Some(0)], &[], true)?;
            return Ok(Some(1));
        }
        Ok(None)
    }

    /// The fair rate of the one at that place alone, and none at all where no cap holds for it.
    fn rate_alone(&self, at: usize, peers: &Peers<P>, pairs: &Pairs<P>) -> Result<Rate, Error>
        requires place { at < length self.now.list.items }
        ensures fair { IfOk result (λ parts. (d : AnyFlight P)
            → AreFairFor P.cmp (caps_of P.cmp peers.now.entries pairs.now.entries) self.now.scale
            (message_of (slice_index_or self.now.list.items at d).message.value ∷ []) (parts ∷ [])) }
        ensures refused { IfErr result (λ e. e ≡ Error.OutOfMemory) }
    {
        let message = &self.list.at(at).message;
        let caps = FlowCaps {
            egress: peers.egress(&message.origin),
            ingress: peers.ingress(&message.recipient),
            link: pairs.cap(&message.origin, &message.recipient),
        };
        let least = parts_alone(&caps, message.is_delivered(), &self.scale)?;
        let none = Natural::from_u64(self.alloc, 0);
        let rate = Rate::of(self.alloc, least.unwrap_or(none))?;
        Ok(rate)
    }

    /// Finds what is touched: the component of what is done, loose or new, or all from a level on.
    fn find_touched(
        &self,
        done: &VecDeque<Arc<Message<P>>>,
        peers: &Peers<P>,
        pairs: &Pairs<P>,
        noted: &mut Vec<bool>,
        touched: &mut Component<P>,
    ) -> Result<(), Error>
        requires none { AreNoted [] noted.old.items }
        requires each { length noted.old.items ≡ length self.now.list.items }
        ensures closed { OnOk result (is_closed P.cmp touched.new done.now.items (in_units self.now) ≡ true) }
        ensures loose { OnOk result (All (λ m. has_both P.cmp touched.new m ≡ true) self.now.loose) }
        ensures tied { OnOk result (AreTied (caps_of P.cmp peers.now.entries []) touched.new) }
        ensures level { OnOk result (IfSome self.now.floor (λ floor. touched.new.level ≤ floor)) }
        ensures near { OnOk result (touched.new.whole ≡ false
            → AreNear P.cmp touched.new touched.new.near.items self.now.list.items) }
        ensures noted { OnOk result (AreNoted touched.new.near.items noted.new.items) }
        ensures refused { IfErr result (λ e. e ≡ Error.OutOfMemory) }
    {
        if self.unsearched > 0 {
            return self.take_all(peers, pairs, noted, touched);
        }
        touched.clear();
        self.find_component(done, peers, pairs, noted, touched)
    }

    /// How many accounts more are made without a search, after one at which all were touched or a
    /// component was found, with so many to rate. Only time hangs on it.
    fn spared_after(&self, whole: bool, found: usize) -> usize {
        if self.rated_anew < self.list.len().div_ceil(PART) {
            0
        } else if !whole {
            if found == self.list.len() { SPARED } else { 0 }
        } else if self.unsearched > 0 {
            self.unsearched - 1
        } else if self.list.len() >= MANY {
            SPARED
        } else {
            0
        }
    }

    /// How many there are of which the component has an end.
    fn count(&self, component: &Component<P>) -> usize
        requires near { component.now.whole ≡ false
            → AreNear P.cmp component.now component.now.near.items self.now.list.items }
        ensures { result ≡ length (those_near P.cmp component.now self.now.list.items) }
    {
        if component.whole {
            self.list.len()
        } else {
            component.near.len()
        }
    }

    /// The places of those of the component that are rated anew, in order.
    fn places_rated(
        &self,
        component: &Component<P>,
        mut places: Vec<usize>,
    ) -> Result<Vec<usize>, Error>
        requires near { component.now.whole ≡ false
            → AreNear P.cmp component.now component.now.near.items self.now.list.items }
        requires suited { list_all (suits P.cmp component.now) (in_units self.now) ≡ true }
        ensures places { IfOk result (λ places. places.items
            ≡ places_of (λ f. is_of P.cmp component.now (flight_at 0 f)) 0 self.now.list.items) }
        ensures refused { IfErr result (λ e. e ≡ Error.OutOfMemory) }
    {
        places.clear();
        for number in 0..self.count(component) {
            let at = component.place(number);
            if !component.keeps(self.list.at(at)) {
                places.push(at)?;
            }
        }
        Ok(places)
    }

    /// Those of the component that are rated anew have numbers, in room that is lent.
    fn numbers_rated(
        &self,
        component: &Component<P>,
        rooms: &mut Rooms<P>,
    ) -> Result<Numbers, Error>
        requires near { component.now.whole ≡ false
            → AreNear P.cmp component.now component.now.near.items self.now.list.items }
        requires suited { list_all (suits P.cmp component.now) (in_units self.now) ≡ true }
        ensures places { IfOk result (λ numbers. numbers
            ≡ places_of (λ f. is_of P.cmp component.now (flight_at 0 f)) 0 self.now.list.items) }
        ensures refused { IfErr result (λ e. e ≡ Error.OutOfMemory) }
    {
        let list = mem::replace(&mut rooms.places, Vec::new(self.alloc));
        let places = self.places_rated(component, list)?;
        let lent = mem::replace(&mut rooms.numbers, Vec::new(self.alloc));
        Numbers::of(places, lent, self.list.len())
    }

    /// The fair rates of those of the component that are rated anew, at these places, under what the others leave
    /// of the caps. They are found in room that is lent.
    fn rates_at(
        &self,
        component: &Component<P>,
        numbers: &Numbers,
        peers: &Peers<P>,
        pairs: &Pairs<P>,
        rooms: &mut Rooms<P>,
    ) -> Result<FairParts, Error>
        requires places { numbers.now ≡ places_of (λ f. is_of P.cmp component.now (flight_at 0 f)) 0 self.now.list.items }
        requires suited { list_all (suits P.cmp component.now) (in_units self.now) ≡ true }
        requires one_each { OneForEachPair P.cmp (sent_messages (in_units self.now)) }
        ensures fair { IfOk result (AreFairOn P.cmp (caps_of P.cmp peers.now.entries pairs.now.entries)
            self.now.scale component.now (in_units self.now)) }
        ensures refused { IfErr result (λ e. e ≡ Error.OutOfMemory) }
    {
        let list = mem::replace(&mut rooms.sides, Vec::new(self.alloc));
        let mut sides = self.sides_of(
            component,
            numbers,
            peers,
            pairs,
            &mut rooms.has_side,
            &mut rooms.filling,
            list,
        )?;
        let count = numbers.places().len();
        let found = fair_parts_in(self.alloc, &mut rooms.filling, count, &mut sides)?;
        rooms.sides = sides;
        Ok(found)
    }

    /// Gives those at these places, of a component, the rates of their levels from the last account on. What is left
    /// counts in smaller units, of which so many times as many are needed.
    fn set_rates(
        &mut self,
        component: &Component<P>,
        places: &[usize],
        levels: &[Rate],
        level_of: &[Option<usize>],
        growth: &[u64],
        were_timed: bool,
    ) -> Result<(), Error>
        requires timed { were_timed ≡ true → AreTimed self.old.list.items }
        requires one_each { length level_of.now ≡ length (those_of P.cmp component.now (in_units self.old)) }
        requires left { All (λ u. u.left * product growth.now ≢ 0) (in_units self.old) }
        requires others { AreOthersTimed P.cmp component.now self.old.list.items }
        requires places { places.now ≡ places_of (λ f. is_of P.cmp component.now (flight_at 0 f)) 0 self.old.list.items }
        ensures rerated { OnOk result (in_units self.new ≡ rerated P.cmp component.now self.old.at
            (product growth.now) (rates_of_levels levels.now level_of.now) (in_units self.old)) }
        ensures timed { OnOk result (AreTimed self.new.list.items) }
        ensures scale { self.new.scale ≡ self.old.scale }
        ensures at { self.new.at ≡ self.old.at }
        ensures kept { OnOk result (AreKeptBut self.new.rated_anew self.old.list.items self.new.list.items) }
        ensures counted { OnOk result
            (self.new.rated_anew ≤ length (those_of P.cmp component.now (in_units self.old))) }
        ensures before { self.new.list.before ≡ self.old.list.before }
        ensures refused { IfErr result (λ e. e ≡ Error.OutOfMemory) }
    {
        self.rated_anew = 0;
        let none = Rate::zero(self.alloc);
        for number in 0..places.len() {
            let rate = rate_at(levels, level_of[number], &none);
            self.rerate(places[number], rate, growth, were_timed)?;
        }
        Ok(())
    }

    /// The message at that place has that rate from the last account on. Where it had that rate, in the
    /// same units, it goes on as it is.
    fn rerate(
        &mut self,
        at: usize,
        rate: &Rate,
        growth: &[u64],
        were_timed: bool,
    ) -> Result<(), Error>
        requires place { at < length self.old.list.items }
        requires left { (d : AnyFlight P) → (flight_at self.old.at
            (slice_index_or self.old.list.items at d)).left * product growth.now ≢ 0 }
        requires timed { were_timed ≡ true → AreTimed self.old.list.items }
        requires counted { self.old.rated_anew ≤ at }
        ensures rerated { OnOk result (IsReratedAt self.old.at at (product growth.now) rate.now
            self.old.list.items self.new.list.items) }
        ensures scale { self.new.scale ≡ self.old.scale }
        ensures at { self.new.at ≡ self.old.at }
        ensures counted { OnOk result (IsCountedAt at self.old self.new) }
        ensures before { self.new.list.before ≡ self.old.list.before }
        ensures refused { IfErr result (λ e. e ≡ Error.OutOfMemory) }
    {
        let one = self.list.at(at);
        if were_timed && growth.is_empty() && one.goes_on(rate) {
            return Ok(());
        }
        self.put_rerated(at, rate, growth)
    }

    /// A message at that rate stands at that place, in the place of the one that is there.
    fn put_rerated(&mut self, at: usize, rate: &Rate, growth: &[u64]) -> Result<(), Error>
        requires place { at < length self.old.list.items }
        requires left { (d : AnyFlight P) → (flight_at self.old.at
            (slice_index_or self.old.list.items at d)).left * product growth.now ≢ 0 }
        requires counted { self.old.rated_anew ≤ at }
        ensures rerated { OnOk result (IsReratedAt self.old.at at (product growth.now) rate.now
            self.old.list.items self.new.list.items) }
        ensures scale { self.new.scale ≡ self.old.scale }
        ensures at { self.new.at ≡ self.old.at }
        ensures counted { OnOk result (IsCountedAt at self.old self.new) }
        ensures before { self.new.list.before ≡ self.old.list.before }
        ensures refused { IfErr result (λ e. e ≡ Error.OutOfMemory) }
    {
        let one = self.list.at(at).rerated(rate, growth, self.at)?;
        self.put(at, one)?;
        let in_flight = self.list.len();
        prove!(self.rated_anew < in_flight);
        self.rated_anew += 1;
        Ok(())
    }
}
