//! What an event touches: those in flight whose rates may change.
//!
//! Where some messages are done or new, those in flight that share a sender or a receiver with them
//! may get other rates, if there is a cap on all that it sends or receives, and so on from these. But a
//! message whose rate is below a level goes on as it is, and passes nothing on: below the least rate of
//! what is done, and below the least share that a cap leaves to each of its users with what is new,
//! filling goes as it went before.
ghost use Rattle.std.specs.Prelude.{◌≡◌, ℕ, ◌+◌, ◌<◌, ◌≤◌, ◌&&◌, ◌⊎◌, true, false, [], length, take};
ghost use Rattle.std.specs.Prelude.{All, IfOk, IfErr, IfSome, OnOk, nat_le, Contains, slice_get, Some};
ghost use Rattle.std.specs.List.{list_all, list_any};
ghost use Rattle.fairness.specs.Sides.Subjects.{same_peer};
ghost use Rattle.link_pairs.specs.Pairs.CapsOf.{caps_of};
ghost use Rattle.link_flights.specs.Flights.Components.{has_end, have_end, joins, keeps, has_both, is_closed, AreNear};
ghost use Rattle.link_flights.specs.Flights.Components.{AreTied, AreStillTied, HasListedEnd};
ghost use Rattle.link_flights.specs.Flights.Components.{StartsWith, AreStillListed, AreNoted};
ghost use Rattle.link_flights.specs.Flights.Components.{AreListedAt, AreAllListed, AllNewTouch, place_of};
ghost use Rattle.link_flights.specs.Flights.Components.{IsSuited, AreSuited, SharesEndAt, Ascends, IsWalked};
ghost use Rattle.link_flights.specs.Flights.Flight.{flight_at};
ghost use Rattle.link_flights.specs.Flights.InFlight.{in_units};
ghost use Rattle.link_flights.specs.Flights.Table.{share};

use crate::flight::Flight;
use crate::flight_list::Flights;
use crate::joined::Joined;
use crate::rate::Rate;
use crate::seen::Seen;
use crate::table::{End, Owners, Table};
use fairness::error::Error;
use fairness::peer::Peer;
use link_pairs::known_pairs::Pairs;
use link_pairs::message::Message;
use link_pairs::peers::Peers;
use natural::Natural;
use std::alloc::Global;
use std::collections::VecDeque;
use std::sync::Arc;

/// So many messages a component may join, and half of all in flight if that is more. Where there are
/// more, it pays to rate all that is in flight.
const MOST_JOINED: usize = 48;

/// So many in flight a component may have an end of, and half of all if that is more. Where there are
/// more, it mostly joins too many.
const MOST_NEAR: usize = 56;

/// Where more than so many have an end for each message that joins, it mostly joins nearly all: then a smaller part of
/// all in flight is too much.
const DENSE: usize = 8;

/// So many places are sorted, and so large a part of all; more are read off what is noted of each place.
const FEW_LISTED: usize = 16;

const LISTED_PART: usize = 16;

/// Where more than so many have started since the last account, no level is looked for when all is touched.
const FEW_NEW: usize = 4;

/// The senders and the receivers of some messages, or all of them. A message in flight whose rate is
/// below the level goes on as it is.
pub(crate) struct Component<P> {
    pub(crate) whole: bool,
    /// In units.
    pub(crate) level: Rate,
    /// It has the ends of these, and what shares one of them by which one joins others has that, too.
    pub(crate) joined: Vec<Joined<P>>,
    /// The places of those in flight of which it has an end, in order of start, once they are known.
    /// Of all, they are all places, and stand nowhere.
    pub(crate) near: Vec<usize>,
    /// Where those that have joined are guessed to stand.
    pub(crate) seen: Seen,
}

impl<P: Drop> Drop for Component<P> {
    /// Lets go of what it holds.
    fn drop(self) {
        let Component {
            whole: _,
            level,
            joined,
            near,
            seen,
        } = self;
        drop(level);
        drop(joined);
        drop(near);
        drop(seen);
    }
}

impl<P: Drop> Component<P> {
    /// No sender, no receiver, and no level.
    pub(crate) fn new(alloc: Global) -> Component<P> {
        Component {
            whole: false,
            level: Rate::zero(alloc),
            joined: Vec::new(alloc),
            near: Vec::new(alloc),
            seen: Seen::new(alloc),
        }
    }

    /// All senders and all receivers, and no level. Nothing is listed.
    pub(crate) fn whole(alloc: Global) -> Component<P>
        ensures whole { result.whole ≡ true }
        ensures joined { result.joined.items ≡ [] }
        ensures level { result.level ≡ 0 }
        ensures near { result.near.items ≡ [] }
    {
        let mut all = Component::new(alloc);
        all.become_whole(alloc);
        all
    }

    /// No sender and no receiver any more. Its lists keep their room.
    pub(crate) fn clear(&mut self)
        ensures part { self.new.whole ≡ false }
        ensures joined { self.new.joined.items ≡ [] }
        ensures near { self.new.near.items ≡ [] }
    {
        self.whole = false;
        self.joined.clear();
        self.near.clear();
    }

    /// All senders and all receivers from now on, and no level. Nothing is listed; its lists keep their room.
    fn become_whole(&mut self, alloc: Global)
        ensures whole { self.new.whole ≡ true }
        ensures joined { self.new.joined.items ≡ [] }
        ensures level { self.new.level ≡ 0 }
        ensures near { self.new.near.items ≡ [] }
    {
        self.clear();
        self.whole = true;
        self.level = Rate::zero(alloc);
    }
}

impl<P: Peer> Component<P> {
    /// Whether it is seen to have that end of the message, whose peers have these numbers.
    fn has_end(&self, end: End, message: &Message<P>, numbers: Owners) -> bool
        ensures { result ≡ true → has_end P.cmp self.now end message.now.origin message.now.recipient ≡ true }
    {
        self.whole
            || match self.seen_at(end, numbers, self.joined.len()) {
                Some(one) => one.joins(end, message),
                None => false,
            }
    }

    /// Whether one of the first so many that have joined is seen to join others by that end, and to share it with
    /// another that has joined.
    fn was_joined(&self, end: End, other: &Joined<P>, count: usize) -> bool
        ensures { result ≡ true → list_any (λ j. have_end j.ends end
            && share P.cmp end other.now.message.value j.message.value) (take count self.now.joined.items) ≡ true }
    {
        match self.seen_at(end, other.numbers, count) {
            Some(one) => one.ends.have(end) && share(end, &other.message, &one.message),
            None => false,
        }
    }

    /// One of the first so many that have joined: where one with that peer at that end is guessed to stand.
    #[inline(always)]
    fn seen_at(&self, end: End, numbers: Owners, count: usize) -> Option<&Joined<P>>
        ensures { IfSome result (λ one. Contains (take count self.now.joined.items) one.now) }
    {
        let place = self.seen.place(end, numbers.at(end)?)?;
        if place < count {
            self.joined.get(place)
        } else {
            None
        }
    }

    /// Whether the message in flight goes on at its rate.
    #[inline(always)]
    pub(crate) fn keeps(&self, one: &Flight<P>) -> bool
        ensures { result ≡ keeps self.now (flight_at 0 one.now) }
    {
        one.rated && one.is_below(&self.level)
    }

    /// Where the one of that number stands, of those of which it has an end.
    pub(crate) fn place(&self, number: usize) -> usize
        requires { self.now.whole ≡ false → number < length self.now.near.items }
        ensures { result ≡ place_of self.now number }
    {
        if self.whole {
            number
        } else {
            self.near[number]
        }
    }

    /// Takes in the ends of the message, whose peers have these numbers.
    fn join(
        &mut self,
        message: &Arc<Message<P>>,
        numbers: Owners,
        peers: &Peers<P>,
        list: &Table<P>,
    ) -> Result<(), Error>
        ensures has { OnOk result (has_both P.cmp self.new message.now.value ≡ true) }
        ensures joined { OnOk result (StartsWith self.old.joined.items self.new.joined.items) }
        ensures tied { OnOk result (AreStillTied (caps_of P.cmp peers.now.entries []) self.old self.new) }
        ensures near { self.new.near.items ≡ self.old.near.items }
        ensures level { self.new.level ≡ self.old.level }
        ensures whole { self.new.whole ≡ self.old.whole }
        ensures refused { IfErr result (λ e. e ≡ Error.OutOfMemory) }
    {
        let sends = self.has_end(End::Origin, message, numbers);
        let receives = self.has_end(End::Recipient, message, numbers);
        if sends && receives {
            return Ok(());
        }
        let place = self.joined.len();
        self.joined
            .push(Joined::of(message, numbers, peers, list)?)?;
        self.seen.note(numbers, !sends, !receives, place);
        Ok(())
    }

    /// Whether it has too many ends, of so many in flight.
    fn is_large(&self, in_flight: usize) -> bool
        ensures { result ≡ false → length self.now.joined.items ≤ MOST_JOINED + in_flight }
    {
        let is_dense = self.near.len() / DENSE > self.joined.len();
        let part = if is_dense {
            in_flight / 8
        } else {
            in_flight / 2
        };
        self.joined.len() > MOST_JOINED.max(part) || self.near.len() > MOST_NEAR.max(part)
    }
}

/// The less of two levels. The first may be missing.
fn lesser(one: Option<Natural>, other: Natural) -> Natural
    ensures no_more { IfSome one (λ level. result ≤ level) }
    ensures nor { result ≤ other }
{
    match one {
        Some(one) if one < other => one,
        _ => other,
    }
}

impl<P: Peer> Flights<P> {
    /// Finds the component of the messages that are done or loose, and of those that have got no rate yet, or all that is
    /// in flight where it is large.
    pub(crate) fn find_component(
        &self,
        done: &VecDeque<Arc<Message<P>>>,
        peers: &Peers<P>,
        pairs: &Pairs<P>,
        noted: &mut Vec<bool>,
        component: &mut Component<P>,
    ) -> Result<(), Error>
        requires part { component.old.whole ≡ false }
        requires joined { component.old.joined.items ≡ [] }
        requires empty { component.old.near.items ≡ [] }
        requires none { AreNoted [] noted.old.items }
        requires each { length noted.old.items ≡ length self.now.list.items }
        ensures closed { OnOk result (is_closed P.cmp component.new done.now.items (in_units self.now) ≡ true) }
        ensures loose { OnOk result (All (λ m. has_both P.cmp component.new m ≡ true) self.now.loose) }
        ensures tied { OnOk result (AreTied (caps_of P.cmp peers.now.entries []) component.new) }
        ensures level { OnOk result (IfSome self.now.floor (λ floor. component.new.level ≤ floor)) }
        ensures near { OnOk result (component.new.whole ≡ false
            → AreNear P.cmp component.new component.new.near.items self.now.list.items) }
        ensures noted { OnOk result (AreNoted component.new.near.items noted.new.items) }
        ensures refused { IfErr result (λ e. e ≡ Error.OutOfMemory) }
    {
        self.join_touched(done, peers, component)?;
        if self.grow(component, peers, pairs, noted)? {
            return Ok(());
        }
        self.take_all(peers, pairs, noted, component)
    }

    /// The component becomes all that is in flight, from a level on where few are new. None is noted any more.
    pub(crate) fn take_all(
        &self,
        peers: &Peers<P>,
        pairs: &Pairs<P>,
        noted: &mut Vec<bool>,
        all: &mut Component<P>,
    ) -> Result<(), Error>
        ensures whole { all.new.whole ≡ true }
        ensures tied { AreTied (caps_of P.cmp peers.now.entries []) all.new }
        ensures level { OnOk result (IfSome self.now.floor (λ floor. all.new.level ≤ floor)) }
        ensures noted { AreNoted all.new.near.items noted.new.items }
        ensures refused { IfErr result (λ e. e ≡ Error.OutOfMemory) }
    {
        noted.clear();
        all.become_whole(self.alloc);
        if self.list.len() - self.settled <= FEW_NEW {
            all.level = self.level(peers, pairs)?;
        }
        Ok(())
    }

    /// A level below which what goes on keeps its rate: the least rate of what is done or loose, or the least
    /// share of a cap for what is new or loose, if that is less. It is no more than any of what is done had; the
    /// rest is a guess, which the rates that are found have to reach.
    pub(crate) fn level(&self, peers: &Peers<P>, pairs: &Pairs<P>) -> Result<Rate, Error>
        ensures level { IfOk result (λ level. IfSome self.now.floor (λ floor. level ≤ floor)) }
        ensures refused { IfErr result (λ e. e ≡ Error.OutOfMemory) }
    {
        let mut level = match &self.floor {
            Some(floor) => Some(floor.clone()?),
            None => None,
        };
        for at in self.settled..self.list.len() {
            let share = self.share_of(&self.list.at(at).message, peers, pairs)?;
            level = Some(lesser(level, share));
        }
        for message in self.loose.as_slice() {
            let share = self.share_of(message, peers, pairs)?;
            level = Some(lesser(level, share));
        }
        match level {
            Some(level) => Rate::of(self.alloc, level),
            None => Ok(Rate::zero(self.alloc)),
        }
    }

    /// The least share of a cap that the message would have, if the cap were shared evenly. Zero
    /// where it shares none with another.
    fn share_of(
        &self,
        message: &Message<P>,
        peers: &Peers<P>,
        pairs: &Pairs<P>,
    ) -> Result<Natural, Error>
        ensures refused { IfErr result (λ e. e ≡ Error.OutOfMemory) }
    {
        let egress = peers.egress(&message.origin);
        let ingress = if message.is_delivered() {
            peers.ingress(&message.recipient)
        } else {
            None
        };
        let sent = self.count_under(egress, End::Origin, message);
        let received = self.count_under(ingress, End::Recipient, message);
        if sent <= 1 && received <= 1 {
            return Ok(Natural::from_u64(self.alloc, 0));
        }
        let share = least_part(
            self.part_of(egress, sent)?,
            self.part_of(ingress, received)?,
        );
        let link = self.part_of(pairs.cap(&message.origin, &message.recipient), 1)?;
        Ok(least_part(share, link).unwrap_or(Natural::from_u64(self.alloc, 0)))
    }

    /// How many in flight share that end with the message, if it has a cap.
    fn count_under(&self, cap: Option<u128>, end: End, message: &Message<P>) -> u64 {
        match cap {
            Some(_) => self.count_sharing(end, message),
            None => 0,
        }
    }

    /// How many in flight share that end with the message.
    fn count_sharing(&self, end: End, message: &Message<P>) -> u64 {
        let mut count: u64 = 0;
        let mut next = self.list.first_at(end, message);
        while let Some(at) = next {
            count = count.saturating_add(1);
            next = self.list.next_at(end, at);
        }
        count
    }

    /// One of so many even parts of a cap, rounded down, in units. None where there is no cap.
    fn part_of(&self, cap: Option<u128>, count: u64) -> Result<Option<Natural>, Error>
        ensures refused { IfErr result (λ e. e ≡ Error.OutOfMemory) }
    {
        let Some(cap) = cap else {
            return Ok(None);
        };
        let mut part = self.scale.product(cap)?;
        part.divide(count.max(1));
        Ok(Some(part))
    }

    /// The component has the ends of the messages that are done or loose, and of those that have got no rate yet.
    fn join_touched(
        &self,
        done: &VecDeque<Arc<Message<P>>>,
        peers: &Peers<P>,
        component: &mut Component<P>,
    ) -> Result<(), Error>
        ensures done { OnOk result (All (λ m. has_both P.cmp component.new m.value ≡ true) done.now.items) }
        ensures loose { OnOk result (All (λ m. has_both P.cmp component.new m ≡ true) self.now.loose) }
        ensures new { OnOk result (AllNewTouch P.cmp component.new self.now.settled self.now.list.items) }
        ensures tied { OnOk result (AreStillTied (caps_of P.cmp peers.now.entries []) component.old component.new) }
        ensures near { component.new.near.items ≡ component.old.near.items }
        ensures level { component.new.level ≡ component.old.level }
        ensures whole { component.new.whole ≡ component.old.whole }
        ensures refused { IfErr result (λ e. e ≡ Error.OutOfMemory) }
    {
        for at in 0..done.len() {
            let message = &done[at];
            component.join(message, self.list.owners_of(message), peers, &self.list)?;
        }
        for at in self.settled..self.list.len() {
            let numbers = self.list.owners_at(at);
            component.join(&self.list.at(at).message, numbers, peers, &self.list)?;
        }
        let loose = self.loose.as_slice();
        for at in 0..loose.len() {
            let message = &loose[at];
            component.join(message, self.list.owners_of(message), peers, &self.list)?;
        }
        Ok(())
    }

    /// Takes in the ends of those in flight that the component's ends join, until there are no more, and
    /// lists the places of those of which it has an end. Answers whether all are listed, and those of
    /// them that keep no rate have both ends in it: not where it is large.
    fn grow(
        &self,
        component: &mut Component<P>,
        peers: &Peers<P>,
        pairs: &Pairs<P>,
        noted: &mut Vec<bool>,
    ) -> Result<bool, Error>
        requires none { component.old.near.items ≡ [] }
        requires noted { AreNoted [] noted.old.items }
        requires each { length noted.old.items ≡ length self.now.list.items }
        ensures joined { OnOk result (StartsWith component.old.joined.items component.new.joined.items) }
        ensures tied { OnOk result (AreStillTied (caps_of P.cmp peers.now.entries []) component.old component.new) }
        ensures walked { IfOk result (λ all. all ≡ true →
            IsWalked P.cmp (length component.new.joined.items) component.new self.now.list.items) }
        ensures order { IfOk result (λ all. all ≡ true → Ascends 0 component.new.near.items) }
        ensures noted { IfOk result (λ all. all ≡ true → AreNoted component.new.near.items noted.new.items) }
        ensures level { IfOk result (λ all. all ≡ true → IfSome self.now.floor (λ floor. component.new.level ≤ floor)) }
        ensures whole { component.new.whole ≡ component.old.whole }
        ensures refused { IfErr result (λ e. e ≡ Error.OutOfMemory) }
    {
        if component.is_large(self.list.len()) {
            return Ok(false);
        }
        component.level = self.level(peers, pairs)?;
        let mut next = 0;
        while next < component.joined.len() {
            self.list_joining(next, peers, component, noted)?;
            if component.is_large(self.list.len()) {
                return Ok(false);
            }
            next += 1;
        }
        put_in_order(&mut component.near, noted)?;
        Ok(true)
    }

    /// Takes in the ends of the one at that place, if it keeps no rate.
    fn join_one(
        &self,
        at: usize,
        peers: &Peers<P>,
        component: &mut Component<P>,
    ) -> Result<(), Error>
        ensures suited { OnOk result (IsSuited P.cmp component.new self.now.list.items at) }
        ensures joined { OnOk result (StartsWith component.old.joined.items component.new.joined.items) }
        ensures tied { OnOk result (AreStillTied (caps_of P.cmp peers.now.entries []) component.old component.new) }
        ensures near { component.new.near.items ≡ component.old.near.items }
        ensures level { component.new.level ≡ component.old.level }
        ensures whole { component.new.whole ≡ component.old.whole }
        ensures refused { IfErr result (λ e. e ≡ Error.OutOfMemory) }
    {
        if let Some(one) = self.list.get(at) {
            if !component.keeps(one) {
                component.join(&one.message, self.list.owners_at(at), peers, &self.list)?;
            }
        }
        Ok(())
    }

    /// Lists the places of those in flight that share an end with the joined message of that number, and
    /// takes in the ends of those that were not listed before and keep no rate.
    fn list_joining(
        &self,
        number: usize,
        peers: &Peers<P>,
        component: &mut Component<P>,
        noted: &mut Vec<bool>,
    ) -> Result<(), Error>
        requires number { number < length component.old.joined.items }
        requires walked { IsWalked P.cmp number component.old self.now.list.items }
        requires noted { AreNoted component.old.near.items noted.old.items }
        requires each { length noted.old.items ≡ length self.now.list.items }
        ensures walked { OnOk result (IsWalked P.cmp (number + 1) component.new self.now.list.items) }
        ensures noted { OnOk result (AreNoted component.new.near.items noted.new.items) }
        ensures each { length noted.new.items ≡ length noted.old.items }
        ensures joined { OnOk result (StartsWith component.old.joined.items component.new.joined.items) }
        ensures tied { OnOk result (AreStillTied (caps_of P.cmp peers.now.entries []) component.old component.new) }
        ensures level { component.new.level ≡ component.old.level }
        ensures whole { component.new.whole ≡ component.old.whole }
        ensures refused { IfErr result (λ e. e ≡ Error.OutOfMemory) }
    {
        let joined = component.joined[number].again()?;
        self.join_new_end(End::Origin, &joined, number, peers, component, noted)?;
        self.join_new_end(End::Recipient, &joined, number, peers, component, noted)?;
        Ok(())
    }

    /// As [`Flights::join_end`], for one that has joined, if it joins others by that end, where the first so many of those
    /// that have joined were looked through: what they bring in is listed.
    fn join_new_end(
        &self,
        end: End,
        joined: &Joined<P>,
        number: usize,
        peers: &Peers<P>,
        component: &mut Component<P>,
        noted: &mut Vec<bool>,
    ) -> Result<(), Error>
        requires number { number ≤ length component.old.joined.items }
        requires before { AreAllListed P.cmp (take number component.old.joined.items) component.old.near.items
            self.now.list.items }
        requires noted { AreNoted component.old.near.items noted.old.items }
        requires each { length noted.old.items ≡ length self.now.list.items }
        requires suited { AreSuited P.cmp component.old component.old.near.items self.now.list.items }
        ensures listed { OnOk result (HasListedEnd P.cmp end joined.now.ends joined.now.message.value self.now.list.items
            component.old.near.items component.new.near.items) }
        ensures noted { OnOk result (AreNoted component.new.near.items noted.new.items) }
        ensures each { length noted.new.items ≡ length noted.old.items }
        ensures suited { OnOk result (AreSuited P.cmp component.new component.new.near.items self.now.list.items) }
        ensures joined { OnOk result (StartsWith component.old.joined.items component.new.joined.items) }
        ensures tied { OnOk result (AreStillTied (caps_of P.cmp peers.now.entries []) component.old component.new) }
        ensures level { component.new.level ≡ component.old.level }
        ensures whole { component.new.whole ≡ component.old.whole }
        ensures refused { IfErr result (λ e. e ≡ Error.OutOfMemory) }
    {
        if !joined.ends.have(end) {
            return Ok(());
        }
        if component.was_joined(end, joined, number) {
            return Ok(());
        }
        self.join_end(end, &joined.message, peers, component, noted)?;
        Ok(())
    }

    /// Lists the places of those in flight that share that end with the message, and takes in the ends of
    /// those that were not listed before and keep no rate.
    fn join_end(
        &self,
        end: End,
        message: &Message<P>,
        peers: &Peers<P>,
        component: &mut Component<P>,
        noted: &mut Vec<bool>,
    ) -> Result<(), Error>
        requires noted { AreNoted component.old.near.items noted.old.items }
        requires each { length noted.old.items ≡ length self.now.list.items }
        requires suited { AreSuited P.cmp component.old component.old.near.items self.now.list.items }
        ensures listed { OnOk result
            (AreListedAt P.cmp end message.now component.new.near.items self.now.list.items) }
        ensures more { OnOk result (AreStillListed component.old.near.items component.new.near.items) }
        ensures only { OnOk result (All (λ p. Contains component.old.near.items p
            ⊎ SharesEndAt P.cmp end message.now self.now.list.items p) component.new.near.items) }
        ensures noted { OnOk result (AreNoted component.new.near.items noted.new.items) }
        ensures each { length noted.new.items ≡ length noted.old.items }
        ensures suited { OnOk result (AreSuited P.cmp component.new component.new.near.items self.now.list.items) }
        ensures joined { OnOk result (StartsWith component.old.joined.items component.new.joined.items) }
        ensures tied { OnOk result (AreStillTied (caps_of P.cmp peers.now.entries []) component.old component.new) }
        ensures level { component.new.level ≡ component.old.level }
        ensures whole { component.new.whole ≡ component.old.whole }
        ensures refused { IfErr result (λ e. e ≡ Error.OutOfMemory) }
    {
        let mut next = self.list.first_at(end, message);
        while let Some(at) = next {
            let is_new = list(&mut component.near, noted, at)?;
            if is_new {
                self.join_one(at, peers, component)?;
            }
            next = self.list.next_at(end, at);
        }
        Ok(())
    }
}

/// Whether two messages go from one origin, or to one recipient.
fn share<P: Peer>(end: End, message: &Message<P>, other: &Message<P>) -> bool
    ensures { result ≡ share P.cmp end message.now other.now }
{
    match end {
        End::Origin => message.origin.cmp(&other.origin).is_eq(),
        End::Recipient => message.recipient.cmp(&other.recipient).is_eq(),
    }
}

/// The place is listed from now on. Answers whether it was not before.
fn list(places: &mut Vec<usize>, noted: &mut Vec<bool>, at: usize) -> Result<bool, Error>
    requires noted { AreNoted places.old.items noted.old.items }
    requires within { at < length noted.old.items }
    ensures here { OnOk result (Contains places.new.items at) }
    ensures others { OnOk result (AreStillListed places.old.items places.new.items) }
    ensures only { OnOk result (All (λ p. Contains places.old.items p ⊎ (p ≡ at)) places.new.items) }
    ensures same { IfOk result (λ new. new ≡ false → places.new.items ≡ places.old.items) }
    ensures noted { OnOk result (AreNoted places.new.items noted.new.items) }
    ensures each { length noted.new.items ≡ length noted.old.items }
    ensures refused { IfErr result (λ e. e ≡ Error.OutOfMemory) }
{
    if noted[at] {
        return Ok(false);
    }
    places.push(at)?;
    noted[at] = true;
    Ok(true)
}

/// The places that are listed are put in order. Few are sorted; of many each place is looked at.
fn put_in_order(places: &mut Vec<usize>, noted: &[bool]) -> Result<(), Error>
    requires noted { AreNoted places.old.items noted.now }
    ensures order { OnOk result (Ascends 0 places.new.items) }
    ensures still { OnOk result (AreStillListed places.old.items places.new.items) }
    ensures only { OnOk result (AreStillListed places.new.items places.old.items) }
    ensures refused { IfErr result (λ e. e ≡ Error.OutOfMemory) }
{
    if places.len() <= FEW_LISTED.max(noted.len() / LISTED_PART) {
        places.sort_unstable();
        if ascend(places) {
            return Ok(());
        }
    }
    list_again(places, noted)
}

/// Whether each place is less than the next.
fn ascend(places: &[usize]) -> bool
    ensures { result ≡ true → Ascends 0 places.now }
{
    for next in 1..places.len() {
        if places[next - 1] >= places[next] {
            return false;
        }
    }
    true
}

/// The places that are noted, and no others, are listed in order.
fn list_again(places: &mut Vec<usize>, noted: &[bool]) -> Result<(), Error>
    ensures order { OnOk result (Ascends 0 places.new.items) }
    ensures listed { OnOk result ((at : ℕ) → slice_get noted.now at ≡ Some true → Contains places.new.items at) }
    ensures only { OnOk result (All (λ at. slice_get noted.now at ≡ Some true) places.new.items) }
    ensures refused { IfErr result (λ e. e ≡ Error.OutOfMemory) }
{
    places.clear();
    for at in 0..noted.len() {
        if noted[at] {
            places.push(at)?;
        }
    }
    Ok(())
}

/// The less of two parts, where there are any.
fn least_part(one: Option<Natural>, other: Option<Natural>) -> Option<Natural> {
    match other {
        Some(other) => Some(lesser(one, other)),
        None => one,
    }
}
