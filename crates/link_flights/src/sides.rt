//! The sides of those in flight that are rated anew.
//!
//! A side is found by its chain, from one of its users on: the others there that are rated anew use it, too, and
//! what all others take, which keep their rates, is taken from its cap.
ghost use Rattle.std.specs.Prelude.{◌≡◌, ◌<◌, ◌*◌, ℕ, ◌+◌, ◌∷◌, [], true, cond, None, Some, ◌⊎◌};
ghost use Rattle.std.specs.Prelude.{All, AllPairs, Contains, IfOk, IfErr, IfSome, OnOk, List, length, map, slice_get, slice_index_or};
ghost use Rattle.std.specs.Prelude.{false, replicate, option_map};
ghost use Rattle.std.specs.List.{list_all};
ghost use Rattle.fairness.specs.Fairness.UnderCaps.{cap_of};
ghost use Rattle.fairness.specs.Sides.Alone.{least_of};
ghost use Rattle.fair_rates.specs.Sides.SideOf.{side_of};
ghost use Rattle.link_simulation.specs.Simulation.Messages.{OneForEachPair};
ghost use Rattle.link_pairs.specs.Pairs.CapsOf.{caps_of};
ghost use Rattle.link_pairs.specs.Pairs.Entries.{Pair as AnyPair};
ghost use Rattle.link_pairs.specs.Pairs.PeerCaps.{PeerCaps as AnyPeer};
ghost use Rattle.link_flights.specs.declared.component.Component.{Component as AnyComponent};
ghost use Rattle.link_flights.specs.declared.flight.Flight.{Flight as AnyFlight};
ghost use Rattle.link_pairs.specs.declared.message.Message.{Message as AnyMessage};
ghost use Rattle.link_flights.specs.Flights.Components.{is_of, suits, touches, places_of};
ghost use Rattle.link_flights.specs.Flights.Flight.{flight_at};
ghost use Rattle.link_flights.specs.Flights.InFlight.{in_units};
ghost use Rattle.link_flights.specs.Flights.Rated.{sent_messages, AreFairRatesBeside};
ghost use Rattle.link_flights.specs.Flights.Sides.{left_caps, left_at_end, flows_of, IsCounted, flow_sent, uses_end};
ghost use Rattle.link_flights.specs.Flights.Sides.{end_subject, link_subject, IsSideOf, AddsSides, AreAllSides};
ghost use Rattle.link_flights.specs.Flights.Table.{share};

use crate::component::Component;
use crate::flight_list::Flights;
use crate::numbers::Numbers;
use crate::table::End;
use fair_rates::bandwidth::{Room, Side};
use fairness::error::Error;
use fairness::peer::Peer;
use link_pairs::known_pairs::Pairs;
use link_pairs::message::Message;
use link_pairs::peers::Peers;
use natural::Natural;

/// The cap at that end of the message.
fn cap_at<P: Peer>(end: End, message: &Message<P>, peers: &Peers<P>) -> Option<u128>
    ensures { (pairs : List (AnyPair P)) → result
        ≡ cap_of (caps_of P.cmp peers.now.entries pairs) (end_subject end (flow_sent P.cmp message.now)) }
{
    match end {
        End::Origin => peers.egress(&message.origin),
        End::Recipient => peers.ingress(&message.recipient),
    }
}

/// None of so many numbers has a side.
fn forget_all(has_side: &mut Vec<bool>, count: usize) -> Result<(), Error>
    ensures none { OnOk result (has_side.new.items ≡ replicate count false) }
    ensures refused { IfErr result (λ e. e ≡ Error.OutOfMemory) }
{
    has_side.clear();
    has_side.resize(count, false)?;
    Ok(())
}

/// Each of these numbers has a side from now on.
fn note_users(has_side: &mut [bool], users: &[usize])
    requires { All (λ user. user < length has_side.old) users.now }
    ensures noted { (k : ℕ) → slice_get has_side.new k ≡ Some true
        → (slice_get has_side.old k ≡ Some true) ⊎ Contains users.now k }
    ensures each { length has_side.new ≡ length has_side.old }
{
    for user in users {
        has_side[*user] = true;
    }
}

/// The less of what is left of two caps. `None` stands for no cap.
fn least(one: Option<Natural>, other: Option<Natural>) -> Option<Natural>
    ensures { result ≡ least_of one other }
{
    match (one, other) {
        (Some(one), Some(other)) => Some(if one <= other { one } else { other }),
        (Some(left), None) | (None, Some(left)) => Some(left),
        (None, None) => None,
    }
}

impl<P: Peer> Flights<P> {
    /// The sides of those of the component that are rated anew, at these places, with what the others leave of their
    /// caps, in units. A user is a number among these. Who has a side is noted in room that is lent, and they are
    /// listed in room that is given.
    pub(crate) fn sides_of(
        &self,
        component: &Component<P>,
        numbers: &Numbers,
        peers: &Peers<P>,
        pairs: &Pairs<P>,
        has_side: &mut Vec<bool>,
        filling: &mut Room,
        mut sides: Vec<Side>,
    ) -> Result<Vec<Side>, Error>
        requires places { numbers.now ≡ places_of (λ f. is_of P.cmp component.now (flight_at 0 f)) 0 self.now.list.items }
        requires suited { list_all (suits P.cmp component.now) (in_units self.now) ≡ true }
        requires one_each { OneForEachPair P.cmp (sent_messages (in_units self.now)) }
        ensures sides { IfOk result (λ sides. AreAllSides P.cmp
            (left_caps P.cmp (caps_of P.cmp peers.now.entries pairs.now.entries) self.now.scale component.now
            (in_units self.now)) (flows_of P.cmp component.now (in_units self.now)) (map side_of sides.items)) }
        ensures refused { IfErr result (λ e. e ≡ Error.OutOfMemory) }
    {
        sides.clear();
        self.add_sides(
            End::Origin,
            component,
            numbers,
            peers,
            has_side,
            filling,
            &mut sides,
        )?;
        self.add_sides(
            End::Recipient,
            component,
            numbers,
            peers,
            has_side,
            filling,
            &mut sides,
        )?;
        self.add_links(numbers.places(), pairs, filling, &mut sides)?;
        Ok(sides)
    }

    /// What the others leave for the one at that place, the only one of the component that is rated anew: the least of
    /// what they leave of its caps, in units, and nothing where no cap holds for it.
    pub(crate) fn left_for(
        &self,
        component: &Component<P>,
        at: usize,
        numbers: &Numbers,
        peers: &Peers<P>,
        pairs: &Pairs<P>,
        users: &mut Vec<usize>,
    ) -> Result<Natural, Error>
        requires only { numbers.now ≡ at ∷ [] }
        requires places { numbers.now ≡ places_of (λ f. is_of P.cmp component.now (flight_at 0 f)) 0 self.now.list.items }
        requires suited { list_all (suits P.cmp component.now) (in_units self.now) ≡ true }
        requires one_each { OneForEachPair P.cmp (sent_messages (in_units self.now)) }
        ensures fair { IfOk result (λ left. AreFairRatesBeside P.cmp
            (caps_of P.cmp peers.now.entries pairs.now.entries) self.now.scale component.now (in_units self.now)
            (left ∷ [])) }
        ensures refused { IfErr result (λ e. e ≡ Error.OutOfMemory) }
    {
        let ends = self.left_at_ends(component, at, numbers, peers, users)?;
        let message = &self.list.at(at).message;
        let between = self.units_of(pairs.cap(&message.origin, &message.recipient))?;
        let none = Natural::from_u64(self.alloc, 0);
        Ok(least(ends, between).unwrap_or(none))
    }

    /// A cap in units, if there is one.
    fn units_of(&self, cap: Option<u128>) -> Result<Option<Natural>, Error>
        ensures units { IfOk result (λ units. units ≡ option_map (λ cap. cap * self.now.scale) cap) }
        ensures refused { IfErr result (λ e. e ≡ Error.OutOfMemory) }
    {
        match cap {
            Some(cap) => Ok(Some(self.scale.product(cap)?)),
            None => Ok(None),
        }
    }

    /// The less of what the others leave of the caps at the two ends of the one at that place, in units, if it uses any.
    fn left_at_ends(
        &self,
        component: &Component<P>,
        at: usize,
        numbers: &Numbers,
        peers: &Peers<P>,
        users: &mut Vec<usize>,
    ) -> Result<Option<Natural>, Error>
        requires at { Contains numbers.now at }
        requires places { numbers.now ≡ places_of (λ f. is_of P.cmp component.now (flight_at 0 f)) 0 self.now.list.items }
        requires suited { list_all (suits P.cmp component.now) (in_units self.now) ≡ true }
        ensures left { IfOk result (λ left. (one : AnyFlight P) (pairs : List (AnyPair P))
            → slice_get self.now.list.items at ≡ Some one → left ≡ least_of
            (left_at_end P.cmp (caps_of P.cmp peers.now.entries pairs) self.now.scale component.now (in_units self.now)
            End.Origin one.message.value)
            (left_at_end P.cmp (caps_of P.cmp peers.now.entries pairs) self.now.scale component.now (in_units self.now)
            End.Recipient one.message.value)) }
        ensures refused { IfErr result (λ e. e ≡ Error.OutOfMemory) }
    {
        let sent = self.side_at(End::Origin, at, component, numbers, peers, users)?;
        let received = self.side_at(End::Recipient, at, component, numbers, peers, users)?;
        Ok(least(sent, received))
    }

    /// The sides at one end come. Who has one is noted in room that is lent.
    fn add_sides(
        &self,
        end: End,
        component: &Component<P>,
        numbers: &Numbers,
        peers: &Peers<P>,
        has_side: &mut Vec<bool>,
        filling: &mut Room,
        sides: &mut Vec<Side>,
    ) -> Result<(), Error>
        requires places { numbers.now ≡ places_of (λ f. is_of P.cmp component.now (flight_at 0 f)) 0 self.now.list.items }
        requires suited { list_all (suits P.cmp component.now) (in_units self.now) ≡ true }
        ensures adds { OnOk result ((pairs : List (AnyPair P)) → AddsSides P.cmp
            (left_caps P.cmp (caps_of P.cmp peers.now.entries pairs) self.now.scale component.now (in_units self.now))
            (flows_of P.cmp component.now (in_units self.now)) (end_subject end)
            (map side_of sides.old.items) (map side_of sides.new.items)) }
        ensures refused { IfErr result (λ e. e ≡ Error.OutOfMemory) }
    {
        let places = numbers.places();
        forget_all(has_side, places.len())?;
        let mut users = filling.take_list(self.alloc);
        let mut room = 0;
        for number in 0..places.len() {
            if has_side[number] {
                continue;
            }
            users.reserve(room)?;
            if let Some(cap) = self.side_at(
                end,
                places[number],
                component,
                numbers,
                peers,
                &mut users,
            )? {
                note_users(has_side, &users);
                room = users.len();
                sides.push(Side { cap, users })?;
                users = filling.take_list(self.alloc);
            }
        }
        filling.keep_list(users);
        Ok(())
    }

    /// Whether the one at that place uses what there is of a cap at that end: what is dropped takes nothing of what its
    /// recipient may receive.
    #[inline(always)]
    fn uses(&self, end: End, at: usize) -> bool
        requires { at < length self.now.list.items }
        ensures { (d : AnyFlight P)
            → result ≡ uses_end P.cmp end (slice_index_or self.now.list.items at d).message.value }
    {
        match end {
            End::Origin => true,
            End::Recipient => self.list.is_delivered(at),
        }
    }

    /// The side at one end of the one at that place, which is rated anew, if it uses one: what the others leave of its
    /// cap, in units, and its users, who are listed in room that is lent.
    fn side_at(
        &self,
        end: End,
        at: usize,
        component: &Component<P>,
        numbers: &Numbers,
        peers: &Peers<P>,
        users: &mut Vec<usize>,
    ) -> Result<Option<Natural>, Error>
        requires at { Contains numbers.now at }
        requires places { numbers.now ≡ places_of (λ f. is_of P.cmp component.now (flight_at 0 f)) 0 self.now.list.items }
        requires suited { list_all (suits P.cmp component.now) (in_units self.now) ≡ true }
        ensures side { IfOk result (λ left. IfSome left (λ left. (one : AnyFlight P) (pairs : List (AnyPair P))
            → slice_get self.now.list.items at ≡ Some one → IsSideOf P.cmp
            (left_caps P.cmp (caps_of P.cmp peers.now.entries pairs) self.now.scale component.now (in_units self.now))
            (flows_of P.cmp component.now (in_units self.now)) (end_subject end (flow_sent P.cmp one.message.value))
            (record { cap = left; users = users.new.items }))) }
        ensures uses { IfOk result (λ left. IfSome left (λ left. (one : AnyFlight P)
            → slice_get self.now.list.items at ≡ Some one → uses_end P.cmp end one.message.value ≡ true)) }
        ensures none { IfOk result (λ left. left ≡ None → (one : AnyFlight P) (pairs : List (AnyPair P))
            → slice_get self.now.list.items at ≡ Some one → uses_end P.cmp end one.message.value ≡ true
            → cap_of (caps_of P.cmp peers.now.entries pairs) (end_subject end (flow_sent P.cmp one.message.value)) ≡ None) }
        ensures refused { IfErr result (λ e. e ≡ Error.OutOfMemory) }
    {
        if !self.uses(end, at) {
            return Ok(None);
        }
        let message = &self.list.at(at).message;
        let Some(cap) = cap_at(end, message, peers) else {
            return Ok(None);
        };
        let mut left = self.scale.product(cap)?;
        users.clear();
        let mut next = self.list.first_beside(end, at);
        while let Some(at) = next {
            self.count_one(end, at, component, numbers, &mut left, users)?;
            next = self.list.next_at(end, at);
        }
        Ok(Some(left))
    }

    /// The one at that place counts for the side at one of its ends, if it uses that: as a user, or by what it takes of
    /// what is left.
    fn count_one(
        &self,
        end: End,
        at: usize,
        component: &Component<P>,
        numbers: &Numbers,
        left: &mut Natural,
        users: &mut Vec<usize>,
    ) -> Result<(), Error>
        requires within { at < length self.now.list.items }
        requires places { numbers.now ≡ places_of (λ f. is_of P.cmp component.now (flight_at 0 f)) 0 self.now.list.items }
        requires suited { list_all (suits P.cmp component.now) (in_units self.now) ≡ true }
        ensures counted { OnOk result ((m : AnyMessage P) (one : AnyFlight P) (all : ℕ)
            → slice_get self.now.list.items at ≡ Some one → share P.cmp end m one.message.value ≡ true
            → IsCounted P.cmp component.now self.now.at self.now.list.items (end_subject end (flow_sent P.cmp m)) all at
            (record { cap = left.old; users = users.old.items })
            → IsCounted P.cmp component.now self.now.at self.now.list.items (end_subject end (flow_sent P.cmp m)) all (at + 1)
            (record { cap = left.new; users = users.new.items })) }
        ensures refused { IfErr result (λ e. e ≡ Error.OutOfMemory) }
    {
        if !self.uses(end, at) {
            return Ok(());
        }
        if let Some(number) = numbers.number(at) {
            users.push(number)?;
            return Ok(());
        }
        left.subtract(self.list.at(at).rate.number());
        Ok(())
    }

    /// The sides between the two ends come. No two in flight go between the same peers.
    fn add_links(
        &self,
        places: &[usize],
        pairs: &Pairs<P>,
        filling: &mut Room,
        sides: &mut Vec<Side>,
    ) -> Result<(), Error>
        requires within { All (λ at. at < length self.now.list.items) places.now }
        requires one_each { OneForEachPair P.cmp (sent_messages (in_units self.now)) }
        ensures adds { OnOk result ((component : AnyComponent P) (peers : List (AnyPeer P))
            → places.now ≡ places_of (λ f. is_of P.cmp component (flight_at 0 f)) 0 self.now.list.items → AddsSides P.cmp
            (left_caps P.cmp (caps_of P.cmp peers pairs.now.entries) self.now.scale component (in_units self.now))
            (flows_of P.cmp component (in_units self.now)) link_subject
            (map side_of sides.old.items) (map side_of sides.new.items)) }
        ensures refused { IfErr result (λ e. e ≡ Error.OutOfMemory) }
    {
        for number in 0..places.len() {
            let message = &self.list.at(places[number]).message;
            if let Some(cap) = pairs.cap(&message.origin, &message.recipient) {
                let cap = self.scale.product(cap)?;
                let mut users = filling.take_list(self.alloc);
                users.push(number)?;
                sides.push(Side { cap, users })?;
            }
        }
        Ok(())
    }
}
