//! What limits flows: the sides that the caps make.
ghost use Rattle.std.specs.Prelude.{◌≡◌, OnOk, ◌<◌, [], ◌∷◌, List, Some, IfOk, IfSome, IfErr, map, All, AllPairs, length};
ghost use Rattle.std.specs.Prelude.{Option, None, true};
ghost use Rattle.std.specs.Fn.{CalledAt, TakesAt, CalledAtTwo, TakesAtTwo};
ghost use Rattle.fairness.specs.Sides.Answers.{Answered, AnswerInOrder, CallableOnEach, CallableOnEachPair, origins};
ghost use Rattle.fairness.specs.Sides.Answers.{CalledIfDelivered};
ghost use Rattle.fairness.specs.Sides.Answers.{recipients, pairs};
ghost use Rattle.fairness.specs.Sides.Subjects.{sides_of, asks_of_one, asks_from};
ghost use Rattle.fairness.specs.Sides.Subjects.{sent_between};
ghost use Rattle.fair_rates.specs.Sides.SideOf.{side_of};
ghost use Rattle.fair_rates.specs.Sides.Registry.{FindsSides, IsGapFor, IsRegistryOf, Registers, number_of, subject_of};

use crate::bandwidth::numbers::{Found, Numbers};
use fairness::bandwidth::{Flow, FlowCaps};
use fairness::error::Error;
use fairness::peer::Peer;
use natural::Natural;
use std::alloc::{AllocError, Global};

/// A new side has room for so many users, before its list has to move.
const FEW_USERS: usize = 24;

/// So many sides have room for the same number of users, and those after them for one more. So not all ask
/// for one size, and most find a piece of memory that a side gave back.
const SIDES_ALIKE: usize = 16;

/// So many sides have rooms that grow with their numbers. Those after them begin anew.
const VARIED_SIDES: usize = 256;

/// There is room for at least so many sides, before their list has to move.
const FEW_SIDES: usize = 16;

/// There is room for so many sides at most, before any has come into being.
const MANY_SIDES: usize = 64;

/// Where the numbers of the first flow are expected.
const FIRST: Places = Places {
    sender: 0,
    recipient: 0,
    link: 0,
};

/// What limits some flows together: its cap, and the places of those flows in the list, in its order.
#[derive(Debug, Drop)]
pub struct Side {
    /// In parts of the caller's choosing, and as large as it may be: for [`allocate`](super::allocate) in bytes a
    /// second.
    pub cap: Natural,
    /// Places of flows.
    pub users: Vec<usize>,
}

/// What a side limits: all that one peer sends, all that one peer receives, or all that goes from
/// one peer to another.
#[derive(Drop)]
enum Subject<'a, P> {
    SentBy(&'a P),
    ReceivedBy(&'a P),
    SentBetween(&'a P, &'a P),
}

/// Where the numbers of what a flow asks for stand, or are guessed to stand, of each kind.
#[derive(Clone, Copy)]
struct Places {
    sender: usize,
    recipient: usize,
    link: usize,
}

impl Places {
    /// Where those of the next flow are expected. Flows of one sender mostly follow one another, and senders
    /// mostly have the same recipients in one order.
    fn next(&self) -> Places {
        Places {
            sender: self.sender,
            recipient: self.recipient.wrapping_add(1),
            link: self.link.wrapping_add(1),
        }
    }
}

/// The sides that have come into being, and the number of each, its place among them, by its subject.
/// The numbers of each kind are by peers alone, and have no kind to compare.
#[derive(Drop)]
struct Registry<'a, P: Ord> {
    sides: Vec<Side>,
    senders: Numbers<&'a P>,
    receivers: Numbers<&'a P>,
    links: Numbers<(&'a P, &'a P)>,
}

impl<'a, P: Peer> Registry<'a, P> {
    ghost use Rattle.fair_rates.specs.Sides.Registry.{IsRegistryOf, IsInOrder, HasNumber};

    /// None of so many flows has asked yet. Mostly there are no more sides than flows.
    fn new(alloc: Global, flows: usize) -> Result<Registry<'a, P>, AllocError>
        ensures { IfOk result (IsRegistryOf P.cmp []) }
    {
        let room = flows.min(MANY_SIDES).max(FEW_SIDES);
        Ok(Registry {
            sides: Vec::with_capacity(alloc, room)?,
            senders: Numbers::new(alloc),
            receivers: Numbers::new(alloc),
            links: Numbers::new(alloc),
        })
    }

    /// The number of the subject's side, if it stands at that place.
    #[inline(always)]
    fn number_at(&self, place: usize, subject: &Subject<'a, P>) -> Option<usize>
        requires { IsInOrder P.cmp self.now }
        ensures { IfSome result (λ number. number_of P.cmp self.now (subject_of subject.now) ≡ Some number) }
    {
        match subject {
            Subject::SentBy(peer) => self.senders.number_at(place, peer),
            Subject::ReceivedBy(peer) => self.receivers.number_at(place, peer),
            Subject::SentBetween(origin, recipient) => {
                self.links.number_at(place, &(*origin, *recipient))
            }
        }
    }

    /// The number of the subject's side, if it has one, and where it stands or would.
    #[inline(always)]
    fn find(&self, subject: &Subject<'a, P>) -> Found
        requires { IsInOrder P.cmp self.now }
        ensures number { result.number ≡ number_of P.cmp self.now (subject_of subject.now) }
        ensures gap { result.number ≡ None → IsGapFor P.cmp self.now subject.now result.place }
    {
        match subject {
            Subject::SentBy(peer) => self.senders.find(peer),
            Subject::ReceivedBy(peer) => self.receivers.find(peer),
            Subject::SentBetween(origin, recipient) => self.links.find(&(*origin, *recipient)),
        }
    }

    /// Notes the number of the side of a subject that has none, which would stand at that place.
    #[inline(always)]
    fn note(&mut self, place: usize, subject: &Subject<'a, P>, number: usize) -> Result<(), Error>
        requires order { IsInOrder P.cmp self.old }
        requires gap { IsGapFor P.cmp self.old subject.now place }
        ensures order { OnOk result (IsInOrder P.cmp self.new) }
        ensures numbers { OnOk result (HasNumber P.cmp (subject_of subject.now) number self.old self.new) }
        ensures sides { self.new.sides ≡ self.old.sides }
        ensures refused { IfErr result (λ e. e ≡ Error.OutOfMemory) }
    {
        match subject {
            Subject::SentBy(peer) => self.senders.note(place, *peer, number)?,
            Subject::ReceivedBy(peer) => self.receivers.note(place, *peer, number)?,
            Subject::SentBetween(origin, recipient) => {
                self.links.note(place, (*origin, *recipient), number)?;
            }
        }
        Ok(())
    }
}

/// How many users the side of that number has room for at first.
fn room_of(number: usize) -> usize {
    FEW_USERS + number % VARIED_SIDES / SIDES_ALIKE
}

/// Registers that the flow at `place` asks for the side of `subject`, which is not there yet, and whose
/// number would stand at `gap`. It comes into being if there is a cap.
#[inline(always)]
fn open<'a, P: Peer>(
    alloc: Global,
    registry: &mut Registry<'a, P>,
    place: usize,
    gap: usize,
    subject: Subject<'a, P>,
    cap: Option<u128>,
) -> Result<(), Error>
    requires finds { FindsSides P.cmp registry.old }
    requires none { number_of P.cmp registry.old (subject_of subject) ≡ None }
    requires gap { IsGapFor P.cmp registry.old subject gap }
    ensures registers { OnOk result (Registers P.cmp (record {
      place = place;
      subject = subject_of subject.entry;
      answer = cap;
    } ∷ []) registry.old registry.new) }
    ensures refused { IfErr result (λ e. e ≡ Error.OutOfMemory) }
{
    let Some(cap) = cap else {
        return Ok(());
    };
    let number = registry.sides.len();
    let mut users = Vec::with_capacity(alloc, room_of(number))?;
    users.push(place)?;
    let cap = Natural::from_u128(alloc, cap);
    registry.sides.push(Side { cap, users })?;
    registry.note(gap, &subject, number)?;
    Ok(())
}

/// Registers that the flow at `place` asks for the side of the subject, whose number may stand where it is guessed
/// to, and for which this cap was answered. Answers where it stands, or would.
#[inline(always)]
fn register<'a, P: Peer>(
    alloc: Global,
    registry: &mut Registry<'a, P>,
    place: usize,
    subject: Subject<'a, P>,
    guess: usize,
    cap: Option<u128>,
) -> Result<usize, Error>
    requires { FindsSides P.cmp registry.old }
    ensures registers { OnOk result (Registers P.cmp (record {
      place = place;
      subject = subject_of subject.entry;
      answer = cap;
    } ∷ []) registry.old registry.new) }
    ensures refused { IfErr result (λ e. e ≡ Error.OutOfMemory) }
{
    if let Some(number) = registry.number_at(guess, &subject) {
        registry.sides[number].users.push(place)?;
        return Ok(guess);
    }
    search(alloc, registry, place, subject, cap)
}

/// The same where it does not stand there.
#[inline(always)]
fn search<'a, P: Peer>(
    alloc: Global,
    registry: &mut Registry<'a, P>,
    place: usize,
    subject: Subject<'a, P>,
    cap: Option<u128>,
) -> Result<usize, Error>
    requires { FindsSides P.cmp registry.old }
    ensures registers { OnOk result (Registers P.cmp (record {
      place = place;
      subject = subject_of subject.entry;
      answer = cap;
    } ∷ []) registry.old registry.new) }
    ensures refused { IfErr result (λ e. e ≡ Error.OutOfMemory) }
{
    let found = registry.find(&subject);
    if let Some(number) = found.number {
        registry.sides[number].users.push(place)?;
        return Ok(found.place);
    }
    open(alloc, registry, place, found.place, subject, cap)?;
    Ok(found.place)
}

/// Registers that the flow at `place` asks for the side of its link, for which this cap was answered. Where no link
/// has a cap, there is nothing to search for.
#[inline(always)]
fn register_link<'a, P: Peer>(
    alloc: Global,
    registry: &mut Registry<'a, P>,
    place: usize,
    flow: &'a Flow<P>,
    guess: usize,
    cap: Option<u128>,
) -> Result<usize, Error>
    requires { FindsSides P.cmp registry.old }
    ensures registers { OnOk result (Registers P.cmp (record {
      place = place;
      subject = sent_between flow.now.origin flow.now.recipient;
      answer = cap;
    } ∷ []) registry.old registry.new) }
    ensures refused { IfErr result (λ e. e ≡ Error.OutOfMemory) }
{
    if registry.links.is_empty() && cap.is_none() {
        return Ok(guess);
    }
    let subject = Subject::SentBetween(&flow.origin, &flow.recipient);
    register(alloc, registry, place, subject, guess, cap)
}

/// Registers that the flow at `place` asks for its sides, for which these caps were answered. Answers where their
/// numbers stand.
#[inline(always)]
fn register_flow<'a, P: Peer>(
    alloc: Global,
    registry: &mut Registry<'a, P>,
    place: usize,
    flow: &'a Flow<P>,
    guess: Places,
    caps: FlowCaps,
) -> Result<Places, Error>
    requires { FindsSides P.cmp registry.old }
    ensures registers { OnOk result (Registers P.cmp (asks_of_one place (record {
      flow = flow.now;
      egress = caps.egress;
      ingress = caps.ingress;
      link = caps.link;
    })) registry.old registry.new) }
    ensures refused { IfErr result (λ e. e ≡ Error.OutOfMemory) }
{
    let subject = Subject::SentBy(&flow.origin);
    let sender = register(alloc, registry, place, subject, guess.sender, caps.egress)?;
    let mut recipient = guess.recipient;
    if flow.delivered {
        let subject = Subject::ReceivedBy(&flow.recipient);
        recipient = register(
            alloc,
            registry,
            place,
            subject,
            guess.recipient,
            caps.ingress,
        )?;
    }
    let link = register_link(alloc, registry, place, flow, guess.link, caps.link)?;
    Ok(Places {
        sender,
        recipient,
        link,
    })
}

/// The cap of what the flow's recipient may receive, for which it is asked only where it receives the flow.
fn ingress_of<P, I>(flow: &Flow<P>, ingress_cap: &mut I) -> Option<u128>
where
    P: Peer,
    I: FnMut(&P) -> Option<u128>,
    requires { flow.now.delivered ≡ true → TakesAt I.FnMut ingress_cap.old flow.now.recipient }
    ensures { CalledIfDelivered (CalledAt I.FnMut) flow.now.delivered ingress_cap.old flow.now.recipient result
        ingress_cap.new }
{
    if flow.delivered {
        ingress_cap(&flow.recipient)
    } else {
        None
    }
}

/// Asks the closures flow by flow, and registers what each flow asks for.
fn register_all<'a, P, E, I, L>(
    alloc: Global,
    registry: &mut Registry<'a, P>,
    flows: &'a [Flow<P>],
    egress_cap: &mut E,
    ingress_cap: &mut I,
    link_cap: &mut L,
) -> Result<(), Error>
where
    P: Peer,
    E: FnMut(&P) -> Option<u128>,
    I: FnMut(&P) -> Option<u128>,
    L: FnMut(&P, &P) -> Option<u128>,
    requires none { IsRegistryOf P.cmp [] registry.old }
    requires egress { CallableOnEach (TakesAt E.FnMut) (CalledAt E.FnMut) egress_cap.old (origins flows.now) }
    requires ingress { CallableOnEach (TakesAt I.FnMut) (CalledAt I.FnMut) ingress_cap.old (recipients flows.now) }
    requires link { CallableOnEachPair (TakesAtTwo L.FnMut) (CalledAtTwo L.FnMut) link_cap.old (pairs flows.now) }
    ensures registered { OnOk result ((answered : List (Answered P))
        × AnswerInOrder (CalledAt E.FnMut) (CalledAt I.FnMut) (CalledAtTwo L.FnMut)
        (record { egress = egress_cap.old; ingress = ingress_cap.old; link = link_cap.old }) flows.now answered
        × IsRegistryOf P.cmp (asks_from 0 answered) registry.new) }
    ensures refused { IfErr result (λ e. e ≡ Error.OutOfMemory) }
{
    let mut expected = FIRST;
    for (place, flow) in flows.iter().enumerate() {
        let egress = egress_cap(&flow.origin);
        let ingress = ingress_of(flow, ingress_cap);
        let link = link_cap(&flow.origin, &flow.recipient);
        let caps = FlowCaps {
            egress,
            ingress,
            link,
        };
        expected = register_flow(alloc, registry, place, flow, expected, caps)?.next();
    }
    Ok(())
}

/// The sides of the flows, in the order in which they come into being.
pub(crate) fn sides<P, E, I, L>(
    alloc: Global,
    flows: &[Flow<P>],
    egress_cap: &mut E,
    ingress_cap: &mut I,
    link_cap: &mut L,
) -> Result<Vec<Side>, Error>
where
    P: Peer,
    E: FnMut(&P) -> Option<u128>,
    I: FnMut(&P) -> Option<u128>,
    L: FnMut(&P, &P) -> Option<u128>,
    requires egress { CallableOnEach (TakesAt E.FnMut) (CalledAt E.FnMut) egress_cap.old (origins flows.now) }
    requires ingress { CallableOnEach (TakesAt I.FnMut) (CalledAt I.FnMut) ingress_cap.old (recipients flows.now) }
    requires link { CallableOnEachPair (TakesAtTwo L.FnMut) (CalledAtTwo L.FnMut) link_cap.old (pairs flows.now) }
    ensures sides { IfOk result (λ sides. (answered : List (Answered P))
        × AnswerInOrder (CalledAt E.FnMut) (CalledAt I.FnMut) (CalledAtTwo L.FnMut)
        (record { egress = egress_cap.old; ingress = ingress_cap.old; link = link_cap.old }) flows.now answered
        × (map side_of sides.items ≡ sides_of P.cmp answered)) }
    ensures users_are_flows { IfOk result (λ sides. All
        (λ side. All (λ flow. flow < length flows.now) side.users.items) sides.items) }
    ensures users_rise { IfOk result (λ sides. All (λ side. AllPairs (λ a b. a < b) side.users.items) sides.items) }
    ensures refused { IfErr result (λ e. e ≡ Error.OutOfMemory) }
{
    let mut registry = Registry::new(alloc, flows.len())?;
    register_all(
        alloc,
        &mut registry,
        flows,
        egress_cap,
        ingress_cap,
        link_cap,
    )?;
    Ok(registry.sides)
}
