//! What a script has said so far.
ghost use Rattle.std.specs.Prelude.{◌≡◌, ◌⊎◌, ℕ, [], map, IfOk, IfErr, OnOk, OnErr};
ghost use Rattle.std.specs.Ordering.{nat_cmp};
ghost use Rattle.std.specs.BTreeMap.{get, IsUnchanged};
ghost use Rattle.fairness.specs.Sides.Caps.{no_caps};
ghost use Rattle.link_pairs.specs.Pairs.Entries.{pair_cmp};
ghost use Rattle.fairness.specs.Fairness.UnderCaps.{IsFairById};
ghost use Rattle.fairness.specs.Refusals.TooLarge.{AreTooLarge};
ghost use Rattle.fair_routes.specs.Network.Told.{IsToldNothing, IsToldTheSame};
ghost use Rattle.link_scheduler.specs.Calls.Replay.{IsAnswered, MayRefuseCall};
ghost use Rattle.link_scheduler.specs.Calls.State.{planned_of};
ghost use Rattle.link_scripts.specs.Schedule.{zeroed, zeroed_sends, AnswersEach};
ghost use Rattle.link_scripts.specs.Session.{Says, SaysSame, KeepsPlanned, SaysAfter, AnswersTo, MayRefuseCommand};
ghost use Rattle.link_scripts.specs.Session.{said_caps, IsToldLine};
ghost use Rattle.link_scripts.specs.Session.{with_said_cap, with_said_link};
ghost use Rattle.link_simulation.specs.Rule.Planned.{new_planned};
ghost use Rattle.link_simulation.specs.Simulation.Calls.{call_enqueue_all};

use crate::linkrun::answer::Answer;
use crate::linkrun::command::{Command, NetworkLine};
use crate::linkrun::schedule;
use fair_rates::bandwidth;
use fair_routes::routes::network::Network;
use fairness::bandwidth::{Flow, Rate};
use fairness::error::Error;
use link_scheduler::call::Reply;
use link_scheduler::transmitter::{Contents, Outgoing, State};
use std::alloc::Global;
use std::collections::BTreeMap;

/// What a script has said so far: its flows in order, the caps of peers and links for their rates,
/// in bytes a second, its network, and its scheduler, which has caps of its own.
pub(crate) struct Session {
    alloc: Global,
    flows: Vec<Flow<u64>>,
    egress: BTreeMap<u64, u128>,
    ingress: BTreeMap<u64, u128>,
    /// By origin and recipient.
    links: BTreeMap<(u64, u64), u128>,
    /// Links that flows over routes use, which have numbers and caps of their own.
    network: Network,
    scheduler: State<u64, Contents>,
}

impl Drop for Session {
    /// Lets go of what it holds.
    fn drop(self) {
        let Session {
            alloc: _,
            flows,
            egress,
            ingress,
            links,
            network,
            scheduler,
        } = self;
        drop(flows);
        drop(egress);
        drop(ingress);
        drop(links);
        drop(network);
        drop(scheduler);
    }
}

impl Session {
    /// Nothing is said.
    pub(crate) fn new(alloc: Global) -> Session
        ensures said { Says result [] no_caps }
        ensures network { IsToldNothing result.network }
        ensures scheduler { planned_of result.scheduler ≡ new_planned 0 }
    {
        Session {
            alloc,
            flows: Vec::new(alloc),
            egress: BTreeMap::new(alloc),
            ingress: BTreeMap::new(alloc),
            links: BTreeMap::new(alloc),
            network: Network::new(alloc),
            scheduler: State::with_payload(alloc, 0),
        }
    }

    /// Does what a command says. A command that is refused changes nothing.
    pub(crate) fn perform(&mut self, command: Command) -> Result<Answer, Error>
        ensures answer { IfOk result (λ answer. AnswersTo command self.old answer self.new) }
        ensures done { OnOk result (SaysAfter command self.old self.new) }
        ensures kept { OnErr result (SaysSame self.old self.new × KeepsPlanned self.old self.new) }
        ensures refused { IfErr result (MayRefuseCommand command self.old) }
    {
        match command {
            Command::Flow(flow) => self.flows.push(flow)?,
            Command::Egress { peer, cap } => set_cap(&mut self.egress, peer, cap)?,
            Command::Ingress { peer, cap } => set_cap(&mut self.ingress, peer, cap)?,
            Command::Link {
                origin,
                recipient,
                cap,
            } => set_link(&mut self.links, origin, recipient, cap)?,
            Command::Rates => return Ok(Answer::Rates(self.rates()?)),
            Command::Network(line) => tell(&mut self.network, line)?,
            Command::Routes => return Ok(Answer::Routes(self.network.rates()?)),
            Command::Schedule(call) => {
                let reply = schedule::make(self.alloc, &mut self.scheduler, &call)?;
                return Ok(Answer::Reply(reply));
            }
        }
        Ok(Answer::Nothing)
    }

    /// Sends messages at one moment, in order, as a whole or not at all. A refusal changes nothing.
    pub(crate) fn send_all(
        &mut self,
        now: u64,
        messages: &[Outgoing<u64, usize>],
    ) -> Result<Reply<u64, Contents>, Error>
        ensures one_by_one { IfOk result (λ reply. AnswersEach (zeroed_sends now messages.now) self.old.scheduler reply
            self.new.scheduler) }
        ensures at_once { IfOk result (λ reply. IsAnswered self.old.scheduler
            (call_enqueue_all now (map zeroed messages.now)) reply self.new.scheduler) }
        ensures said { SaysSame self.old self.new }
        ensures kept { OnErr result (KeepsPlanned self.old self.new) }
        ensures refused { IfErr result (MayRefuseCall self.old.scheduler
            (call_enqueue_all now (map zeroed messages.now))) }
    {
        schedule::send_all(self.alloc, &mut self.scheduler, now, messages)
    }

    /// The rates of the flows, by id.
    fn rates(&self) -> Result<BTreeMap<u64, Rate>, Error>
        ensures fair { IfOk result (λ rates. IsFairById nat_cmp (said_caps self.now) self.now.flows.items
            (get nat_cmp rates)) }
        ensures refused { IfErr result (λ e. (e ≡ Error.OutOfMemory)
            ⊎ ((e ≡ Error.NumberTooLarge) × AreTooLarge nat_cmp (said_caps self.now) self.now.flows.items)) }
    {
        bandwidth::allocate_linked(
            self.alloc,
            &self.flows,
            |peer| self.egress.get(peer).copied(),
            |peer| self.ingress.get(peer).copied(),
            |origin, recipient| self.links.get(&(*origin, *recipient)).copied(),
        )
    }
}

/// Sets a peer's cap, or removes it.
fn set_cap(caps: &mut BTreeMap<u64, u128>, peer: u64, cap: Option<u128>) -> Result<(), Error>
    ensures set { OnOk result ((p : ℕ) → get nat_cmp caps.new p ≡ with_said_cap (get nat_cmp caps.old) peer cap p) }
    ensures kept { OnErr result (IsUnchanged caps.old caps.new) }
    ensures refused { IfErr result (λ e. e ≡ Error.OutOfMemory) }
{
    match cap {
        Some(cap) => {
            caps.insert(peer, cap)?;
        }
        None => {
            caps.remove(&peer);
        }
    }
    Ok(())
}

/// Sets the cap of what goes from one peer to another, or removes it.
fn set_link(
    caps: &mut BTreeMap<(u64, u64), u128>,
    origin: u64,
    recipient: u64,
    cap: Option<u128>,
) -> Result<(), Error>
    ensures set { OnOk result ((p q : ℕ) → get (pair_cmp nat_cmp) caps.new (p, q)
        ≡ with_said_link (λ r s. get (pair_cmp nat_cmp) caps.old (r, s)) origin recipient cap p q) }
    ensures kept { OnErr result (IsUnchanged caps.old caps.new) }
    ensures refused { IfErr result (λ e. e ≡ Error.OutOfMemory) }
{
    match cap {
        Some(cap) => {
            caps.insert((origin, recipient), cap)?;
        }
        None => {
            caps.remove(&(origin, recipient));
        }
    }
    Ok(())
}

/// Tells the network what a line says. A line that is refused tells it nothing.
fn tell(network: &mut Network, line: NetworkLine) -> Result<(), Error>
    ensures told { OnOk result (IsToldLine line network.old network.new) }
    ensures kept { OnErr result (IsToldTheSame network.old network.new) }
    ensures refused { IfErr result (λ e. e ≡ Error.OutOfMemory) }
{
    match line {
        NetworkLine::Hop { flow, link } => network.add_link(flow, link),
        NetworkLine::Cap { link, cap } => network.set_cap(link, cap),
        NetworkLine::Weight { flow, weight } => network.set_weight(flow, weight),
    }
}
