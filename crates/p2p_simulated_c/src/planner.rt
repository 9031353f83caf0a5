//! The planner for C: who sends how fast.
ghost use Rattle.std.specs.Prelude.{◌≡◌, ◌⊎◌, ℕ, map, IfOk, IfErr};
ghost use Rattle.std.specs.BTreeMap.{get};
ghost use Rattle.std.specs.Fn.{CalledAt, TakesAt, CalledAtTwo, TakesAtTwo};
ghost use Rattle.std.specs.Ordering.{nat_cmp};
ghost use Rattle.fairness.specs.Sides.Answers.{CallableOnEach, CallableOnEachPair, origins, recipients, pairs};
ghost use Rattle.fairness.specs.Sides.Caps.{Caps as CapsOf};
ghost use Rattle.link_pairs.specs.Pairs.Entries.{pair_cmp};
ghost use Rattle.fairness.specs.Fairness.UnderCaps.{AnswerBy};
ghost use Rattle.p2p_simulated_c.specs.Plan.{IsPlan, IsPlanned, MayRefusePlan, caps_of_records, flow_of};
ghost use Rattle.p2p_simulated_c.specs.Plan.{link_cap, peer_cap, rates_of};
ghost use Rattle.p2p_simulated_c.specs.Planning.{caps_in};
ghost use Rattle.p2p_simulated_c.specs.Records.{value_of};
ghost use Rattle.p2p_simulated_c.specs.Written.{written};

use super::records::{LinkCap, PeerCap, PlanFlow, PlanRate, Wide};
use super::status::{MADE, number_of};
use fair_laws::rates::answers_are_those_of_the_caps;
use fair_rates::bandwidth::allocate_linked_counted;
use fairness::bandwidth::{Flow, Rate};
use fairness::error::Error;
use std::alloc::Global;
use std::collections::BTreeMap;

/// `bandwidth::allocate_linked_counted` over lists of flows and caps: writes the rate of each flow,
/// in the order of the flows, as many as there is room for, and tells how many rounds of filling
/// there were. Who is in no list of caps has none, and of several caps of one peer, or of one link,
/// the last counts. A refusal writes no rate.
#[unsafe(no_mangle)]
pub extern "C" fn p2p_allocate(
    alloc: Global,
    flows: &[PlanFlow],
    egress: &[PeerCap],
    ingress: &[PeerCap],
    links: &[LinkCap],
    rates: &mut [PlanRate],
    rounds: &mut Wide,
) -> u32
    ensures { IsPlanned (caps_of_records egress.now ingress.now links.now) flows.now result (value_of rounds.new)
        rates.old rates.new }
{
    match plan(alloc, flows, egress, ingress, links) {
        Ok((by_id, counted)) => {
            write_rates(flows, &by_id, rates);
            *rounds = Wide::of(counted);
            MADE
        }
        Err(why) => {
            *rounds = Wide::of(0);
            number_of(why)
        }
    }
}

/// The rates by id, and the rounds of filling.
fn plan(
    alloc: Global,
    flows: &[PlanFlow],
    egress: &[PeerCap],
    ingress: &[PeerCap],
    links: &[LinkCap],
) -> Result<(BTreeMap<u64, Rate>, u128), Error>
    ensures plan { IfOk result (λ planned. IsPlan (caps_of_records egress.now ingress.now links.now)
        (map flow_of flows.now)
        (get nat_cmp planned.0) planned.1) }
    ensures refused { IfErr result (MayRefusePlan (caps_of_records egress.now ingress.now links.now)
        (map flow_of flows.now)) }
{
    let flows = listed(alloc, flows)?;
    let caps = Caps {
        egress: by_peer(alloc, egress)?,
        ingress: by_peer(alloc, ingress)?,
        links: by_link(alloc, links)?,
    };
    caps.rates(alloc, &flows)
}

/// Caps in bytes a second, to be looked up.
pub struct Caps {
    pub egress: BTreeMap<u64, u128>,
    pub ingress: BTreeMap<u64, u128>,
    /// By origin and recipient.
    pub links: BTreeMap<(u64, u64), u128>,
}

impl Drop for Caps {
    /// Lets go of what it holds.
    fn drop(self) {
        let Caps {
            egress,
            ingress,
            links,
        } = self;
        drop(egress);
        drop(ingress);
        drop(links);
    }
}

impl Caps {
    /// The rates of the flows by id, and the rounds of filling.
    fn rates(
        &self,
        alloc: Global,
        flows: &[Flow<u64>],
    ) -> Result<(BTreeMap<u64, Rate>, u128), Error>
        ensures plan { IfOk result (λ planned. IsPlan (caps_in self.now) flows.now (get nat_cmp planned.0) planned.1) }
        ensures refused { IfErr result (MayRefusePlan (caps_in self.now) flows.now) }
    {
        rates_under_caps(
            alloc,
            flows,
            |peer| self.egress.get(peer).copied(),
            |peer| self.ingress.get(peer).copied(),
            |origin, recipient| self.links.get(&(*origin, *recipient)).copied(),
        )
    }
}

/// The rates of the flows by id, and the rounds of filling, under whatever caps the closures answer
/// by.
fn rates_under_caps<E, I, L>(
    alloc: Global,
    flows: &[Flow<u64>],
    egress: E,
    ingress: I,
    link: L,
) -> Result<(BTreeMap<u64, Rate>, u128), Error>
where
    E: FnMut(&u64) -> Option<u128>,
    I: FnMut(&u64) -> Option<u128>,
    L: FnMut(&u64, &u64) -> Option<u128>,
    requires egress { CallableOnEach (TakesAt E.FnMut) (CalledAt E.FnMut) egress (origins flows.now) }
    requires ingress { CallableOnEach (TakesAt I.FnMut) (CalledAt I.FnMut) ingress (recipients flows.now) }
    requires link { CallableOnEachPair (TakesAtTwo L.FnMut) (CalledAtTwo L.FnMut) link (pairs flows.now) }
    ensures plan { IfOk result (λ planned. (caps : CapsOf ℕ)
        → AnswerBy (CalledAt E.FnMut) (CalledAt I.FnMut) (CalledAtTwo L.FnMut)
        (record { egress = egress; ingress = ingress; link = link }) flows.now caps
        → IsPlan caps flows.now (get nat_cmp planned.0) planned.1) }
    ensures refused { IfErr result (λ why. (caps : CapsOf ℕ)
        → AnswerBy (CalledAt E.FnMut) (CalledAt I.FnMut) (CalledAtTwo L.FnMut)
        (record { egress = egress; ingress = ingress; link = link }) flows.now caps
        → MayRefusePlan caps flows.now why) }
{
    answers_are_those_of_the_caps::<u64, E, I, L>();
    allocate_linked_counted(alloc, flows, egress, ingress, link)
}

/// The flows of the records.
fn listed(alloc: Global, records: &[PlanFlow]) -> Result<Vec<Flow<u64>>, Error>
    ensures flows { IfOk result (λ flows. flows.items ≡ map flow_of records.now) }
    ensures refused { IfErr result (λ why. why ≡ Error.OutOfMemory) }
{
    let mut flows = Vec::with_capacity(alloc, records.len())?;
    for record in records {
        flows.push(record.get())?;
    }
    Ok(flows)
}

/// The caps of peers. Of several of one peer the last counts.
fn by_peer(alloc: Global, records: &[PeerCap]) -> Result<BTreeMap<u64, u128>, Error>
    ensures caps { IfOk result (λ caps. (peer : ℕ) → get nat_cmp caps peer ≡ peer_cap records.now peer) }
    ensures refused { IfErr result (λ why. why ≡ Error.OutOfMemory) }
{
    let mut caps = BTreeMap::new(alloc);
    for record in records {
        caps.insert(record.peer, record.cap.get())?;
    }
    Ok(caps)
}

/// The caps of links, by origin and recipient. Of several of one link the last counts.
fn by_link(alloc: Global, records: &[LinkCap]) -> Result<BTreeMap<(u64, u64), u128>, Error>
    ensures caps { IfOk result (λ caps. (origin recipient : ℕ)
        → get (pair_cmp nat_cmp) caps (origin, recipient) ≡ link_cap records.now origin recipient) }
    ensures refused { IfErr result (λ why. why ≡ Error.OutOfMemory) }
{
    let mut caps = BTreeMap::new(alloc);
    for record in records {
        caps.insert((record.origin, record.recipient), record.cap.get())?;
    }
    Ok(caps)
}

/// Writes the rate of each flow, in the order of the flows, as many as there is room for.
fn write_rates(flows: &[PlanFlow], rates: &BTreeMap<u64, Rate>, out: &mut [PlanRate])
    ensures { out.new ≡ written (rates_of flows.now (get nat_cmp rates.now)) out.old }
{
    let count = flows.len().min(out.len());
    for index in 0..count {
        out[index] = PlanRate::of(rates.get(&flows[index].id).copied());
    }
}
