//! Rates under caps that a map holds.
ghost use Rattle.std.specs.Prelude.{IfOk};
ghost use Rattle.std.specs.BTreeMap.{get};
ghost use Rattle.std.specs.Ordering.{nat_cmp};
ghost use Rattle.p2p_simulated.specs.Fairness.UnderCaps.{IsFairById};
ghost use Rattle.uses.specs.Senders.{sending, SendersKeepToCaps};

use p2p_simulated::bandwidth::laws::a_side_keeps_to_its_cap;
use p2p_simulated::bandwidth::{Flow, Rate, allocate};
use p2p_simulated::error::Error;
use std::alloc::Global;
use std::collections::BTreeMap;

/// The fair rates of the flows, where the map holds what each peer may send in a second, and
/// nothing else is limited.
///
/// # Errors
///
/// As of `allocate`.
pub fn rates_of_senders(
    alloc: Global,
    flows: &[Flow<u64>],
    egress: &BTreeMap<u64, u128>,
) -> Result<BTreeMap<u64, Rate>, Error>
    ensures fair { IfOk result (λ rates. IsFairById nat_cmp (sending (get nat_cmp egress.now)) flows.now
        (get nat_cmp rates)) }
{
    allocate(alloc, flows, |peer| egress.get(peer).copied(), |_peer| None)
}

/// The same rates, for whoever plans by senders: the flows of one get no more than its cap
/// together.
///
/// # Errors
///
/// As of `allocate`.
pub fn rates_within_caps(
    alloc: Global,
    flows: &[Flow<u64>],
    egress: &BTreeMap<u64, u128>,
) -> Result<BTreeMap<u64, Rate>, Error>
    ensures kept { IfOk result (λ rates. SendersKeepToCaps nat_cmp (get nat_cmp egress.now) flows.now
        (get nat_cmp rates)) }
{
    a_side_keeps_to_its_cap::<u64>();
    rates_of_senders(alloc, flows, egress)
}
