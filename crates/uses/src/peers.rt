//! A peer type of the caller's own.
ghost use Rattle.p2p_simulated.specs.Calls.State.{IsMade};
ghost use Rattle.p2p_simulated.specs.Simulation.Calls.{call_advance};
ghost use Rattle.std.specs.BTreeMap.{get};
ghost use Rattle.std.specs.Ordering.{nat_cmp};
ghost use Rattle.std.specs.Prelude.{IfOk};
ghost use Rattle.uses.specs.Senders.{SendersKeepToCaps};
ghost use Rattle.uses.specs.contracts.peers.ValidatorOrd.TheImpl.{ghosts};

use p2p_simulated::bandwidth::laws::a_side_keeps_to_its_cap;
use p2p_simulated::bandwidth::{Flow, Rate, allocate};
use p2p_simulated::error::Error;
use p2p_simulated::peer::Peer;
use p2p_simulated::transmitter::{Completion, State};
use std::alloc::Global;
use std::collections::BTreeMap;

/// A validator of a region. Pairs go by region, and then by number.
#[derive(Clone, Copy, Debug, PartialEq, Eq, PartialOrd, Ord)]
pub struct Validator {
    pub region: u16,
    pub number: u32,
}

impl Peer for Validator {
    fn clone_peer(&self) -> Option<Validator> {
        Some(*self)
    }

    fn hint(&self) -> u64 {
        u64::from(self.number)
    }
}

/// What completes until that moment between validators.
///
/// # Errors
///
/// As of `State::advance`.
pub fn completed(
    state: &mut State<Validator>,
    now: u64,
) -> Result<Vec<Completion<Validator>>, Error>
    ensures made { IfOk result (λ done. IsMade state.old (call_advance now) done.items state.new) }
{
    state.advance(now)
}

/// The fair rates of flows between validators, where the map holds what each may send in a second:
/// the flows of one get no more than its cap together.
///
/// # Errors
///
/// As of `allocate`.
pub fn rates_of_validators(
    alloc: Global,
    flows: &[Flow<Validator>],
    egress: &BTreeMap<Validator, u128>,
) -> Result<BTreeMap<u64, Rate>, Error>
    ensures kept { IfOk result (λ rates. SendersKeepToCaps ghosts.cmp (get ghosts.cmp egress.now) flows.now
        (get nat_cmp rates)) }
{
    a_side_keeps_to_its_cap::<Validator>();
    Ok(allocate(alloc, flows, |peer| egress.get(peer).copied(), |_peer| None)?)
}
