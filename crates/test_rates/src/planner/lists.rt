//! Lists of flows and caps in a fixed order that looks like none.
use super::network::{Cap, Network, Side};
use fairness::bandwidth::Flow;
use std::alloc::Global;
use std::test::Fail;

/// Numbers of which each is the one before times 48271, modulo 2^31 - 1.
#[derive(Clone, Copy)]
pub struct Chance(pub u64);

impl Chance {
    fn next(&mut self) -> u64 {
        self.0 = (self.0 % 2147483647).wrapping_mul(48271) % 2147483647;
        self.0
    }

    /// A number below the bound, or zero where that is zero.
    fn below(&mut self, bound: u64) -> u64 {
        self.next().checked_rem(bound).unwrap_or(0)
    }

    /// A number of any size up to 128 bits.
    fn wide(&mut self) -> u128 {
        let mut wide: u128 = 0;
        for _ in 0..5 {
            wide = wide
                .wrapping_mul(2147483648)
                .wrapping_add(self.next() as u128);
        }
        for _ in 0..self.below(128) {
            wide /= 2;
        }
        wide
    }
}

/// How lists are made.
#[derive(Clone, Copy)]
pub struct Kind {
    /// The most flows of a list, at least one.
    pub flows: u64,
    /// The number of peers.
    pub peers: u64,
    /// Whether caps are of any size up to 128 bits, or at most 12.
    pub wide: bool,
    /// Whether links have caps too.
    pub linked: bool,
    /// Whether flows may have equal ids.
    pub repeated: bool,
}

/// Flows and caps.
pub struct List {
    pub flows: Vec<Flow<u64>>,
    pub caps: Vec<Cap>,
}

impl Drop for List {
    /// Lets go of what it holds.
    #[inline(always)]
    fn drop(self) {
        let List { flows, caps } = self;
        drop(flows);
        drop(caps);
    }
}

impl List {
    pub fn network(&self) -> Network<'_> {
        Network {
            flows: &self.flows,
            caps: &self.caps,
        }
    }
}

/// The next list.
pub fn next_list(alloc: Global, chance: &mut Chance, kind: &Kind) -> Result<List, Fail> {
    Ok(List {
        flows: next_flows(alloc, chance, kind)?,
        caps: next_caps(alloc, chance, kind)?,
    })
}

fn next_flows(alloc: Global, chance: &mut Chance, kind: &Kind) -> Result<Vec<Flow<u64>>, Fail> {
    let mut flows = Vec::new(alloc);
    let last = chance.below(kind.flows);
    for place in 0..last.saturating_add(1) {
        let id = if kind.repeated {
            chance.below(last)
        } else {
            place
        };
        flows.push(Flow {
            id,
            origin: chance.below(kind.peers),
            recipient: chance.below(kind.peers),
            delivered: chance.below(5) != 0,
        })?;
    }
    Ok(flows)
}

fn next_caps(alloc: Global, chance: &mut Chance, kind: &Kind) -> Result<Vec<Cap>, Fail> {
    let mut caps = Vec::new(alloc);
    for peer in 0..kind.peers {
        add_cap(&mut caps, chance, kind, Side::Egress(peer))?;
        add_cap(&mut caps, chance, kind, Side::Ingress(peer))?;
        if kind.linked {
            for recipient in 0..kind.peers {
                add_cap(&mut caps, chance, kind, Side::Link(peer, recipient))?;
            }
        }
    }
    Ok(caps)
}

/// Gives three of four sides a cap.
fn add_cap(caps: &mut Vec<Cap>, chance: &mut Chance, kind: &Kind, side: Side) -> Result<(), Fail> {
    if chance.below(4) != 0 {
        caps.push(Cap(side, next_cap(chance, kind.wide)))?;
    }
    Ok(())
}

fn next_cap(chance: &mut Chance, wide: bool) -> u128 {
    if !wide {
        return chance.below(13) as u128;
    }
    match chance.below(32) {
        0 => 0,
        1 => u128::MAX,
        _ => chance.wide(),
    }
}
