//! A bench of a consensus protocol: one of 24 peers sends a block to all others, then all send a vote to all others,
//! twice.
//!
//! What is to be printed was printed by the Rust original. It stands in `examples/`, and here by its length and a hash.
use super::run_over;
use link_scripts::linkrun::Outcome;
use std::alloc::{AllocError, Global};
use std::process::Abort;

const PEERS: u64 = 24;

const SECOND: u64 = 1_000_000_000;

const MILLISECOND: u64 = 1_000_000;

const MEGABYTE: u64 = 1_000_000;

const FASTEST: u64 = 125_000_000;

/// Numbers that look random and are the same each time: a shift register of 64 bits.
#[derive(Drop)]
struct Chance {
    state: u64,
}

impl Chance {
    fn between(&mut self, least: u64, most: u64) -> u64 {
        let mut state = self.state;
        state ^= state << 13;
        state ^= state >> 7;
        state ^= state << 17;
        self.state = state;
        let bound = most.saturating_sub(least).saturating_add(1).max(1);
        least.saturating_add(state % bound)
    }
}

/// The caps of all peers: equal ones, or mixed ones.
fn caps(script: &mut String, chance: &mut Chance, mixed: bool) -> Result<(), AllocError> {
    for peer in 0..PEERS {
        let mut egress = FASTEST;
        let mut ingress = FASTEST;
        if mixed {
            egress = chance.between(MEGABYTE, FASTEST);
            ingress = chance.between(MEGABYTE, FASTEST);
        }
        writeln!(script, "limit 0 {peer} {egress} {ingress}")?;
    }
    Ok(())
}

/// The latency of each ordered pair of peers, by origin and then by recipient.
fn latencies(alloc: Global, chance: &mut Chance) -> Result<Vec<u64>, AllocError> {
    let mut latencies = Vec::new(alloc);
    for _ in 0..PEERS * PEERS {
        latencies.push(chance.between(MILLISECOND, 200 * MILLISECOND))?;
    }
    Ok(latencies)
}

/// The latency from the one peer to the other.
fn latency(latencies: &[u64], origin: u64, recipient: u64) -> u64 {
    let place = origin.saturating_mul(PEERS).saturating_add(recipient);
    latencies.get(place as usize).copied().unwrap_or(0)
}

/// The block that the peer of the round sends to all others.
fn block(script: &mut String, latencies: &[u64], start: u64, round: u64) -> Result<(), AllocError> {
    for peer in 0..PEERS {
        if peer != round {
            let latency = latency(latencies, round, peer);
            writeln!(
                script,
                "enqueue {start} {round} {peer} {round} 1000000 {latency} 1"
            )?;
        }
    }
    Ok(())
}

/// The vote that a peer sends to another.
fn vote(
    script: &mut String,
    now: u64,
    pair: (u64, u64),
    round: u64,
    size: u64,
    latency: u64,
) -> Result<(), AllocError> {
    let (origin, peer) = pair;
    writeln!(
        script,
        "enqueue {now} {origin} {peer} {round} {size} {latency} 1"
    )?;
    Ok(())
}

/// The votes that a peer sends to all others.
fn votes_of(
    script: &mut String,
    chance: &mut Chance,
    latencies: &[u64],
    now: u64,
    origin: u64,
    round: u64,
) -> Result<(), AllocError> {
    for peer in 0..PEERS {
        if peer != origin {
            let size = chance.between(100, 299);
            let latency = latency(latencies, origin, peer);
            vote(script, now, (origin, peer), round, size, latency)?;
        }
    }
    Ok(())
}

/// A round of four seconds: the block, and the votes three seconds later.
fn one_round(
    script: &mut String,
    chance: &mut Chance,
    latencies: &[u64],
    round: u64,
) -> Result<(), AllocError> {
    let start = round.saturating_mul(4 * SECOND);
    let votes = start.saturating_add(3 * SECOND);
    let end = start.saturating_add(4 * SECOND);
    block(script, latencies, start, round)?;
    writeln!(script, "advance {votes}")?;
    for origin in 0..PEERS {
        votes_of(script, chance, latencies, votes, origin, round)?;
    }
    writeln!(script, "advance {end}")?;
    Ok(())
}

/// The script of two rounds.
fn broadcast(alloc: Global, mixed: bool) -> Result<String, AllocError> {
    let mut script = String::new(alloc);
    let mut chance = Chance {
        state: 0x9e37_79b9_7f4a_7c15 + 2 * PEERS + u64::from(mixed),
    };
    caps(&mut script, &mut chance, mixed)?;
    let latencies = latencies(alloc, &mut chance)?;
    one_round(&mut script, &mut chance, &latencies, 0)?;
    one_round(&mut script, &mut chance, &latencies, 1)?;
    writeln!(script, "advance 36028797018963968\nnext")?;
    Ok(script)
}

/// A hash of the bytes: FNV-1a of 64 bits.
fn hash(bytes: &[u8]) -> u64 {
    let mut hash = 0xcbf2_9ce4_8422_2325;
    for byte in bytes {
        hash = (hash ^ u64::from(*byte)).wrapping_mul(0x100_0000_01b3);
    }
    hash
}

fn expect(rt: &(impl Abort + AllocGlobal), mixed: bool, wanted: u64) {
    let script = broadcast(rt.alloc(), mixed).expect(rt, "no room");
    let mut printed = Vec::new(rt.alloc());
    let ended = run_over(rt.alloc(), script.as_bytes(), &mut printed);
    assert!(rt; ended == Outcome::Whole, "{ended:?}");
    assert!(rt; printed.len() == 31384);
    assert!(rt; hash(&printed) == wanted);
}

#[test]
fn equal_peers_broadcast(rt: HostRuntime) {
    expect(&rt, false, 0xe3d1_0586_dd0b_06ea);
}

#[test]
fn mixed_peers_broadcast(rt: HostRuntime) {
    expect(&rt, true, 0x0488_2c47_8b2d_c052);
}
