//! What is sent in the workload.
ghost use Rattle.std.specs.Prelude.{◌≡◌, length, IfOk};
ghost use Rattle.std.specs.List.{AllZip};
ghost use Rattle.broadcast.specs.Links.{IsVoteOver};

use crate::chance::Chance;
use crate::link::{Link, draw_links};
use bytes::Bytes;
use fairness::error::Error;
use link_scheduler::transmitter::Outgoing;
use std::alloc::Global;

/// The bytes of a block.
const BLOCK: usize = 1_000_000;

/// The fewest bytes of a vote.
const SHORTEST_VOTE: u64 = 100;

/// The most bytes of a vote.
const LONGEST_VOTE: u64 = 299;

/// The links between peers, and the bytes that go over them.
#[derive(Drop)]
pub struct Workload {
    links: Vec<Link>,
    /// Those of a block. A vote has the first of them.
    bytes: Bytes,
    ghost long: { length bytes ≡ 1000000 },
}

impl Workload {
    /// Draws the links of so many peers.
    pub fn draw(alloc: Global, chance: &mut Chance, peers: u64) -> Result<Workload, Error> {
        let links = draw_links(alloc, chance, peers)?;
        let bytes = Bytes::from_vec(vec![in alloc; 0u8; BLOCK]?)?;
        Ok(Workload { links, bytes })
    }

    /// A block of the leader to each other peer.
    pub fn blocks(&self, alloc: Global, leader: u64) -> Result<Vec<Outgoing<u64>>, Error> {
        let mut blocks = Vec::new(alloc);
        for link in &self.links {
            if link.origin == leader {
                blocks.push(link.message(leader, self.bytes.clone()?))?;
            }
        }
        Ok(blocks)
    }

    /// A vote of each peer to each other, on the block of the leader. Draws their lengths.
    pub fn votes(
        &self,
        alloc: Global,
        chance: &mut Chance,
        leader: u64,
    ) -> Result<Vec<Outgoing<u64>>, Error>
        ensures over { IfOk result (λ votes. AllZip (IsVoteOver leader) self.now.links.items votes.items) }
    {
        let mut votes = Vec::with_capacity(alloc, self.links.len())?;
        for link in &self.links {
            let length = chance.between(SHORTEST_VOTE, LONGEST_VOTE);
            let bytes = self.bytes.slice(..length as usize)?;
            votes.push(link.message(leader, bytes))?;
        }
        Ok(votes)
    }
}
