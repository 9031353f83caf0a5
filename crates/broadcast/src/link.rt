//! From whom to whom messages go, and how long they take.
ghost use Rattle.std.specs.Prelude.{◌≡◌, IfOk};
ghost use Rattle.std.specs.List.{All};
ghost use Rattle.link_events.specs.Steps.Outgoing.{outgoing};
ghost use Rattle.broadcast.specs.Links.{IsLinkOf, message_over};

use crate::chance::Chance;
use bytes::Bytes;
use fairness::error::Error;
use link_scheduler::transmitter::Outgoing;
use std::alloc::Global;

/// A millisecond in nanoseconds.
const MILLISECOND: u64 = 1_000_000;

/// From one peer to another.
#[derive(Drop)]
pub struct Link {
    pub origin: u64,
    pub recipient: u64,
    /// From the completion of a message to its arrival, in nanoseconds.
    pub latency: u64,
}

impl Link {
    /// A message over this link.
    pub fn message(&self, channel: u64, bytes: Bytes) -> Outgoing<u64>
        ensures { outgoing result ≡ message_over self.now channel bytes }
    {
        Outgoing {
            origin: self.origin,
            recipient: self.recipient,
            channel,
            message: bytes,
            latency: self.latency,
            should_deliver: true,
        }
    }
}

/// Draws the latency from each peer to each, and answers the links between different ones: by
/// origin, and then by recipient.
pub fn draw_links(alloc: Global, chance: &mut Chance, peers: u64) -> Result<Vec<Link>, Error>
    ensures between { IfOk result (λ links. All (IsLinkOf peers) links.items) }
{
    let mut links = Vec::new(alloc);
    for origin in 0..peers {
        for recipient in 0..peers {
            let latency = chance.between(MILLISECOND, 200 * MILLISECOND);
            if recipient != origin {
                links.push(Link {
                    origin,
                    recipient,
                    latency,
                })?;
            }
        }
    }
    Ok(links)
}
