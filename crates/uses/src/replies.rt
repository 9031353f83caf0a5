//! A list of calls whose replies are those of the simulation.
ghost use Rattle.std.specs.Prelude.{map, IfOk};
ghost use Rattle.std.specs.Ordering.{nat_cmp};
ghost use Rattle.p2p_simulated.specs.Calls.Replay.{reply_of};
ghost use Rattle.p2p_simulated.specs.Simulation.World.{new_world};
ghost use Rattle.p2p_simulated.specs.Simulation.Replies.{Agrees};
ghost use Rattle.uses.specs.Lists.{one_message};

use bytes::Bytes;
use p2p_simulated::error::Error;
use p2p_simulated::replay::{Call, Reply, replay};
use std::alloc::Global;

/// Peer 1 may send so many bytes a second, and sends a message to peer 2. Answers what completes
/// within that time, in nanoseconds.
///
/// # Errors
///
/// `OutOfMemory` where there is no room for the replies.
pub fn one_message_within(
    alloc: Global,
    cap: usize,
    message: Bytes,
    time: u64,
) -> Result<Vec<Reply<u64>>, Error>
    ensures agrees { IfOk result (λ replies.
        Agrees nat_cmp (new_world 0) (one_message cap message time) (map reply_of replies.items)) }
{
    replay(
        alloc,
        &[
            Call::Limit {
                now: 0,
                peer: 1,
                egress: Some(cap),
                ingress: None,
            },
            Call::Enqueue {
                now: 0,
                origin: 1,
                recipient: 2,
                channel: 0,
                message,
                latency: 0,
                should_deliver: true,
            },
            Call::Advance { now: time },
        ],
    )
}
