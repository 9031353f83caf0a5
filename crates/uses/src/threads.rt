//! A scheduler that may go to another thread.
ghost use Rattle.std.specs.Prelude.{◌≡◌};

use p2p_simulated::peer::Peer;
use p2p_simulated::transmitter::{Payload, State};
use std::marker::{Send, Sync};

/// What may go to another thread and be read by several, as it is.
fn crossing<T: Send + Sync>(value: T) -> T
    ensures { result ≡ value }
{
    value
}

/// The scheduler as it is. It may go to another thread, and be read by several, where peers may, and what messages are
/// given as: `crossing` asks for both.
pub fn between_threads<P: Peer + Send + Sync, M: Payload + Send + Sync>(
    state: State<P, M>,
) -> State<P, M>
    ensures { result ≡ state }
{
    crossing(state)
}
