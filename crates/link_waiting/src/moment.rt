//! When a waiting message may start.
ghost use Rattle.std.specs.Prelude.{◌≡◌};
ghost use Rattle.link_waiting.specs.Idle.FirstMoment.{first_moment};

/// The first moment at which a message of that latency may start, so that it arrives no earlier than the last one.
pub fn ready_moment(last_arrival: Option<u64>, latency: u64) -> u64
    ensures { result ≡ first_moment last_arrival latency }
{
    match last_arrival {
        None => 0,
        Some(last) => last.saturating_sub(latency),
    }
}
