//! What happens next.
ghost use Rattle.std.specs.Prelude.{◌≡◌};

/// What happens next.
#[derive(Drop)]
pub(crate) enum Event {
    /// A message in flight finishes.
    Finish(u64),
    /// A waiting message starts.
    Start(u64),
}

impl Event {
    ghost use Rattle.link_events.specs.Steps.Due.{event_moment};

    /// When it happens.
    pub(crate) fn moment(&self) -> u64
        ensures { result ≡ event_moment self.now }
    {
        match self {
            Event::Finish(moment) => *moment,
            Event::Start(moment) => *moment,
        }
    }
}
