//! What is capped, and how.

/// What a cap holds for.
#[derive(Clone, Copy, Debug, PartialEq, Eq, PartialOrd, Ord)]
pub enum Side {
    /// All that a peer sends.
    Egress(u64),
    /// All that a peer receives.
    Ingress(u64),
    /// All that one peer sends to another.
    Link(u64, u64),
}

impl Side {
    /// Whether a message of that pair counts. One to oneself takes nothing of an ingress cap.
    pub(crate) fn holds(self, origin: u64, recipient: u64) -> bool {
        match self {
            Side::Egress(peer) => origin == peer,
            Side::Ingress(peer) => recipient == peer && origin != peer,
            Side::Link(from, to) => origin == from && recipient == to,
        }
    }

    /// Whether a message that is to be dropped counts. It takes nothing of what its recipient may
    /// receive.
    pub(crate) fn holds_dropped(self) -> bool {
        match self {
            Side::Egress(_) | Side::Link(_, _) => true,
            Side::Ingress(_) => false,
        }
    }
}

/// A cap from a moment on, in bytes a second. None is no cap.
#[derive(Clone, Copy)]
pub(crate) struct Cap {
    pub(crate) from: u64,
    pub(crate) cap: Option<usize>,
}
