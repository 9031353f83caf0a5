//! What a call does at its moment.
use crate::outgoing::Outgoing;

/// What a call does at its moment: each is made by the function of `State` that has its name.
#[derive(Drop)]
pub enum Change<'a, P, M> {
    /// The caps of a peer are set.
    Limit {
        peer: &'a P,
        egress: Option<usize>,
        ingress: Option<usize>,
    },
    /// The cap of an ordered pair is set.
    LimitLink {
        origin: &'a P,
        recipient: &'a P,
        cap: Option<usize>,
    },
    /// A message is sent.
    Enqueue(Outgoing<P, M>),
    /// Messages are sent, one after another.
    EnqueueAll(Vec<Outgoing<P, M>>),
    /// Time goes on to that moment.
    Advance,
}
