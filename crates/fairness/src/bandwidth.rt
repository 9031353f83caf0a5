//! What goes from peer to peer, under which caps, and how fast.
ghost use Rattle.std.specs.Prelude.{◌≡◌, IfOk, IfErr};
ghost use Rattle.std.specs.declared.cmp.Ordering.TheVariants.{Equal};

mod equality;
mod time;

use crate::error::Error;
use crate::peer::Peer;
use crate::ratio::Ratio;
pub use equality::rates_are_equal_by_value;
pub use time::{
    draining_splits, duration, nothing_is_left_from_the_least_time_on, there_is_one_duration,
    there_is_one_least_time, transfer,
};

/// Something that goes from one peer to another, as a message while it is sent.
#[derive(Debug, Drop)]
pub struct Flow<P> {
    /// The name under which its rate is answered. Several flows may have one name.
    pub id: u64,
    /// Who sends.
    pub origin: P,
    /// Who is to receive. It may be the origin.
    pub recipient: P,
    /// Whether it arrives. A flow that does not is *dropped*: it takes nothing of what its recipient
    /// may receive.
    pub delivered: bool,
}

impl<P: Peer> Flow<P> {
    /// The same flow, with a clone of each peer.
    ///
    /// # Errors
    ///
    /// `OutOfMemory` where a peer's clone answered none. The flow itself stays as it is.
    pub fn clone(&self) -> Result<Flow<P>, Error>
        ensures id { IfOk result (λ copy. copy.id ≡ self.now.id) }
        ensures origin { IfOk result (λ copy. P.cmp copy.origin self.now.origin ≡ Equal) }
        ensures recipient { IfOk result (λ copy. P.cmp copy.recipient self.now.recipient ≡ Equal) }
        ensures delivered { IfOk result (λ copy. copy.delivered ≡ self.now.delivered) }
        ensures refused { IfErr result (λ e. e ≡ Error.OutOfMemory) }
    {
        Ok(Flow {
            id: self.id,
            origin: self.origin.clone_peer().ok_or(Error::OutOfMemory)?,
            recipient: self.recipient.clone_peer().ok_or(Error::OutOfMemory)?,
            delivered: self.delivered,
        })
    }
}

/// The caps that hold for a flow, in bytes a second. `None` stands for no cap.
#[derive(Clone, Copy, Debug, PartialEq, Eq)]
pub struct FlowCaps {
    /// On all that its origin sends.
    pub egress: Option<u128>,
    /// On all that its recipient receives. That of a dropped flow does not count.
    pub ingress: Option<u128>,
    /// On all that goes from its origin to its recipient.
    pub link: Option<u128>,
}

/// How fast a flow may send.
#[derive(Clone, Copy, Debug, PartialEq, Eq)]
pub enum Rate {
    /// No cap holds for the flow.
    Unlimited,
    /// So many bytes a second.
    Finite(Ratio),
}
