//! An ordered pair of peers.
ghost use Rattle.std.specs.Prelude.{◌≡◌, true, IfOk, IfErr};
ghost use Rattle.fairness.specs.Sides.Subjects.{same_peer};

use fairness::error::Error;
use fairness::peer::Peer;

/// An ordered pair of peers.
#[derive(Drop)]
pub struct PeerPair<P> {
    /// Who sends.
    pub origin: P,
    /// Who receives.
    pub recipient: P,
}

impl<P: Peer> PeerPair<P> {
    /// The pair of two peers, which are cloned.
    pub fn new(origin: &P, recipient: &P) -> Result<PeerPair<P>, Error>
        ensures origin { IfOk result (λ key. same_peer P.cmp origin.now key.origin ≡ true) }
        ensures recipient { IfOk result (λ key. same_peer P.cmp recipient.now key.recipient ≡ true) }
        ensures refused { IfErr result (λ e. e ≡ Error.OutOfMemory) }
    {
        Ok(PeerPair {
            origin: origin.clone_peer().ok_or(Error::OutOfMemory)?,
            recipient: recipient.clone_peer().ok_or(Error::OutOfMemory)?,
        })
    }
}
