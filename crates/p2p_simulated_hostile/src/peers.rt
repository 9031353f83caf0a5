//! Peers whose clones can be refused.
use fairness::peer::Peer;
use std::alloc::{AllocError, Global};
use std::cell::Cell;
use std::rc::Rc;

/// Which clone from now on is refused: 1 is the next. At 0 none is, any more.
pub type Fuse = Rc<Cell<u64>>;

/// Counts a clone. Answers whether it is refused.
fn burns(fuse: &Cell<u64>) -> bool {
    let left = fuse.get();
    fuse.set(left.saturating_sub(1));
    left == 1
}

/// A peer that goes by a small number.
pub trait Numbered: Peer {
    /// A value for the peer of that number.
    fn numbered(alloc: Global, number: u8, fuse: &Fuse) -> Result<Self, AllocError>;

    /// The number.
    fn number(&self) -> u8;
}

impl Numbered for u64 {
    fn numbered(_alloc: Global, number: u8, _fuse: &Fuse) -> Result<u64, AllocError> {
        Ok(number as u64)
    }

    fn number(&self) -> u8 {
        u8::try_from(*self).unwrap_or(u8::MAX)
    }
}

/// A peer with a name, of which a clone takes memory. It is known by its number alone.
#[derive(Drop)]
#[derive_where(PartialEq, Eq, PartialOrd, Ord)]
pub struct Name {
    number: u8,
    #[derive_where(skip(EqHashOrd))]
    text: String,
    #[derive_where(skip(EqHashOrd))]
    fuse: Fuse,
}

impl Peer for Name {
    fn clone_peer(&self) -> Option<Name> {
        if burns(&self.fuse) {
            return None;
        }
        Some(Name {
            number: self.number,
            text: self.text.clone().ok()?,
            fuse: self.fuse.clone().ok()?,
        })
    }
}

impl Numbered for Name {
    fn numbered(alloc: Global, number: u8, fuse: &Fuse) -> Result<Name, AllocError> {
        let mut text = String::new(alloc);
        text.push_str("peer")?;
        Ok(Name {
            number,
            text,
            fuse: fuse.clone()?,
        })
    }

    fn number(&self) -> u8 {
        self.number
    }
}
