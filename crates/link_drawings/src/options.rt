//! What is asked of a run.
use crate::caps::Side;
use crate::field::Lines;
use crate::table::Table;
use std::alloc::Global;

/// What is written of a run.
#[derive(Clone, Copy, Debug, PartialEq, Eq)]
pub enum Form {
    /// A picture: one SVG.
    Picture,
    /// A page with a picture that can be moved and zoomed: one HTML file.
    Page,
    /// A table.
    Table(Table, Lines),
}

/// What is asked of a run.
#[derive(Debug, Drop)]
pub struct Options {
    pub form: Form,
    /// What stands above the picture.
    pub title: String,
    /// Only rows of these peers are shown; where there are none, those of all.
    pub peers: Vec<u64>,
    /// The first moment that is shown, in nanoseconds; where there is none, that of the first call.
    pub from: Option<u64>,
    /// The last moment that is shown; where there is none, that of the last event or arrival.
    pub until: Option<u64>,
}

impl Options {
    /// A picture of all of it.
    pub fn new(alloc: Global) -> Options {
        Options {
            form: Form::Picture,
            title: String::new(alloc),
            peers: Vec::new(alloc),
            from: None,
            until: None,
        }
    }

    /// Whether rows of that peer are shown.
    pub(crate) fn shows(&self, peer: u64) -> bool {
        self.peers.is_empty() || self.peers.contains(&peer)
    }

    /// Whether the row of a side is shown.
    pub(crate) fn shows_side(&self, side: Side) -> bool {
        match side {
            Side::Egress(peer) | Side::Ingress(peer) => self.shows(peer),
            Side::Link(origin, recipient) => self.shows_pair(origin, recipient),
        }
    }

    /// Whether the row of that pair is shown.
    pub(crate) fn shows_pair(&self, origin: u64, recipient: u64) -> bool {
        self.shows(origin) || self.shows(recipient)
    }
}
