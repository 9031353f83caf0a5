//! Why the program ends early.

use fairness::error::Error;
use std::io;

/// Why the program ends early.
#[derive(Debug, Drop, thiserror::Error)]
pub enum Fault {
    #[error("usage: broadcast N, where N is the number of peers, from 2 to 1000")]
    Usage,
    #[error("{0}")]
    Refused(#[from] Error),
    #[error("{0}")]
    InputOutput(#[from] io::Error),
}
