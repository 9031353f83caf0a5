//! Networks as text, for tests and the program `networks`.
//!
//! A network is two words. The first has the caps of the links, parted by commas, with `-` for none. The
//! second has the routes of the flows, parted by semicolons, and a route its links, parted by commas. `.`
//! is a route without links, and `none` a network without flows. Weights are one more word, parted by commas.
#![tactic(auto)]

use std::alloc::{AllocError, Global};
use thiserror::Error;

/// Why a text is no network.
#[derive(Debug, Drop, Error)]
pub enum Fault {
    /// Some word of it is none of a network.
    #[error("not a network")]
    Word,
    /// Memory was refused.
    #[error(transparent)]
    Memory(#[from(alloc)] AllocError),
}

/// The cap that a word says.
fn cap(word: &str) -> Result<Option<u128>, Fault> {
    if word == "-" {
        return Ok(None);
    }
    Ok(Some(word.parse::<u128>().ok().ok_or(Fault::Word)?))
}

/// The caps that a text lists.
pub fn caps(alloc: Global, text: &str) -> Result<Vec<Option<u128>>, Fault> {
    let mut caps = Vec::new(alloc);
    for word in text.split(',') {
        caps.push(cap(word)?)?;
    }
    Ok(caps)
}

/// The links of one route.
fn route(alloc: Global, text: &str) -> Result<Vec<usize>, Fault> {
    let mut route = Vec::new(alloc);
    if text != "." {
        for word in text.split(',') {
            route.push(word.parse::<usize>().ok().ok_or(Fault::Word)?)?;
        }
    }
    Ok(route)
}

/// The routes that a text lists.
pub fn routes(alloc: Global, text: &str) -> Result<Vec<Vec<usize>>, Fault> {
    let mut routes = Vec::new(alloc);
    if text != "none" {
        for word in text.split(';') {
            routes.push(route(alloc, word)?)?;
        }
    }
    Ok(routes)
}

/// The weights that a text lists.
pub fn weights(alloc: Global, text: &str) -> Result<Vec<u64>, Fault> {
    let mut weights = Vec::new(alloc);
    if text != "none" {
        for word in text.split(',') {
            weights.push(word.parse::<u64>().ok().ok_or(Fault::Word)?)?;
        }
    }
    Ok(weights)
}
