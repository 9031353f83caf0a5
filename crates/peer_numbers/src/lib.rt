//! Numbers for peers, and for ordered pairs of them: 0, 1, 2 and so on, in the order in which they first come.
#![tactic(auto)]

mod ends;
mod hints;
mod numbers;
mod pairs;

pub use numbers::PeerNumbers;
pub use pairs::PairNumbers;
