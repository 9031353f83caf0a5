//! Laws of max-min fair rates: of any sides, of flows over routes, and by weight. No code that runs rests on them.
#![tactic(auto)]

pub mod rates;
pub mod routes;
pub mod weighted;
