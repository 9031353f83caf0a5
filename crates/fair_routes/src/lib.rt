//! Max-min fair rates of flows over any network: each flow has a route, a list of links.
#![tactic(auto)]

pub mod routes;
