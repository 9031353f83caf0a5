//! Laws of the simulation and of the event rule, and examples worked out. No code of the scheduler rests on them.
#![tactic(auto)]

pub mod model;
