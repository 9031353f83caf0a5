//! The simulation that the scheduler follows: worlds, their time nanosecond by nanosecond, and the event rule. All of it
//! is definitions, in `specs/`, and what follows from them, in `proofs/`; `link_laws` says what follows as laws.
#![tactic(auto)]
