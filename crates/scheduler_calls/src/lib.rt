//! Lists of calls of a scheduler as text, made and compared with what each is to be answered: for tests.
#![tactic(auto)]

pub mod answers;
pub mod calls;
pub mod text;
