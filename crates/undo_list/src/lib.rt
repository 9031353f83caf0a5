//! A list that is changed in place, and that can be taken back to how it stood at the last mark.
#![tactic(auto)]

mod journal;
mod list;

pub use list::UndoList;
