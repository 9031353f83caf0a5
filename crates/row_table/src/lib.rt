//! Rows in order of coming, each with an item, who sends it and who receives it, and a moment that may be missing.
//! They are changed in place, and can be taken back as a whole to how they stood at the last mark.
#![tactic(auto)]

mod filled;
mod guesses;
mod index;
mod parts;
mod row;
mod slot_list;
mod table;

pub use row::Row;
pub use table::RowTable;
