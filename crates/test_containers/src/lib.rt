//! Callers of lists that are taken back, of moments in a row and of chains, each short and proved, and tests of these
//! and of tables of rows.
#![tactic(auto)]

#[cfg(test)]
mod chained_rows;
pub mod due_places;
#[cfg(test)]
mod moments;
#[cfg(test)]
mod row_tables;
pub mod rows;
#[cfg(test)]
mod same;
pub mod store;
#[cfg(test)]
mod stores;
#[cfg(test)]
mod undo_lists;
