//! What happened in a run, drawn: pictures, pages and tables.
#![tactic(auto)]

mod board;
pub mod caps;
pub mod drawing;
mod exact;
pub mod field;
mod frame;
mod head;
pub mod history;
mod ink;
mod labels;
mod layout;
pub mod options;
mod page;
mod page_text;
mod paint;
mod picture;
mod rows;
mod stacks;
mod sums;
pub mod table;
pub mod track;
