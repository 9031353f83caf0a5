//! A row of a table.

/// An item, with the owners who send and receive it, which are numbers, and a moment, if it has one.
#[derive(Drop)]
pub struct Row<T> {
    pub sender: usize,
    pub receiver: usize,
    pub item: T,
    pub moment: Option<u64>,
}
