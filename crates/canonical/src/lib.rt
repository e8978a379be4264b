// Payloads put in order: written with their dictionaries sorted by key at every level (document 02, request 06).
// The sorter takes any bytes: what is bad is refused by the numbers of the documents, and a refusal writes no byte.
#![tactic(auto)]

mod select;
mod sorter;
mod write;

pub use sorter::{SortRefusal, sort};
