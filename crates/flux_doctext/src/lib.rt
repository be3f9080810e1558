//! The text of documents.
#![tactic(auto)]

mod laws;
mod read;
mod reader;
mod sign;
mod write;

pub use laws::{
    canonical_text_spells, spelled_forest_is_over_table, spelled_forest_is_unique,
    text_tells_forest,
};
pub use read::{DocFault, read_document};
pub use write::write_forest;

#[cfg(test)]
mod tests;
