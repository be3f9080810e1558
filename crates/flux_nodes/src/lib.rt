//! A document as a table of linked nodes, which keep their numbers while it is edited.
#![tactic(auto)]

mod build;
mod cell;
mod copying;
mod freeing;
mod laws;
mod links;
mod parents;
mod root;
mod run;
mod table;
mod taking;

pub use cell::{Cell, Kind, NodeId};
pub use laws::freeing_takes_back;
pub use run::{Place, Run};
pub use table::Table;

#[cfg(test)]
mod tests;
