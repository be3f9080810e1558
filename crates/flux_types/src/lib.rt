//! Types of forests: regular expressions with named definitions.
#![tactic(auto)]

mod decider;
mod defs;
mod draft;
mod indices;
mod ranks;
mod search;
mod text;
mod tidied;
mod ty;

pub use decider::{Decider, Verdict};
pub use defs::{Defs, membership_computes, single};
pub use draft::{DefFault, Draft};
pub use text::write_type;
pub use tidied::tidy;
pub use ty::{Ty, copy_of, height, size};

#[cfg(test)]
mod tests;
