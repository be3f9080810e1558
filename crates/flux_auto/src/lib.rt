//! An automaton of types: which forests are members, and a member of each type that has one.
#![tactic(auto)]

mod arcs;
mod auto;
mod block;
mod close;
mod content;
mod edge;
mod linear;
mod make;
mod nullable;
mod part;
mod profiles;
mod recipe;
mod run;
mod set;
mod sets;
mod table;
mod witness;
mod worklist;

pub use arcs::{Arcs, Leap};
pub use auto::{Auto, Start};
pub use block::Block;
pub use content::is_same;
pub use edge::Edge;
pub use part::Part;
pub use recipe::{Recipe, build};
pub use set::Set;
pub use sets::fired;

#[cfg(test)]
mod tests;
