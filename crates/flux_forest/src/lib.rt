//! A forest kept as one vector of nodes, and views of runs of its trees.
#![tactic(auto)]

mod forest;
mod mark;
mod node;
mod view;

pub use forest::Forest;
pub use mark::Mark;
pub use node::{Item, Node, push_copies};
pub use view::{First, Head, Trees, View};
