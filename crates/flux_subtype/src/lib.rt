//! Inclusion of types, decided by the sets of automaton states that forests can have.
#![tactic(auto)]

mod kept;
mod profiles;
mod search;
mod trees;

pub use profiles::Profiles;

#[cfg(test)]
mod tests;
