//! Queries over forests, after μXQ (Colazzo, Ghelli, Manghi, Sartiani): their syntax tree, and the
//! environments that they are evaluated in.
#![tactic(auto)]

mod env;
mod evaluate;
mod query;
mod trees;
mod value;

pub use env::Env;
pub use evaluate::eval;
pub use flux_calculus::{Span, Test, Var};
pub use query::Query;

#[cfg(test)]
mod tests;
