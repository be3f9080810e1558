//! The types of queries, after μXQ (Colazzo, Ghelli, Manghi, Sartiani): the type of a query, or the
//! first fault.
#![tactic(auto)]

mod filter;
mod leaf;
mod query;
mod query_type;
#[cfg(test)]
mod tests;

pub use query_type::type_query;
