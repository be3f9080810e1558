//! Inclusion of types, decided by derivative goals.
#![tactic(auto)]

mod after;
mod goal;
mod goals;
mod laws;
mod pairs;
mod part;
mod search;
mod sets;
mod table;

pub use goals::Goals;
pub use laws::goals_fail_where_shown;
