//! The normal form of a script: what it says in the core language, or what is wrong with its
//! names, its types, its calls and its nesting.
#![tactic(auto)]

mod bodies;
mod calls;
mod fault;
mod headers;
mod levels;
mod paths;
mod procedures;
mod queries;
mod script;
mod statements;
mod types;
mod walk;
mod written;

pub use fault::NormFault;
pub use script::normal;
