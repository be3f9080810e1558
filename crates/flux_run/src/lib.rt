//! Statements of the core language, carried out on the focus of any editor, with a stack of what is
//! still to be done.
#![tactic(auto)]

mod arguments;
mod control;
mod fault;
mod passing;
mod runs;
mod starts;
mod steps;

pub use fault::RunFault;
pub use runs::{perform, run};

#[cfg(test)]
mod tests;
