//! The types of statements and the acceptance of scripts, after James Cheney, "FLUX: Functional
//! Updates for XML" (ICFP 2008): the type of what a statement makes of the forests of a type, or
//! the first fault.
#![tactic(auto)]

mod call;
mod leaf;
mod one;
mod statement;
mod update_type;

pub use update_type::type_update;
