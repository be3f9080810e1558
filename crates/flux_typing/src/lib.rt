//! The types of statements and the acceptance of scripts, after James Cheney, "FLUX: Functional
//! Updates for XML" (ICFP 2008): rules, and their laws. Definitions, and no code.
#![tactic(auto)]

mod laws;

pub use laws::{
    accepted_scripts_run, outcome_is_unique, results_are_known, typed_statements_run,
    typing_has_outcomes, update_typing_keeps_definitions,
};
