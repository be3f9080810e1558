//! The core of the update language, after James Cheney, "FLUX: Functional Updates for XML" (ICFP
//! 2008), and its queries, after μXQ: what statements make of a forest, what queries give, and the
//! types of queries, by rules. Definitions and laws, and no code.
#![tactic(auto)]

mod ask;
mod laws;

pub use ask::{Span, Test, Var};
pub use laws::{
    derivation_goes_deeper, derivation_is_computed, edits_grow, equality_computes,
    excess_is_computed, numbered_derivation_is_computed, numbers_add_nothing,
    query_typing_is_unique, run_is_unique, typed_queries_have_values,
};
