//! The trees of scripts, types and queries, from their tokens.
#![tactic(auto)]

mod labels;
mod lexemes;
mod made;
mod paths;
mod pieces;
#[cfg(test)]
mod pieces_tests;
mod queries;
mod reader;
mod scripts;
mod statements;
#[cfg(test)]
mod tests;
mod trees;
mod types;
mod words;

pub use flux_grammar::{
    Expr, ParamDef, Path, ProcDef, Script, Step, Stmt, TestText, TypeDef, TypeText,
};
pub use trees::{SynFault, parse, parse_query, parse_type};
