//! The tokens of scripts.
#![tactic(auto)]

mod read;
mod state;
mod tokens;

pub use flux_grammar::{Token, TokenKind};
pub use read::{LexFault, lex};
pub use tokens::Tokens;

#[cfg(test)]
mod tests;
