//! The text of scripts: their tokens, what they are to the grammar, and what they read as, by
//! rules. Definitions and laws, and hardly any code.
#![tactic(auto)]

mod laws;
mod lexeme;
mod token;
mod tree;

pub use laws::{
    names_are_of_pieces, normal_form_is_unique, normal_form_keeps_names, pieces_are_unique,
    prefixes_fit, readings_are_unique, readings_fit, tokens_are_unique,
};
pub use lexeme::{Keyword, Lexeme, Piece, Sign, Soft};
pub use token::{Token, TokenKind};
pub use tree::{
    Expr, Mark, ParamDef, Path, ProcDef, QueryStep, Repetition, Script, Step, Stmt, TestText,
    TypeDef, TypeText,
};
