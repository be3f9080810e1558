// The tokens of a script.

use flux_calculus::Span;

/// What a token is.
#[derive(Clone, Copy, Debug, PartialEq, Eq)]
pub enum TokenKind {
    /// A name, taken as long as possible; a reserved word too.
    Word,
    /// A label between single quotes, which no longer need be told from the reserved words.
    Quoted,
    /// `$` and the name behind it.
    Var,
    /// A text between double quotes.
    Str,
    /// A whole number of 64 bits.
    Number,
    /// A sign, taken as long as possible.
    Sign,
}

/// A token of a script and where its text stands, quotes and `$` with it.
#[derive(Clone, Copy, Debug, PartialEq, Eq)]
pub struct Token {
    pub kind: TokenKind,
    pub span: Span,
}
