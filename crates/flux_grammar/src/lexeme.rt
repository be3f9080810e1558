// The tokens of a script as the grammar reads them.

use flux_atom::{Atom, Name};
use flux_calculus::Span;

/// What a token is to the grammar. A name that a script writes is its number in the table of
/// names.
#[derive(Debug, Drop)]
pub enum Lexeme {
    /// A reserved word other than `true` and `false`.
    Reserved(Keyword),
    Sign(Sign),
    /// A word that is neither reserved nor one of `Soft`.
    Word(Name),
    /// A word that is a label, and something else too where the grammar says so. It has a name as
    /// other words have.
    Soft(Soft, Name),
    /// A label between single quotes.
    Quoted(Name),
    /// A variable, whose name stands without the `$`.
    Var(Name),
    /// A string, a number, `true` or `false`.
    Literal(Atom),
}

/// A lexeme and where its text stands.
#[derive(Debug, Drop)]
pub struct Piece {
    pub lexeme: Lexeme,
    pub span: Span,
}

/// The words `string`, `bool`, `int`, `child` and `any`.
#[derive(Clone, Copy, Debug, PartialEq, Eq)]
pub enum Soft {
    StringWord,
    BoolWord,
    IntWord,
    ChildWord,
    AnyWord,
}

/// The signs, in the order `(` `)` `[` `]` `{` `}` `,` `;` `:` `::` `=` `=>` `<` `/` `*` `+` `?`
/// `|` `.`.
#[derive(Clone, Copy, Debug, PartialEq, Eq)]
pub enum Sign {
    Open,
    Close,
    OpenSquare,
    CloseSquare,
    OpenBrace,
    CloseBrace,
    Comma,
    Semicolon,
    Colon,
    DoubleColon,
    Equal,
    Arrow,
    Less,
    Slash,
    Star,
    Plus,
    Question,
    Bar,
    Dot,
}

/// The reserved words other than `true` and `false`. A word in small letters is named `Query..`
/// here: the words of queries are those.
#[derive(Clone, Copy, Debug, PartialEq, Eq)]
pub enum Keyword {
    Type,
    Procedure,
    Input,
    Output,
    Do,
    Skip,
    Insert,
    Before,
    After,
    As,
    First,
    Last,
    Into,
    Value,
    Delete,
    From,
    Rename,
    To,
    Replace,
    In,
    With,
    Update,
    By,
    If,
    Then,
    Else,
    Let,
    Call,
    Where,
    QueryFor,
    QueryIn,
    QueryReturn,
    QueryLet,
    QueryIf,
    QueryThen,
    QueryElse,
}
