// What a lexeme is.
ghost use Rattle.std.specs.Prelude.{◌≡◌, ◌↔◌, Some, IsTrue};
ghost use Rattle.flux_grammar.specs.declared.lexeme.Lexeme.TheVariants.{Reserved, Sign as Signed};
ghost use Rattle.flux_syntax.specs.At.{next_word, next_quoted, next_soft, next_var};

use flux_atom::Name;
use flux_grammar::{Keyword, Lexeme, Sign, Soft};

pub(crate) fn is_sign(lexeme: &Lexeme, sign: Sign) -> bool
    ensures { IsTrue result ↔ (lexeme.now ≡ Signed sign) }
{
    match lexeme {
        Lexeme::Sign(here) => *here == sign,
        Lexeme::Reserved(_)
        | Lexeme::Word(_)
        | Lexeme::Soft(_, _)
        | Lexeme::Quoted(_)
        | Lexeme::Var(_)
        | Lexeme::Literal(_) => false,
    }
}

pub(crate) fn is_keyword(lexeme: &Lexeme, keyword: Keyword) -> bool
    ensures { IsTrue result ↔ (lexeme.now ≡ Reserved keyword) }
{
    match lexeme {
        Lexeme::Reserved(here) => *here == keyword,
        Lexeme::Sign(_)
        | Lexeme::Word(_)
        | Lexeme::Soft(_, _)
        | Lexeme::Quoted(_)
        | Lexeme::Var(_)
        | Lexeme::Literal(_) => false,
    }
}

pub(crate) fn word(lexeme: &Lexeme) -> Option<Name>
    ensures { result ≡ next_word (Some lexeme.now) }
{
    match lexeme {
        Lexeme::Word(name) => Some(*name),
        Lexeme::Reserved(_)
        | Lexeme::Sign(_)
        | Lexeme::Soft(_, _)
        | Lexeme::Quoted(_)
        | Lexeme::Var(_)
        | Lexeme::Literal(_) => None,
    }
}

pub(crate) fn quoted(lexeme: &Lexeme) -> Option<Name>
    ensures { result ≡ next_quoted (Some lexeme.now) }
{
    match lexeme {
        Lexeme::Quoted(name) => Some(*name),
        Lexeme::Reserved(_)
        | Lexeme::Sign(_)
        | Lexeme::Soft(_, _)
        | Lexeme::Word(_)
        | Lexeme::Var(_)
        | Lexeme::Literal(_) => None,
    }
}

pub(crate) fn soft(lexeme: &Lexeme) -> Option<(Soft, Name)>
    ensures { result ≡ next_soft (Some lexeme.now) }
{
    match lexeme {
        Lexeme::Soft(soft, name) => Some((*soft, *name)),
        Lexeme::Reserved(_)
        | Lexeme::Sign(_)
        | Lexeme::Word(_)
        | Lexeme::Quoted(_)
        | Lexeme::Var(_)
        | Lexeme::Literal(_) => None,
    }
}

pub(crate) fn variable(lexeme: &Lexeme) -> Option<Name>
    ensures { result ≡ next_var (Some lexeme.now) }
{
    match lexeme {
        Lexeme::Var(name) => Some(*name),
        Lexeme::Reserved(_)
        | Lexeme::Sign(_)
        | Lexeme::Word(_)
        | Lexeme::Soft(_, _)
        | Lexeme::Quoted(_)
        | Lexeme::Literal(_) => None,
    }
}
