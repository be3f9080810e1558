// What the tokens of a script are to the grammar.
ghost use Rattle.std.specs.Prelude.{◌≡◌, ◌+◌, ◌-◌, ◌^◌, ◌<◌, ◌≤◌, ℕ, List, ◌++◌, Some, length, slice_range, IfOk, OnOk, OnErr};
ghost use Rattle.flux_atom.specs.declared.atom.Atom.{Atom};
ghost use Rattle.flux_atom.specs.Names.{with_text, IsName, IsTable};
ghost use Rattle.flux_atom.specs.Spelling.{IsLiteral};
ghost use Rattle.flux_grammar.specs.Lexemes.{ArePieces, IsLexeme, NamesText};
ghost use Rattle.flux_grammar.specs.Tokens.{AreTokens, IsToken};
ghost use Rattle.flux_syntax.specs.Learnt.{learnt, with_name, written_name};

use crate::words::{keyword, sign, soft, truth};
use flux_atom::{Atom, Lit, Name, Names, read_literal};
use flux_grammar::{Lexeme, Piece, Token, TokenKind};
use std::alloc::{AllocError, Global};

// What the tokens of a script are to the grammar. The table learns the names that they write, in
// the order of the text.
pub(crate) fn pieces(
    alloc: Global,
    bytes: &[u8],
    tokens: &[Token],
    names: &mut Names,
) -> Result<Vec<Piece>, AllocError>
    requires tokens { AreTokens bytes.now tokens.now }
    requires room { length names.old + length bytes.now < 2 ^ 32 - 1 }
    ensures ok { IfOk result (λ pieces. ArePieces names.new bytes.now tokens.now pieces.items) }
    ensures learnt { OnOk result (names.new ≡ learnt bytes.now tokens.now names.old) }
    ensures grown { (more : List (List ℕ)) × (names.new ≡ names.old ++ more) }
    ensures room { length names.new ≤ length names.old + length bytes.now }
    ensures table { IsTable names.new }
{
    // Each name that is learnt takes a byte.
    let held = names.len();
    prove!(bytes.len() < u32::MAX as usize - held);
    let mut pieces = Vec::with_capacity(alloc, tokens.len())?;
    for token in tokens {
        let text = text_of(bytes, token);
        let lexeme = lexeme(alloc, token.kind, text, names)?;
        pieces.push(Piece {
            lexeme,
            span: token.span,
        })?;
    }
    Ok(pieces)
}

fn text_of<'a>(bytes: &'a [u8], token: &Token) -> &'a [u8]
    requires ordered { token.now.span.from ≤ token.now.span.to }
    requires within { token.now.span.to ≤ length bytes.now }
    ensures text { result.now ≡ slice_range bytes.now token.now.span.from token.now.span.to }
    ensures short { length result.now ≤ length bytes.now }
{
    &bytes[token.span.from as usize..token.span.to as usize]
}

// What a token of the kind and the text is. The table learns the name that it writes.
fn lexeme(
    alloc: Global,
    kind: TokenKind,
    text: &[u8],
    names: &mut Names,
) -> Result<Lexeme, AllocError>
    requires token { IsToken kind text.now }
    requires short { length text.now < 2 ^ 32 - 1 }
    requires table { IsTable names.old }
    requires room { length names.old < 2 ^ 32 - 1 }
    ensures lexeme { IfOk result (IsLexeme names.new kind text.now) }
    ensures learnt { OnOk result (names.new ≡ with_name names.old (written_name kind text.now)) }
    ensures unchanged { OnErr result (names.new ≡ names.old) }
    ensures table { IsTable names.new }
{
    match kind {
        TokenKind::Word => word(text, names),
        TokenKind::Quoted => quoted(text, names),
        TokenKind::Var => variable(text, names),
        TokenKind::Str | TokenKind::Number => {
            let atom = literal(alloc, text)?;
            Ok(Lexeme::Literal(atom))
        }
        TokenKind::Sign => match sign(text) {
            Some(sign) => Ok(Lexeme::Sign(sign)),
            None => unreachable!(),
        },
    }
}

// A word: a keyword, a truth value, or a name.
fn word(text: &[u8], names: &mut Names) -> Result<Lexeme, AllocError>
    requires name { IsName text.now }
    requires table { IsTable names.old }
    requires room { length names.old < 2 ^ 32 - 1 }
    ensures lexeme { IfOk result (IsLexeme names.new TokenKind.Word text.now) }
    ensures learnt { OnOk result
        (names.new ≡ with_name names.old (written_name TokenKind.Word text.now)) }
    ensures unchanged { OnErr result (names.new ≡ names.old) }
    ensures table { IsTable names.new }
{
    if let Some(word) = keyword(text) {
        return Ok(Lexeme::Reserved(word));
    }
    if let Some(truth) = truth(text) {
        return Ok(Lexeme::Literal(Atom::Bool(truth)));
    }
    let name = learn(text, names)?;
    match soft(text) {
        Some(word) => Ok(Lexeme::Soft(word, name)),
        None => Ok(Lexeme::Word(name)),
    }
}

// A label between quotes.
fn quoted(text: &[u8], names: &mut Names) -> Result<Lexeme, AllocError>
    requires quoted { IsToken TokenKind.Quoted text.now }
    requires room { length names.old < 2 ^ 32 - 1 }
    ensures lexeme { IfOk result (IsLexeme names.new TokenKind.Quoted text.now) }
    ensures learnt { OnOk result
        (names.new ≡ with_name names.old (written_name TokenKind.Quoted text.now)) }
    ensures unchanged { OnErr result (names.new ≡ names.old) }
    ensures table { IsTable names.new }
{
    let name = learn(&text[1..text.len() - 1], names)?;
    Ok(Lexeme::Quoted(name))
}

// A variable, whose name stands behind the `$`.
fn variable(text: &[u8], names: &mut Names) -> Result<Lexeme, AllocError>
    requires variable { IsToken TokenKind.Var text.now }
    requires room { length names.old < 2 ^ 32 - 1 }
    ensures lexeme { IfOk result (IsLexeme names.new TokenKind.Var text.now) }
    ensures learnt { OnOk result
        (names.new ≡ with_name names.old (written_name TokenKind.Var text.now)) }
    ensures unchanged { OnErr result (names.new ≡ names.old) }
    ensures table { IsTable names.new }
{
    let name = learn(&text[1..], names)?;
    Ok(Lexeme::Var(name))
}

// The name of a text, which the table learns.
fn learn(text: &[u8], names: &mut Names) -> Result<Name, AllocError>
    requires name { IsName text.now }
    requires room { length names.old < 2 ^ 32 - 1 }
    ensures place { IfOk result (λ name. NamesText names.new name text.now) }
    ensures added { OnOk result (names.new ≡ with_text names.old text.now) }
    ensures unchanged { OnErr result (names.new ≡ names.old) }
    ensures table { IsTable names.new }
{
    let Ok(text) = str::from_utf8(text) else {
        unreachable!()
    };
    names.intern(text)
}

// The atom whose literal the text is.
fn literal(alloc: Global, text: &[u8]) -> Result<Atom, AllocError>
    requires literal { (atom : Atom) × IsLiteral text.now atom }
    requires short { length text.now < 2 ^ 32 - 1 }
    ensures { IfOk result (λ found. (atom : Atom) → IsLiteral text.now atom → found ≡ atom) }
{
    match read_literal(alloc, text, 0) {
        Lit::Found(atom, _) => Ok(atom),
        Lit::Not(_) => unreachable!(),
        Lit::Memory(error) => Err(error),
    }
}
