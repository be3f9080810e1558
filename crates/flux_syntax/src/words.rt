// The words and the signs that the language knows by their texts.
ghost use Rattle.std.specs.Prelude.{◌≡◌, ◌≢◌, Bool, IfSome, IfNone};
ghost use Rattle.flux_atom.specs.declared.atom.Atom.TheVariants.{Bool as Truth};
ghost use Rattle.flux_atom.specs.Literal.{literal};
ghost use Rattle.flux_grammar.specs.declared.lexeme.Keyword.{Keyword};
ghost use Rattle.flux_grammar.specs.declared.lexeme.Sign.{Sign};
ghost use Rattle.flux_grammar.specs.declared.lexeme.Soft.{Soft};
ghost use Rattle.flux_grammar.specs.Lexemes.{keyword_text, sign_text, soft_text};

use flux_grammar::{Keyword, Sign, Soft};

static KEYWORDS: [Keyword; 36] = [
    Keyword::Type,
    Keyword::Procedure,
    Keyword::Input,
    Keyword::Output,
    Keyword::Do,
    Keyword::Skip,
    Keyword::Insert,
    Keyword::Before,
    Keyword::After,
    Keyword::As,
    Keyword::First,
    Keyword::Last,
    Keyword::Into,
    Keyword::Value,
    Keyword::Delete,
    Keyword::From,
    Keyword::Rename,
    Keyword::To,
    Keyword::Replace,
    Keyword::In,
    Keyword::With,
    Keyword::Update,
    Keyword::By,
    Keyword::If,
    Keyword::Then,
    Keyword::Else,
    Keyword::Let,
    Keyword::Call,
    Keyword::Where,
    Keyword::QueryFor,
    Keyword::QueryIn,
    Keyword::QueryReturn,
    Keyword::QueryLet,
    Keyword::QueryIf,
    Keyword::QueryThen,
    Keyword::QueryElse,
];

static SIGNS: [Sign; 19] = [
    Sign::Open,
    Sign::Close,
    Sign::OpenSquare,
    Sign::CloseSquare,
    Sign::OpenBrace,
    Sign::CloseBrace,
    Sign::Comma,
    Sign::Semicolon,
    Sign::Colon,
    Sign::DoubleColon,
    Sign::Equal,
    Sign::Arrow,
    Sign::Less,
    Sign::Slash,
    Sign::Star,
    Sign::Plus,
    Sign::Question,
    Sign::Bar,
    Sign::Dot,
];

static SOFT_WORDS: [Soft; 5] = [
    Soft::StringWord,
    Soft::BoolWord,
    Soft::IntWord,
    Soft::ChildWord,
    Soft::AnyWord,
];

// The keyword whose text this is, if it is one's.
pub(crate) fn keyword(text: &[u8]) -> Option<Keyword>
    ensures found { IfSome result (λ word. text.now ≡ keyword_text word) }
    ensures none { IfNone result ((word : Keyword) → text.now ≢ keyword_text word) }
{
    for word in &KEYWORDS {
        if keyword_text(word) == text {
            return Some(*word);
        }
    }
    None
}

// The sign whose text this is, if it is one's.
pub(crate) fn sign(text: &[u8]) -> Option<Sign>
    ensures found { IfSome result (λ sign. text.now ≡ sign_text sign) }
    ensures none { IfNone result ((sign : Sign) → text.now ≢ sign_text sign) }
{
    for sign in &SIGNS {
        if sign_text(sign) == text {
            return Some(*sign);
        }
    }
    None
}

// The soft word whose text this is, if it is one's.
pub(crate) fn soft(text: &[u8]) -> Option<Soft>
    ensures found { IfSome result (λ word. text.now ≡ soft_text word) }
    ensures none { IfNone result ((word : Soft) → text.now ≢ soft_text word) }
{
    for word in &SOFT_WORDS {
        if soft_text(word) == text {
            return Some(*word);
        }
    }
    None
}

// The truth value whose literal this is, if it is one's.
pub(crate) fn truth(text: &[u8]) -> Option<bool>
    ensures found { IfSome result (λ truth. text.now ≡ literal (Truth truth)) }
    ensures none { IfNone result ((truth : Bool) → text.now ≢ literal (Truth truth)) }
{
    if text == b"true".as_slice() {
        Some(true)
    } else if text == b"false".as_slice() {
        Some(false)
    } else {
        None
    }
}

fn keyword_text(word: &Keyword) -> &'static [u8]
    ensures { result.now ≡ keyword_text word.now }
{
    match word {
        Keyword::Type => b"TYPE",
        Keyword::Procedure => b"PROCEDURE",
        Keyword::Input => b"INPUT",
        Keyword::Output => b"OUTPUT",
        Keyword::Do => b"DO",
        Keyword::Skip => b"SKIP",
        Keyword::Insert => b"INSERT",
        Keyword::Before => b"BEFORE",
        Keyword::After => b"AFTER",
        Keyword::As => b"AS",
        Keyword::First => b"FIRST",
        Keyword::Last => b"LAST",
        Keyword::Into => b"INTO",
        Keyword::Value => b"VALUE",
        Keyword::Delete => b"DELETE",
        Keyword::From => b"FROM",
        Keyword::Rename => b"RENAME",
        Keyword::To => b"TO",
        Keyword::Replace => b"REPLACE",
        Keyword::In => b"IN",
        Keyword::With => b"WITH",
        Keyword::Update => b"UPDATE",
        Keyword::By => b"BY",
        Keyword::If => b"IF",
        Keyword::Then => b"THEN",
        Keyword::Else => b"ELSE",
        Keyword::Let => b"LET",
        Keyword::Call => b"CALL",
        Keyword::Where => b"WHERE",
        Keyword::QueryFor => b"for",
        Keyword::QueryIn => b"in",
        Keyword::QueryReturn => b"return",
        Keyword::QueryLet => b"let",
        Keyword::QueryIf => b"if",
        Keyword::QueryThen => b"then",
        Keyword::QueryElse => b"else",
    }
}

fn sign_text(sign: &Sign) -> &'static [u8]
    ensures { result.now ≡ sign_text sign.now }
{
    match sign {
        Sign::Open => b"(",
        Sign::Close => b")",
        Sign::OpenSquare => b"[",
        Sign::CloseSquare => b"]",
        Sign::OpenBrace => b"{",
        Sign::CloseBrace => b"}",
        Sign::Comma => b",",
        Sign::Semicolon => b";",
        Sign::Colon => b":",
        Sign::DoubleColon => b"::",
        Sign::Equal => b"=",
        Sign::Arrow => b"=>",
        Sign::Less => b"<",
        Sign::Slash => b"/",
        Sign::Star => b"*",
        Sign::Plus => b"+",
        Sign::Question => b"?",
        Sign::Bar => b"|",
        Sign::Dot => b".",
    }
}

fn soft_text(word: &Soft) -> &'static [u8]
    ensures { result.now ≡ soft_text word.now }
{
    match word {
        Soft::StringWord => b"string",
        Soft::BoolWord => b"bool",
        Soft::IntWord => b"int",
        Soft::ChildWord => b"child",
        Soft::AnyWord => b"any",
    }
}
