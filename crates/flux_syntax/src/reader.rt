// Where a reader stands among the pieces of a script, and its steps over one of them.
ghost use Rattle.std.specs.Prelude.{◌≡◌, ◌↔◌, ◌≤◌, ◌<◌, Some, None, length, IsTrue, IsSome};
ghost use Rattle.flux_grammar.specs.declared.lexeme.Lexeme.TheVariants.{Reserved, Sign as Signed, Var, Word, Quoted, Soft as Softly, Literal};
ghost use Rattle.flux_grammar.specs.States.{State, state, head, Takes};
ghost use Rattle.flux_syntax.specs.At.{at, next_word, next_quoted, next_soft, next_var, next_literal};
ghost use Rattle.flux_syntax.specs.Parses.{Took, piece};

use crate::lexemes::{is_keyword, is_sign, quoted, soft, variable, word};
use flux_atom::{Atom, Name};
use flux_calculus::Span;
use flux_grammar::{Keyword, Lexeme, Piece, Sign, Soft};
use std::alloc::{AllocError, Global};

/// How many statements, items of queries and types may stand around one.
pub(crate) const LIMIT: u32 = 200;

/// Why no tree was read.
#[derive(Debug, Drop)]
pub(crate) enum Fault {
    /// The next piece doesn't fit.
    Unfit,
    Memory(AllocError),
}

impl From<AllocError> for Fault {
    ghost use Rattle.flux_syntax.specs.declared.reader.Fault.TheVariants.{Memory};

    ghost from_gives = { λ error fault. fault ≡ Memory error };

    fn from(error: AllocError) -> Fault {
        Fault::Memory(error)
    }
}

/// A reader of pieces.
#[derive(Drop)]
pub(crate) struct Reader<'a> {
    pub(crate) alloc: Global,
    pub(crate) left: &'a [Piece],
    /// The end of the piece that was taken last.
    pub(crate) end: u32,
}

impl<'a> Reader<'a> {
    /// Whether the next piece is this sign.
    pub(crate) fn is_at(&self, sign: Sign) -> bool
        ensures here { IsTrue result ↔ (head (at self.now) ≡ Some (Signed sign)) }
        ensures more { IsTrue result → 0 < length self.now.left.now }
    {
        match self.left {
            [] => false,
            [next, ..] => is_sign(&next.lexeme, sign),
        }
    }

    /// Whether the next piece is this reserved word.
    pub(crate) fn is_at_word(&self, keyword: Keyword) -> bool
        ensures here { IsTrue result ↔ (head (at self.now) ≡ Some (Reserved keyword)) }
        ensures more { IsTrue result → 0 < length self.now.left.now }
    {
        match self.left {
            [] => false,
            [next, ..] => is_keyword(&next.lexeme, keyword),
        }
    }

    /// The name, where the next piece is a word.
    pub(crate) fn word(&self) -> Option<Name>
        ensures name { result ≡ next_word (head (at self.now)) }
        ensures more { IsSome result → 0 < length self.now.left.now }
    {
        match self.left {
            [] => None,
            [next, ..] => word(&next.lexeme),
        }
    }

    /// The name, where the next piece is a quoted label.
    pub(crate) fn quoted(&self) -> Option<Name>
        ensures name { result ≡ next_quoted (head (at self.now)) }
        ensures more { IsSome result → 0 < length self.now.left.now }
    {
        match self.left {
            [] => None,
            [next, ..] => quoted(&next.lexeme),
        }
    }

    /// The word and its name, where the next piece is one of the soft words.
    pub(crate) fn soft(&self) -> Option<(Soft, Name)>
        ensures name { result ≡ next_soft (head (at self.now)) }
        ensures more { IsSome result → 0 < length self.now.left.now }
    {
        match self.left {
            [] => None,
            [next, ..] => soft(&next.lexeme),
        }
    }

    /// The name, where the next piece is a variable.
    pub(crate) fn variable(&self) -> Option<Name>
        ensures name { result ≡ next_var (head (at self.now)) }
        ensures more { IsSome result → 0 < length self.now.left.now }
    {
        match self.left {
            [] => None,
            [next, ..] => variable(&next.lexeme),
        }
    }

    /// Takes the next piece, and answers where it stood.
    pub(crate) fn advance(&mut self) -> Span
        requires { 0 < length self.old.left.now }
        ensures took { (l : Lexeme) → head (at self.old) ≡ Some l →
            Takes l (at self.old) (piece l result) (at self.new) }
        ensures shorter { length self.new.left.now < length self.old.left.now }
    {
        let span = self.left[0].span;
        self.left = &self.left[1..];
        self.end = span.to;
        span
    }

    /// Takes the next piece, if it is this sign.
    pub(crate) fn take(&mut self, sign: Sign) -> Result<Span, Fault>
        ensures took { Took (Signed sign) (at self.old) (at self.new) result }
        ensures shorter { length self.new.left.now ≤ length self.old.left.now }
    {
        if self.is_at(sign) {
            Ok(self.advance())
        } else {
            Err(Fault::Unfit)
        }
    }

    /// Takes the next piece, if it is this reserved word.
    pub(crate) fn take_word(&mut self, keyword: Keyword) -> Result<Span, Fault>
        ensures took { Took (Reserved keyword) (at self.old) (at self.new) result }
        ensures shorter { length self.new.left.now ≤ length self.old.left.now }
    {
        if self.is_at_word(keyword) {
            Ok(self.advance())
        } else {
            Err(Fault::Unfit)
        }
    }
}
