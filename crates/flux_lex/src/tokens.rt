// Lists of tokens.
ghost use Rattle.std.specs.Prelude.{◌≡◌, ◌<◌, ◌^◌, [], IfOk};
ghost use Rattle.flux_grammar.specs.TokenSteps.{told};

use flux_calculus::Span;
use flux_grammar::{Token, TokenKind};
use std::alloc::{AllocError, Global};
use std::marker::Model;

/// The tokens of a script, in the order of its text. Contracts see them as a list.
#[derive(Drop)]
pub struct Tokens {
    list: Vec<Token>,
}

impl Model for Tokens {
    ghost use Rattle.std.specs.Prelude.{List};
    ghost use Rattle.flux_grammar.specs.declared.token.Token.{Token};

    ghost Value = { List Token };

    ghost view = { λ t. t.list.items };
}

impl Tokens {
    pub(crate) fn new(alloc: Global) -> Tokens
        ensures { result ≡ [] }
    {
        Tokens {
            list: Vec::new(alloc),
        }
    }

    // Adds the token from one place to another, where what ended there is one.
    pub(crate) fn tell(
        &mut self,
        kind: Option<TokenKind>,
        from: usize,
        to: usize,
    ) -> Result<(), AllocError>
        requires from { from < 2 ^ 32 }
        requires to { to < 2 ^ 32 }
        ensures { IfOk result (λ _. self.new ≡ told kind self.old from to) }
    {
        if let Some(kind) = kind {
            self.list.push(Token {
                kind,
                span: Span {
                    from: from as u32,
                    to: to as u32,
                },
            })?;
        }
        Ok(())
    }

    /// The tokens one after the other.
    pub fn as_slice(&self) -> &[Token]
        ensures { result.now ≡ self.now }
    {
        &self.list
    }
}
