// The tokens of a script's bytes.
ghost use Rattle.std.specs.Prelude.{◌≡◌, ◌-◌, ◌^◌, ◌<◌, length, IfOk, IfErr};
ghost use Rattle.flux_grammar.specs.Tokens.{AreTokens};
ghost use Rattle.flux_lex.specs.Fault.{IsLexFault};
ghost use Rattle.flux_lex.specs.declared.read.LexFault.TheVariants.{Bad};

use crate::Tokens;
use crate::state::{Move, State, begin, end, step};
use std::alloc::{AllocError, Global};

/// Why bytes give no tokens.
#[derive(Debug, Drop)]
pub enum LexFault {
    /// The bytes are no list of tokens. The place is the length of their longest beginning that
    /// more bytes could make one.
    Bad { place: u32 },
    /// There is not enough memory, whatever the bytes are.
    Memory(AllocError),
}

impl From<AllocError> for LexFault {
    ghost use Rattle.flux_lex.specs.declared.read.LexFault.TheVariants.{Memory};

    ghost from_gives = { λ error fault. fault ≡ Memory error };

    fn from(error: AllocError) -> LexFault {
        LexFault::Memory(error)
    }
}

/// The tokens of a script. Each byte is looked at once.
pub fn lex(alloc: Global, bytes: &[u8]) -> Result<Tokens, LexFault>
    requires { length bytes.now < 2 ^ 32 - 1 }
    ensures ok { IfOk result (AreTokens bytes.now) }
    ensures fault { IfErr result (IsLexFault bytes.now) }
{
    let mut tokens = Tokens::new(alloc);
    let mut state = State::Blank;
    let mut from = 0;
    for (place, byte) in bytes.iter().enumerate() {
        match step(state, &bytes[from..place], *byte)? {
            Move::On(next) => state = next,
            Move::Ends(kind) => {
                tokens.tell(kind, from, place)?;
                let Some(next) = begin(alloc, *byte) else {
                    return Err(bad(place));
                };
                from = place;
                state = next;
            }
            Move::Stuck => return Err(bad(place)),
        }
    }
    let Move::Ends(kind) = end(state) else {
        return Err(bad(bytes.len()));
    };
    tokens.tell(kind, from, bytes.len())?;
    Ok(tokens)
}

fn bad(place: usize) -> LexFault
    requires { place < 2 ^ 32 }
    ensures { result ≡ Bad place }
{
    LexFault::Bad {
        place: place as u32,
    }
}
