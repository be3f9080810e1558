// The forest that a text spells.
ghost use Rattle.std.specs.Prelude.{◌≡◌, ◌+◌, ◌-◌, ◌^◌, ◌<◌, ◌≤◌, ℕ, List, ◌++◌, length, IfOk, IfErr};
ghost use Rattle.flux_atom.specs.Names.{IsTable};
ghost use Rattle.flux_trees.specs.Hedge.{Plain};
ghost use Rattle.flux_trees.specs.Draft.{done};
ghost use Rattle.flux_doctext.specs.Documents.{IsDocFault, IsDocument};

use crate::reader::{State, end, pass_plain, step};
use flux_atom::Names;
use flux_forest::Forest;
use std::alloc::{AllocError, Global};

/// Why a text gives no forest.
#[derive(Debug, Drop)]
pub enum DocFault {
    /// The bytes spell no forest. The place is the length of their longest beginning that more
    /// bytes could make spell one.
    Text { place: u32 },
    /// There is not enough memory, whatever the bytes are.
    Memory(AllocError),
}

impl From<AllocError> for DocFault {
    ghost use Rattle.flux_doctext.specs.declared.read.DocFault.TheVariants.{Memory};

    ghost from_gives = { λ error fault. fault ≡ Memory error };

    fn from(error: AllocError) -> DocFault {
        DocFault::Memory(error)
    }
}

/// The forest that the bytes spell. The table learns the labels in the order of the text; of a
/// text that is refused it may hold some, behind the names that it held.
pub fn read_document(alloc: Global, bytes: &[u8], names: &mut Names) -> Result<Forest, DocFault>
    requires { length names.old + length bytes.now < 2 ^ 32 - 1 }
    ensures ok { IfOk result (λ forest. (v : Plain)
        × (forest ≡ done v) × IsDocument names.old names.new bytes.now v) }
    ensures fault { IfErr result (IsDocFault bytes.now) }
    ensures grown { (more : List (List ℕ)) × (names.new ≡ names.old ++ more) }
    ensures room { length names.new ≤ length names.old + length bytes.now }
    ensures table { IsTable names.new }
{
    // Each label that is learnt takes a byte.
    let held = names.len();
    prove!(bytes.len() < u32::MAX as usize - held);
    let mut forest = Forest::new(alloc);
    let mut state = State::Content;
    let mut place = 0;
    'bytes: while place < bytes.len() {
        let Some(next) = step(alloc, state, bytes[place], names, &mut forest)? else {
            return Err(DocFault::Text {
                place: place as u32,
            });
        };
        state = next;
        place += 1;
        place += pass_plain(&mut state, &bytes[place..])?;
    }
    if end(state, &mut forest)? {
        Ok(forest)
    } else {
        Err(DocFault::Text {
            place: bytes.len() as u32,
        })
    }
}

#[cfg(test)]
mod tests;
