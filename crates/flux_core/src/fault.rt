// What can be wrong with the types of queries and statements.

use flux_forest::Forest;
use std::alloc::AllocError;

/// The first fault that typing meets. A place is where the text begins that is at fault, in bytes
/// from the start of the script. A shown forest is whole: it is a member of the type that was
/// found, and not of the type that was wanted. Each of its labels is the decider's `other`, or
/// stands in a definition or in one of the two types.
#[derive(Drop)]
pub enum KindFault {
    /// The variable isn't bound.
    UnknownVar { place: u32 },
    /// The type isn't one of a single tree.
    NotSingle { place: u32 },
    /// The type of a single tree is that of an atom.
    NotElement { place: u32 },
    /// A focus isn't empty where trees are inserted.
    NotEmpty { place: u32, shown: Forest },
    /// A condition isn't a truth value.
    NotBool { place: u32, shown: Forest },
    /// A side of a comparison isn't a number.
    NotInt { place: u32, shown: Forest },
    /// An argument isn't of the type of its parameter.
    BadArgument { place: u32, shown: Forest },
    /// A focus isn't of the type that a procedure is declared at.
    BadFocus { place: u32, shown: Forest },
    /// A procedure's body doesn't give what is declared.
    BadBody { place: u32, shown: Forest },
    /// A script doesn't give what it declares.
    BadOutput { place: u32, shown: Forest },
    /// A derived type has more than 65,536 nodes or more than 500 levels.
    TypeTooLarge { place: u32 },
    Memory(AllocError),
}

impl From<AllocError> for KindFault {
    ghost use Rattle.std.specs.Prelude.{◌≡◌};
    ghost use Rattle.flux_core.specs.declared.fault.KindFault.TheVariants.{Memory};

    ghost from_gives = { λ error fault. fault ≡ Memory error };

    fn from(error: AllocError) -> KindFault {
        KindFault::Memory(error)
    }
}
