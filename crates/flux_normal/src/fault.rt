// What can be wrong with a script that is read.

use std::alloc::AllocError;

/// The first fault of a script, in the order of these kinds and, within a kind, of the text. A
/// place is where the text begins that is at fault, in bytes from the start of the script.
#[derive(Debug, Drop)]
pub enum NormFault {
    /// A type, a procedure or a parameter has the name of an earlier one: the later name.
    Duplicate { place: u32 },
    /// A name of a type has no definition.
    UnknownType { place: u32 },
    /// A written type has more than 65,536 nodes or more than 500 levels.
    BigType { place: u32 },
    /// A type reaches itself without passing an element: the name that is defined.
    Unguarded { place: u32 },
    /// A CALL names no procedure.
    UnknownProc { place: u32 },
    /// A CALL has another number of arguments than its procedure has parameters.
    Arity { place: u32 },
    /// A node of the normal form lies under 200 others.
    TooNested { place: u32 },
    /// No memory, or more variables or names than 32 bits can number.
    Memory(AllocError),
}

impl From<AllocError> for NormFault {
    ghost use Rattle.std.specs.Prelude.{◌≡◌};
    ghost use Rattle.flux_normal.specs.declared.fault.NormFault.TheVariants.{Memory};

    ghost from_gives = { λ error fault. fault ≡ Memory error };

    fn from(error: AllocError) -> NormFault {
        NormFault::Memory(error)
    }
}
