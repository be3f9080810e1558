// Why a run is refused.

use std::alloc::AllocError;

/// Why a statement wasn't carried out.
#[derive(Debug, Drop)]
pub enum RunFault {
    /// More calls inside one another are needed than there are to go. The place is where the first
    /// call begins in the script for which none is left.
    TooDeep { place: u32 },
    Memory(AllocError),
}

impl From<AllocError> for RunFault {
    ghost use Rattle.std.specs.Prelude.{◌≡◌};
    ghost use Rattle.flux_run.specs.declared.fault.RunFault.TheVariants.{Memory};

    ghost from_gives = { λ error fault. fault ≡ Memory error };

    fn from(error: AllocError) -> RunFault {
        RunFault::Memory(error)
    }
}
