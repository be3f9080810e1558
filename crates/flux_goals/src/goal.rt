// Goals: that a state takes only what one of a list of states takes.
ghost use Rattle.std.specs.Prelude.{◌≡◌, IfOk};

use flux_atom::Name;
use std::alloc::{AllocError, Global};

// Whether each forest that the left state takes is taken by one of the right ones, which rise.
#[derive(PartialEq, Eq, Hash, Drop)]
pub(crate) struct Goal {
    pub(crate) left: u64,
    pub(crate) right: Vec<u64>,
}

// A way on by an element: the state of the content and that of the trees after it.
#[derive(Clone, Copy, Debug)]
pub(crate) struct Way {
    pub(crate) content: u64,
    pub(crate) rest: u64,
}

// An element that the left state of a goal goes by: its label, the state of its content, that of
// the trees after it, and the ways on by its label that the right states have.
#[derive(Drop)]
pub(crate) struct Element {
    pub(crate) label: Name,
    pub(crate) content: u64,
    pub(crate) rest: u64,
    pub(crate) ways: Vec<Way>,
}

pub(crate) fn copy_of(alloc: Global, set: &[u64]) -> Result<Vec<u64>, AllocError>
    ensures { IfOk result (λ copied. copied.items ≡ set.now) }
{
    let mut copied = Vec::new(alloc);
    copied.extend_from_slice(set)?;
    Ok(copied)
}
