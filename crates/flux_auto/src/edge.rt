// How a state goes on.
use flux_atom::{AtomKind, Name};

/// A tree that a forest may begin with, and the states of what follows. A state is a number below
/// `Auto::states`.
#[derive(Clone, Copy, Debug)]
pub enum Edge {
    /// An atom of the kind, and the state of the trees after it.
    Atom(AtomKind, u64),
    /// An element with the label, the state of its content and that of the trees after it.
    Elem(Name, u64, u64),
    /// An element of any label, the state of its content and that of the trees after it.
    AnyElem(u64, u64),
}
