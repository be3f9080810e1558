// What an editor shows of its focus.

use flux_atom::{AtomKind, Name};

/// What a run of trees is, if it is no more than one tree.
#[derive(Clone, Copy, Debug, PartialEq, Eq)]
pub enum Look {
    Nothing,
    Elem(Name),
    Atom(AtomKind),
    /// More than one tree.
    Many,
}
