// Moments of a document that is changed.

/// A moment of a document: how many changes there have been since the last commit.
#[derive(Clone, Copy, Debug, PartialEq, Eq)]
pub struct Mark {
    pub changes: u64,
}
