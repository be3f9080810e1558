// Types that scripts declare.

use flux_types::Ty;

/// A type that a script declares for its results.
#[derive(Debug, Drop)]
pub struct Declared {
    pub ty: Ty,
    /// Where it begins in the script.
    pub at: u32,
}
