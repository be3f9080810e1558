// Variables with a type of their own.

use flux_calculus::Var;
use flux_types::Ty;

/// A variable and its type.
#[derive(Debug, Drop)]
pub struct Param {
    pub var: Var,
    pub ty: Ty,
}
