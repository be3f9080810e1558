//! What the typing of the core language stands on: variables with their types, what can be wrong,
//! types that are concluded, and walks over types.
#![tactic(auto)]

mod binding;
mod conclude;
mod declared;
mod fault;
mod gamma;
mod measured;
mod normal;
mod param;
mod procs;
mod statement;
#[cfg(test)]
mod tests;
mod walk;

pub use conclude::{any_one, either, in_sequence, nothing, one_atom, one_element, repeated};
pub use declared::Declared;
pub use fault::KindFault;
pub use gamma::Gamma;
pub use measured::{Measured, copied, measure, own};
pub use normal::Normal;
pub use param::Param;
pub use procs::{Proc, Procs};
pub use statement::Core;
pub use walk::{Turn, Walk};
