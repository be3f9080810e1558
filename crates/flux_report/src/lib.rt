//! What a person reads of a script that is refused: a line that names the fault and its place.
#![tactic(auto)]

mod core_text;
mod laws;
mod line;
mod position;
mod queries;
mod statements;

pub use core_text::write_core;
pub use flux_lex::LexFault;
pub use flux_normal::NormFault;
pub use flux_syntax::SynFault;
pub use laws::printed_types_read_back;
pub use line::{ScriptFault, script_line};
pub use position::line_and_column;

#[cfg(test)]
mod tests;
