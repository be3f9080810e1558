//! An editor of plain documents: a gap buffer of nodes with a focus in it, and the whole document
//! before each change.
#![tactic(auto)]

mod earlier;
mod label;
mod look;
mod next;
mod plain;
mod runs;
mod step;
mod zipper;

pub use plain::PlainEditor;

#[cfg(test)]
mod tests;
