//! What an editor of a document is: a focus that is moved through the document and changed, with
//! all changes since the last commit to take back.
#![tactic(auto)]

mod editor;
mod look;

pub use editor::Editor;
pub use flux_forest::Mark;
pub use look::Look;
