//! The top call: words, a folder and two sinks in, a status out.
#![tactic(auto)]

mod delete;
mod laws;
mod refusal;
mod run;
mod script;
mod status;
mod words;

pub use laws::answer_is_unique;
pub use run::flux;
pub use status::Status;

#[cfg(test)]
mod normal_tests;
#[cfg(test)]
mod tests;
