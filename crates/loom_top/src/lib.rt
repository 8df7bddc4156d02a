//! The one call that is all the program does: from words and bytes to bytes and a status.
#![tactic(auto)]

mod document_reply;
mod entries;
mod job;
mod plan_reply;
mod price;
mod program;
mod refusal;
mod reply;
mod status;
mod stop_names;
mod summary;
#[cfg(test)]
mod tests;
mod trial_reply;
mod variant;
mod variant_reply;
mod verdict;
mod verdict_reply;

pub use program::run;
pub use status::Status;
