//! The reading of documents: from bytes to a checked project, or the first failure on the way.
#![tactic(auto)]

mod changes;
mod document;
mod entry;
mod fault;
mod formula;
pub mod laws;
mod numbers;
mod op;
mod outline;
mod parts;
mod project;
#[cfg(test)]
mod tests;
mod want;

pub use document::{Document, read};
pub use entry::Entry;
pub use fault::ReadFault;
pub use want::Want;
