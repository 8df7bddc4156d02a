//! JSON values: a document's value, its fields, and the one line that is printed.
#![tactic(auto)]

mod fields;
pub mod forms;
mod path;
pub mod shown;
#[cfg(test)]
mod tests;
mod text;

pub use fields::{elements, member, name, number, only};
pub use path::{Path, ShapeStop};
pub use text::{JsonStop, line, read_value};
