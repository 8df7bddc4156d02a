//! Live sets with their tables and layouts, and what of these is kept from one plan to the next.
#![tactic(auto)]

mod class_topology;
mod kept;
mod key;
mod laid_set;
mod laws;
mod laying;
mod stop;
mod tables;
#[cfg(test)]
mod tests;

pub use kept::Kept;
pub use laid_set::{Laid, LaidSet};
pub use laws::kept_stays_true;
pub use laying::lay_sets;
pub use stop::LaidStop;
