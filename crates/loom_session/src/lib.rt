//! A project that is edited and planned again and again, with what is kept from one plan to the
//! next.
#![tactic(auto)]

mod forgetting;
mod session;

pub use session::Session;
