//! Answers as JSON: what is printed of a plan, of the project that it is for, of the reports of
//! design rules and of what became of edits, of what is wrong with a project, and of why a project
//! has no plan.
#![tactic(auto)]

mod fault_answer;
mod laws;
mod named_stop;
mod number_forms;
mod outcome;
mod outcome_answer;
#[cfg(test)]
mod outcome_tests;
mod plan_answer;
mod plan_forms;
#[cfg(test)]
mod plan_tests;
mod plans;
mod projects;
mod reports;
mod row_forms;
mod stop_answer;
#[cfg(test)]
mod stop_tests;
mod table_forms;
#[cfg(test)]
mod tests;
mod values;
mod wire_forms;
mod wires;

pub use fault_answer::{limit, project_fault};
pub use laws::plans_are_read_back;
pub use named_stop::{NamedStop, named};
pub use outcome::Outcome;
pub use outcome_answer::{edit_fault, object};
pub use plan_answer::answer;
pub use plan_forms::{PlanForm, parse_plan};
pub use stop_answer::stop_value;
pub use wires::wire_value;
