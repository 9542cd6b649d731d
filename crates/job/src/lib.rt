// The job: its format, the definition of the questions put to it, and what is read from it. The crates
// `node_questions`, `value_questions` and `reader` ask the questions.
#![tactic(auto)]

pub mod nodes;
pub mod pairs;
pub mod pipes;
pub mod questions;
pub mod schedules;
pub mod tables;
pub mod trips;
pub mod values;
pub mod walk;
