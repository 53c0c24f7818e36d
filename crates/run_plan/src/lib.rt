//! Plans of runs: the text of a plan, read and printed, and what a run asks of a plan.
#![tactic(auto)]

pub mod answers;
mod fires_by_unit;
pub mod migration;
pub mod plan_texts;
pub mod plans;
pub mod port_readings;
mod rows;
pub mod values;

pub use answers::{KeyText, PlanError};
pub use migration::{law_migrate, migrate};
pub use plan_texts::read_plan;
pub use plans::Plan;
pub use port_readings::Readings;
pub use scj_model::{Fire, FireFrom, ReadingRow};
