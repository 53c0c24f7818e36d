//! The rules on annotations: where `@Scope` and `@RunsIn` may stand, and what they may say.
#![tactic(auto)]

mod checks;
mod overrides;
mod things;

pub use checks::note_annotation;
