//! What the tables of cases share: the lines of their sources, the changes of a source, and why a run of them stops.
#![tactic(auto)]

pub mod edits;
pub mod lines;
pub mod stops;

pub use edits::Edit;
pub use lines::add_line;
pub use stops::TableError;
