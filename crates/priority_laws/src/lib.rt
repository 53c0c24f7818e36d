//! Ceilings and nesting, under the machine's own choice: areas are closed in the order of a stack; and where a program
//! enters its monitors and writes over no priority, monitors exclude one another and at most 28 releases are started.
#![tactic(auto)]

pub mod laws;
