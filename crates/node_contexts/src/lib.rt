//! The contexts of the nodes of a program: where each stands, what is known there, and the numbers of its variables.
#![tactic(auto)]

pub mod class_numbers;
pub mod contexts;
mod kinds;
mod members;
pub mod numbers;
mod packed;
mod rows;

pub use contexts::Contexts;
pub use members::is_static_member;
