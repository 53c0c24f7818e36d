//! The operations that make objects, call, and ask the framework, and all operations together: each does to a frame
//! what the definition of the operation says, and tells the effect.
#![tactic(auto, unfolding(job_frames::specs::EffectsSeen::effect_seen))]

mod all_operations;
mod areas;
mod asked;
mod calls;
mod constructors;
mod nodes;
mod numbers;
mod objects;
mod parameters;
mod params;
mod services;

pub use all_operations::{World, operate};
pub use nodes::node_of;
