//! The frames of jobs, and what an operation does before it is done to the state.
#![tactic(auto)]

pub mod activities;
pub mod effects;
pub mod frame_stacks;
pub mod frames;
pub mod locals;
pub mod open_areas;
pub mod operands;

pub use activities::Activity;
pub use effects::Effect;
pub use frame_stacks::FrameStack;
pub use frames::{Frame, NewFrame};
pub use locals::Locals;
pub use open_areas::OpenAreas;
pub use operands::Operands;
